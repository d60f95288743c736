// A racing memory that notes its AMOs.
ghost use Rattle.std.specs.Prelude.{◌≡◌, None};

use dp_base::{Access, AmoOp, Mem, OutOfMemory, Width};
use std::alloc::Global;

// An AMO: its entry in the log, what it found at an address, and what it stored there.
#[derive(Clone, Copy)]
pub(crate) struct NotedAmo {
    pub(crate) entry: usize,
    pub(crate) address: u32,
    pub(crate) found: u32,
    pub(crate) stored: u32,
}

// A memory, and what its AMOs did.
#[derive(Drop)]
pub(crate) struct NotedWords<M> {
    pub(crate) memory: M,
    pub(crate) amos: Vec<NotedAmo>,
    // How many entries the log has.
    pub(crate) entries: usize,
    // Whether a note is missing, since an allocation failed.
    pub(crate) is_out_of_memory: bool,
}

impl<M> NotedWords<M> {
    pub(crate) fn new(alloc: Global, memory: M) -> NotedWords<M>
        ensures { result.memory ≡ memory }
    {
        NotedWords {
            memory,
            amos: Vec::new(alloc),
            entries: 0,
            is_out_of_memory: false,
        }
    }

    fn count<T>(&mut self, answer: &Access<T>)
        ensures { self.new.memory ≡ self.old.memory }
    {
        if matches!(answer, Access::Done(_)) {
            self.entries = self.entries.saturating_add(1);
        }
    }
}

impl<M: Mem> Mem for NotedWords<M> {
    ghost memory = { λ _. None };

    ghost contention = { λ words. M.contention words.memory };

    #[inline(always)]
    fn fetch(&mut self, address: u32) -> Access<u32> {
        self.memory.fetch(address)
    }

    #[inline(always)]
    fn load(&mut self, address: u32, width: Width) -> Access<u32> {
        self.memory.load(address, width)
    }

    #[inline(always)]
    fn store(&mut self, address: u32, width: Width, value: u32) -> Result<Access<()>, OutOfMemory> {
        self.memory.store(address, width, value)
    }

    fn amo(&mut self, address: u32, op: AmoOp, value: u32) -> Result<Access<u32>, OutOfMemory> {
        let answer = self.memory.amo(address, op, value)?;
        if let Access::Done(found) = answer {
            let amo = NotedAmo {
                entry: self.entries,
                address,
                found,
                stored: op.result(found, value),
            };
            if self.amos.push(amo).is_err() {
                self.is_out_of_memory = true;
            }
        }
        self.count(&answer);
        Ok(answer)
    }

    fn load_reserved(&mut self, address: u32) -> Access<u32> {
        let answer = self.memory.load_reserved(address);
        self.count(&answer);
        answer
    }

    fn store_conditional(&mut self, address: u32, value: u32) -> Result<Access<bool>, OutOfMemory> {
        let answer = self.memory.store_conditional(address, value)?;
        self.count(&answer);
        Ok(answer)
    }

    fn can_store(&mut self, address: u32) -> Access<()> {
        let answer = self.memory.can_store(address);
        self.count(&answer);
        answer
    }
}
