// Pages that note the steps that synchronise.
ghost use Rattle.std.specs.Prelude.{None};

use cow_pages::Pages;
use dp_base::{Access, AmoOp, Mem, OutOfMemory, Width};
use std::alloc::Global;
use sync_hints::Sc;

// Pages, and the steps that synchronised on them, each with its ticket.
#[derive(Drop)]
pub(crate) struct NotedPages {
    pub(crate) pages: Pages,
    pub(crate) entries: Vec<(u64, Sc)>,
    // The next ticket.
    pub(crate) tickets: u64,
    // Whether an entry is missing, since an allocation failed.
    pub(crate) is_out_of_memory: bool,
}

impl NotedPages {
    // Has no pages.
    pub(crate) fn new(alloc: Global) -> Result<NotedPages, OutOfMemory> {
        Ok(NotedPages {
            pages: Pages::new(alloc)?,
            entries: Vec::new(alloc),
            tickets: 0,
            is_out_of_memory: false,
        })
    }

    fn note(&mut self, sc: Sc) {
        let ticket = self.tickets;
        self.tickets = ticket.saturating_add(1);
        if self.entries.push((ticket, sc)).is_err() {
            self.is_out_of_memory = true;
        }
    }
}

impl Mem for NotedPages {
    ghost memory = { λ _. None };

    ghost contention = { λ _. record { busy = 0; lost = 0 } };

    #[inline(always)]
    fn fetch(&mut self, address: u32) -> Access<u32> {
        self.pages.fetch(address)
    }

    #[inline(always)]
    fn load(&mut self, address: u32, width: Width) -> Access<u32> {
        self.pages.load(address, width)
    }

    #[inline(always)]
    fn store(&mut self, address: u32, width: Width, value: u32) -> Result<Access<()>, OutOfMemory> {
        self.pages.store(address, width, value)
    }

    fn amo(&mut self, address: u32, op: AmoOp, value: u32) -> Result<Access<u32>, OutOfMemory> {
        let answer = self.pages.amo(address, op, value)?;
        if matches!(answer, Access::Done(_)) {
            self.note(Sc::NotSc);
        }
        Ok(answer)
    }

    fn load_reserved(&mut self, address: u32) -> Access<u32> {
        let answer = self.pages.load_reserved(address);
        if matches!(answer, Access::Done(_)) {
            self.note(Sc::NotSc);
        }
        answer
    }

    fn store_conditional(&mut self, address: u32, value: u32) -> Result<Access<bool>, OutOfMemory> {
        let answer = self.pages.store_conditional(address, value)?;
        if matches!(answer, Access::Done(_)) {
            self.note(Sc::Won);
        }
        Ok(answer)
    }

    // An SC without a reservation asks this. It is lost.
    fn can_store(&mut self, address: u32) -> Access<()> {
        let answer = self.pages.can_store(address);
        if matches!(answer, Access::Done(_)) {
            self.note(Sc::Lost);
        }
        answer
    }
}
