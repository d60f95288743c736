// FNV-1a of a state's encoding.
use guest_kernel::{End, State, Thread};

const BASIS: u64 = 0xcbf2_9ce4_8422_2325;

const PRIME: u64 = 0x100_0000_01b3;

#[derive(Clone, Copy)]
pub(crate) struct Fnv {
    hash: u64,
}

impl Fnv {
    fn put(&mut self, bytes: &[u8]) {
        for byte in bytes {
            self.hash = (self.hash ^ u64::from(*byte)).wrapping_mul(PRIME);
        }
    }

    fn put_word(&mut self, word: u32) {
        self.put(&word.to_le_bytes());
    }

    fn put_end(&mut self, end: End) {
        match end {
            End::None => self.put(&[0]),
            End::Exit(code) => {
                self.put(&[1]);
                self.put_word(code);
            }
            End::Trap { tid, cause, value } => {
                self.put(&[2]);
                self.put(&tid.0.to_le_bytes());
                self.put(&[cause]);
                self.put_word(value);
            }
            End::Deadlock => self.put(&[3]),
        }
    }

    fn put_thread(&mut self, thread: Thread) {
        let (hart, clear) = match thread {
            Thread::Gone(code) => {
                self.put(&[2]);
                self.put_word(code);
                return;
            }
            Thread::Runs { hart, clear } => {
                self.put(&[0]);
                (hart, clear)
            }
            Thread::Waits { addr, hart, clear } => {
                self.put(&[1]);
                self.put_word(addr);
                (hart, clear)
            }
        };
        self.put_word(hart.pc);
        self.put_word(clear);
        for register in hart.x {
            self.put_word(register);
        }
    }

    // A number of threads or pages.
    fn put_count(&mut self, count: usize) {
        let count = count.min(u16::MAX as usize) as u16;
        self.put(&count.to_le_bytes());
    }
}

// The hash of a state's encoding (docs/JOURNAL.md), which is written out here anew.
pub(crate) fn hash_of(state: &State) -> u64 {
    let mut fnv = Fnv { hash: BASIS };
    fnv.put(&state.steps.to_le_bytes());
    fnv.put(&state.input.to_le_bytes());
    fnv.put_word(state.heap);
    fnv.put_word(state.brk);
    fnv.put_end(state.end);
    let threads = state.threads.as_slice();
    fnv.put_count(threads.len());
    for thread in threads {
        fnv.put_thread(*thread);
    }
    let count = state.pages.pages() as usize;
    fnv.put_count(count);
    for index in 0..count {
        if let Some(page) = state.pages.at(index) {
            fnv.put_word(page.number);
            fnv.put(&[page.flags]);
            fnv.put(page.bytes);
        }
    }
    fnv.hash
}
