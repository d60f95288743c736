use crate::hart::Hart;

/// One thread of a guest.
#[derive(Clone, Copy, Debug, PartialEq, Eq)]
pub enum Thread {
    /// It runs. When it exits, the word at its clear-on-exit address is cleared, if the address isn't 0 and is a
    /// multiple of 4, and the word may be written.
    Runs { hart: Hart, clear: u32 },
    /// It waits for a wake at an address.
    Waits { addr: u32, hart: Hart, clear: u32 },
    /// It has exited with a code.
    Gone(u32),
}
