// AMOs and their places.

/// The number of positions from one ticket of a pass to the next. At most one AMO of each of 64 threads that run has to
/// fit between two.
pub const PLACES: u64 = 64;

/// An AMO of a pass.
#[derive(Clone, Copy)]
pub struct Amo {
    /// Its thread: the index in the list of threads.
    pub thread: usize,
    /// Its entry: the index among the thread's steps that synchronise.
    pub entry: usize,
    /// The address of its word.
    pub address: u32,
    /// What it found in the word.
    pub found: u32,
    /// What it stored there.
    pub stored: u32,
    /// Its ticket, counted in places.
    pub ticket: u64,
    /// The ticket of its thread's next entry. If there is none, it is `u64::MAX`.
    pub next: u64,
}

/// An AMO with its place in the order.
#[derive(Clone, Copy)]
pub struct Placed {
    pub amo: Amo,
    pub place: u64,
}
