// Who stops, and who looks.
use crate::rule::View;
use atomic_table::Seat;

/// Sets a stop word. There is one.
#[derive(Drop)]
pub struct Stopper {
    pub(crate) seat: Seat<u8, View>,
}

/// Looks at a stop word.
#[derive(Drop)]
pub struct Watcher {
    pub(crate) seat: Seat<u8, View>,
}
