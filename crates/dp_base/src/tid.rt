/// The number of a guest's thread. Threads are numbered from 1 in the order in which they are made; no thread
/// has number 0.
#[derive(Clone, Copy, Debug, PartialEq, Eq)]
pub struct Tid(pub u16);
