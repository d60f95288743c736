use crate::Bytes;

/// What the outside answered to a guest's call.
#[derive(Debug, Drop)]
pub enum Answer {
    /// The bytes that a read took, at most 4,096. None: the input has ended.
    Read(Bytes),
    /// A reading of the clock, in nanoseconds.
    Clock(u64),
}
