/// An answer in encoded bytes. The bytes of a read are borrowed, not copied.
#[derive(Clone, Copy, Debug, PartialEq, Eq)]
pub enum AnswerView<'a> {
    /// The bytes that a read took, at most 4,096. None: the input has ended.
    Read(&'a [u8]),
    /// A reading of the clock, in nanoseconds.
    Clock(u64),
}
