//! Laws of the encodings, over all values and all bytes.

ghost use Rattle.guest_state.specs.Checkpoint.{Checkpoint, IsEnd, IsThread, IsPageContent, IsCheckpoint, end_bytes, end_from, thread_bytes, thread_from, page_bytes, page_from, checkpoint_bytes, checkpoint_from};
ghost use Rattle.dp_base.specs.Encoding.{IsPrefixCode, IsWholeCode};

/// An end has one encoding.
pub fn ends()
    ensures { IsPrefixCode end_from end_bytes IsEnd }
{}

/// A thread that has no reservation has one encoding.
pub fn threads()
    ensures { IsPrefixCode thread_from thread_bytes IsThread }
{}

/// A page has one encoding.
pub fn pages()
    ensures { IsPrefixCode page_from page_bytes IsPageContent }
{}

/// A state has one encoding, and an encoding is of one state.
pub fn checkpoints()
    ensures { IsPrefixCode checkpoint_from checkpoint_bytes IsCheckpoint }
{}

/// Decoding all of the bytes, with none left: an encoding gives its state, and bytes that give a state are its
/// encoding.
pub fn whole_checkpoints()
    ensures { IsWholeCode checkpoint_from checkpoint_bytes IsCheckpoint }
{}
