use dp_base::Bytes;
use journal_text::Frame;

/// An epoch that is ready to be committed: its record's frame, and its output.
#[derive(Drop)]
pub struct Ready {
    pub frame: Frame,
    pub out: Bytes,
}
