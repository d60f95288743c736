use guest_kernel::State;
use journal_text::Frame;

/// A mark that is due: its record's frame, and the state that it is of, which is the base of the next mark.
#[derive(Drop)]
pub(crate) struct DueMark {
    pub frame: Frame,
    pub state: State,
}
