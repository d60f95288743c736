use guest_state::End;

/// What a run came to.
#[derive(Clone, Copy, Debug, PartialEq, Eq)]
pub struct Report {
    /// How many epochs the journal has.
    pub epochs: u32,
    /// How many epochs were run and not committed, since they didn't start where the one before ended: none in a
    /// replay.
    pub squashes: u32,
    /// How many steps the guest took.
    pub steps: u64,
    /// How many bytes were sent on Out.
    pub sent: u64,
    /// How the guest ended, or that it hasn't.
    pub end: End,
    /// The digest of the state in which the guest stopped.
    pub state: [u8; 32],
}
