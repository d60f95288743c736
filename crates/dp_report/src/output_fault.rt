/// An emit failed: any prefix of what was to be said may have been sent.
#[derive(Clone, Copy, Debug, PartialEq, Eq)]
pub struct OutputFault;
