ghost use Rattle.std.specs.Prelude.{◌≡◌};
ghost use Rattle.dp_report.specs.StatusNumber.{status_number};

/// What a command came to.
#[derive(Clone, Copy, Debug, PartialEq, Eq)]
pub enum Status {
    /// All was done.
    Ok,
    /// The words are no command.
    Usage,
    /// The guest's file can't be read.
    GuestFault,
    /// The guest's file is refused, with the fault's number.
    BadImage(u32),
    /// The guest's input can't be read.
    InputFault,
    /// A call on the disk failed.
    DiskFault,
    /// An emit failed.
    OutputFault,
    /// The journal's file has this many bytes already.
    JournalInUse(u64),
    /// The journal's record with this number is malformed.
    BadJournal(u32),
    /// The guest can't run as the journal's record with this number says.
    BadEpoch(u32),
    /// The guest took this many steps, as many as it may, and hasn't ended.
    StepLimit(u64),
    /// The next record ends past the journal's maximum length: the journal's end, and how many bytes are needed from
    /// there on.
    JournalFull { end: u64, need: u64 },
    /// An allocation failed.
    OutOfMemory,
    /// The file has no journal.
    NoJournal,
    /// The journal's record with this number is a mark of another state than the guest's.
    BadMark(u32),
}

impl Status {
    /// Returns the number with which the program ends.
    pub fn number(self) -> u8
        ensures { result ≡ status_number self }
    {
        match self {
            Status::Ok => 0,
            Status::Usage => 2,
            Status::GuestFault => 3,
            Status::BadImage(_) => 4,
            Status::InputFault => 5,
            Status::DiskFault => 6,
            Status::OutputFault => 7,
            Status::JournalInUse(_) => 8,
            Status::BadJournal(_) => 9,
            Status::BadEpoch(_) => 10,
            Status::StepLimit(_) => 11,
            Status::JournalFull { .. } => 12,
            Status::OutOfMemory => 13,
            Status::NoJournal => 14,
            Status::BadMark(_) => 15,
        }
    }
}
