// The status of an answer.
ghost use Rattle.std.specs.Prelude.{◌≡◌};
ghost use Rattle.dp_top.specs.Answer.{status_of, status_of_inspection, status_of_replay, status_of_self_test};

use crate::self_test_fault::SelfTestFault;
use dp_report::{Report, Status};
use epoch_replay::{InspectFault, ReplayFault};
use recorder::RecordFault;

/// The status of a recording's answer.
pub(crate) fn status_of_answer(answer: Result<Report, RecordFault>) -> Status
    ensures { result ≡ status_of answer }
{
    match answer {
        Ok(_) => Status::Ok,
        Err(RecordFault::InputFault) => Status::InputFault,
        Err(RecordFault::DiskFault) => Status::DiskFault,
        Err(RecordFault::OutputFault) => Status::OutputFault,
        Err(RecordFault::JournalInUse(len)) => Status::JournalInUse(len),
        Err(RecordFault::StepLimit(steps)) => Status::StepLimit(steps),
        Err(RecordFault::JournalFull { end, need }) => Status::JournalFull { end, need },
        Err(RecordFault::OutOfMemory) => Status::OutOfMemory,
    }
}

/// The status of a replay's answer.
pub(crate) fn status_of_replayed(answer: Result<Report, ReplayFault>) -> Status
    ensures { result ≡ status_of_replay answer }
{
    match answer {
        Ok(_) => Status::Ok,
        Err(ReplayFault::NoJournal) => Status::NoJournal,
        Err(ReplayFault::BadImage(fault)) => Status::BadImage(fault),
        Err(ReplayFault::BadJournal(number)) => Status::BadJournal(number),
        Err(ReplayFault::BadEpoch(number)) => Status::BadEpoch(number),
        Err(ReplayFault::BadMark(number)) => Status::BadMark(number),
        Err(ReplayFault::DiskFault) => Status::DiskFault,
        Err(ReplayFault::OutputFault) => Status::OutputFault,
        Err(ReplayFault::OutOfMemory) => Status::OutOfMemory,
    }
}

/// The status of an inspection's answer.
pub(crate) fn status_of_inspected(answer: Result<(), InspectFault>) -> Status
    ensures { result ≡ status_of_inspection answer }
{
    match answer {
        Ok(()) => Status::Ok,
        Err(InspectFault::NoJournal) => Status::NoJournal,
        Err(InspectFault::BadJournal(number)) => Status::BadJournal(number),
        Err(InspectFault::DiskFault) => Status::DiskFault,
        Err(InspectFault::OutputFault) => Status::OutputFault,
        Err(InspectFault::OutOfMemory) => Status::OutOfMemory,
    }
}

/// The status of a self-test without a line.
pub(crate) fn status_of_self_test(fault: SelfTestFault) -> Status
    ensures { result ≡ status_of_self_test fault }
{
    match fault {
        SelfTestFault::StepLimit(steps) => Status::StepLimit(steps),
        SelfTestFault::JournalFull { end, need } => Status::JournalFull { end, need },
        SelfTestFault::OutOfMemory => Status::OutOfMemory,
        // What was read from the journal isn't what was written.
        SelfTestFault::Differs => Status::DiskFault,
    }
}
