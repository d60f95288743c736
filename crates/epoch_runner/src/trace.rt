// What an epoch has written and taken so far.
ghost use Rattle.std.specs.Prelude.{◌≡◌, [], ◌∷◌, length};
ghost use Rattle.guest_kernel.specs.Answers.{bytes_read};

use dp_base::{Answer, OutOfMemory};
use std::alloc::Global;
use syscall_log::AnswerLog;

// The bytes that an epoch has written, and the answers that it has taken.
#[derive(Drop)]
pub(crate) struct Trace {
    pub(crate) out: Vec<u8>,
    pub(crate) answers: AnswerLog,
    // How many bytes its reads took.
    pub(crate) read: usize,
    ghost counted: { read ≡ length (bytes_read answers) },
}

impl Trace {
    ghost use Rattle.std.specs.Prelude.{◌++◌, ◌<◌, OnOk};
    ghost use Rattle.std.specs.List.{AllByRecursion};
    ghost use Rattle.std.specs.Option.{option_to_list};
    ghost use Rattle.dp_base.specs.declared.limits.TheConstants.{EPOCH_END_BYTES};
    ghost use Rattle.dp_base.specs.Journal.{IsAnswer};
    ghost use Rattle.epoch_runner.specs.Trace.{traced};

    // Nothing written, and nothing taken.
    pub(crate) fn new(alloc: Global) -> Self
        ensures { traced result ≡ record { output = []; answers = [] } }
    {
        Trace {
            out: Vec::new(alloc),
            answers: AnswerLog::new(alloc),
            read: 0,
        }
    }

    // Appends the answer that a turn took, if it took one.
    pub(crate) fn put(&mut self, answer: Option<Answer>) -> Result<(), OutOfMemory>
        requires is_answer { AllByRecursion IsAnswer (option_to_list answer) }
        requires little { length (bytes_read self.old.answers) < EPOCH_END_BYTES }
        ensures { OnOk result (traced self.new ≡ record (traced self.old) { answers = self.old.answers ++ option_to_list answer }) }
    {
        let Some(answer) = answer else {
            return Ok(());
        };
        let read = self.read + bytes_of(&answer);
        self.answers.put(answer)?;
        self.read = read;
        Ok(())
    }
}

// How many bytes of the input an answer has.
fn bytes_of(answer: &Answer) -> usize
    ensures { result ≡ length (bytes_read (answer.now ∷ [])) }
{
    match answer {
        Answer::Read(bytes) => bytes.len(),
        Answer::Clock(_) => 0,
    }
}
