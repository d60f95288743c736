// A command, as its words say it.
use crate::text::Text;

/// What the words of a command line ask for.
#[derive(Debug, Drop)]
pub enum Command {
    /// Record a guest.
    Record {
        /// The name of the guest's file.
        guest: Text,
        /// The name of the journal's file.
        journal: Text,
        /// How many workers, 1 to 64.
        workers: u32,
        /// Steps of an epoch at most, 1 to 1,000,000.
        epoch: u32,
        /// Steps of a slice at most, 1 to 100,000.
        slice: u32,
        /// Epochs of a round at most, 1 to 64.
        ahead: u32,
        /// Epochs from one mark to the next, up to 1,000; 0 for no marks.
        mark: u32,
        /// Steps of the recording at most, 1 to 10^12.
        limit: u64,
    },
    /// Replay a journal.
    Replay {
        /// The name of the journal's file.
        journal: Text,
        /// How many workers, 1 to 64.
        workers: u32,
    },
    /// List the records of a journal.
    Inspect {
        /// The name of the journal's file.
        journal: Text,
    },
    /// Record and replay a made guest.
    Selftest {
        /// The guest's number.
        n: u32,
    },
}
