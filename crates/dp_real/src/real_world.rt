// A journal's file, standard output and standard error.
ghost use Rattle.std.specs.Prelude.{◌≡◌, ◌≤◌, IsErr, OnErr, OnOk};
ghost use Rattle.dp_base.specs.Counts.{Rose};

use crate::fault_count::FaultCount;
use crate::journal_file::JournalFile;
use crate::refusal::{Refusal, tried};
use crate::transfer::{write_some, write_whole};
use disk_model::{Failed, Stream, World};
use std::io::{self, ErrorKind};

/// A file of the system as the disk, with standard output as Out and standard error as Note.
///
/// Before an attach that succeeds each call on the disk fails. An emit is one write. It fails if the stream is closed,
/// or if it takes nothing. If a stream would block, it waits.
#[derive(Drop)]
pub struct RealWorld {
    runtime: HostRuntime,
    journal: Option<JournalFile>,
    pub(crate) disk_faults: FaultCount,
    pub(crate) sink_faults: FaultCount,
}

impl RealWorld {
    /// Makes a world of the streams of this system, and no file yet.
    pub fn new(runtime: HostRuntime) -> RealWorld
        ensures no_fault { (result.disk_faults.faults ≡ 0) × (result.sink_faults.faults ≡ 0) }
    {
        RealWorld {
            runtime,
            journal: None,
            disk_faults: FaultCount::new(),
            sink_faults: FaultCount::new(),
        }
    }

    /// Returns what the system last refused of the disk.
    pub fn disk_refusal(&self) -> Option<Refusal>
        ensures { result ≡ self.now.disk_faults.last }
    {
        self.disk_faults.last
    }

    /// Returns what the system last refused of the streams.
    pub fn sink_refusal(&self) -> Option<Refusal>
        ensures { result ≡ self.now.sink_faults.last }
    {
        self.sink_faults.last
    }

    /// Sends all of the bytes.
    pub fn send(&mut self, to: Stream, bytes: &[u8]) -> Result<(), Failed>
        ensures cause { IsErr result → Rose self.old.sink_faults.faults self.new.sink_faults.faults }
        ensures count { self.old.sink_faults.faults ≤ self.new.sink_faults.faults }
        ensures disk { self.new.disk_faults ≡ self.old.disk_faults }
    {
        let sent = match to {
            Stream::Out => {
                let answer = write_whole(&self.runtime, &mut self.runtime.stdout(), bytes);
                tried("standard output: write", answer)
            }
            Stream::Note => {
                let answer = write_whole(&self.runtime, &mut self.runtime.stderr(), bytes);
                tried("standard error: write", answer)
            }
        };
        self.sink_faults.counted(sent)
    }
}

impl World for RealWorld {
    ghost use Rattle.std.specs.Prelude.{None};

    ghost history = { λ _. None };

    ghost disk_faults = { λ w. w.disk_faults.faults };

    ghost sink_faults = { λ w. w.sink_faults.faults };

    /// Opens the file with this path for reading and writing, or for reading alone if `make` is false and it can't be
    /// written: its writes, cuts and syncs may fail then. With `make` it is made if there is none, its length stays if
    /// there is one, and the file and the entry of its name in its folder are synced, so that an `Ok` finds both again
    /// after a crash. The folder's own name is not synced.
    ///
    /// The file is locked until this world is dropped or attaches again: with `make` against all other worlds, of other
    /// programs too, and without against those that attached with `make`.
    ///
    /// # Errors
    ///
    /// `Failed` if the path is of something else than a regular file, if the file can't be opened, if it is also
    /// standard output or standard error, if it can't be locked, and, with `make`, if the file or its folder can't be
    /// synced. A file that was made stays then, empty.
    fn attach(&mut self, name: &str, make: bool) -> Result<(), Failed> {
        self.journal = None;
        match JournalFile::open(&self.runtime, name, make) {
            Ok(journal) => {
                self.journal = Some(journal);
                Ok(())
            }
            Err(refusal) => {
                self.disk_faults.count_fault(refusal);
                Err(Failed)
            }
        }
    }

    fn len(&mut self) -> Result<u64, Failed> {
        let answer = match &self.journal {
            Some(journal) => journal.len(),
            None => Err(not_attached("length")),
        };
        self.disk_faults.counted(answer)
    }

    fn read_at(&mut self, at: u64, buf: &mut [u8]) -> Result<usize, Failed> {
        let answer = match &self.journal {
            Some(journal) => journal.read_at(&self.runtime, at, buf),
            None => Err(not_attached("read")),
        };
        self.disk_faults.counted(answer)
    }

    /// # Errors
    ///
    /// Fails also if another program has removed the file or changed its length.
    fn write_at(&mut self, at: u64, bytes: &[u8]) -> Result<(), Failed> {
        let answer = match &mut self.journal {
            Some(journal) => journal.write_at(&self.runtime, at, bytes),
            None => Err(not_attached("write")),
        };
        self.disk_faults.counted(answer)
    }

    fn cut(&mut self, len: u64) -> Result<(), Failed> {
        let answer = match &mut self.journal {
            Some(journal) => journal.cut(len),
            None => Err(not_attached("cut")),
        };
        self.disk_faults.counted(answer)
    }

    /// # Errors
    ///
    /// Fails also if another program has removed the file or changed its length.
    fn sync(&mut self) -> Result<(), Failed> {
        let answer = match &self.journal {
            Some(journal) => journal.sync(),
            None => Err(not_attached("sync")),
        };
        self.disk_faults.counted(answer)
    }

    fn emit(&mut self, to: Stream, bytes: &[u8]) -> Result<usize, Failed> {
        let answer = match to {
            Stream::Out => {
                let answer = write_some(&self.runtime, &mut self.runtime.stdout(), bytes);
                tried("standard output: write", answer)
            }
            Stream::Note => {
                let answer = write_some(&self.runtime, &mut self.runtime.stderr(), bytes);
                tried("standard error: write", answer)
            }
        };
        self.sink_faults.counted(answer)
    }
}

fn not_attached(tried: &'static str) -> Refusal {
    Refusal {
        tried,
        reason: io::Error::new(ErrorKind::NotFound, "no file is attached"),
    }
}
