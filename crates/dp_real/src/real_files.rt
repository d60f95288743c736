// The system's files by name.
ghost use Rattle.std.specs.Prelude.{◌≡◌, ◌≤◌, IfOk, IfSome, length, take};

use crate::fault_count::FaultCount;
use crate::refusal::{Refusal, tried};
use crate::transfer::fill;
use disk_model::{FetchFault, Files, MAX_FETCH_BYTES};
use std::alloc::Global;
use std::fs;
use std::io::{self, Read};
use std::time::Clock;

/// The system's files. A name is a path, from the program's folder on if it doesn't begin with a slash.
///
/// A fetch reads at most `MAX_FETCH_BYTES` bytes and looks at no more of the file. It fails if there is no file, or a
/// folder.
#[derive(Drop)]
pub struct RealFiles {
    runtime: HostRuntime,
    pub(crate) file_faults: FaultCount,
}

impl RealFiles {
    /// Makes the files of this system.
    pub fn new(runtime: HostRuntime) -> RealFiles
        ensures no_fault { result.file_faults.faults ≡ 0 }
    {
        RealFiles {
            runtime,
            file_faults: FaultCount::new(),
        }
    }

    /// Returns what the system last refused of a file.
    pub fn file_refusal(&self) -> Option<Refusal>
        ensures { result ≡ self.now.file_faults.last }
    {
        self.file_faults.last
    }
}

impl Files for RealFiles {
    ghost use Rattle.std.specs.Prelude.{None};

    ghost directory = { λ _. None };

    ghost file_faults = { λ f. f.file_faults.faults };

    fn fetch(&mut self, alloc: Global, name: &str) -> Result<Vec<u8>, FetchFault> {
        let buffer = vec![in alloc; 0u8; MAX_FETCH_BYTES]?;
        match read_file(&self.runtime, name, buffer) {
            Ok(bytes) => Ok(bytes),
            Err(refusal) => {
                self.file_faults.count_fault(refusal);
                Err(FetchFault::Failed)
            }
        }
    }
}

// The first bytes of a file, at most as many as the buffer has.
fn read_file(runtime: &HostRuntime, name: &str, buffer: Vec<u8>) -> Result<Vec<u8>, Refusal>
    ensures few { IfOk result (λ bytes. length bytes.items ≤ length buffer.items) }
{
    let mut file = tried("open", fs::open(runtime, name))?;
    tried("read", read_first(runtime, &mut file, buffer))
}

// The bytes that a reader gives up to its end, or the first of them, at most as many as the buffer has.
fn read_first<C: Clock, R: Read>(
    clock: &C,
    reader: &mut R,
    mut buffer: Vec<u8>,
) -> io::Result<Vec<u8>>
    ensures few { IfOk result (λ bytes. length bytes.items ≤ length buffer.items) }
    ensures bytes { IfOk result (λ bytes. IfSome (R.remaining reader.old) (λ known. bytes.items ≡ take (length buffer.items) known)) }
{
    let count = fill(clock, reader, &mut buffer)?;
    buffer.truncate(count);
    Ok(buffer)
}
