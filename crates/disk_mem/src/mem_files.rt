// Files in memory, for tests and for the program.
ghost use Rattle.std.specs.Prelude.{◌≡◌, ◌≤◌, ◌⊎◌, Some, None, IfOk, OnOk, IsErrOf, IsTrue, length, take, true, bytes_eq, string_bytes};
ghost use Rattle.std.specs.List.{find};
ghost use Rattle.std.specs.Option.{option_copied, option_map};
ghost use Rattle.disk_model.specs.declared.files.TheConstants.{MAX_FETCH_BYTES};
ghost use Rattle.dp_base.specs.Counts.{Rose};
ghost use Rattle.disk_model.specs.Directory.{file_named, IsFetched};
ghost use Rattle.disk_mem.specs.declared.fails.Fails.TheVariants.{Never};
ghost use Rattle.disk_mem.specs.MemoryFiles.{as_file, as_files, of_files, fetch_fails_next, did_fetch, failed_fetch};

use crate::counter::Counter;
use crate::{Fails, NamedFile};
use disk_model::{FetchFault, Files, MAX_FETCH_BYTES};
use std::alloc::Global;
use std::marker::Model;

/// Files by name, all in memory.
///
/// Fetches are counted from 1. Those fail whose numbers its `Fails` says, and those of a name that no file has. If
/// several files have one name, the first is fetched.
#[derive(Drop)]
pub struct MemFiles {
    files: Vec<NamedFile>,
    counter: Counter,
}

impl Model for MemFiles {
    ghost use Rattle.disk_mem.specs.MemoryFiles.{MemoryFiles, as_files};

    ghost Value = { MemoryFiles };

    ghost view = { λ m. record { files = as_files m.files.items; fails = m.counter.fails; fetches = m.counter.calls; faults = m.counter.faults } };
}

impl MemFiles {
    /// Makes files in memory of these, some of whose fetches fail.
    pub fn new(files: Vec<NamedFile>, fails: Fails) -> MemFiles
        ensures { result ≡ of_files files.items fails }
    {
        MemFiles {
            files,
            counter: Counter::new(fails),
        }
    }

    /// Returns how many fetches there were. The count stops at 2^64 - 1.
    pub fn fetches(&self) -> u64
        ensures { result ≡ self.now.fetches }
    {
        self.counter.calls
    }

    /// Returns how many fetches failed. The count stops at 2^64 - 1, and leaves out fetches for which an allocation
    /// failed.
    pub fn file_fault_count(&self) -> u64
        ensures { result ≡ self.now.faults }
    {
        self.counter.faults
    }
}

impl Files for MemFiles {
    ghost directory = { λ m. Some m.files };

    ghost file_faults = { λ m. m.faults };

    fn fetch(&mut self, alloc: Global, name: &str) -> Result<Vec<u8>, FetchFault>
        ensures bytes { IfOk result (λ file. IsFetched (Some self.old.files) name.now file.items) }
        ensures few { IfOk result (λ file. length file.items ≤ MAX_FETCH_BYTES) }
        ensures kept { self.new.files ≡ self.old.files }
        ensures cause { IsErrOf result FetchFault.Failed → Rose self.old.faults self.new.faults }
        ensures count { self.old.faults ≤ self.new.faults }
        ensures planned { IsTrue (fetch_fails_next self.old) → IsErrOf result FetchFault.Failed }
        ensures absent { file_named self.old.files name.now ≡ None → IsErrOf result FetchFault.Failed }
        ensures only { IsErrOf result FetchFault.Failed → (fetch_fails_next self.old ≡ true) ⊎ (file_named self.old.files name.now ≡ None) }
        ensures never { self.old.fails ≡ Never → IsErrOf result FetchFault.Failed → file_named self.old.files name.now ≡ None }
        ensures failed { IsErrOf result FetchFault.Failed → self.new ≡ failed_fetch self.old }
        ensures memory { IsErrOf result FetchFault.OutOfMemory → self.new ≡ did_fetch self.old }
        ensures ok { OnOk result (self.new ≡ did_fetch self.old) }
    {
        if !self.counter.count_call() {
            self.counter.count_fault();
            return Err(FetchFault::Failed);
        }
        match first_named(&self.files, name) {
            None => {
                self.counter.count_fault();
                Err(FetchFault::Failed)
            }
            Some(file) => Ok(cut_to(&file.bytes, MAX_FETCH_BYTES).to_vec(alloc)?),
        }
    }
}

// The first file with this name.
fn first_named<'a>(files: &'a [NamedFile], name: &str) -> Option<&'a NamedFile>
    ensures { option_map as_file (option_copied result) ≡ file_named (as_files files.now) name.now }
{
    find_named(files, name)
}

fn find_named<'a>(files: &'a [NamedFile], name: &str) -> Option<&'a NamedFile>
    ensures { option_copied result ≡ find (λ f. bytes_eq (string_bytes f.name) name.now) files.now }
{
    files.iter().find(|file| file.name.as_str() == name)
}

// The first bytes, at most `most` of them.
fn cut_to(bytes: &[u8], most: usize) -> &[u8]
    ensures bytes { result.now ≡ take most bytes.now }
    ensures few { length result.now ≤ most }
{
    if bytes.len() <= most {
        bytes
    } else {
        &bytes[..most]
    }
}
