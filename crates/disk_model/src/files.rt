// Files by name, which are read whole.
ghost use Rattle.std.specs.Prelude.{◌≡◌, ◌≤◌, ℕ, List, Option, IfOk, IsErrOf, length};
ghost use Rattle.dp_base.specs.Counts.{Rose};
ghost use Rattle.disk_model.specs.Directory.{File, IsFetched};

use dp_base::OutOfMemory;
use std::alloc::{AllocError, Global};

/// How many bytes of a file a fetch returns at most: one more than a guest's file may have, so that a longer file is
/// seen to be too long.
pub const MAX_FETCH_BYTES: usize = 1_048_577;

/// Why a file was not fetched.
#[derive(Clone, Copy, Debug, PartialEq, Eq)]
pub enum FetchFault {
    /// The file can't be read.
    Failed,
    OutOfMemory,
}

impl From<AllocError> for FetchFault {
    ghost use Rattle.std.specs.Prelude.{◌≡◌};
    ghost use Rattle.disk_model.specs.declared.files.FetchFault.TheVariants as faults;

    ghost from_gives = { λ _ e. e ≡ faults.OutOfMemory };

    fn from(_: AllocError) -> Self {
        FetchFault::OutOfMemory
    }
}

impl From<OutOfMemory> for FetchFault {
    ghost use Rattle.std.specs.Prelude.{◌≡◌};
    ghost use Rattle.disk_model.specs.declared.files.FetchFault.TheVariants as faults;

    ghost from_gives = { λ _ e. e ≡ faults.OutOfMemory };

    fn from(_: OutOfMemory) -> Self {
        FetchFault::OutOfMemory
    }
}

/// Files by name.
pub trait Files {
    /// The files, if they are known.
    ghost directory: { Self → Option (List File) };

    /// How often a fetch has failed. The count stops at 2^64 - 1.
    ghost file_faults: { Self → ℕ };

    /// Returns the file's bytes, at most `MAX_FETCH_BYTES` of them.
    ///
    /// # Errors
    ///
    /// `Failed` if the file can't be read, also if there is none.
    fn fetch(&mut self, alloc: Global, name: &str) -> Result<Vec<u8>, FetchFault>
        ensures bytes { IfOk result (λ file. IsFetched (directory self.old) name.now file.items) }
        ensures few { IfOk result (λ file. length file.items ≤ MAX_FETCH_BYTES) }
        ensures kept { directory self.new ≡ directory self.old }
        ensures cause { IsErrOf result FetchFault.Failed → Rose (file_faults self.old) (file_faults self.new) }
        ensures count { file_faults self.old ≤ file_faults self.new };
}
