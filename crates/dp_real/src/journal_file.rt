// The file of a journal: opened, locked, and as this program left it.
ghost use Rattle.std.specs.Prelude.{◌≡◌, ◌<◌, ◌≤◌, ◌+◌, ◌^◌, IfOk, OnErr, OnOk, length, max};

use crate::file_at::FileAt;
use crate::refusal::{Refusal, tried};
use crate::transfer::{fill, write_whole};
use std::fs::{self, File, TryLockError};
use std::io::{self, ErrorKind};
use std::os::fd::AsRawFd;
use std::os::unix::fs::MetadataExt;

// How the system names the files of standard output and standard error. Without /proc they aren't found, and count as
// other files.
const STREAM_PATHS: [&str; 2] = ["/proc/self/fd/1", "/proc/self/fd/2"];

/// An open journal. Its lock is released when it is dropped.
#[derive(Drop)]
pub(crate) struct JournalFile {
    file: File,
    // How many bytes the file has, unless another program has changed it.
    len: u64,
}

impl JournalFile {
    /// Opens and locks the regular file with this path. With `make` it is made if there is none, the lock is exclusive,
    /// and the file and its name are synced. Without, the lock is shared, and a file that can't be written is opened
    /// for reading alone.
    pub(crate) fn open(
        runtime: &HostRuntime,
        name: &str,
        make: bool,
    ) -> Result<JournalFile, Refusal> {
        let file = tried("open", open_regular(runtime, name, make))?;
        tried("lock", lock(&file, make))?;
        if make {
            tried("sync", file.sync_all())?;
            tried("sync of its folder", sync_folder_of(runtime, name))?;
        }
        let len = tried("length", length_of(&file))?;
        Ok(JournalFile { file, len })
    }

    /// Returns how many bytes the file has.
    pub(crate) fn len(&self) -> Result<u64, Refusal> {
        tried("length", length_of(&self.file))
    }

    /// Reads bytes from offset `at` on until the buffer is full or the file ends. Returns how many.
    pub(crate) fn read_at(
        &self,
        runtime: &HostRuntime,
        at: u64,
        buf: &mut [u8],
    ) -> Result<usize, Refusal>
        ensures within { IfOk result (λ n. n ≤ length buf.old) }
    {
        let file = &self.file;
        tried("read", fill(runtime, &mut FileAt { file, at }, buf))
    }

    /// Writes all of the bytes from offset `at` on.
    ///
    /// # Errors
    ///
    /// Fails if the file isn't as this program left it, and if the system refuses the write.
    pub(crate) fn write_at(
        &mut self,
        runtime: &HostRuntime,
        at: u64,
        bytes: &[u8],
    ) -> Result<(), Refusal>
        ensures longer { OnOk result (0 < length bytes.now → at + length bytes.now < 2 ^ 64 → self.new.len ≡ max self.old.len (at + length bytes.now)) }
        ensures nothing { length bytes.now ≡ 0 → self.new.len ≡ self.old.len }
        ensures failed { OnErr result (self.new.len ≡ self.old.len) }
    {
        tried("write", self.is_as_left())?;
        let file = &self.file;
        tried(
            "write",
            write_whole(runtime, &mut FileAt { file, at }, bytes),
        )?;
        let end = at.saturating_add(bytes.len() as u64);
        if !bytes.is_empty() && self.len < end {
            self.len = end;
        }
        Ok(())
    }

    /// Cuts the file to a length, in bytes.
    pub(crate) fn cut(&mut self, len: u64) -> Result<(), Refusal>
        ensures cut { OnOk result (self.new.len ≡ len) }
        ensures failed { OnErr result (self.new.len ≡ self.old.len) }
    {
        tried("cut", self.file.set_len(len))?;
        self.len = len;
        Ok(())
    }

    /// Waits until all that was written is on the disk.
    ///
    /// # Errors
    ///
    /// Fails if the system refuses the sync, and if the file isn't as this program left it.
    pub(crate) fn sync(&self) -> Result<(), Refusal> {
        tried("sync", self.file.sync_data())?;
        tried("sync", self.is_as_left())
    }

    // Fails if another program has removed the file, or changed its length.
    fn is_as_left(&self) -> io::Result<()> {
        let now = self.file.metadata()?;
        if now.nlink() == 0 {
            return Err(io::Error::new(ErrorKind::NotFound, "another program removed the file"));
        }
        if now.len() != self.len {
            return Err(io::Error::new(
                ErrorKind::InvalidData,
                "another program changed the file's length",
            ));
        }
        Ok(())
    }
}

fn length_of(file: &File) -> io::Result<u64> {
    Ok(file.metadata()?.len())
}

// The regular file with this path, which is no standard stream's.
fn open_regular(runtime: &HostRuntime, name: &str, make: bool) -> io::Result<File> {
    let file = open_file(runtime, name, make)?;
    if !file.metadata()?.is_file() {
        return Err(io::Error::new(ErrorKind::Unsupported, "not a regular file"));
    }
    let file = apart_from_streams(file)?;
    for path in STREAM_PATHS {
        if is_the_file(runtime, path, &file)? {
            return Err(io::Error::new(
                ErrorKind::InvalidInput,
                "the file is also standard output or standard error",
            ));
        }
    }
    Ok(file)
}

// A journal that may be read but not written can still be replayed.
fn open_file(runtime: &HostRuntime, name: &str, make: bool) -> io::Result<File> {
    let both = File::options()
        .read(true)
        .write(true)
        .create(make)
        .open(runtime, name);
    match both {
        Err(_) if !make => fs::open(runtime, name),
        opened => opened,
    }
}

// The file under a number that no standard stream has. If a stream was closed before the program began, the file may
// have got the stream's number, and what is meant for the stream would be written to it.
fn apart_from_streams(file: File) -> io::Result<File> {
    if file.as_raw_fd() <= 2 {
        file.try_clone()
    } else {
        Ok(file)
    }
}

// Whether this path is of this file.
fn is_the_file(runtime: &HostRuntime, path: &str, file: &File) -> io::Result<bool> {
    let own = file.metadata()?;
    match fs::metadata(runtime, path) {
        Ok(other) => Ok(other.dev() == own.dev() && other.ino() == own.ino()),
        Err(_) => Ok(false),
    }
}

// Locks the file against other programs that lock it: against all of them, or against those that write.
fn lock(file: &File, exclusive: bool) -> io::Result<()> {
    let answer = if exclusive {
        file.try_lock()
    } else {
        file.try_lock_shared()
    };
    match answer {
        Ok(()) => Ok(()),
        Err(TryLockError::WouldBlock) => Err(io::Error::new(
            ErrorKind::ResourceBusy,
            "another recording or replay has locked the file",
        )),
        Err(TryLockError::Error(error)) => Err(error),
    }
}

// Syncs the folder of the file that a path leads to. That is another folder than the path's if the path is of a link.
fn sync_folder_of(runtime: &HostRuntime, name: &str) -> io::Result<()> {
    let path = fs::canonicalize(runtime, name)?;
    match path.parent() {
        Some(folder) => fs::open(runtime, folder)?.sync_all(),
        None => Err(ErrorKind::NotFound.into()),
    }
}
