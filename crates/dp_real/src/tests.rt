// The system itself, as far as a test can see it, and streams that interrupt, give little or take nothing.
ghost use Rattle.std.specs.Prelude.{◌≤◌, IfOk};

use super::*;
use crate::transfer::{fill, read_some, write_some, write_whole};
use disk_model::{Failed, FetchFault, Files, Inlet, Stream, World};
use std::alloc::Global;
use std::io::{self, Read, Write};
use std::test::Fail;
use std::{env, fs, process};

// A path in the folder for files that don't stay, which no other test has.
fn path_of(rt: &HostRuntime, name: &str) -> io::Result<String> {
    let folder = env::temp_dir(rt)?;
    let folder = folder.as_str();
    let process = process::id(rt.process());
    Ok(format!(in rt.alloc(); "{folder}/dp_real_{process}_{name}")?)
}

// What the calls on a file answered.
#[derive(Debug, Drop, PartialEq, Eq)]
struct Answers {
    count: usize,
    read: [u8; 8],
    len_after_cut: u64,
    read_past_the_end: usize,
    // of the world that made the file
    faults: u64,
    // of one that found it: what it answered while the first had it, and its faults
    locked: [Result<(), Failed>; 2],
    other_faults: u64,
}

// Writes a file, reads it, cuts it, and finds it again.
fn write_and_read(rt: HostRuntime, name: &str) -> Result<Answers, Failed> {
    let mut world = RealWorld::new(rt);
    let mut read = [b'.'; 8];
    let _ = (world.len(), world.attach(name, false));
    world.attach(name, true)?;
    world.write_at(0, b"abcdef")?;
    world.write_at(4, b"XYZ")?;
    world.sync()?;
    let count = world.read_at(1, &mut read)?;
    world.cut(3)?;
    world.sync()?;
    let mut other = RealWorld::new(rt);
    let faults = world.disk_faults.faults;
    let locked = [other.attach(name, true), other.attach(name, false)];
    drop(world);
    other.attach(name, true)?;
    other.attach(name, false)?;
    let len_after_cut = other.len()?;
    let mut rest = [0; 4];
    let read_past_the_end = other.read_at(9, &mut rest)?;
    let _ = other.read_at(u64::MAX, &mut rest);
    Ok(Answers {
        count,
        read,
        len_after_cut,
        read_past_the_end,
        faults,
        locked,
        other_faults: other.disk_faults.faults,
    })
}

#[test]
fn a_file_is_a_disk(rt: HostRuntime) -> Result<(), Fail> {
    let name = path_of(&rt, "journal")?;
    let answers = write_and_read(rt, name.as_str());
    let _ = fs::remove_file(&rt, name.as_str());
    let expected = Answers {
        count: 6,
        read: *b"bcdXYZ..",
        len_after_cut: 3,
        read_past_the_end: 0,
        faults: 2,
        locked: [Err(Failed), Err(Failed)],
        other_faults: 3,
    };
    assert_eq!(rt; answers, Ok(expected));
    Ok(())
}

// A folder is no disk, and neither is a file in a folder that there isn't.
#[test]
fn what_is_no_disk(rt: HostRuntime) -> Result<(), Fail> {
    let folder = env::temp_dir(&rt)?;
    let name = path_of(&rt, "missing/journal")?;
    for make in [true, false] {
        let mut world = RealWorld::new(rt);
        assert_eq!(rt; world.attach(folder.as_str(), make), Err(Failed));
        assert_eq!(rt; world.attach(name.as_str(), make), Err(Failed));
        assert_eq!(rt;
            (world.disk_faults.faults, world.sink_faults.faults),
            (2, 0)
        );
    }
    Ok(())
}

#[test]
fn a_note_goes_to_standard_error(rt: HostRuntime) -> Result<(), Fail> {
    let mut world = RealWorld::new(rt);
    assert_eq!(rt; world.emit(Stream::Note, b"note\n"), Ok(5));
    assert_eq!(rt; world.emit(Stream::Out, b""), Ok(0));
    assert_eq!(rt; world.sink_faults.faults, 0);
    Ok(())
}

fn zeros(alloc: Global, count: usize) -> io::Result<Vec<u8>> {
    Ok(vec![in alloc; 0u8; count]?)
}

// How many bytes a fetch gave.
fn fetched(files: &mut RealFiles, alloc: Global, name: &str) -> Result<usize, FetchFault> {
    Ok(files.fetch(alloc, name)?.len())
}

#[test]
fn files_that_are_fetched(rt: HostRuntime) -> Result<(), Fail> {
    let alloc = rt.alloc();
    let name = path_of(&rt, "guest")?;
    let folder = env::temp_dir(&rt)?;
    let mut files = RealFiles::new(rt);
    fs::write(&rt, name.as_str(), "hart")?;
    let short = files
        .fetch(alloc, name.as_str())
        .map(|file| file.as_slice() == b"hart".as_slice());
    fs::write(&rt, name.as_str(), zeros(alloc, 1_048_578)?.as_slice())?;
    let long = fetched(&mut files, alloc, name.as_str());
    let _ = fs::remove_file(&rt, name.as_str());
    assert_eq!(rt; short, Ok(true));
    assert_eq!(rt; long, Ok(1_048_577));
    assert_eq!(rt;
        fetched(&mut files, alloc, name.as_str()),
        Err(FetchFault::Failed)
    );
    assert_eq!(rt;
        fetched(&mut files, alloc, folder.as_str()),
        Err(FetchFault::Failed)
    );
    assert_eq!(rt; files.file_faults.faults, 2);
    Ok(())
}

// A stream that would block at its first call if it has interrupts at all, interrupts the next ones, and then gives or
// takes a few bytes a call, as long as some are left.
#[derive(Drop)]
struct Slow {
    would_block: bool,
    interrupts: u32,
    most: usize,
    left: usize,
}

impl Slow {
    fn moved(&mut self, room: usize) -> io::Result<usize>
        ensures { IfOk result (λ n. n ≤ room) }
    {
        if self.would_block {
            self.would_block = false;
            return Err(io::ErrorKind::WouldBlock.into());
        }
        if 0 < self.interrupts {
            self.interrupts -= 1;
            return Err(io::ErrorKind::Interrupted.into());
        }
        let count = room.min(self.most).min(self.left);
        self.left -= count;
        Ok(count)
    }
}

impl Read for Slow {
    fn read(&mut self, buf: &mut [u8]) -> io::Result<usize> {
        self.moved(buf.len())
    }
}

impl Write for Slow {
    fn write(&mut self, bytes: &[u8]) -> io::Result<usize> {
        self.moved(bytes.len())
    }

    fn flush(&mut self) -> io::Result<()> {
        Ok(())
    }
}

fn stream_of(interrupts: u32, most: usize, left: usize) -> Slow {
    Slow {
        would_block: 0 < interrupts,
        interrupts,
        most,
        left,
    }
}

fn counted(answer: io::Result<usize>) -> Result<usize, Failed> {
    match answer {
        Ok(count) => Ok(count),
        Err(_) => Err(Failed),
    }
}

// One read, one write, a buffer of eight bytes filled, and eight bytes written.
#[test]
fn streams_that_interrupt(rt: HostRuntime) -> Result<(), Fail> {
    let cases: [(u32, usize, usize, [Result<usize, Failed>; 4]); 6] = [
        (0, 9, 9, [Ok(8), Ok(8), Ok(8), Ok(8)]),
        (0, 3, 9, [Ok(3), Ok(3), Ok(8), Ok(8)]),
        (999, 3, 9, [Ok(3), Ok(3), Ok(8), Ok(8)]),
        (
            1000,
            3,
            9,
            [Err(Failed), Err(Failed), Err(Failed), Err(Failed)],
        ),
        (0, 3, 5, [Ok(3), Ok(3), Ok(5), Err(Failed)]),
        (0, 3, 0, [Ok(0), Err(Failed), Ok(0), Err(Failed)]),
    ];
    for (interrupts, most, left, expected) in cases {
        let mut buf = [0; 8];
        let answers = [
            counted(read_some(&rt, &mut stream_of(interrupts, most, left), &mut buf)),
            counted(write_some(&rt, &mut stream_of(interrupts, most, left), &buf)),
            counted(fill(&rt, &mut stream_of(interrupts, most, left), &mut buf)),
            counted(write_whole(&rt, &mut stream_of(interrupts, most, left), &buf).map(|()| 8)),
        ];
        assert_eq!(rt; answers, expected, "{interrupts} {most} {left}");
    }
    Ok(())
}

// Bytes are given as they are there, the end stays, and a take that fails is counted.
#[test]
fn an_input_is_taken(rt: HostRuntime) -> Result<(), Fail> {
    let mut buf = [b'.'; 4];
    let mut inlet = RealInlet::of_reader(rt, stream_of(1001, 2, 3));
    let expected = [Err(Failed), Ok(2), Ok(1), Ok(0), Ok(0)];
    for answer in expected {
        assert_eq!(rt; inlet.take(&mut []), Ok(0));
        assert_eq!(rt; inlet.take(&mut buf), answer);
    }
    inlet.reader.left = 1;
    assert_eq!(rt; inlet.take(&mut buf), Ok(0));
    assert_eq!(rt; (buf, inlet.input_faults.faults), (*b"\0\0..", 1));
    Ok(())
}

// The clock is past a day in 2020, and no reading is earlier than the one before it.
#[test]
fn the_clock_goes_on(rt: HostRuntime) -> Result<(), Fail> {
    let mut inlet = RealInlet::new(rt);
    let (first, second) = (inlet.clock(), inlet.clock());
    assert!(rt; 1_577_836_800_000_000_000 < first);
    assert!(rt; first <= second);
    Ok(())
}
