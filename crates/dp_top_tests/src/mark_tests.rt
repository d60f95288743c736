// Journals with a mark after the first epoch, cut anywhere.
//
// Of nine epochs of one step: the header's 133 bytes, nine records of 20, and a closed gate. A mark of this guest has a
// body of 69,880 bytes, and its record 5 more.
use crate::stopped::{Faults, NO_JOURNAL, Plays, plays, recording, replay};
use dp_report::Status;
use std::alloc::Global;
use std::sync::Wait;
use std::test::Fail;
use std::thread::Threads;
use test_files::{WRITES_WORDS, file_of};
use test_worlds::Failing;

// The guest after its first step, by the format's tables: x10 is 1 and pc the second word's.
fn mark_behind_one_step(alloc: Global) -> Result<Vec<u8>, Fail> {
    let file = file_of(alloc, &WRITES_WORDS)?;
    let mut body = Vec::new(alloc);
    // the kind, the steps, the input's place, the heap's start and the break, and no end
    body.push(1)?;
    body.extend_from_slice(&1u64.to_le_bytes())?;
    body.extend_from_slice(&0u64.to_le_bytes())?;
    body.extend_from_slice(&0x0001_1000u32.to_le_bytes())?;
    body.extend_from_slice(&0x0001_1000u32.to_le_bytes())?;
    body.push(0)?;
    // one thread, which runs: pc, no clear-on-exit address, x1, x2, x3 to x9, x10 and x11 to x31
    body.extend_from_slice(&1u16.to_le_bytes())?;
    body.push(0)?;
    body.extend_from_slice(&0x0001_0058u32.to_le_bytes())?;
    body.extend_from_slice(&[0; 8])?;
    body.extend_from_slice(&0x7fff_ffe0u32.to_le_bytes())?;
    body.extend_from_slice(&[0; 28])?;
    body.extend_from_slice(&1u32.to_le_bytes())?;
    body.extend_from_slice(&[0; 84])?;
    // the file's page, and 16 of the stack
    body.extend_from_slice(&17u16.to_le_bytes())?;
    body.extend_from_slice(&0x10u32.to_le_bytes())?;
    body.push(5)?;
    body.extend_from_slice(&file)?;
    body.extend_from_slice(&[0; 3972])?;
    for number in 0..16u32 {
        body.extend_from_slice(&(0x7_fff0 + number).to_le_bytes())?;
        body.push(6)?;
        body.extend_from_slice(&[0; 4096])?;
    }
    Ok(body)
}

// The journal of nine epochs with this mark's record in front of the gate at this place.
fn marked<R: Threads + Wait + Sync>(rt: &R, alloc: Global, place: usize) -> Result<Vec<u8>, Fail> {
    let faults = Faults {
        disk: Failing::Never,
        sink: Failing::Never,
        piece: 4096,
    };
    let asked = ["dpcli", "record", "g", "j", "--epoch", "1"];
    let seen = recording(rt, alloc, &asked, &WRITES_WORDS, &[], faults)?;
    let body = mark_behind_one_step(alloc)?;
    if seen.kept.len() != 314 || body.len() != 69_880 {
        return Err("the journal has 314 bytes, and the mark 69,880".into());
    }
    let (before, behind) = seen.kept.split_at(place.min(seen.kept.len()));
    let mut journal = before.to_vec(alloc)?;
    journal.push(1)?;
    journal.extend_from_slice(&69_880u32.to_le_bytes())?;
    journal.extend_from_slice(&body)?;
    journal.extend_from_slice(behind)?;
    Ok(journal)
}

fn cut_plays<R: Threads + Wait + Sync>(
    rt: &R,
    alloc: Global,
    journal: &[u8],
    len: usize,
) -> Result<Plays, Fail> {
    let (image, _) = journal.split_at(len.min(journal.len()));
    plays(rt, alloc, image, b"", b"hi\n")
}

#[test]
fn journals_with_a_mark_cut_short(rt: HostRuntime) -> Result<(), Fail> {
    let journal = marked(&rt, rt.alloc(), 153)?;
    assert_eq!(rt; journal.len(), 70_199);
    // a length, how many epochs are whole then, and the bytes that are sent
    let cases: [(usize, u8, usize); 13] = [
        (133, 0, 0),
        (152, 0, 0),
        // within the mark, and right after it
        (153, 1, 0),
        (154, 1, 0),
        (158, 1, 0),
        (34_000, 1, 0),
        (70_037, 1, 0),
        (70_038, 1, 0),
        (70_057, 1, 0),
        (70_058, 2, 0),
        // the sixth epoch sends
        (70_137, 5, 0),
        (70_138, 6, 3),
        (70_199, 9, 3),
    ];
    for (len, epochs, sent) in cases {
        let came = cut_plays(&rt, rt.alloc(), &journal, len)?;
        assert_eq!(rt; came, (Status::Ok, epochs, sent), "cut to {len}");
    }
    for len in [0, 1, 132] {
        assert_eq!(rt;
            cut_plays(&rt, rt.alloc(), &journal, len)?,
            NO_JOURNAL,
            "cut to {len}"
        );
    }
    Ok(())
}

// The same mark after the second epoch isn't right, once it is there whole.
#[test]
fn a_mark_of_another_place_cut_short(rt: HostRuntime) -> Result<(), Fail> {
    let journal = marked(&rt, rt.alloc(), 173)?;
    for len in [173, 178, 70_057] {
        assert_eq!(rt;
            cut_plays(&rt, rt.alloc(), &journal, len)?,
            (Status::Ok, 2, 0),
            "cut to {len}"
        );
    }
    for len in [70_058, 70_199] {
        let (image, _) = journal.split_at(len.min(journal.len()));
        let came = replay(&rt, rt.alloc(), image)?;
        assert_eq!(rt;
            (came.status, came.sent.len()),
            (Status::BadMark(3), 0),
            "cut to {len}"
        );
        assert!(rt; came.noted.starts_with(b"dpcli: record 3 is a wrong mark\n"));
    }
    Ok(())
}
