// Replays and inspections of journals with partial marks, by several numbers of workers.
use crate::partial_journals::{each_step, partial_journal};
use crate::replays::agreed;
use disk_model::{Stream, World};
use epoch_replay::{ReplayFault, inspect};
use std::test::Fail;
use test_worlds::{Failing, world_of};

type Case = (&'static str, Result<u32, ReplayFault>);

// Right marks. The page's word is 0 at the start, and then it changes with each pass.
fn right() -> [Case; 7] {
    [
        // each mark has the page that changed
        ("epepepe", Ok(4)),
        // the start is the base of the first mark
        ("sepe", Ok(2)),
        // two in a row, each over the one before
        ("epsepse", Ok(3)),
        ("epssep", Ok(2)),
        // after a full mark, and before one
        ("emsepme", Ok(3)),
        // two passes later the page is as it was
        ("peeseese", Ok(5)),
        ("meesepe", Ok(4)),
    ]
}

// Wrong marks, and other records that are refused.
fn wrong() -> [Case; 10] {
    [
        // the page has changed since the last mark
        ("ese", BAD_MARK_2),
        ("emese", Err(ReplayFault::BadMark(4))),
        // it is the same as at the mark before the last one
        ("epepese", Err(ReplayFault::BadMark(6))),
        ("ememese", Err(ReplayFault::BadMark(6))),
        // and after a pass it is not as at the start
        ("epesep", Err(ReplayFault::BadMark(4))),
        // other bytes, another count of steps, a page that the base lacks
        ("eoe", BAD_MARK_2),
        ("epetep", Err(ReplayFault::BadMark(4))),
        ("epelspe", Err(ReplayFault::BadMark(4))),
        // an epoch that can't be run, and a malformed mark
        ("epebpe", Err(ReplayFault::BadEpoch(4))),
        ("epejpe", Err(ReplayFault::BadJournal(4))),
    ]
}

const BAD_MARK_2: Result<u32, ReplayFault> = Err(ReplayFault::BadMark(2));

#[test]
fn right_marks(rt: HostRuntime) -> Result<(), Fail> {
    let alloc = rt.alloc();
    for (letters, answer) in right() {
        let journal = partial_journal(alloc, letters.as_bytes())?;
        let (came, _) = agreed(&rt, alloc, &journal, Failing::Never, 4096)?;
        assert_eq!(rt; came, answer, "{letters}");
    }
    Ok(())
}

#[test]
fn wrong_marks(rt: HostRuntime) -> Result<(), Fail> {
    let alloc = rt.alloc();
    for (letters, answer) in wrong() {
        let journal = partial_journal(alloc, letters.as_bytes())?;
        let (came, _) = agreed(&rt, alloc, &journal, Failing::Never, 4096)?;
        assert_eq!(rt; came, answer, "{letters}");
    }
    Ok(())
}

// What a replay answers and sends if the byte at this offset is replaced. Record 2 is the first mark: its count of
// steps is at 159, and the kind of its last page at 422. The output comes from record 11.
fn changed() -> [(usize, u8, Result<u32, ReplayFault>, &'static str); 4] {
    [
        (159, 1, Ok(9), "hi\n"),
        (159, 2, BAD_MARK_2, ""),
        (422, 0, Ok(9), "hi\n"),
        (422, 1, Err(ReplayFault::BadJournal(2)), ""),
    ]
}

#[test]
fn a_mark_after_each_step(rt: HostRuntime) -> Result<(), Fail> {
    let alloc = rt.alloc();
    assert_eq!(rt; each_step(alloc)?.len(), 2_474);
    for (offset, value, answer, output) in changed() {
        let mut journal = each_step(alloc)?;
        if let Some(byte) = journal.get_mut(offset) {
            *byte = value;
        }
        let (came, sent) = agreed(&rt, alloc, &journal, Failing::Never, 4096)?;
        assert_eq!(rt; came, answer);
        assert!(rt; sent.as_slice() == output.as_bytes());
    }
    Ok(())
}

// A partial mark has the line of a full one. None is judged: `s` is wrong here.
#[test]
fn lines(rt: HostRuntime) -> Result<(), Fail> {
    let alloc = rt.alloc();
    let text =
        b"guest 112\n1 epoch slices 1 steps 16389 answers 0\n2 mark steps 16389\n3 epoch slices 1 steps 16389 answers 0\n4 mark steps 32778\nend 4797\n";
    let journal = partial_journal(alloc, b"epes")?;
    let mut world = world_of(alloc, Failing::Never, Failing::Never, 4096)?.of_disk(
        alloc, &journal,
    )?;
    if world.attach("j", false).is_err() {
        return Err("the disk is attached".into());
    }
    let (world, answer) = inspect(alloc, world);
    assert!(rt; answer.is_ok());
    assert!(rt; world.sent(Stream::Out) == text.as_slice());
    Ok(())
}
