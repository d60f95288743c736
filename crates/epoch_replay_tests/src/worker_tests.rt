// Journals with right and wrong marks, by several numbers of workers.
use crate::replays::by_all;
use epoch_replay::ReplayFault;
use std::test::Fail;
use test_worlds::Failing;

// The letters of a journal's records, the answer, and how many bytes are sent.
type Row = (&'static str, Result<u32, ReplayFault>, usize);

fn journals() -> [Row; 18] {
    [
        ("", Ok(0), 0),
        ("eeeeeex", Ok(7), 6),
        ("eemeemeex", Ok(7), 6),
        ("emememememex", Ok(7), 6),
        // a mark after the guest's end, and an epoch after that
        ("eemeemeexm", Ok(7), 6),
        ("eemeemeexme", Err(ReplayFault::BadEpoch(11)), 6),
        // a wrong mark before an epoch that can't be run, and after one
        ("eemeewbmee", Err(ReplayFault::BadMark(6)), 4),
        ("eemebwee", Err(ReplayFault::BadEpoch(5)), 3),
        // two wrong marks, one of them in the first stretch
        ("eewewe", Err(ReplayFault::BadMark(3)), 2),
        ("eemewewe", Err(ReplayFault::BadMark(5)), 3),
        // a mark before the first epoch
        ("meemee", Ok(4), 4),
        ("weemee", Err(ReplayFault::BadMark(1)), 0),
        // two marks in a row
        ("eemmeemee", Ok(6), 6),
        ("eemweemee", Err(ReplayFault::BadMark(4)), 2),
        // marks of 2^63 steps
        ("eeheemee", Err(ReplayFault::BadMark(3)), 2),
        ("eemeehee", Err(ReplayFault::BadMark(6)), 4),
        // malformed records
        ("eemejmee", Err(ReplayFault::BadJournal(5)), 3),
        ("eemeemj", Err(ReplayFault::BadJournal(7)), 4),
    ]
}

#[test]
fn all_workers_answer_the_same(rt: HostRuntime) -> Result<(), Fail> {
    let alloc = rt.alloc();
    for (letters, answer, sent) in journals() {
        let came = by_all(&rt, alloc, letters.as_bytes(), Failing::Never, 4096)?;
        assert_eq!(rt; came, (answer, sent), "{letters}");
    }
    Ok(())
}
