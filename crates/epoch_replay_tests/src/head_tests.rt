// Journals in which one bit of a mark's record was changed, by several numbers of workers.
use crate::journals::{guest, journal};
use crate::replays::of_journal;
use epoch_replay::ReplayFault;
use std::test::Fail;
use test_worlds::Failing;

const BITS: [u8; 3] = [1, 2, 0x80];

// What a replay answers after each of these bits was changed in the byte at an offset of the record's head. A gate that
// isn't 01 ends the records. So does a length that goes past the end of the file, of about 350,000 bytes. The body has
// 69,880 bytes (hex 110F8); one of another length that is in the file, or of another kind, is malformed.
const HEAD: [(usize, [Result<u32, ReplayFault>; 3]); 6] = [
    (0, [Ok(1), Ok(1), Ok(1)]),
    (1, [MALFORMED, MALFORMED, MALFORMED]),
    (2, [MALFORMED, MALFORMED, MALFORMED]),
    (3, [MALFORMED, MALFORMED, Ok(1)]),
    (4, [Ok(1), Ok(1), Ok(1)]),
    (5, [MALFORMED, MALFORMED, MALFORMED]),
];

const MALFORMED: Result<u32, ReplayFault> = Err(ReplayFault::BadJournal(2));

// The mark after the first epoch is record 2. Its gate comes after the header, which has 9 bytes and the guest's file,
// and after record 1, which has 20 bytes.
#[test]
fn each_byte_of_a_head(rt: HostRuntime) -> Result<(), Fail> {
    let alloc = rt.alloc();
    let gate = guest(alloc)?.len().min(4096) + 29;
    for (offset, answers) in HEAD {
        for (bit, answer) in BITS.iter().zip(answers) {
            let mut bytes = journal(alloc, b"emememememex")?;
            if let Some(byte) = bytes.get_mut(gate + offset) {
                *byte ^= *bit;
            }
            let came = of_journal(&rt, alloc, &bytes, Failing::Never, 4096)?;
            assert_eq!(rt; came, (answer, 1));
        }
    }
    Ok(())
}
