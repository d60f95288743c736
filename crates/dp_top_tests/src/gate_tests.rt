// A crash in the first append: the record follows its gate, which is closed, open, or neither.
//
// The guest's file has 124 bytes, so the journal's header has 133, and the first record's gate is at 133. The record of
// one epoch of one slice has 20 bytes, and the closed gate follows it.
use crate::stopped::{Faults, Plays, Stopped, plays, recording, replay};
use dp_report::Status;
use std::alloc::Global;
use std::sync::Wait;
use std::test::Fail;
use std::thread::Threads;
use test_files::WRITES_WORDS;
use test_worlds::Failing;

const GATE: usize = 133;

const NO_EPOCH: Plays = (Status::Ok, 0, 0);

const ONE_EPOCH: Plays = (Status::Ok, 1, 3);

// The report's line of the guest that has run whole. The digest of its state was had from the format's tables.
const ONE_OF_WRITES: &[u8] =
    b"epochs 1 squashes 0 steps 9 sent 3 end exit 0 state 5e7e08b662a2648fef71b4527eed27a6cdaea8232e2b564dfcc9f494b1615bd4\n";

// A recording in epochs of 20,000 steps, where the disk fails from this call on.
fn stops<R: Threads + Wait + Sync>(rt: &R, alloc: Global, number: u64) -> Result<Stopped, Fail> {
    let faults = Faults {
        disk: Failing::From(number),
        sink: Failing::Never,
        piece: 4096,
    };
    recording(
        rt,
        alloc,
        &["dpcli", "record", "g", "j"],
        &WRITES_WORDS,
        &[],
        faults,
    )
}

fn gate_of(image: &[u8]) -> (usize, u8) {
    (image.len(), image.get(GATE).copied().unwrap_or(0xff))
}

// The image with this byte as the gate.
fn gated(alloc: Global, image: &[u8], gate: u8) -> Result<Vec<u8>, Fail> {
    let mut changed = image.to_vec(alloc)?;
    if let Some(byte) = changed.get_mut(GATE) {
        *byte = gate;
    }
    Ok(changed)
}

// Call 11 opens the gate, and call 12 syncs it.
#[test]
fn the_gate_of_the_first_epoch(rt: HostRuntime) -> Result<(), Fail> {
    // the call that fails, and the gate in each image
    let cases: [(u64, [u8; 3]); 2] = [(11, [0, 0, 1]), (12, [0, 1, 1])];
    for (number, gates) in cases {
        let seen = stops(&rt, rt.alloc(), number)?;
        assert_eq!(rt; (seen.status, seen.status.number()), (Status::DiskFault, 6));
        assert_eq!(rt; seen.sent.len(), 0);
        for (image, gate) in [&seen.kept, &seen.read, &seen.marked].iter().zip(gates) {
            assert_eq!(rt; gate_of(image), (154, gate), "call {number}");
            let wanted = if gate == 1 { ONE_EPOCH } else { NO_EPOCH };
            assert_eq!(rt;
                plays(&rt, rt.alloc(), image, b"", b"hi\n")?,
                wanted,
                "call {number}"
            );
        }
    }
    Ok(())
}

// A crash may leave any byte as the gate: 01 alone opens it.
#[test]
fn other_bytes_as_the_gate(rt: HostRuntime) -> Result<(), Fail> {
    let seen = stops(&rt, rt.alloc(), 12)?;
    for gate in [0x00, 0x02, 0x07, 0x81, 0xff] {
        let image = gated(rt.alloc(), &seen.marked, gate)?;
        assert_eq!(rt;
            plays(&rt, rt.alloc(), &image, b"", b"hi\n")?,
            NO_EPOCH,
            "gate {gate}"
        );
    }
    let image = gated(rt.alloc(), &seen.kept, 1)?;
    let came = replay(&rt, rt.alloc(), &image)?;
    assert_eq!(rt; came.status, Status::Ok);
    assert_eq!(rt; came.sent.as_slice(), b"hi\n".as_slice());
    assert_eq!(rt; came.noted.as_slice(), ONE_OF_WRITES);
    Ok(())
}

// The record's bytes are pending after a closed gate by the calls 9 and 10: nothing of them counts.
#[test]
fn a_record_behind_its_gate(rt: HostRuntime) -> Result<(), Fail> {
    // the call that fails, and the length of each image: the frame has 20 bytes after the gate
    let cases: [(u64, [usize; 3]); 2] = [(9, [134, 134, 154]), (10, [134, 154, 154])];
    for (number, lens) in cases {
        let seen = stops(&rt, rt.alloc(), number)?;
        assert_eq!(rt; (seen.status, seen.sent.len()), (Status::DiskFault, 0));
        for (image, len) in [&seen.kept, &seen.read, &seen.marked].iter().zip(lens) {
            assert_eq!(rt; gate_of(image), (len, 0), "call {number}");
            assert_eq!(rt;
                plays(&rt, rt.alloc(), image, b"", b"hi\n")?,
                NO_EPOCH,
                "call {number}"
            );
        }
    }
    Ok(())
}
