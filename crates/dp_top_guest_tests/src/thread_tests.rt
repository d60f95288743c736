// Guests of several threads, recorded in several epochs and slices, and replayed. The values come from a model apart
// from ours, which runs the words by the ISA's text and the schedule's rules.
use super::*;
use crate::recorded::{STEPS, ok, recorded};
use std::alloc::Global;
use std::test::Fail;
use std::thread::Threads;

#[test]
fn two_adders(rt: HostRuntime) -> Result<(), Fail> {
    // steps of an epoch and of a slice at most; the journal's bytes, and the note
    let cases: [(&str, &str, usize, &[u8]); 5] = [
        (
            "20000",
            "1000",
            370,
            b"epochs 1 squashes 0 steps 173 sent 2 end exit 0 state fdf37b240741f2959a92080ddf5e4d9f01f41abe29a8b4b7dee3367963748ee2\n",
        ),
        (
            "50",
            "7",
            648,
            b"epochs 5 squashes 0 steps 250 sent 2 end exit 0 state c60246673039d32fff3505612f3578369d4f5d762063dcccae9ac3523a2d7e53\n",
        ),
        (
            "40",
            "11",
            546,
            b"epochs 5 squashes 0 steps 199 sent 2 end exit 0 state 972bff86dd9f69dde36219a3d3d5efee14e00acf9668c26a936d23c717f8e41d\n",
        ),
        (
            "13",
            "8",
            792,
            b"epochs 17 squashes 0 steps 221 sent 2 end exit 0 state b3bc2c2927747b82a150494997d6b599752f302f17881f090db7f8dcdc45abdc\n",
        ),
        (
            "17",
            "9",
            726,
            b"epochs 14 squashes 0 steps 225 sent 2 end exit 0 state 1d51c58bdaeb8b48b666284f08d90f19f5b1b8335b3c6b19473a3f7793d69b39\n",
        ),
    ];
    for (epoch, slice, len, note) in cases {
        let came = recorded(
            &rt,
            rt.alloc(),
            &ADDERS,
            &[],
            &[],
            (epoch, slice),
            b"8\n",
            note,
        )?;
        assert_eq!(rt; came, ok(len, 0), "epoch {epoch} slice {slice}");
    }
    Ok(())
}

#[test]
fn a_producer_and_a_consumer(rt: HostRuntime) -> Result<(), Fail> {
    // steps of an epoch and of a slice at most; the journal's bytes, and the note
    let cases: [(&str, &str, usize, &[u8]); 5] = [
        (
            "20000",
            "1000",
            404,
            b"epochs 1 squashes 0 steps 125 sent 4 end exit 5 state 54bb26aaecb077ba3e2e6489da6ab5e0888be40e95b33c433d9769f978f88fc9\n",
        ),
        (
            "50",
            "7",
            498,
            b"epochs 3 squashes 0 steps 118 sent 4 end exit 0 state 1f39427757a0375ae7bd34075433fc2b70ba680863558ea3909164f6ff9c854a\n",
        ),
        (
            "1",
            "1000",
            2702,
            b"epochs 118 squashes 0 steps 118 sent 4 end exit 0 state 1f39427757a0375ae7bd34075433fc2b70ba680863558ea3909164f6ff9c854a\n",
        ),
        (
            "17",
            "9",
            542,
            b"epochs 7 squashes 0 steps 111 sent 4 end exit 0 state 705030897a1f067c8df53979f8de4116101387087717289519419acb8b20d4c4\n",
        ),
        (
            "30",
            "3",
            694,
            b"epochs 5 squashes 0 steps 132 sent 4 end exit 0 state f597601dced1e4d9aab7fc839ea42881b78a5096134d8a98150feb1c418b99d7\n",
        ),
    ];
    for (epoch, slice, len, note) in cases {
        let came = recorded(
            &rt,
            rt.alloc(),
            &PRODUCER_AND_CONSUMER,
            &[],
            &[],
            (epoch, slice),
            b"abc\n",
            note,
        )?;
        assert_eq!(rt; came, ok(len, 0), "epoch {epoch} slice {slice}");
    }
    Ok(())
}

#[test]
fn a_deadlock(rt: HostRuntime) -> Result<(), Fail> {
    // steps of an epoch and of a slice at most; the journal's bytes, and the note
    let cases: [(&str, &str, usize, &[u8]); 4] = [
        (
            "20000",
            "1000",
            240,
            b"epochs 1 squashes 0 steps 23 sent 2 end deadlock state a6bd1c530bb19501acfe9cd87f85a482174a148925d8ebaadd002eaa53fca632\n",
        ),
        (
            "1",
            "1000",
            674,
            b"epochs 23 squashes 0 steps 23 sent 2 end deadlock state a6bd1c530bb19501acfe9cd87f85a482174a148925d8ebaadd002eaa53fca632\n",
        ),
        (
            "17",
            "9",
            266,
            b"epochs 2 squashes 0 steps 23 sent 2 end deadlock state a6bd1c530bb19501acfe9cd87f85a482174a148925d8ebaadd002eaa53fca632\n",
        ),
        (
            "30",
            "3",
            276,
            b"epochs 1 squashes 0 steps 23 sent 2 end deadlock state a6bd1c530bb19501acfe9cd87f85a482174a148925d8ebaadd002eaa53fca632\n",
        ),
    ];
    for (epoch, slice, len, note) in cases {
        let came = recorded(
            &rt,
            rt.alloc(),
            &DEADLOCKED,
            &[],
            &[],
            (epoch, slice),
            b"x\n",
            note,
        )?;
        assert_eq!(rt; came, ok(len, 0), "epoch {epoch} slice {slice}");
    }
    Ok(())
}

#[test]
fn a_wait_that_nobody_ends(rt: HostRuntime) -> Result<(), Fail> {
    let note =
        b"epochs 1 squashes 0 steps 3 sent 0 end deadlock state 1601e67ec84ac914eba86160b97697b9bd23ec162f55374b236a88d9e8bc977a\n";
    let came = recorded(&rt, rt.alloc(), &WAITS_ALONE, &[], &[], STEPS, b"", note)?;
    assert_eq!(rt; came, ok(126, 0));
    Ok(())
}
