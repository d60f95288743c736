// Guests that call for the clock, recorded and replayed. The values come from the model that `read_tests` has.
use super::*;
use crate::recorded::{Came, ok, recorded};
use std::alloc::Global;
use std::test::Fail;
use std::thread::Threads;

#[test]
fn readings_of_the_clock(rt: HostRuntime) -> Result<(), Fail> {
    // the pieces, the clock, and the steps of an epoch and of a slice at most; the journal's bytes and how many takes,
    // the output, and the note
    let cases: [(&[&[u8]], &[u64], (&str, &str), Came, &[u8], &[u8]); 7] = [
        // One epoch has one reading.
        (
            &[],
            &[5, 0x123456789abcdef, 0xffffffffffffffff],
            ("20000", "1000"),
            ok(205, 0),
            b"\x05\x00\x00\x00\x00\x00\x00\x00\x05\x00\x00\x00\x00\x00\x00\x00\x05\x00\x00\x00\x00\x00\x00\x00",
            b"epochs 1 squashes 0 steps 38 sent 24 end exit 0 state c52173df32533c0c40c7a67cd57f82a13e4a038e640c090369b2bb947c53ee13\n",
        ),
        // Three epochs, and a fourth past the list.
        (
            &[],
            &[5, 0x123456789abcdef, 0xffffffffffffffff],
            ("12", "1000"),
            ok(265, 0),
            b"\x05\x00\x00\x00\x00\x00\x00\x00\xef\xcd\xab\x89gE#\x01\xff\xff\xff\xff\xff\xff\xff\xff",
            b"epochs 4 squashes 0 steps 38 sent 24 end exit 0 state 208a609e628bef0f7759fd8bd3e73ac856db9c91f15081531c032c64550fb6fa\n",
        ),
        (
            &[],
            &[5, 0x123456789abcdef, 0xffffffffffffffff],
            ("13", "1000"),
            ok(245, 0),
            b"\x05\x00\x00\x00\x00\x00\x00\x00\xef\xcd\xab\x89gE#\x01\xef\xcd\xab\x89gE#\x01",
            b"epochs 3 squashes 0 steps 38 sent 24 end exit 0 state da65b83b79ccae8f9cfc4cc03ed35c757aef2e11cdfafcb27257302f2281e3d8\n",
        ),
        // Two calls in the first epoch.
        (
            &[],
            &[5, 0x123456789abcdef],
            ("15", "1000"),
            ok(245, 0),
            b"\x05\x00\x00\x00\x00\x00\x00\x00\x05\x00\x00\x00\x00\x00\x00\x00\xef\xcd\xab\x89gE#\x01",
            b"epochs 3 squashes 0 steps 38 sent 24 end exit 0 state da65b83b79ccae8f9cfc4cc03ed35c757aef2e11cdfafcb27257302f2281e3d8\n",
        ),
        (
            &[],
            &[5, 6, 7, 8, 9, 10, 11],
            ("5", "2"),
            ok(435, 0),
            b"\x05\x00\x00\x00\x00\x00\x00\x00\x07\x00\x00\x00\x00\x00\x00\x00\n\x00\x00\x00\x00\x00\x00\x00",
            b"epochs 8 squashes 0 steps 38 sent 24 end exit 0 state 0aa6d827707f60d0dbd4ffda8d2e58100e3a654c10284c3d4a3e997bbcb63417\n",
        ),
        // Past the list the last reading again.
        (
            &[],
            &[0x100000000, 0xffffffff],
            ("4", "1000"),
            ok(385, 0),
            b"\x00\x00\x00\x00\x01\x00\x00\x00\xff\xff\xff\xff\x00\x00\x00\x00\xff\xff\xff\xff\x00\x00\x00\x00",
            b"epochs 10 squashes 0 steps 38 sent 24 end exit 0 state c1a31eaf2740d16f827a3fb49f1dafd09959d0111471c776d3bc249d05dfb14e\n",
        ),
        // No list.
        (
            &[],
            &[],
            ("20", "1000"),
            ok(225, 0),
            b"\x00\x00\x00\x00\x00\x00\x00\x00\x00\x00\x00\x00\x00\x00\x00\x00\x00\x00\x00\x00\x00\x00\x00\x00",
            b"epochs 2 squashes 0 steps 38 sent 24 end exit 0 state 5e9ef361ebed55af9742a2c5877befa72065d2fd96ade9e66393d3fa3ec32acc\n",
        ),
    ];
    for (pieces, clocks, steps, wanted, out, note) in cases {
        let came = recorded(
            &rt,
            rt.alloc(),
            &THREE_READINGS,
            pieces,
            clocks,
            steps,
            out,
            note,
        )?;
        assert_eq!(rt; came, wanted);
    }
    Ok(())
}

#[test]
fn one_reading(rt: HostRuntime) -> Result<(), Fail> {
    // the pieces, the clock, and the steps of an epoch and of a slice at most; the journal's bytes and how many takes,
    // the output, and the note
    let cases: [(&[&[u8]], &[u64], (&str, &str), Came, &[u8], &[u8]); 4] = [
        (
            &[],
            &[5],
            ("20000", "1000"),
            ok(143, 0),
            b"",
            b"epochs 1 squashes 0 steps 5 sent 0 end exit 0 state b8ed83f765e58375078dad9a8cfb76d7b20442f76bdcc357e2731adabac6a29f\n",
        ),
        (
            &[],
            &[],
            ("20000", "1000"),
            ok(143, 0),
            b"",
            b"epochs 1 squashes 0 steps 5 sent 0 end exit 0 state b8ed83f765e58375078dad9a8cfb76d7b20442f76bdcc357e2731adabac6a29f\n",
        ),
        (
            &[],
            &[0xffffffffffffffff, 0],
            ("20000", "1000"),
            ok(143, 0),
            b"",
            b"epochs 1 squashes 0 steps 5 sent 0 end exit 0 state 2136e689e357115962e1375b8d30617763bf27c6b92ca01ed0ad90bf8e0b6f0a\n",
        ),
        (
            &[],
            &[1, 2],
            ("1", "1000"),
            ok(223, 0),
            b"",
            b"epochs 5 squashes 0 steps 5 sent 0 end exit 0 state b8ed83f765e58375078dad9a8cfb76d7b20442f76bdcc357e2731adabac6a29f\n",
        ),
    ];
    for (pieces, clocks, steps, wanted, out, note) in cases {
        let came = recorded(
            &rt,
            rt.alloc(),
            &READS_CLOCK,
            pieces,
            clocks,
            steps,
            out,
            note,
        )?;
        assert_eq!(rt; came, wanted);
    }
    Ok(())
}
