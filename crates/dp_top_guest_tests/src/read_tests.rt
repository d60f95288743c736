// Guests that read input, and one that asks for none, recorded and replayed. The values come from a model apart from
// ours, which runs the words by the ISA's text, the input by its pieces, and the schedule by its rules.
use super::*;
use crate::recorded::{Came, ok, recorded};
use std::alloc::Global;
use std::test::Fail;
use std::thread::Threads;
use test_files::EXITS_WORDS;

#[test]
fn two_reads(rt: HostRuntime) -> Result<(), Fail> {
    // the pieces, the clock, and the steps of an epoch and of a slice at most; the journal's bytes and how many takes,
    // the output, and the note
    let cases: [(&[&[u8]], &[u64], (&str, &str), Came, &[u8], &[u8]); 7] = [
        // The second read sees the end.
        (
            &[b"abc"],
            &[],
            ("20000", "1000"),
            ok(195, 2),
            b"",
            b"epochs 3 squashes 0 steps 8 sent 0 end exit 0 state 44e085ae0ee54d6520e1458b2e88945eb49ddcda4841a97589c6f175eb5502b3\n",
        ),
        // It gets the second piece, and asks no further.
        (
            &[b"a", b"bc"],
            &[],
            ("20000", "1000"),
            ok(195, 2),
            b"",
            b"epochs 3 squashes 0 steps 8 sent 0 end exit 2 state eadbb7a1aa17878ff239ffbc9f6c285743e6d276e04a7b6f2b42a812364cf060\n",
        ),
        // Its ten bytes are in the window.
        (
            &[b"abcdefghijklmnopqrstuvw"],
            &[],
            ("20000", "1000"),
            ok(192, 1),
            b"",
            b"epochs 2 squashes 0 steps 8 sent 0 end exit 10 state ebdabd40f7f9180b4ef343ff384b63d8057b018b887f3ff226ec04c1cbf1a487\n",
        ),
        // The window has fewer.
        (
            &[b"abcdefghijklm"],
            &[],
            ("20000", "1000"),
            ok(185, 1),
            b"",
            b"epochs 2 squashes 0 steps 8 sent 0 end exit 3 state a88f5e99b797a4c3d10443adf230594b1e60c4c0a68636f37f6ca05a67352167\n",
        ),
        // An empty piece is the end, for good.
        (
            &[b"", b"a", b"b"],
            &[],
            ("20000", "1000"),
            ok(172, 1),
            b"",
            b"epochs 2 squashes 0 steps 8 sent 0 end exit 0 state b09f93cae3814db351d3cc2cf377fc7bb84e4df237822d0f1279d1eb06a9bc22\n",
        ),
        // No piece.
        (
            &[],
            &[],
            ("20000", "1000"),
            ok(172, 1),
            b"",
            b"epochs 2 squashes 0 steps 8 sent 0 end exit 0 state b09f93cae3814db351d3cc2cf377fc7bb84e4df237822d0f1279d1eb06a9bc22\n",
        ),
        // Epochs of one step.
        (
            &[b"a", b"bc"],
            &[],
            ("1", "1"),
            ok(295, 2),
            b"",
            b"epochs 8 squashes 0 steps 8 sent 0 end exit 2 state eadbb7a1aa17878ff239ffbc9f6c285743e6d276e04a7b6f2b42a812364cf060\n",
        ),
    ];
    for (pieces, clocks, steps, wanted, out, note) in cases {
        let came = recorded(
            &rt,
            rt.alloc(),
            &READS_TWICE,
            pieces,
            clocks,
            steps,
            out,
            note,
        )?;
        assert_eq!(rt; came, wanted);
    }
    Ok(())
}

// What a guest doesn't ask for changes nothing.
#[test]
fn no_input_is_asked_for(rt: HostRuntime) -> Result<(), Fail> {
    // the pieces, the clock, and the steps of an epoch and of a slice at most; the journal's bytes and how many takes,
    // the output, and the note
    let cases: [(&[&[u8]], &[u64], (&str, &str), Came, &[u8], &[u8]); 3] = [
        (
            &[],
            &[],
            ("20000", "1000"),
            ok(126, 0),
            b"",
            b"epochs 1 squashes 0 steps 3 sent 0 end exit 7 state 7721bc1cff3d699bd42bce08f27668ac407481c96f7b1c17878d62bfbd540ce7\n",
        ),
        (
            &[b"abc", b"d"],
            &[7, 8],
            ("20000", "1000"),
            ok(126, 0),
            b"",
            b"epochs 1 squashes 0 steps 3 sent 0 end exit 7 state 7721bc1cff3d699bd42bce08f27668ac407481c96f7b1c17878d62bfbd540ce7\n",
        ),
        (
            &[b""],
            &[0xffffffffffffffff],
            ("20000", "1000"),
            ok(126, 0),
            b"",
            b"epochs 1 squashes 0 steps 3 sent 0 end exit 7 state 7721bc1cff3d699bd42bce08f27668ac407481c96f7b1c17878d62bfbd540ce7\n",
        ),
    ];
    for (pieces, clocks, steps, wanted, out, note) in cases {
        let came = recorded(
            &rt,
            rt.alloc(),
            &EXITS_WORDS,
            pieces,
            clocks,
            steps,
            out,
            note,
        )?;
        assert_eq!(rt; came, wanted);
    }
    Ok(())
}

#[test]
fn edges_of_a_read(rt: HostRuntime) -> Result<(), Fail> {
    // the pieces, the clock, and the steps of an epoch and of a slice at most; the journal's bytes and how many takes,
    // the output, and the note
    let cases: [(&[&[u8]], &[u64], (&str, &str), Came, &[u8], &[u8]); 4] = [
        // What the read that may not write would have got, the next one gets.
        (
            &[b"abcdef", b"g"],
            &[],
            ("20000", "1000"),
            ok(338, 1),
            b"\x00\x00\x00\x00\xf7\xff\xff\xff\xf2\xff\xff\xff\xf2\xff\xff\xff\x03\x00\x00\x00\x03\x00\x00\x00abcdef",
            b"epochs 2 squashes 0 steps 48 sent 30 end exit 0 state 10a8f51b0d7b212ab83eaaa746a5e86d5ba097f7979c15ce8f6b628663cbcabb\n",
        ),
        (
            &[b"ab", b"cd", b"e"],
            &[],
            ("20000", "1000"),
            ok(356, 2),
            b"\x00\x00\x00\x00\xf7\xff\xff\xff\xf2\xff\xff\xff\xf2\xff\xff\xff\x02\x00\x00\x00\x02\x00\x00\x00ab\x00cd",
            b"epochs 3 squashes 0 steps 48 sent 29 end exit 0 state 8c7d1d899af187eb348d2b3ca34f77b496ab8a49722796913fa11b3d7a3f9077\n",
        ),
        (
            &[],
            &[],
            ("20000", "1000"),
            ok(332, 1),
            b"\x00\x00\x00\x00\xf7\xff\xff\xff\xf2\xff\xff\xff\xf2\xff\xff\xff\x00\x00\x00\x00\x00\x00\x00\x00\x00\x00\x00",
            b"epochs 2 squashes 0 steps 48 sent 27 end exit 0 state d62b9144f2224468b675bc2af0b7922c6aee7d4f276a244b0b7b51bc4c6aec1a\n",
        ),
        (
            &[b"abcdef"],
            &[],
            ("10", "3"),
            ok(482, 1),
            b"\x00\x00\x00\x00\xf7\xff\xff\xff\xf2\xff\xff\xff\xf2\xff\xff\xff\x03\x00\x00\x00\x03\x00\x00\x00abcdef",
            b"epochs 5 squashes 0 steps 48 sent 30 end exit 0 state 10a8f51b0d7b212ab83eaaa746a5e86d5ba097f7979c15ce8f6b628663cbcabb\n",
        ),
    ];
    for (pieces, clocks, steps, wanted, out, note) in cases {
        let came = recorded(
            &rt,
            rt.alloc(),
            &READ_EDGES,
            pieces,
            clocks,
            steps,
            out,
            note,
        )?;
        assert_eq!(rt; came, wanted);
    }
    Ok(())
}

#[test]
fn two_readers(rt: HostRuntime) -> Result<(), Fail> {
    // the pieces, the clock, and the steps of an epoch and of a slice at most; the journal's bytes and how many takes,
    // the output, and the note
    let cases: [(&[&[u8]], &[u64], (&str, &str), Came, &[u8], &[u8]); 10] = [
        // Thread 2 sees the end first.
        (
            &[b"abcde", b"fgh"],
            &[],
            ("20000", "5"),
            ok(423, 3),
            b"2ab1cd2e1fg2h",
            b"epochs 4 squashes 0 steps 96 sent 13 end exit 2 state 7fa449118f61724f02ed0cb49bfe057b4c5677cab9aa25f6f218eb005b9d98b1\n",
        ),
        (
            &[b"abcde", b"fgh"],
            &[],
            ("20000", "1"),
            ok(867, 3),
            b"2ab1cd2e1fg2h",
            b"epochs 4 squashes 0 steps 96 sent 13 end exit 2 state 7fa449118f61724f02ed0cb49bfe057b4c5677cab9aa25f6f218eb005b9d98b1\n",
        ),
        (
            &[b"abcde", b"fgh"],
            &[],
            ("20000", "2"),
            ok(591, 3),
            b"2ab1cd2e1fg2h",
            b"epochs 4 squashes 0 steps 96 sent 13 end exit 2 state 7fa449118f61724f02ed0cb49bfe057b4c5677cab9aa25f6f218eb005b9d98b1\n",
        ),
        (
            &[b"abcde", b"fgh"],
            &[],
            ("20000", "7"),
            ok(393, 3),
            b"2ab1cd2e1fg2h",
            b"epochs 4 squashes 0 steps 96 sent 13 end exit 2 state 7fa449118f61724f02ed0cb49bfe057b4c5677cab9aa25f6f218eb005b9d98b1\n",
        ),
        (
            &[b"abcde", b"fgh"],
            &[],
            ("20000", "11"),
            ok(375, 3),
            b"2ab1cd2e1fg2h",
            b"epochs 4 squashes 0 steps 96 sent 13 end exit 2 state 7fa449118f61724f02ed0cb49bfe057b4c5677cab9aa25f6f218eb005b9d98b1\n",
        ),
        (
            &[b"abcde", b"fgh"],
            &[],
            ("20000", "1000"),
            ok(327, 3),
            b"1ab1cd1e2fg2h",
            b"epochs 4 squashes 0 steps 96 sent 13 end exit 2 state b61618284b47c5ee64f3fc374675e144de067f172b4f1d4867be7ad04cfe6321\n",
        ),
        // Epochs end between.
        (
            &[b"abcde", b"fgh"],
            &[],
            ("9", "4"),
            ok(575, 3),
            b"1cd2ab2e1fg1h",
            b"epochs 11 squashes 0 steps 96 sent 13 end exit 1 state 9c8da26d1fd605f764b138833213cdce86c3c143e6f9bb6b1d5f73f9a21c4c0a\n",
        ),
        (
            &[b"a", b"b", b"c"],
            &[],
            ("1", "3"),
            ok(1_664, 4),
            b"2a1b2c",
            b"epochs 72 squashes 0 steps 72 sent 6 end exit 2 state ad66040abd9c1142b5979ea27f4976c050f8f7da9c2926d8ed9ae64e8b02232c\n",
        ),
        (
            &[b"abcdefghijkl"],
            &[],
            ("20000", "6"),
            ok(398, 2),
            b"1ab2cd1ef2gh1ij2kl",
            b"epochs 3 squashes 0 steps 108 sent 18 end exit 2 state e382ef92b5e72a4e14a3e7b8bec57bde1880e8353a8318e68794158e9ef61f6b\n",
        ),
        (
            &[],
            &[],
            ("20000", "6"),
            ok(282, 1),
            b"",
            b"epochs 2 squashes 0 steps 36 sent 0 end exit 2 state 7e624c10e637395b8384900c47747d1bcf93ff924fef1cdd1f061adc5a407e88\n",
        ),
    ];
    for (pieces, clocks, steps, wanted, out, note) in cases {
        let came = recorded(
            &rt,
            rt.alloc(),
            &TWO_READERS,
            pieces,
            clocks,
            steps,
            out,
            note,
        )?;
        assert_eq!(rt; came, wanted);
    }
    Ok(())
}

#[test]
fn a_reader_and_a_counter(rt: HostRuntime) -> Result<(), Fail> {
    // the pieces, the clock, and the steps of an epoch and of a slice at most; the journal's bytes and how many takes,
    // the output, and the note
    let cases: [(&[&[u8]], &[u64], (&str, &str), Came, &[u8], &[u8]); 6] = [
        // While thread 2 waits, thread 1 goes on, to the epoch's end.
        (
            &[b"ab", b"c"],
            &[],
            ("10", "1000"),
            ok(463, 3),
            b"abc",
            b"epochs 9 squashes 0 steps 85 sent 3 end exit 2 state 154bc5033b99f5e951ec42bf2618a994376fdaf8946ca6005eff43aff40d4c33\n",
        ),
        (
            &[b"ab", b"c"],
            &[],
            ("50", "1000"),
            ok(465, 3),
            b"abc",
            b"epochs 4 squashes 0 steps 155 sent 3 end exit 2 state 28568dbad709cf566ed3b6f6e11953d68171933b5ded126534d190e73078edd5\n",
        ),
        (
            &[b"ab", b"c"],
            &[],
            ("50", "2"),
            ok(771, 3),
            b"abc",
            b"epochs 4 squashes 0 steps 158 sent 3 end exit 2 state 0f3044ade5601af1c23e54f17f3a9f29085a6c35813f34668333ad87d0cb8fe6\n",
        ),
        (
            &[b"ab", b"c"],
            &[],
            ("7", "3"),
            ok(677, 3),
            b"abc",
            b"epochs 14 squashes 0 steps 95 sent 3 end exit 2 state 7a797d52d15e874f3e96263c8849988d43dd1aa540c3dda5c8f4c08987eecf26\n",
        ),
        (
            &[b"ab", b"c"],
            &[],
            ("200", "5"),
            ok(1_191, 3),
            b"abc",
            b"epochs 4 squashes 0 steps 605 sent 3 end exit 2 state 93f488e6ffb6256f5bf786dd2d39af5c97f8440e0d5792c46e114dcbb6e23e20\n",
        ),
        (
            &[],
            &[],
            ("30", "1000"),
            ok(275, 1),
            b"",
            b"epochs 2 squashes 0 steps 35 sent 0 end exit 2 state 2971a83dc06e78bee63f0cafd038ac3936d1bde7872c3eedc4fedf5caf2320c9\n",
        ),
    ];
    for (pieces, clocks, steps, wanted, out, note) in cases {
        let came = recorded(
            &rt,
            rt.alloc(),
            &READER_AND_COUNTER,
            pieces,
            clocks,
            steps,
            out,
            note,
        )?;
        assert_eq!(rt; came, wanted);
    }
    Ok(())
}
