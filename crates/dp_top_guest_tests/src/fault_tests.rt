// Each take of an input fails in turn: by itself, and with all after it. The recording stops there, and what it has
// committed plays. The values come from the model that `read_tests` has.
use super::*;
use crate::recorded::{Came, came_to, ok};
use dp_report::Status;
use std::alloc::Global;
use std::sync::Wait;
use std::test::Fail;
use std::thread::Threads;
use test_worlds::{Failing, inlet_of};

const LINE: &[u8] = b"dpcli: input failed\n";

// What a recording comes to whose take with this number fails, and where all from it on fail.
fn failed<R: Threads + Wait + Sync>(
    rt: &R,
    alloc: Global,
    words: &[u32],
    pieces: &[&[u8]],
    take: u64,
    steps: (&str, &str),
    out: &[u8],
    note: &[u8],
) -> Result<(Came, Came), Fail> {
    let once = inlet_of(alloc, pieces, &[], Failing::At(take))?;
    let ever = inlet_of(alloc, pieces, &[], Failing::From(take))?;
    Ok((
        came_to(rt, alloc, words, once, steps, out, (LINE, note))?,
        came_to(rt, alloc, words, ever, steps, out, (LINE, note))?,
    ))
}

// A recording that stops at a take, and its replay.
fn fault(journal: usize, takes: u64) -> Came {
    Came {
        status: Status::InputFault,
        ..ok(journal, takes)
    }
}

#[test]
fn number_of_the_status(rt: HostRuntime) -> Result<(), Fail> {
    assert_eq!(rt; Status::InputFault.number(), 5);
    Ok(())
}

#[test]
fn two_reads(rt: HostRuntime) -> Result<(), Fail> {
    // the take that fails; the journal's bytes, the output, and the replay's note
    let cases: [(u64, usize, &[u8], &[u8]); 2] = [
        (
            1,
            146,
            b"",
            b"epochs 1 squashes 0 steps 3 sent 0 end none state fb1e083ccc10c9de9c414e21e78fe0f088682df4d0fef57e38c2077b219dd820\n",
        ),
        (
            2,
            172,
            b"",
            b"epochs 2 squashes 0 steps 5 sent 0 end none state c924e94f2b980a4ad8961cf0ed6282d4c71c9426dad43a2649684e6f8f13a6c2\n",
        ),
    ];
    let pieces: &[&[u8]] = &[b"abc"];
    for (take, journal, out, note) in cases {
        let both = failed(
            &rt,
            rt.alloc(),
            &READS_TWICE,
            pieces,
            take,
            ("20000", "1000"),
            out,
            note,
        )?;
        assert_eq!(rt;
            both,
            (fault(journal, take), fault(journal, take)),
            "take {take}"
        );
    }
    // after the last take
    let note =
        b"epochs 3 squashes 0 steps 8 sent 0 end exit 0 state 44e085ae0ee54d6520e1458b2e88945eb49ddcda4841a97589c6f175eb5502b3\n";
    let inlet = inlet_of(rt.alloc(), pieces, &[], Failing::From(3))?;
    let came = came_to(
        &rt,
        rt.alloc(),
        &READS_TWICE,
        inlet,
        ("20000", "1000"),
        b"",
        (note, note),
    )?;
    assert_eq!(rt; came, ok(195, 2));
    Ok(())
}

#[test]
fn a_filter(rt: HostRuntime) -> Result<(), Fail> {
    // the take that fails; the journal's bytes, the output, and the replay's note
    let cases: [(u64, usize, &[u8], &[u8]); 4] = [
        (
            1,
            194,
            b"",
            b"epochs 1 squashes 0 steps 8 sent 0 end none state ca2ce5d93952a309b20a92d6f85c6b78d699e7e5bcd452091e33843eb6564d34\n",
        ),
        (
            2,
            226,
            b"abcdef",
            b"epochs 2 squashes 0 steps 32 sent 6 end none state 4f1621b7d173e7db70b1bd77c95d1a568947c55b949f77cffd026f8df439dd23\n",
        ),
        (
            3,
            251,
            b"abcdefgh",
            b"epochs 3 squashes 0 steps 44 sent 8 end none state 073c8c9d0047d1d396e0bf7a34fa9d1a9e8ddd3e163f6d80dfaf9ce1c6c67a42\n",
        ),
        (
            4,
            282,
            b"abcdefghijklm",
            b"epochs 4 squashes 0 steps 68 sent 13 end none state 619357a94210ce3075f7a430d902ee8a566d295432c9a8e0351e527231613b4c\n",
        ),
    ];
    let mut words = FILTER.to_vec(rt.alloc())?;
    words.push(4)?;
    let pieces: &[&[u8]] = &[b"abcdef", b"gh", b"ijklm"];
    for (take, journal, out, note) in cases {
        let both = failed(
            &rt,
            rt.alloc(),
            &words,
            pieces,
            take,
            ("20000", "1000"),
            out,
            note,
        )?;
        assert_eq!(rt;
            both,
            (fault(journal, take), fault(journal, take)),
            "take {take}"
        );
    }
    // after the last take
    let note =
        b"epochs 5 squashes 0 steps 73 sent 13 end exit 0 state 6f725d84139e9a028e6f0f6e9f1e768c718a5f46199438ae67fa25343a1b5d3a\n";
    let inlet = inlet_of(rt.alloc(), pieces, &[], Failing::From(5))?;
    let came = came_to(
        &rt,
        rt.alloc(),
        &words,
        inlet,
        ("20000", "1000"),
        b"abcdefghijklm",
        (note, note),
    )?;
    assert_eq!(rt; came, ok(305, 4));
    Ok(())
}

#[test]
fn two_readers(rt: HostRuntime) -> Result<(), Fail> {
    // the take that fails; the journal's bytes, the output, and the replay's note
    let cases: [(u64, usize, &[u8], &[u8]); 4] = [
        (
            1,
            256,
            b"",
            b"epochs 1 squashes 0 steps 26 sent 0 end none state 4a0368f81d026913a346230d88bc8c116f64a36e102ffb40fc98883835ef57ee\n",
        ),
        (
            2,
            332,
            b"2ab1cd2e",
            b"epochs 2 squashes 0 steps 62 sent 8 end none state ad73aba0f3d773a06e0cfadf0520fe296a32ec872a690f84f5d751d81a8eaa0b\n",
        ),
        (
            3,
            368,
            b"2ab1cd2e1f",
            b"epochs 3 squashes 0 steps 74 sent 10 end none state 6819e3fb1a20987b4df375d5ffc94bc5ef716d6d37859ce4d3b7ce06059dd89e\n",
        ),
        (
            4,
            405,
            b"2ab1cd2e1f2gh",
            b"epochs 4 squashes 0 steps 86 sent 13 end none state 6c38d3266bc36e1cc302d20bc0cfa254342e7f51fefc4d296622e6209e02f728\n",
        ),
    ];
    let pieces: &[&[u8]] = &[b"abcde", b"f", b"gh"];
    for (take, journal, out, note) in cases {
        let both = failed(
            &rt,
            rt.alloc(),
            &TWO_READERS,
            pieces,
            take,
            ("20000", "5"),
            out,
            note,
        )?;
        assert_eq!(rt;
            both,
            (fault(journal, take), fault(journal, take)),
            "take {take}"
        );
    }
    // after the last take
    let note =
        b"epochs 5 squashes 0 steps 96 sent 13 end exit 2 state 1d19ffd48666c0dae372e74ccf7e2988d6041491d0ccb4011211af7b8322f7c8\n";
    let inlet = inlet_of(rt.alloc(), pieces, &[], Failing::From(5))?;
    let came = came_to(
        &rt,
        rt.alloc(),
        &TWO_READERS,
        inlet,
        ("20000", "5"),
        b"2ab1cd2e1f2gh",
        (note, note),
    )?;
    assert_eq!(rt; came, ok(437, 4));
    Ok(())
}

#[test]
fn a_reader_and_a_counter(rt: HostRuntime) -> Result<(), Fail> {
    // the take that fails; the journal's bytes, the output, and the replay's note
    let cases: [(u64, usize, &[u8], &[u8]); 3] = [
        (
            1,
            246,
            b"",
            b"epochs 1 squashes 0 steps 20 sent 0 end none state 2c41d47c9894342fc70fbb7cff9066a1d045467d61af277b7257ce128bc41583\n",
        ),
        (
            2,
            342,
            b"ab",
            b"epochs 3 squashes 0 steps 60 sent 2 end none state d470b033657f433858601c4a27f2aef45a3fdd864a472a08f166a430fb65c735\n",
        ),
        (
            3,
            390,
            b"abc",
            b"epochs 4 squashes 0 steps 80 sent 3 end none state a95079048a448d613766eee3365224064f6c17890258530458f1616792e80dbd\n",
        ),
    ];
    let pieces: &[&[u8]] = &[b"ab", b"c"];
    for (take, journal, out, note) in cases {
        let both = failed(
            &rt,
            rt.alloc(),
            &READER_AND_COUNTER,
            pieces,
            take,
            ("20", "7"),
            out,
            note,
        )?;
        assert_eq!(rt;
            both,
            (fault(journal, take), fault(journal, take)),
            "take {take}"
        );
    }
    // after the last take
    let note =
        b"epochs 5 squashes 0 steps 85 sent 3 end exit 2 state 154bc5033b99f5e951ec42bf2618a994376fdaf8946ca6005eff43aff40d4c33\n";
    let inlet = inlet_of(rt.alloc(), pieces, &[], Failing::From(4))?;
    let came = came_to(
        &rt,
        rt.alloc(),
        &READER_AND_COUNTER,
        inlet,
        ("20", "7"),
        b"abc",
        (note, note),
    )?;
    assert_eq!(rt; came, ok(413, 3));
    Ok(())
}
