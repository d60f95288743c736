// The line, the status, and that only Out is used. Steps and digests come from a model of the machine,
// the racer and the schedule that is a script of its own.
ghost use Rattle.std.specs.Prelude.{◌<◌};

use disk_model::{OpenGate, Stream};
use dp_report::Status;
use dp_top::run;
use racing_runner::IdleRacer;
use std::alloc::Global;
use std::sync::Wait;
use std::test::Fail;
use std::thread::Threads;
use test_worlds::{Failing, file_named, inlet_of, texts_of, world_of};

const LINE_0: &[u8] =
    b"selftest 0: epochs 1 squashes 0 steps 114 sent 9 end exit 0 state 8e0b7d265031df6b832fccfd0c387725611f87397d4e207b103f91d508a1ee88\n";

const LINE_23: &[u8] =
    b"selftest 23: epochs 1 squashes 0 steps 737 sent 9 end exit 0 state 3ecc7082c1a7a276338e0b70c9c0bbb1f59b8a6f53346e14dbc974554fdf6d1f\n";

const LINE_7999: &[u8] =
    b"selftest 7999: epochs 8 squashes 0 steps 147806 sent 9 end exit 0 state e4410d08c6e90581703c9d7f4b830664959148a19ff52b746ac94bc53f63cef1\n";

// The first offer of racer 7969 is spoilt, and the second one of racer 7975 is the first one again.
const LINE_7969: &[u8] =
    b"selftest 7969: epochs 2 squashes 1 steps 36236 sent 9 end exit 0 state 6d8c85012973ec3326f37a47300bd903a047bec09830ed99fe608f3ea7420663\n";

const LINE_7975: &[u8] =
    b"selftest 7975: epochs 8 squashes 3 steps 147660 sent 9 end exit 0 state 7968686eca227ad3fda945bfd1ee3e67077f8fe84c71bbe91b3e2637c8a9863f\n";

// The steps of the guests from 0 on, of which each runs in one epoch.
const STEPS: [u32; 41] = [
    114, 167, 214, 261, 308, 355, 402, 449, 132, 203, 268, 333, 399, 464, 529, 593, 150, 239, 322,
    406, 489, 571, 654, 737, 168, 275, 377, 477, 578, 679, 781, 881, 186, 312, 431, 549, 668, 788,
    906, 1025, 204,
];

// Emits of sixteen bytes that the first line takes.
const EMITS: usize = 9;

const DISK: &[u8] = b"what was on the disk";

// What came of a self-test: its status, what it sent on Out, and what on Note.
type Came = (Status, Vec<u8>, Vec<u8>);

// A self-test on a guest, if some emits fail and each takes so many bytes at most. Each other call on the outside
// fails.
fn tested<R: Threads + Wait + Sync>(
    rt: &R,
    alloc: Global,
    n: u32,
    sink: Failing,
    piece: u32,
) -> Result<Came, Fail>
    requires { 0 < piece }
{
    let number = format!(in alloc; "{n}")?;
    let words = texts_of(alloc, &["dpcli", "selftest", number.as_str()])?;
    let mut files = file_named(alloc, "g", b"", Failing::From(1))?;
    let mut inlet = inlet_of(alloc, &[b"abc"], &[7], Failing::From(1))?;
    let world = world_of(alloc, Failing::From(1), sink, piece)?.of_disk(alloc, DISK)?;
    let (world, status) = run(
        rt, alloc, &words, &mut files, &mut inlet, world, IdleRacer, &OpenGate,
    );
    if world.disk_calls() != 0 || world.bytes() != DISK || inlet.takes() != 0 {
        return Err("a self-test only sends its line".into());
    }
    let sent = world.sent(Stream::Out).to_vec(alloc)?;
    let noted = world.sent(Stream::Note).to_vec(alloc)?;
    Ok((status, sent, noted))
}

// Whether a self-test comes to this.
fn comes_to<R: Threads + Wait + Sync>(
    rt: &R,
    alloc: Global,
    n: u32,
    sink: Failing,
    piece: u32,
    expected: (Status, &[u8], &[u8]),
) -> Result<bool, Fail>
    requires { 0 < piece }
{
    let (status, sent, noted) = tested(rt, alloc, n, sink, piece)?;
    let (wanted, line, note) = expected;
    Ok(status == wanted && sent.as_slice() == line && noted.as_slice() == note)
}

// Whether a self-test answers `Ok` with this line.
fn says<R: Threads + Wait + Sync>(
    rt: &R,
    alloc: Global,
    n: u32,
    line: &[u8],
) -> Result<bool, Fail> {
    comes_to(rt, alloc, n, Failing::Never, 4096, (Status::Ok, line, b""))
}

#[test]
fn lines(rt: HostRuntime) -> Result<(), Fail> {
    let alloc = rt.alloc();
    for _ in 0..2 {
        assert!(rt; says(&rt, alloc, 0, LINE_0)?);
        assert!(rt; says(&rt, alloc, 23, LINE_23)?);
    }
    Ok(())
}

// Eight threads, each of which makes 1,000 rounds.
#[test]
fn the_longest_guest(rt: HostRuntime) -> Result<(), Fail> {
    assert!(rt; says(&rt, rt.alloc(), 7999, LINE_7999)?);
    Ok(())
}

// What the racer of a number spoils is squashed.
#[test]
fn spoilt_offers(rt: HostRuntime) -> Result<(), Fail> {
    assert!(rt; says(&rt, rt.alloc(), 7969, LINE_7969)?);
    assert!(rt; says(&rt, rt.alloc(), 7975, LINE_7975)?);
    Ok(())
}

// The line of a guest up to its digest, if it runs in one epoch of so many steps.
fn beginning(alloc: Global, n: u32, steps: u32) -> Result<String, Fail> {
    Ok(format!(in alloc;
        "selftest {n}: epochs 1 squashes 0 steps {steps} sent 9 end exit 0 state "
    )?)
}

// Whether a self-test says this much of a guest.
fn begins_as_expected<R: Threads + Wait + Sync>(
    rt: &R,
    alloc: Global,
    n: u32,
    steps: u32,
) -> Result<bool, Fail> {
    let (status, sent, noted) = tested(rt, alloc, n, Failing::Never, 4096)?;
    let text = beginning(alloc, n, steps)?;
    Ok(
        status == Status::Ok
            && noted.is_empty()
            && sent.starts_with(text.as_bytes())
            && sent.len().saturating_sub(text.len()) == 65,
    )
}

#[test]
fn guests_of_one_epoch(rt: HostRuntime) -> Result<(), Fail> {
    for n in 0..STEPS.len() {
        assert!(rt;
            begins_as_expected(&rt, rt.alloc(), n as u32, STEPS[n])?,
            "guest {n}"
        );
    }
    Ok(())
}

// Emits of sixteen bytes: the one with this number fails, and then all from it on. What was sent before it stays sent.
fn emit_fails<R: Threads + Wait + Sync>(
    rt: &R,
    alloc: Global,
    number: usize,
) -> Result<bool, Fail> {
    let (before, _) = LINE_0.split_at(
        number
            .saturating_sub(1)
            .saturating_mul(16)
            .min(LINE_0.len()),
    );
    let line: &[u8] = b"dpcli: output failed\n";
    let (one, all) = (Failing::At(number as u64), Failing::From(number as u64));
    Ok(
        comes_to(rt, alloc, 0, one, 16, (Status::OutputFault, before, line))?
            && comes_to(rt, alloc, 0, all, 16, (Status::OutputFault, before, b""))?,
    )
}

#[test]
fn each_emit_fails(rt: HostRuntime) -> Result<(), Fail> {
    for number in 1..=EMITS {
        assert!(rt; emit_fails(&rt, rt.alloc(), number)?, "emit {number}");
    }
    let after = Failing::From(EMITS as u64 + 1);
    assert!(rt; comes_to(&rt, rt.alloc(), 0, after, 16, (Status::Ok, LINE_0, b""))?);
    Ok(())
}
