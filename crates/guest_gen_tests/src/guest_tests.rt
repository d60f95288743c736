// Made guests, from their files to their ends.
ghost use Rattle.std.specs.Prelude.{◌<◌, ◌≤◌};
ghost use Rattle.dp_base.specs.declared.limits.TheConstants.{MAX_EPOCH_STEPS};

use dp_base::limits::MAX_EPOCH_STEPS;
use epoch_runner::{Bounds, Ran, run_epoch};
use guest_gen::make;
use guest_kernel::{End, State, start_from_file};
use std::alloc::Global;
use std::test::Fail;
use supply::Supply;
use sync_hints::Hints;
use test_files::{HEADERS_END, HEADERS_START};

// What a guest has written, how it has ended, and how many threads it has made.
type Seen = (Vec<u8>, End, usize);

// The next epoch of a guest without input, of so many steps in slices of so many. `None` if nothing can run.
fn next_epoch(
    alloc: Global,
    state: State,
    steps: u32,
    slice: u32,
    out: &mut Vec<u8>,
) -> Result<State, Fail>
    requires steps { steps ≤ MAX_EPOCH_STEPS }
    requires slice { 0 < slice }
{
    if state.steps > 1 << 62 || state.input > 1 << 62 {
        return Err("few steps".into());
    }
    let bounds = Bounds {
        steps,
        slice,
        first: 1,
    };
    let supply = Supply::new(alloc, 1)?;
    match run_epoch(alloc, state, &Hints::none(alloc), &supply, bounds)? {
        Ran::Idle(_) => Err("a thread can run".into()),
        Ran::Epoch(run) => {
            out.extend_from_slice(run.out.as_slice())?;
            Ok(run.end)
        }
    }
}

// What guest `n` comes to in at most 1,000 epochs.
fn ran(alloc: Global, n: u32, steps: u32, slice: u32) -> Result<Seen, Fail>
    requires steps { steps ≤ MAX_EPOCH_STEPS }
    requires slice { 0 < slice }
{
    let mut state = start_from_file(alloc, &make(alloc, n)?)?;
    let mut out = Vec::new(alloc);
    for _ in 0..1000 {
        if state.ended() {
            break;
        }
        state = next_epoch(alloc, state, steps, slice, &mut out)?;
    }
    Ok((out, state.end, state.threads.len()))
}

// The lower-case hexadecimal digit of a number below 16.
fn digit(number: u32) -> u8 {
    b"0123456789abcdef"[(number % 16) as usize]
}

// What guest `n` is to come to: its threads each count its rounds.
fn expected(alloc: Global, n: u32) -> Result<Seen, Fail> {
    let threads = 1 + n % 8;
    let rounds = 1 + n / 8 % 1000;
    let total = threads * rounds;
    let mut text = Vec::new(alloc);
    for shift in [28u32, 24, 20, 16, 12, 8, 4, 0] {
        text.push(digit(total >> shift))?;
    }
    text.push(b'\n')?;
    Ok((text, End::Exit(0), threads as usize))
}

// Whether guest `n` comes to that.
fn is_as_expected(alloc: Global, n: u32, steps: u32, slice: u32) -> Result<bool, Fail>
    requires steps { steps ≤ MAX_EPOCH_STEPS }
    requires slice { 0 < slice }
{
    let (text, end, threads) = ran(alloc, n, steps, slice)?;
    let (wanted, wanted_end, wanted_threads) = expected(alloc, n)?;
    Ok(text.as_slice() == wanted.as_slice() && end == wanted_end && threads == wanted_threads)
}

// The first guest of those below a number that doesn't come to it.
fn first_wrong(alloc: Global, numbers: u32, steps: u32, slice: u32) -> Result<Option<u32>, Fail>
    requires steps { steps ≤ MAX_EPOCH_STEPS }
    requires slice { 0 < slice }
{
    for n in 0..numbers {
        if !is_as_expected(alloc, n, steps, slice)? {
            return Ok(Some(n));
        }
    }
    Ok(None)
}

// What a guest prints in one epoch.
fn printed(alloc: Global, n: u32) -> Result<Vec<u8>, Fail> {
    let (text, _, _) = ran(alloc, n, MAX_EPOCH_STEPS, 1000)?;
    Ok(text)
}

#[test]
fn guests_by_hand(rt: HostRuntime) -> Result<(), Fail> {
    let alloc = rt.alloc();
    // one thread and one round; eight threads and three rounds; the same again after 8,000
    assert!(rt; printed(alloc, 0)?.as_slice() == b"00000001\n".as_slice());
    assert!(rt; printed(alloc, 23)?.as_slice() == b"00000018\n".as_slice());
    assert!(rt; printed(alloc, 8023)?.as_slice() == b"00000018\n".as_slice());
    Ok(())
}

// The fewest steps of a slice in which a lock can be taken are three: LR, a branch and SC.
#[test]
fn guests_in_slices_of_several_lengths(rt: HostRuntime) -> Result<(), Fail> {
    let alloc = rt.alloc();
    assert_eq!(rt; first_wrong(alloc, 41, MAX_EPOCH_STEPS, 3)?, None);
    assert_eq!(rt; first_wrong(alloc, 41, MAX_EPOCH_STEPS, 4)?, None);
    assert_eq!(rt; first_wrong(alloc, 41, MAX_EPOCH_STEPS, 7)?, None);
    assert_eq!(rt; first_wrong(alloc, 41, MAX_EPOCH_STEPS, 1000)?, None);
    Ok(())
}

#[test]
fn guests_in_several_epochs(rt: HostRuntime) -> Result<(), Fail> {
    let alloc = rt.alloc();
    assert_eq!(rt; first_wrong(alloc, 41, 13, 7)?, None);
    assert_eq!(rt; first_wrong(alloc, 41, 100, 30)?, None);
    Ok(())
}

// Eight threads, each of which makes 1,000 rounds.
#[test]
fn the_longest_guest(rt: HostRuntime) -> Result<(), Fail> {
    let alloc = rt.alloc();
    assert!(rt; printed(alloc, 7999)?.as_slice() == b"00001f40\n".as_slice());
    Ok(())
}

// Whether a made guest's file has the headers of a file of one segment, with its own length.
fn has_headers(alloc: Global, n: u32) -> Result<bool, Fail> {
    let file = make(alloc, n)?;
    let size = (file.len().min(1 << 20) as u32).to_le_bytes();
    let mut headers = HEADERS_START.to_vec(alloc)?;
    headers.extend_from_slice(&size)?;
    headers.extend_from_slice(&size)?;
    headers.extend_from_slice(&HEADERS_END)?;
    Ok(file.starts_with(&headers))
}

#[test]
fn headers(rt: HostRuntime) -> Result<(), Fail> {
    let alloc = rt.alloc();
    assert!(rt; has_headers(alloc, 0)?);
    assert!(rt; has_headers(alloc, u32::MAX)?);
    Ok(())
}
