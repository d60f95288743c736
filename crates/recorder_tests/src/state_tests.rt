// States that are encoded, decoded and compared, and lists that are given back.
ghost use Rattle.std.specs.Prelude.{IfOk};
ghost use Rattle.checkpoint.specs.State.{IsEncodable};

use checkpoint::{decode, encode};
use disk_mem::CallNumbers;
use dp_base::Bytes;
use guest_kernel::{State, start_from_file};
use state_compare::equal;
use std::alloc::Global;
use std::test::Fail;
use test_files::EXITS;

#[test]
fn lists_given_back(rt: HostRuntime) -> Result<(), Fail> {
    let numbers = CallNumbers::from_vec([4, 1].to_vec(rt.alloc())?).into_vec();
    assert_eq!(rt; numbers.as_slice(), [4, 1].as_slice());
    let bytes = Bytes::from_vec(b"ab".to_vec(rt.alloc())?).into_vec();
    assert_eq!(rt; bytes.as_slice(), b"ab".as_slice());
    Ok(())
}

fn started(alloc: Global, file: &[u8]) -> Result<State, Fail>
    ensures { IfOk result IsEncodable }
{
    checkpoint::laws::a_start_state_is_encodable();
    Ok(start_from_file(alloc, file)?)
}

// Whether what these bytes decode to equals a state, and the other way round.
fn decoded_equals(alloc: Global, bytes: &[u8], state: &State) -> Result<[bool; 2], Fail> {
    let Some(other) = decode(alloc, bytes)? else {
        return Err("the bytes are a state's".into());
    };
    Ok([equal(&other, state), equal(state, &other)])
}

// The same where the byte at this place is another.
fn changed_equals(
    alloc: Global,
    encoding: &[u8],
    place: usize,
    state: &State,
) -> Result<[bool; 2], Fail> {
    let mut bytes = encoding.to_vec(alloc)?;
    if let Some(byte) = bytes.get_mut(place) {
        *byte ^= 1;
    }
    decoded_equals(alloc, &bytes, state)
}

// A start state has 69,879 bytes: 8 + 8 + 4 + 4 + 1 + 2, a thread's 133, and 2 + 17 pages of 4,101. What they decode to
// equals it, and with another byte in each part of the bytes it doesn't.
#[test]
fn states_decoded_and_compared(rt: HostRuntime) -> Result<(), Fail> {
    let alloc = rt.alloc();
    let state = started(alloc, &EXITS)?;
    let encoding = encode(alloc, &state)?;
    let same = decoded_equals(alloc, &encoding, &state)?;
    assert_eq!(rt; (encoding.len(), same), (69_879, [true; 2]));
    // the steps, the input, the break, the thread's clear, x1 and x31, a page's flags, its last byte, and the last
    // page's
    for place in [0, 8, 20, 32, 36, 156, 166, 4_262, 69_878] {
        let same = changed_equals(alloc, &encoding, place, &state)?;
        assert_eq!(rt; same, [false; 2], "byte {place}");
    }
    Ok(())
}
