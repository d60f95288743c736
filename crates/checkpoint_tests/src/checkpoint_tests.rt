// A guest of 96 bytes, as it starts and as it ends.
ghost use Rattle.std.specs.Prelude.{◌≡◌, IfOk};
ghost use Rattle.checkpoint.specs.State.{IsEncodable};

use checkpoint::{decode, digest, encode, laws};
use dp_base::{Slice, Tid};
use guest_kernel::{SliceRun, State, start_from_file};
use std::alloc::Global;
use std::test::Fail;
use test_files::{EXITS, replaced};

// SHA-256 of the 69,883 bytes of the state in which it ends, which were written out from the format's tables.
const DIGEST: [u8; 32] = [
    0x77, 0x21, 0xbc, 0x1c, 0xff, 0x3d, 0x69, 0x9b, 0xd4, 0x2b, 0xce, 0x08, 0xf2, 0x76, 0x68, 0xac,
    0x40, 0x74, 0x81, 0xc9, 0x6f, 0x7b, 0x1c, 0x17, 0x87, 0x8d, 0x62, 0xbf, 0xbd, 0x54, 0x0c, 0xe7,
];

pub(crate) fn started(alloc: Global, file: &[u8]) -> Result<State, Fail>
    ensures encodable { IfOk result IsEncodable }
    ensures steps { IfOk result (λ state. state.steps ≡ 0) }
    ensures input { IfOk result (λ state. state.input ≡ 0) }
{
    laws::a_start_state_is_encodable();
    Ok(start_from_file(alloc, file)?)
}

fn ended(alloc: Global) -> Result<State, Fail>
    ensures { IfOk result IsEncodable }
{
    laws::a_run_keeps_a_state_encodable();
    let mut state = started(alloc, &EXITS)?;
    let slices = [Slice {
        tid: Tid(1),
        steps: 3,
    }];
    let mut out = Vec::new(alloc);
    match state.run_slices(alloc, &slices, &[], &mut out)? {
        SliceRun::Whole if state.steps == 3 && state.input == 0 => Ok(state),
        _ => Err("the guest takes three steps and reads nothing".into()),
    }
}

// The bytes of the state that these are; no byte if they are no state's.
fn encoded_again(alloc: Global, body: &[u8]) -> Result<Vec<u8>, Fail> {
    match decode(alloc, body)? {
        Some(state) => Ok(encode(alloc, &state)?),
        None => Ok(Vec::new(alloc)),
    }
}

#[test]
fn encodings(rt: HostRuntime) -> Result<(), Fail> {
    let alloc = rt.alloc();
    let bytes = encode(alloc, &started(alloc, &EXITS)?)?;
    assert_eq!(rt; bytes.len(), 69_879);
    assert_eq!(rt; encoded_again(alloc, &bytes)?, bytes);
    let mut shorter = bytes.clone()?;
    shorter.pop();
    assert_eq!(rt; encoded_again(alloc, &shorter)?.len(), 0);
    let mut longer = bytes.clone()?;
    longer.push(0)?;
    assert_eq!(rt; encoded_again(alloc, &longer)?.len(), 0);
    // The k-th page, from 0 on, begins at 162 + 4,101 k with its number; its flags are 4 bytes further on.
    let cases: [(usize, &[u8], bool); 9] = [
        // 3 steps; a break one above the heap's start
        (0, &[3], true),
        (20, &[1, 0x10, 1, 0], true),
        // a break below the heap's start; a heap that starts inside a page
        (20, &[0xff, 0x0f, 1, 0], false),
        (16, &[1, 0x10, 1, 0, 1, 0x10, 1, 0], false),
        // a fifth kind of end; no thread
        (24, &[4], false),
        (25, &[0, 0], false),
        // flags of 8; a page of the number of the one before; a page that can't be
        (166, &[8], false),
        (4263, &[0x10, 0, 0, 0], false),
        (65_778, &[0xff, 0xff, 0x0f, 0], false),
    ];
    for (offset, new, is) in cases {
        let body = replaced(alloc, &bytes, offset, new.len(), new)?;
        let again = encoded_again(alloc, &body)?;
        assert!(rt; body != bytes, "at {offset}");
        assert_eq!(rt; again == body, is, "at {offset}");
        assert_eq!(rt; again.is_empty(), !is, "at {offset}");
    }
    Ok(())
}

#[test]
fn digests(rt: HostRuntime) -> Result<(), Fail> {
    let state = ended(rt.alloc())?;
    assert_eq!(rt; digest(&state), DIGEST);
    Ok(())
}
