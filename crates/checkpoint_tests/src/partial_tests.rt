// Partial marks of states against a base. The states differ from the one in which a guest of 124 bytes starts.
ghost use Rattle.std.specs.Prelude.{IfOk};
ghost use Rattle.checkpoint.specs.State.{IsEncodable};

use crate::checkpoint_tests::started;
use checkpoint::{decode, decode_partial, encode, encode_partial};
use guest_kernel::State;
use partial_mark::{is_partial, read_partial_page, skip_partial};
use std::alloc::Global;
use std::test::Fail;
use test_files::{WRITES, replaced};

// The bytes of the start state's pages from the k-th on, from 0, begin at 162 + 4,101 k. It has 17: one of code and 16
// of stack.
const PAGES: usize = 162;

const PAGE: usize = 4101;

// Up to the pages, the state after the first turn: a step, no input, an empty heap from 00011000 on, no end; one
// thread, which runs at 00010058 with no clear-on-exit address, 7FFFFFE0 in x2 and 1 in x10. Its other registers are 0.
const BEFORE_REGISTERS: [u8; 36] = [
    1, 0, 0, 0, 0, 0, 0, 0, 0, 0, 0, 0, 0, 0, 0, 0, 0, 0x10, 1, 0, 0, 0x10, 1, 0, 0, 1, 0, 0, 0x58,
    0, 1, 0, 0, 0, 0, 0,
];

fn start(alloc: Global) -> Result<Vec<u8>, Fail> {
    let state = started(alloc, &WRITES)?;
    Ok(encode(alloc, &state)?)
}

fn state_of(alloc: Global, body: &[u8]) -> Result<State, Fail>
    ensures { IfOk result IsEncodable }
{
    match decode(alloc, body)? {
        Some(state) => Ok(state),
        None => Err("the bytes are a state's".into()),
    }
}

// The partial mark of one state against another.
fn against(alloc: Global, body: &[u8], base: &[u8]) -> Result<Vec<u8>, Fail> {
    let state = state_of(alloc, body)?;
    let base = state_of(alloc, base)?;
    Ok(encode_partial(alloc, &state, &base)?)
}

// The encoding of the state that a partial mark stands for; no byte if it stands for none.
fn restored(alloc: Global, partial: &[u8], base: &[u8]) -> Result<Vec<u8>, Fail> {
    let base = state_of(alloc, base)?;
    match decode_partial(alloc, partial, &base)? {
        Some(state) => Ok(encode(alloc, &state)?),
        None => Ok(Vec::new(alloc)),
    }
}

#[derive(Clone, Copy, Debug)]
enum Change {
    Nothing,
    Stepped,
    // a byte of the first page; the last byte of the last page
    Stored,
    StoredLast,
    // a heap of one page; another number for the first page
    Mapped,
    Moved,
    Unmapped,
    Flagged,
    // no page at all
    Emptied,
}

// The bytes with `count` of them, from an offset on, replaced by others.
fn patched(
    alloc: Global,
    bytes: &[u8],
    at: usize,
    count: usize,
    by: &[u8],
) -> Result<Vec<u8>, Fail> {
    Ok(replaced(alloc, bytes, at, count, by)?)
}

// So many of the bytes, from an offset on.
fn part(alloc: Global, bytes: &[u8], at: usize, count: usize) -> Result<Vec<u8>, Fail> {
    let rest = patched(alloc, bytes, 0, at, &[])?;
    patched(alloc, &rest, count, rest.len(), &[])
}

// The state after the first turn.
fn stepped(alloc: Global, base: &[u8]) -> Result<Vec<u8>, Fail> {
    let body = patched(alloc, base, 0, 1, &[1])?;
    let body = patched(alloc, &body, 28, 1, &[0x58])?;
    patched(alloc, &body, 72, 1, &[1])
}

// The state with a heap of one page of zeros.
fn mapped(alloc: Global, base: &[u8]) -> Result<Vec<u8>, Fail> {
    let mut page = [0; PAGE];
    page[0] = 0x11;
    page[4] = 6;
    let body = patched(alloc, base, 20, 4, &[0, 0x20, 1, 0])?;
    let body = patched(alloc, &body, PAGES - 2, 2, &[18, 0])?;
    patched(alloc, &body, PAGES + PAGE, 0, &page)
}

// The state without its pages from this offset on, so many bytes, and with this number of pages.
fn unmapped(
    alloc: Global,
    base: &[u8],
    at: usize,
    count: usize,
    left: u8,
) -> Result<Vec<u8>, Fail> {
    let body = patched(alloc, base, PAGES - 2, 2, &[left, 0])?;
    patched(alloc, &body, at, count, &[])
}

fn changed(alloc: Global, base: &[u8], change: Change) -> Result<Vec<u8>, Fail> {
    match change {
        Change::Nothing => patched(alloc, base, 0, 0, &[]),
        Change::Stepped => stepped(alloc, base),
        Change::Stored => patched(alloc, base, PAGES + 5, 1, &[0]),
        Change::StoredLast => patched(alloc, base, PAGES + 17 * PAGE - 1, 1, &[7]),
        Change::Mapped => mapped(alloc, base),
        Change::Moved => patched(alloc, base, PAGES, 1, &[0x0f]),
        Change::Unmapped => unmapped(alloc, base, PAGES + PAGE, PAGE, 16),
        Change::Flagged => patched(alloc, base, PAGES + 4, 1, &[7]),
        Change::Emptied => unmapped(alloc, base, PAGES, 17 * PAGE, 0),
    }
}

#[test]
fn changes(rt: HostRuntime) -> Result<(), Fail> {
    let alloc = rt.alloc();
    let base = start(alloc)?;
    // 163 bytes, 6 for each page, and 4,096 for each page that the base hasn't the same.
    let cases = [
        (Change::Nothing, 265),
        (Change::Stepped, 265),
        (Change::Stored, 4361),
        (Change::StoredLast, 4361),
        (Change::Mapped, 4367),
        (Change::Moved, 4361),
        (Change::Unmapped, 259),
        (Change::Flagged, 265),
        (Change::Emptied, 163),
    ];
    for (change, size) in cases {
        let body = changed(alloc, &base, change)?;
        let partial = against(alloc, &body, &base)?;
        assert_eq!(rt; partial.len(), size, "{change:?}");
        assert!(rt; is_partial(&partial), "{change:?}");
        assert_eq!(rt; restored(alloc, &partial, &base)?, body, "{change:?}");
        // The other way round: the base against it.
        let partial = against(alloc, &base, &body)?;
        assert_eq!(rt; restored(alloc, &partial, &body)?, base, "{change:?}");
    }
    Ok(())
}

// What follows the kind, up to the pages.
fn stepped_fields(alloc: Global) -> Result<Vec<u8>, Fail> {
    let mut bytes = BEFORE_REGISTERS.to_vec(alloc)?;
    bytes.resize(160, 0)?;
    let bytes = patched(alloc, &bytes, 40, 4, &[0xe0, 0xff, 0xff, 0x7f])?;
    patched(alloc, &bytes, 72, 1, &[1])
}

// The partial mark of the state after the first turn against the start, written out from the format's tables.
fn stepped_partial(alloc: Global) -> Result<Vec<u8>, Fail> {
    let mut bytes = Vec::new(alloc);
    bytes.push(2)?;
    bytes.extend_from_slice(&stepped_fields(alloc)?)?;
    bytes.extend_from_slice(&[17, 0])?;
    bytes.extend_from_slice(&[0x10, 0, 0, 0, 5, 0])?;
    for place in 0..16u8 {
        bytes.extend_from_slice(&[0xf0 + place, 0xff, 7, 0, 6, 0])?;
    }
    Ok(bytes)
}

#[test]
fn bytes_by_hand(rt: HostRuntime) -> Result<(), Fail> {
    let alloc = rt.alloc();
    let base = start(alloc)?;
    let body = changed(alloc, &base, Change::Stepped)?;
    let partial = stepped_partial(alloc)?;
    assert_eq!(rt; partial.len(), 265);
    assert_eq!(rt; against(alloc, &body, &base)?, partial);
    // A stored page has its bytes after its kind.
    let stored = changed(alloc, &body, Change::Stored)?;
    let page = part(alloc, &stored, PAGES + 5, 4096)?;
    let written = patched(alloc, &partial, 168, 1, &[1])?;
    let written = patched(alloc, &written, 169, 0, &page)?;
    assert_eq!(rt; against(alloc, &stored, &base)?, written);
    Ok(())
}

// A page's bytes are taken wherever they are given, and the base's otherwise.
#[test]
fn bases(rt: HostRuntime) -> Result<(), Fail> {
    let alloc = rt.alloc();
    let base = start(alloc)?;
    let empty = changed(alloc, &base, Change::Emptied)?;
    let stored = changed(alloc, &base, Change::Stored)?;
    let unmapped = changed(alloc, &base, Change::Unmapped)?;
    // 163 + 17 * 4,102 bytes: all pages are written.
    let full = against(alloc, &base, &empty)?;
    assert_eq!(rt; full.len(), 69_897);
    assert_eq!(rt; restored(alloc, &full, &empty)?, base);
    assert_eq!(rt; restored(alloc, &full, &stored)?, base);
    // No page is written.
    let partial = against(alloc, &base, &base)?;
    assert_eq!(rt; restored(alloc, &partial, &stored)?, stored);
    assert_eq!(rt; restored(alloc, &partial, &unmapped)?.len(), 0);
    assert_eq!(rt; restored(alloc, &partial, &empty)?.len(), 0);
    assert!(rt; is_partial(&partial));
    Ok(())
}

#[test]
fn spoilt(rt: HostRuntime) -> Result<(), Fail> {
    let alloc = rt.alloc();
    let base = start(alloc)?;
    let partial = stepped_partial(alloc)?;
    // The k-th page, from 0 on, begins at 163 + 6 k with its number; its flags are 4 bytes further on, and then its
    // kind.
    let cases: [(usize, &[u8], bool, bool); 15] = [
        // 3 steps; flags of 7; a break one above the heap's start
        (1, &[3], true, true),
        (167, &[7], true, true),
        (21, &[1, 0x10, 1, 0], true, true),
        // a full mark; a third kind of mark
        (0, &[1], false, false),
        (0, &[3], false, false),
        // a break below the heap's start; a fifth kind of end; no thread
        (21, &[0xff, 0x0f, 1, 0], false, false),
        (25, &[4], false, false),
        (26, &[0, 0], false, false),
        // a page fewer and one more than there are
        (161, &[16, 0], false, false),
        (161, &[18, 0], false, false),
        // flags of 8; a third kind of content; no bytes after the last kind that says so
        (167, &[8], false, false),
        (168, &[2], false, false),
        (264, &[1], false, false),
        // the number of the page before; a page that the base lacks
        (169, &[0x10, 0, 0, 0], false, false),
        (259, &[0, 0, 8, 0], true, false),
    ];
    for (offset, new, is, stands) in cases {
        let body = replaced(alloc, &partial, offset, new.len(), new)?;
        assert_eq!(rt; is_partial(&body), is, "at {offset}");
        assert_eq!(rt;
            restored(alloc, &body, &base)?.is_empty(),
            !stands,
            "at {offset}"
        );
    }
    Ok(())
}

#[test]
fn cut_off(rt: HostRuntime) -> Result<(), Fail> {
    let alloc = rt.alloc();
    let base = state_of(alloc, &start(alloc)?)?;
    let mut partial = stepped_partial(alloc)?;
    for size in 0..partial.len() {
        assert!(rt; !is_partial(&partial[..size]), "{size} bytes");
        assert!(rt; skip_partial(&partial[..size]).is_none(), "{size} bytes");
        assert!(rt;
            decode_partial(alloc, &partial[..size], &base)?.is_none(),
            "{size} bytes"
        );
    }
    partial.push(9)?;
    assert!(rt; !is_partial(&partial));
    assert!(rt; decode_partial(alloc, &partial, &base)?.is_none());
    assert_eq!(rt; skip_partial(&partial).map(|rest| rest.len()), Some(1));
    Ok(())
}

// What the reader of pages takes, and what it leaves.
#[test]
fn pages(rt: HostRuntime) -> Result<(), Fail> {
    let (page, rest) = read_partial_page(&[0xfe, 0xff, 0x0f, 0, 7, 0, 9]).ok_or("a page is there")?;
    assert_eq!(rt;
        (page.number, page.flags, page.content.is_none(), rest.len()),
        (0xffffe, 7, true, 1)
    );
    assert!(rt; read_partial_page(&[0xff, 0xff, 0x0f, 0, 7, 0]).is_none());
    let mut bytes = Vec::new(rt.alloc());
    bytes.extend_from_slice(&[2, 0, 0, 0, 0, 1])?;
    bytes.resize(4102, 5)?;
    let (page, rest) = read_partial_page(&bytes).ok_or("a page is there")?;
    assert_eq!(rt; (page.number, page.flags, rest.len()), (2, 0, 0));
    assert_eq!(rt;
        page.content
            .map(|content| (content.len(), content[0], content[4095])),
        Some((4096, 5, 5))
    );
    bytes.pop();
    assert!(rt; read_partial_page(&bytes).is_none());
    Ok(())
}
