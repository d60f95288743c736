// Checkpoints without pages, written by hand. Those with pages are tested with the crate that encodes states.
use guest_state::{End, Thread, is_checkpoint, read_end, read_page, read_thread};
use std::alloc::Global;
use std::test::Fail;

// Three steps, no input, a heap from 00011000 on with no byte in it.
const NUMBERS: [u8; 24] = [
    3, 0, 0, 0, 0, 0, 0, 0, 0, 0, 0, 0, 0, 0, 0, 0, 0, 0x10, 1, 0, 0, 0x10, 1, 0,
];

const GONE: [u8; 5] = [2, 7, 0, 0, 0];

// Whether these numbers, this end, and these bytes after it are a checkpoint.
fn judged(alloc: Global, numbers: &[u8], end: &[u8], behind: &[u8]) -> Result<bool, Fail> {
    let mut body = numbers.to_vec(alloc)?;
    body.extend_from_slice(end)?;
    body.extend_from_slice(behind)?;
    Ok(is_checkpoint(&body))
}

#[test]
fn ends(rt: HostRuntime) -> Result<(), Fail> {
    // One thread that has exited with 7, and no page.
    let behind = [1, 0, 2, 7, 0, 0, 0, 0, 0];
    let cases: [(&[u8], bool); 11] = [
        (&[0], true),
        (&[1, 0xff, 0xff, 0xff, 0xff], true),
        (&[1, 0xff, 0xff, 0xff], false),
        (&[2, 1, 0, 7, 9, 9, 9, 9], true),
        // A trap of cause 8, of thread 0, and of a thread that was never made.
        (&[2, 1, 0, 8, 9, 9, 9, 9], false),
        (&[2, 0, 0, 7, 9, 9, 9, 9], false),
        (&[2, 2, 0, 7, 9, 9, 9, 9], false),
        (&[2, 1, 1, 7, 9, 9, 9, 9], false),
        (&[3], true),
        (&[4], false),
        (&[], false),
    ];
    for (end, is) in cases {
        assert_eq!(rt; judged(rt.alloc(), &NUMBERS, end, &behind)?, is);
    }
    Ok(())
}

#[test]
fn bounds(rt: HostRuntime) -> Result<(), Fail> {
    let alloc = rt.alloc();
    // The heap's start and the break, in the bytes from 16 on.
    let cases: [([u8; 8], bool); 7] = [
        ([0, 0x10, 1, 0, 1, 0x10, 1, 0], true),
        ([0, 0x10, 1, 0, 0xff, 0x0f, 1, 0], false),
        ([1, 0x10, 1, 0, 1, 0x10, 1, 0], false),
        ([0, 0x10, 1, 0, 0, 0xf0, 0xff, 0xff], true),
        ([0, 0x10, 1, 0, 1, 0xf0, 0xff, 0xff], false),
        ([0, 0xf0, 0xff, 0xff, 0, 0xf0, 0xff, 0xff], true),
        ([0, 0, 0, 0, 0, 0, 0, 0], true),
    ];
    for (heap, is) in cases {
        let mut numbers = NUMBERS;
        numbers[16..].copy_from_slice(&heap);
        let behind = [1, 0, 2, 7, 0, 0, 0, 0, 0];
        assert_eq!(rt; judged(alloc, &numbers, &[0], &behind)?, is);
    }
    // No thread; a byte after; a byte too few; a thread of kind 3; a page of which no byte is there.
    let cases: [(&[u8], bool); 5] = [
        (&[0, 0, 0, 0], false),
        (&[1, 0, 2, 7, 0, 0, 0, 0, 0, 0], false),
        (&[1, 0, 2, 7, 0, 0, 0, 0], false),
        (&[1, 0, 3, 7, 0, 0, 0, 0, 0], false),
        (&[1, 0, 2, 7, 0, 0, 0, 1, 0], false),
    ];
    for (behind, is) in cases {
        assert_eq!(rt; judged(alloc, &NUMBERS, &[0], behind)?, is);
    }
    Ok(())
}

// So many threads that have exited, and so many that wait.
fn crowd(alloc: Global, gone: u16, waiting: u16) -> Result<Vec<u8>, Fail> {
    let mut behind = Vec::new(alloc);
    behind.extend_from_slice(&gone.wrapping_add(waiting).to_le_bytes())?;
    for _ in 0..gone {
        behind.extend_from_slice(&GONE)?;
    }
    for _ in 0..waiting {
        behind.push(1)?;
        behind.extend_from_slice(&[9; 136])?;
    }
    behind.extend_from_slice(&[0, 0])?;
    Ok(behind)
}

#[test]
fn many_threads(rt: HostRuntime) -> Result<(), Fail> {
    let alloc = rt.alloc();
    let cases = [
        (1024, 0, true),
        (1025, 0, false),
        (960, 64, true),
        (960, 65, false),
        (0, 65, false),
        (0, 64, true),
    ];
    for (gone, waiting, is) in cases {
        let behind = crowd(alloc, gone, waiting)?;
        assert_eq!(rt; judged(alloc, &NUMBERS, &[0], &behind)?, is);
    }
    Ok(())
}

// What each reader takes, and what it leaves.
#[test]
fn parts(rt: HostRuntime) -> Result<(), Fail> {
    let end = read_end(&[1, 7, 0, 0, 0, 9]).ok_or("an end is there")?;
    assert_eq!(rt; (end.0, end.1.len()), (End::Exit(7), 1));
    let thread = read_thread(&[2, 7, 0, 0, 0, 9, 9]).ok_or("a thread is there")?;
    assert_eq!(rt; (thread.0, thread.1.len()), (Thread::Gone(7), 2));
    let mut bytes = Vec::new(rt.alloc());
    bytes.extend_from_slice(&[0xfe, 0xff, 0x0f, 0, 7])?;
    bytes.resize(4101, 5)?;
    let (page, rest) = read_page(&bytes).ok_or("a page is there")?;
    assert_eq!(rt;
        (page.number, page.flags, page.bytes.len()),
        (0xffffe, 7, 4096)
    );
    assert_eq!(rt; rest.len(), 0);
    assert!(rt; read_page(&bytes[1..]).is_none());
    bytes[0] = 0xff;
    assert!(rt; read_page(&bytes).is_none());
    Ok(())
}
