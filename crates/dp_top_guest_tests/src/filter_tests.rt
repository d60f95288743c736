// A filter of inputs of many lengths, in pieces of many sizes, recorded and replayed; and the windows that such inputs
// come in.
use super::*;
use crate::recorded::{Came, STEPS, came_to, ok};
use disk_mem::{Fails, MemInlet};
use std::alloc::Global;
use std::sync::Wait;
use std::test::Fail;
use std::thread::Threads;
use supply::{InputFault, MAX_ROOM, Supply};
use test_files::repeated;

fn cut(alloc: Global, bytes: &[u8], size: usize) -> Result<Vec<Vec<u8>>, Fail> {
    let mut pieces = Vec::new(alloc);
    for piece in bytes.chunks(size.max(1)) {
        pieces.push(piece.to_vec(alloc)?)?;
    }
    Ok(pieces)
}

// The filter that reads so many bytes at a time, with an input of so many bytes in pieces of this size.
fn filtered<R: Threads + Wait + Sync>(
    rt: &R,
    alloc: Global,
    many: u32,
    count: u32,
    piece: usize,
    note: &[u8],
) -> Result<Came, Fail> {
    let bytes = repeated(alloc, count)?;
    let pieces = cut(alloc, &bytes, piece)?;
    let inlet = MemInlet::new(pieces, Vec::new(alloc), Fails::Never);
    let mut words = FILTER.to_vec(alloc)?;
    words.push(many)?;
    came_to(rt, alloc, &words, inlet, STEPS, &bytes, (note, note))
}

#[test]
fn a_filter_of_few_bytes(rt: HostRuntime) -> Result<(), Fail> {
    // bytes of a read at most, of the input, and of a piece; the journal's bytes and how many takes, and the note
    let cases: [(u32, u32, usize, Came, &[u8]); 11] = [
        (
            1,
            0,
            1,
            ok(217, 1),
            b"epochs 2 squashes 0 steps 13 sent 0 end exit 0 state ac0b9c28ea4c23af6c6b80d96590681e019e5d6f1031ec44afdcb75863eb2914\n",
        ),
        (
            1,
            1,
            1,
            ok(241, 2),
            b"epochs 3 squashes 0 steps 25 sent 1 end exit 0 state e1f45c99c2fbc5f8c40fdddc91d73ec6d97306db12270bf2324750c2ba614492\n",
        ),
        (
            1,
            5,
            1,
            ok(337, 6),
            b"epochs 7 squashes 0 steps 73 sent 5 end exit 0 state 39c045a826299573fd0ba95e8cfbb687af81f1264204aeb731f06bc469af136b\n",
        ),
        (
            1,
            5,
            4_095,
            ok(257, 2),
            b"epochs 3 squashes 0 steps 73 sent 5 end exit 0 state 39c045a826299573fd0ba95e8cfbb687af81f1264204aeb731f06bc469af136b\n",
        ),
        (
            4_096,
            0,
            4_095,
            ok(217, 1),
            b"epochs 2 squashes 0 steps 13 sent 0 end exit 0 state fe4cfe624b6878e8442ed8453bf28e68e28b39016aa56c032eb42c20611114dc\n",
        ),
        (
            4_096,
            1,
            65_536,
            ok(241, 2),
            b"epochs 3 squashes 0 steps 25 sent 1 end exit 0 state 36a285ff52bd4f4d77bbb816e20a0da3b1f08e1ed5700aec6a4e43bf83d9c81a\n",
        ),
        (
            4_096,
            5,
            1,
            ok(337, 6),
            b"epochs 7 squashes 0 steps 73 sent 5 end exit 0 state de5a0a68676f777b9ed8e6ec516178832da275b88a824b0224c718d9d1150d90\n",
        ),
        (
            4_097,
            5,
            1,
            ok(337, 6),
            b"epochs 7 squashes 0 steps 73 sent 5 end exit 0 state 052506ec70beea0a7e57d2515436e41f977bf56a48ef38e22fc5f786a5c20640\n",
        ),
        (
            4_096,
            4_095,
            4_095,
            ok(4_335, 2),
            b"epochs 3 squashes 0 steps 25 sent 4095 end exit 0 state 4d174474e82d2e0490d5a4017956b9ec77db53b679584295960debfc21ac700a\n",
        ),
        (
            4_096,
            4_095,
            65_536,
            ok(4_335, 2),
            b"epochs 3 squashes 0 steps 25 sent 4095 end exit 0 state 4d174474e82d2e0490d5a4017956b9ec77db53b679584295960debfc21ac700a\n",
        ),
        (
            4_097,
            4_095,
            4_095,
            ok(4_335, 2),
            b"epochs 3 squashes 0 steps 25 sent 4095 end exit 0 state f2d6cdf0cb0b39a41d6c645dad492c28f76102189166482ebd17d223b0cbab3c\n",
        ),
    ];
    for (many, count, piece, wanted, note) in cases {
        assert_eq!(rt;
            filtered(&rt, rt.alloc(), many, count, piece, note)?,
            wanted,
            "{many} {count} {piece}"
        );
    }
    Ok(())
}

#[test]
fn a_filter_of_many_bytes(rt: HostRuntime) -> Result<(), Fail> {
    // bytes of a read at most, of the input, and of a piece; the journal's bytes and how many takes, and the note
    let cases: [(u32, u32, usize, Came, &[u8]); 8] = [
        (
            4_096,
            65_535,
            65_536,
            ok(65_820, 2),
            b"epochs 3 squashes 0 steps 205 sent 65535 end exit 0 state 338a8068b8ded067626d790286c07f2fcac52d43abc3a32542bd67149c869efa\n",
        ),
        (
            4_096,
            65_536,
            65_536,
            ok(65_841, 2),
            b"epochs 4 squashes 0 steps 205 sent 65536 end exit 0 state 7449a1c4231499243760d0b33c928e552643e78ff2bfcf88ad76ed712773a9df\n",
        ),
        (
            4_096,
            65_537,
            65_536,
            ok(65_865, 3),
            b"epochs 5 squashes 0 steps 217 sent 65537 end exit 0 state af2f1bbf8b1f2a4420b5a7fee6920db5e2eca388e47d8dcb0730afad2b78f015\n",
        ),
        (
            4_097,
            65_537,
            65_536,
            ok(65_865, 3),
            b"epochs 5 squashes 0 steps 217 sent 65537 end exit 0 state e534c36824621684baad65ef7cb92a24dab47f56ca2a0e8b72fe110e74204f33\n",
        ),
        (
            4_096,
            65_536,
            4_095,
            ok(66_144, 18),
            b"epochs 19 squashes 0 steps 217 sent 65536 end exit 0 state ab8068d76bbda96a7c811f2d7602504049ce21c1951210287e242e40e2951f1e\n",
        ),
        (
            4_097,
            65_535,
            4_095,
            ok(66_143, 18),
            b"epochs 19 squashes 0 steps 217 sent 65535 end exit 0 state 6b5df3b7d20f10015a7606be9ac5d6775a736959b50c5dc102bd7ca8292c5b07\n",
        ),
        (
            4_096,
            65_537,
            4_095,
            ok(66_145, 18),
            b"epochs 19 squashes 0 steps 217 sent 65537 end exit 0 state 5e411549613d987669f140001bc78e7f783ecd551a359bbf67c8e25de51fbf19\n",
        ),
        (
            4_096,
            200_000,
            65_536,
            ok(200_504, 5),
            b"epochs 9 squashes 0 steps 601 sent 200000 end exit 0 state 4ff47d986cd0cc4aea4eb1b9c142acc9e7323ed843e991fcb35fde5db6208455\n",
        ),
    ];
    for (many, count, piece, wanted, note) in cases {
        assert_eq!(rt;
            filtered(&rt, rt.alloc(), many, count, piece, note)?,
            wanted,
            "{many} {count} {piece}"
        );
    }
    Ok(())
}

// The windows of an input, joined, and how many takes there were.
#[derive(Drop, Debug, PartialEq)]
struct Windows {
    joined: Vec<u8>,
    takes: u64,
}

fn windows_of(alloc: Global, bytes: &[u8], piece: usize) -> Result<Windows, Fail> {
    let pieces = cut(alloc, bytes, piece)?;
    let mut inlet = MemInlet::new(pieces, Vec::new(alloc), Fails::Never);
    let mut supply = Supply::new(alloc, MAX_ROOM)?;
    let mut joined = Vec::new(alloc);
    for _ in 0..=bytes.len() {
        let place = supply.window_end();
        if supply.has_ended() || 1 << 62 < place {
            break;
        }
        match supply.refill(&mut inlet) {
            Ok(()) => {}
            Err(InputFault) => break,
        }
        if let Some(window) = supply.answer(place, u32::MAX) {
            joined.extend_from_slice(window)?;
        }
    }
    Ok(Windows {
        joined,
        takes: inlet.takes(),
    })
}

#[test]
fn windows_of_many_bytes(rt: HostRuntime) -> Result<(), Fail> {
    let alloc = rt.alloc();
    // bytes of the input and of a piece, and how many takes there are up to the end
    let cases = [
        (65_535, 1, 65_536),
        (65_536, 1, 65_537),
        (65_537, 1, 65_538),
        (200_000, 1, 200_001),
        (65_535, 4_095, 18),
        (65_536, 4_095, 18),
        (65_537, 4_095, 18),
        (200_000, 4_095, 50),
        (65_535, 65_536, 2),
        (65_536, 65_536, 2),
        (65_537, 65_536, 3),
        (200_000, 65_536, 5),
    ];
    for (count, piece, takes) in cases {
        let bytes = repeated(alloc, count)?;
        let windows = windows_of(alloc, &bytes, piece)?;
        assert_eq!(rt; windows.takes, takes, "{count} in {piece}");
        assert_eq!(rt;
            windows.joined.as_slice(),
            bytes.as_slice(),
            "{count} in {piece}"
        );
    }
    Ok(())
}
