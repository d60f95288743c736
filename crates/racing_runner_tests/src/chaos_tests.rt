// What `ChaosRacer` offers. Each offer is that of a model of the machine and of the racer, which was written apart from
// this code.
use crate::cases::{Line, supply_of, texts_of};
use crate::guests::*;
use std::alloc::Global;
use std::test::Fail;
use supply::{MAX_ROOM, Supply};
use test_files::{EXITS_WORDS, WRITES_WORDS};

fn places_lines() -> [Line; 59] {
    [
        // The guest ends in the fifth stretch. The first offer is good or spoilt, or nothing is offered.
        "0 2 1000 16 all 1",
        "1:2 | - | 2 0 | 1 0 | 2beca8e2ce299b3e",
        "1:2 | - | 4 0 | 1 0 | 056cca18f65bee05",
        "1:2 | 1n | 6 0 | 1 0 | b5a1d0b8a653b9b3",
        "1:2 | - | 8 0 | 1 0 | 869a7dfcccb26991",
        "1 2 1000 16 all 1",
        "1:2 | - | 2 0 | 1 1 | 872415838a0a551d",
        "1:2 | - | 4 0 | 1 0 | 056cca18f65bee05",
        "1:2 | 1n | 6 0 | 1 0 | b5a1d0b8a653b9b3",
        "1:2 | - | 8 0 | 1 0 | 869a7dfcccb26991",
        "2 2 1000 16 all 1",
        "3 2 1000 16 all 1",
        "1:2 | - | 0 0 | 1 0 | 0c7e61bfa9ae8444",
        "1:2 | - | 4 0 | 1 0 | 056cca18f65bee05",
        "1:2 | 1n | 6 0 | 1 0 | b5a1d0b8a653b9b3",
        "1:2 | - | 8 0 | 1 0 | 869a7dfcccb26991",
        // The second offer.
        "5 2 1000 16 all 1",
        "1:2 | - | 2 0 | 1 0 | 2beca8e2ce299b3e",
        "1:2 | - | 4 0 | 1 1 | 70914151fc722406",
        "1:2 | 1n | 6 0 | 1 0 | b5a1d0b8a653b9b3",
        "1:2 | - | 8 0 | 1 0 | 869a7dfcccb26991",
        "6 2 1000 16 all 1",
        "7 2 1000 16 all 1",
        "1:2 | - | 2 0 | 1 0 | 2beca8e2ce299b3e",
        "1:2 | - | 2 0 | 1 0 | 2beca8e2ce299b3e",
        "1:2 | 1n | 6 0 | 1 0 | b5a1d0b8a653b9b3",
        "1:2 | - | 8 0 | 1 0 | 869a7dfcccb26991",
        // The eighth, after stretches of one step.
        "28 1 1000 16 all 1",
        "1:1 | - | 1 0 | 1 0 | 90941e714ea1236c",
        "1:1 | - | 2 0 | 1 0 | 2beca8e2ce299b3e",
        "1:1 | - | 3 0 | 1 0 | 48d10f477fe555c5",
        "1:1 | - | 4 0 | 1 0 | 056cca18f65bee05",
        "1:1 | - | 5 0 | 1 0 | 571d0ba1d68edba0",
        "1:1 | 1n | 6 0 | 1 0 | b5a1d0b8a653b9b3",
        "1:1 | - | 7 0 | 1 0 | 50bc9eeb142ff8c9",
        "1:1 | - | 8 0 | 1 0 | 869a7dfcccb26991",
        "29 1 1000 16 all 1",
        "1:1 | - | 1 0 | 1 0 | 90941e714ea1236c",
        "1:1 | - | 2 0 | 1 0 | 2beca8e2ce299b3e",
        "1:1 | - | 3 0 | 1 0 | 48d10f477fe555c5",
        "1:1 | - | 4 0 | 1 0 | 056cca18f65bee05",
        "1:1 | - | 5 0 | 1 0 | 571d0ba1d68edba0",
        "1:1 | 1n | 6 0 | 1 0 | b5a1d0b8a653b9b3",
        "1:1 | - | 7 0 | 1 0 | 50bc9eeb142ff8c9",
        "1:1 | - | 8 0 | 1 1 | d26f1946497d1e42",
        "31 1 1000 16 all 1",
        "1:1 | - | 1 0 | 1 0 | 90941e714ea1236c",
        "1:1 | - | 2 0 | 1 0 | 2beca8e2ce299b3e",
        "1:1 | - | 3 0 | 1 0 | 48d10f477fe555c5",
        "1:1 | - | 4 0 | 1 0 | 056cca18f65bee05",
        "1:1 | - | 5 0 | 1 0 | 571d0ba1d68edba0",
        "1:1 | 1n | 6 0 | 1 0 | b5a1d0b8a653b9b3",
        "1:1 | - | 7 0 | 1 0 | 50bc9eeb142ff8c9",
        "1:1 | - | 7 0 | 1 0 | 50bc9eeb142ff8c9",
        // The first again.
        "33 2 1000 16 all 1",
        "1:2 | - | 2 0 | 1 1 | 872415838a0a551d",
        "1:2 | - | 4 0 | 1 0 | 056cca18f65bee05",
        "1:2 | 1n | 6 0 | 1 0 | b5a1d0b8a653b9b3",
        "1:2 | - | 8 0 | 1 0 | 869a7dfcccb26991",
    ]
}

// A guest of one thread that writes a line and ends in its ninth step.
#[test]
fn places(rt: HostRuntime) -> Result<(), Fail> {
    let alloc = rt.alloc();
    let supply = supply_of(alloc, b"", 0)?;
    let (found, expected) = texts_of(&rt, alloc, &WRITES_WORDS, &supply, &places_lines())?;
    assert_eq!(rt; found.as_str(), expected.as_str());
    Ok(())
}

fn ends_lines() -> [Line; 15] {
    [
        // One job, and fewer jobs than stretches.
        "0 2 1000 1 all 1",
        "1 2 1000 3 all 1",
        "1:2 | - | 2 0 | 1 1 | 872415838a0a551d",
        "1:2 | - | 4 0 | 1 0 | 056cca18f65bee05",
        // Few steps are left, which end in a stretch, at its end, and before the first is whole.
        "0 2 1000 16 5 1",
        "1:2 | - | 2 0 | 1 0 | 2beca8e2ce299b3e",
        "1:2 | - | 4 0 | 1 0 | 056cca18f65bee05",
        "0 2 1000 16 4 1",
        "1:2 | - | 2 0 | 1 0 | 2beca8e2ce299b3e",
        "1:2 | - | 4 0 | 1 0 | 056cca18f65bee05",
        "0 2 1000 16 1 1",
        "0 2 1000 16 0 1",
        // The guest ends with a stretch.
        "0 3 1000 16 all 1",
        "1:3 | - | 3 0 | 1 0 | 48d10f477fe555c5",
        "1:3 | 1n | 6 0 | 1 0 | b5a1d0b8a653b9b3",
    ]
}

#[test]
fn ends_of_a_run(rt: HostRuntime) -> Result<(), Fail> {
    let alloc = rt.alloc();
    let supply = supply_of(alloc, b"", 0)?;
    let (found, expected) = texts_of(&rt, alloc, &WRITES_WORDS, &supply, &ends_lines())?;
    assert_eq!(rt; found.as_str(), expected.as_str());
    Ok(())
}

fn first_stretch_lines() -> [Line; 2] {
    ["0 10 1000 16 all 1", "0 3 1000 16 all 1"]
}

fn trap_lines() -> [Line; 4] {
    [
        "0 4 1000 16 all 1",
        "1:4 | - | 4 0 | 1 4 | 759ff2d711eab9ed",
        "0 7 1000 16 all 1",
        "1:7 | - | 7 0 | 1 7 | 9b2e9075fd9c4bc9",
    ]
}

fn wait_lines() -> [Line; 2] {
    [
        "0 2 1000 16 all 1",
        "1:2 | - | 2 0 | 1 0 | 0de3c2207daff844",
    ]
}

// Guests that end in the first stretch, with it, and by a trap in the second; and one whose threads all wait after its
// third step.
#[test]
fn ends_of_guests(rt: HostRuntime) -> Result<(), Fail> {
    let alloc = rt.alloc();
    let supply = supply_of(alloc, b"", 0)?;
    let (found, expected) = texts_of(&rt, alloc, &EXITS_WORDS, &supply, &first_stretch_lines())?;
    assert_eq!(rt; found.as_str(), expected.as_str());
    let supply = supply_of(alloc, b"", 0)?;
    let (found, expected) = texts_of(&rt, alloc, &TRAPS, &supply, &trap_lines())?;
    assert_eq!(rt; found.as_str(), expected.as_str());
    let supply = supply_of(alloc, b"", 0)?;
    let (found, expected) = texts_of(&rt, alloc, &WAITS_FOR_GOOD, &supply, &wait_lines())?;
    assert_eq!(rt; found.as_str(), expected.as_str());
    Ok(())
}

fn three_bytes_lines() -> [Line; 4] {
    [
        "0 4 1000 16 all 1",
        "1:4 | 1n | 4 3 | 1 0 | 2b2bab92648d2558",
        "0 5 1000 16 all 1",
        "1:5 | 1n | 5 3 | 1 0 | 36486956cec57146",
    ]
}

// The input has no bytes, and its end was seen.
fn ended_lines() -> [Line; 7] {
    [
        "0 3 1000 16 all 1",
        "1:3 | - | 3 0 | 1 0 | d97f564d5bd2838d",
        "1:3 | 1n*2 | 6 0 | 1 0 | 929c7d8a8bd9a152",
        "0 5 1000 16 all 1",
        "1:5 | 1n | 5 0 | 1 0 | fcba51c242dc7c8f",
        "0 8 1000 16 all 1",
        "0 9 1000 16 all 1",
    ]
}

fn no_bytes_lines() -> [Line; 3] {
    [
        "0 3 1000 16 all 1",
        "1:3 | - | 3 0 | 1 0 | d97f564d5bd2838d",
        "0 4 1000 16 all 1",
    ]
}

#[test]
fn input_that_is_due(rt: HostRuntime) -> Result<(), Fail> {
    let alloc = rt.alloc();
    let supply = supply_of(alloc, b"abc", 1)?;
    let (found, expected) = texts_of(&rt, alloc, &READS_A_PIECE, &supply, &three_bytes_lines())?;
    assert_eq!(rt; found.as_str(), expected.as_str());
    let supply = supply_of(alloc, b"", 1)?;
    let (found, expected) = texts_of(&rt, alloc, &READS_A_PIECE, &supply, &ended_lines())?;
    assert_eq!(rt; found.as_str(), expected.as_str());
    let supply = supply_of(alloc, b"", 0)?;
    let (found, expected) = texts_of(&rt, alloc, &READS_A_PIECE, &supply, &no_bytes_lines())?;
    assert_eq!(rt; found.as_str(), expected.as_str());
    Ok(())
}

fn clock_lines() -> [Line; 3] {
    [
        "0 8 1000 3 all 1",
        "1:8 | 1n*2 | 8 0 | 1 e | 7ef1961c4f7b19ec",
        "1:8 | 1n*2 | 16 0 | 1 1c | 13641164e2f8bb4a",
    ]
}

fn written_lines() -> [Line; 4] {
    [
        "0 64 1000 4 all 1",
        "1:64 | 1n*15 | 64 0 | 1 f | 82ee5dd761dbd800",
        "0 65 1000 4 all 1",
        "1:65 | 1n*16 | 65 0 | 1 f | 12ad82b0d149aa98",
    ]
}

fn read_lines() -> [Line; 3] {
    [
        "0 50 1000 4 all 1",
        "1:50 | 1n*16 | 50 65536 | 1 0 | ae7b62780c0ecc71",
        "0 51 1000 4 all 1",
    ]
}

// A window of 65,536 times the same byte.
fn many_bytes(alloc: Global) -> Result<Supply, Fail> {
    let mut bytes = Vec::new(alloc);
    bytes.resize(MAX_ROOM as usize, b'a')?;
    supply_of(alloc, &bytes, 1)
}

// A clock of 7, and stretches that end by 65,536 bytes.
#[test]
fn bytes_and_readings(rt: HostRuntime) -> Result<(), Fail> {
    let alloc = rt.alloc();
    let supply = supply_of(alloc, b"", 0)?;
    let (found, expected) = texts_of(&rt, alloc, &CLOCKS, &supply, &clock_lines())?;
    assert_eq!(rt; found.as_str(), expected.as_str());
    let supply = supply_of(alloc, b"", 0)?;
    let (found, expected) = texts_of(&rt, alloc, &WRITES_MUCH, &supply, &written_lines())?;
    assert_eq!(rt; found.as_str(), expected.as_str());
    let supply = many_bytes(alloc)?;
    let (found, expected) = texts_of(&rt, alloc, &READS_MUCH, &supply, &read_lines())?;
    assert_eq!(rt; found.as_str(), expected.as_str());
    Ok(())
}

fn locked_lines() -> [Line; 14] {
    [
        "0 60 7 16 all 1",
        "1:32 2:21 3:7 | 1n 2n 2w 2n 1n 2n*2 3n 3w | 60 0 | 1 1 | f0cf3477c5e3d34a",
        "1:21 2:11 3:14 4:14 | 1n 2l 2n 3n 4n 4w 1n 2n 3n*2 4n 1n*2 2n | 120 0 | 1 1 | 2df6f0195ed841e1",
        "1:21 2:17 3:11 4:11 | 1l 1n 1w 2l 2n 3n 4n*2 1n 2n*2 2w 3n 4n 1n*2 | 180 0 | 1 1 | 69545741d3a34616",
        "1:11 2:15 3:20 4:14 | 1n 2n*2 3n*2 3w 4n 1n 2n 3n 4n*2 4w 1n 2n 3n*2 | 240 0 | 1 1 | dae1139228307ea7",
        "1:28 3:4 4:17 2:11 | 1n 3n 4n 1n*2 1w 4n*2 1n 2n 2w 4n 1n*2 2n | 300 0 | 1 1 | 7ebf5f98fde2f7e6",
        "1:15 2:9 3:20 4:16 | 1n*2 2n 3n 3w 4n 1l 1n 2n 3n*2 4n*2 4w 1n 3n | 360 0 | 1 1 | c8f653b677b239ad",
        "0 60 7 4 all 3",
        "1:32 2:21 3:7 | 1n 2n 2w 2n 1n 2n*2 3n 3w | 60 0 | 1 1 | f0cf3477c5e3d34a",
        "3:21 1:14 2:14 4:11 | 3n 1n 2l 2n 2w 3n*2 4n 1n 2n*2 3n*2 4n | 120 0 | 1 1 | 61f8682e4d17d2fd",
        "3:21 4:7 1:11 2:21 | 3l 3n 3w 4n*2 1n 2n 3n 2n*2 2w 3n*2 1n 2n | 180 0 | 1 1 | 2528af75a1547e28",
        "0 75 2 3 all 2",
        "1:38 2:25 3:12 | 1n 2n 2l 2n 2l 1n 2n 2l 2n 3n 2l 3l 2n 3n 2l 3l 2n | 75 0 | 1 1 | c78f1c2e4d840932",
        "2:20 3:20 1:18 4:17 | 2l 3n 1n 2n 3l 2l 3n 2n 3l 4n 1n 2l 3n 4l 1l 2n 3l 4n 1n 2l 3n 4l 1l 2n 3l 4n 1n 2l 3n 4l 1l 2n 3l 4n | 150 0 | 1 1 | 2e278560f2c013b2",
    ]
}

fn spoilt_locked_lines() -> [Line; 31] {
    [
        "1 60 7 3 all 1",
        "1:32 2:21 3:7 | 1n 2n 2w 2n 1n 2n*2 3n 3w | 60 0 | 1 0 | 1330a305b64ff609",
        "1:21 2:11 3:14 4:14 | 1n 2l 2n 3n 4n 4w 1n 2n 3n*2 4n 1n*2 2n | 120 0 | 1 1 | 2df6f0195ed841e1",
        "5 60 7 4 all 1",
        "1:32 2:21 3:7 | 1n 2n 2w 2n 1n 2n*2 3n 3w | 60 0 | 1 1 | f0cf3477c5e3d34a",
        "1:21 2:11 3:14 4:14 | 1n 2l 2n 3n 4n 4w 1n 2n 3n*2 4n 1n*2 2n | 120 0 | 1 0 | 60071b81b957821c",
        "1:21 2:17 3:11 4:11 | 1l 1n 1w 2l 2n 3n 4n*2 1n 2n*2 2w 3n 4n 1n*2 | 180 0 | 1 1 | 69545741d3a34616",
        "7 60 7 4 all 1",
        "1:32 2:21 3:7 | 1n 2n 2w 2n 1n 2n*2 3n 3w | 60 0 | 1 1 | f0cf3477c5e3d34a",
        "1:21 2:11 3:14 4:14 | 1n 2l 2n 3n 4n 4w 1n 2n 3n*2 4n 1n*2 2n | 60 0 | 1 1 | f0cf3477c5e3d34a",
        "1:21 2:17 3:11 4:11 | 1l 1n 1w 2l 2n 3n 4n*2 1n 2n*2 2w 3n 4n 1n*2 | 180 0 | 1 1 | 69545741d3a34616",
        "2 60 7 4 all 1",
        "29 40 5 10 all 1",
        "1:25 2:15 | 1n 2n 2l 2n 2l 2n 2w | 40 0 | 1 1 | 79d37a3677340eb1",
        "1:15 2:15 3:10 | 1n 2n 3n 2n 3l 3n 1n 2n 2w | 80 0 | 1 1 | 97111b86e5290f8a",
        "1:10 2:10 3:10 4:10 | 1n 2n 3l 3n 3w 4n 1n 2n 3n 4n | 120 0 | 1 1 | c9561944fb4fd2b1",
        "1:12 2:10 3:10 4:8 | 1n 1w 2n 3n 4n 1n 2n 3n 3w 4n | 160 0 | 1 1 | fbf9e3474501b0b6",
        "1:14 2:6 3:10 4:10 | 1n 2n 3n 4n 4w 1n 2n 3n 4n 1n*2 | 200 0 | 1 1 | 1cfcbfd51d860205",
        "1:10 2:10 3:10 4:10 | 1l 1n 2n 2w 3n 4n 1l 1n 2n 3n 4n 4w | 240 0 | 1 1 | 15ff611b209ce1bf",
        "1:13 2:10 3:7 4:10 | 1n 2n 3n 4n 1n 1w 2n 3n 4n 1n | 280 0 | 1 1 | c36085df291b1939",
        "1:15 3:15 4:10 | 1n 3n 3w 4n 1n 3n 4n 1n 3n | 320 0 | 1 0 | b809e50f70fdeddf",
        "1:20 3:4 4:16 | 1n 1w 3n 4n 1n 4n*2 1n 4l 4n 4w | 360 0 | 1 0 | 0284fad6bf05844f",
        "31 40 5 10 330 1",
        "1:25 2:15 | 1n 2n 2l 2n 2l 2n 2w | 40 0 | 1 1 | 79d37a3677340eb1",
        "1:15 2:15 3:10 | 1n 2n 3n 2n 3l 3n 1n 2n 2w | 80 0 | 1 1 | 97111b86e5290f8a",
        "1:10 2:10 3:10 4:10 | 1n 2n 3l 3n 3w 4n 1n 2n 3n 4n | 120 0 | 1 1 | c9561944fb4fd2b1",
        "1:12 2:10 3:10 4:8 | 1n 1w 2n 3n 4n 1n 2n 3n 3w 4n | 160 0 | 1 1 | fbf9e3474501b0b6",
        "1:14 2:6 3:10 4:10 | 1n 2n 3n 4n 4w 1n 2n 3n 4n 1n*2 | 200 0 | 1 1 | 1cfcbfd51d860205",
        "1:10 2:10 3:10 4:10 | 1l 1n 2n 2w 3n 4n 1l 1n 2n 3n 4n 4w | 240 0 | 1 1 | 15ff611b209ce1bf",
        "1:13 2:10 3:7 4:10 | 1n 2n 3n 4n 1n 1w 2n 3n 4n 1n | 280 0 | 1 1 | c36085df291b1939",
        "1:15 3:15 4:10 | 1n 3n 3w 4n 1n 3n 4n 1n 3n | 280 0 | 1 1 | c36085df291b1939",
    ]
}

#[test]
fn threads(rt: HostRuntime) -> Result<(), Fail> {
    let alloc = rt.alloc();
    let supply = supply_of(alloc, b"", 0)?;
    let (found, expected) = texts_of(&rt, alloc, &LOCKED, &supply, &locked_lines())?;
    assert_eq!(rt; found.as_str(), expected.as_str());
    Ok(())
}

#[test]
fn spoilt_threads(rt: HostRuntime) -> Result<(), Fail> {
    let alloc = rt.alloc();
    let supply = supply_of(alloc, b"", 0)?;
    let (found, expected) = texts_of(&rt, alloc, &LOCKED, &supply, &spoilt_locked_lines())?;
    assert_eq!(rt; found.as_str(), expected.as_str());
    Ok(())
}

fn exit_lines() -> [Line; 6] {
    [
        "5 24 4 3 all 1",
        "1:12 2:12 | 1n 2n*3 | 24 0 | 1 0 | 1038c078ef945e9d",
        "1:2 2:22 | 1n 2n*5 | 48 0 | 2 19 | 7ae33adb058d6f0e",
        "1 11 4 3 all 2",
        "1:7 2:4 | 1n 2n | 11 0 | 1 3 | 972824c66d70ef46",
        "2:7 1:4 | 2n | 22 0 | 1 0 | 4ffe52fbdabe0478",
    ]
}

fn waiting_lines() -> [Line; 8] {
    [
        "1 12 5 3 all 1",
        "1:10 2:2 | 1n*2 | 12 0 | 1 9 | 833de27cfcdbba21",
        "2:12 | - | 24 0 | 1 8 | d639c9f067afef36",
        "0 12 5 5 all 2",
        "1:10 2:2 | 1n*2 | 12 0 | 1 8 | 4f3971f7367e23e0",
        "2:12 | - | 24 0 | 1 8 | d639c9f067afef36",
        "2:7 1:5 | 2n | 36 0 | 1 b | 042cb643c396a094",
        "2:7 1:5 | - | 48 0 | 1 d | 2dc7ccf5eb1ef68d",
    ]
}

// Two guests: thread 1 exits in one, and waits in the other.
#[test]
fn lowest_threads(rt: HostRuntime) -> Result<(), Fail> {
    let alloc = rt.alloc();
    let supply = supply_of(alloc, b"", 0)?;
    let (found, expected) = texts_of(&rt, alloc, &EXITS_FIRST, &supply, &exit_lines())?;
    assert_eq!(rt; found.as_str(), expected.as_str());
    let supply = supply_of(alloc, b"", 0)?;
    let (found, expected) = texts_of(&rt, alloc, &WAITS_FIRST, &supply, &waiting_lines())?;
    assert_eq!(rt; found.as_str(), expected.as_str());
    Ok(())
}
