// Journals with marks, of a guest that writes one byte in each epoch.
use std::alloc::Global;
use std::test::Fail;
use test_files::file_of;
use test_journals::journal_of;

// Six times it writes the next byte of its own file and counts down from 8,192. Then it exits with 1.
const WORDS: [u32; 14] = [
    0x0001_05b7, // lui x11, 0x10
    0x0010_0513, // addi x10, x0, 1
    0x0010_0613, // addi x12, x0, 1
    0x0020_0893, // addi x17, x0, 2
    0x0000_0073, // ecall: write
    0x0015_8593, // addi x11, x11, 1
    0x0000_2337, // lui x6, 2
    0xfff3_0313, // addi x6, x6, -1
    0xfe03_1ee3, // bne x6, x0, -4
    0x0013_8393, // addi x7, x7, 1
    0x0063_b413, // sltiu x8, x7, 6
    0xfc04_1ce3, // bne x8, x0, -40
    0x0010_0893, // addi x17, x0, 1
    0x0000_0073, // ecall: exit_all
];

// An epoch of 16,393 steps, which are one pass of the loop.
const ONE_PASS: [u8; 15] = [0, 1, 0, 0, 0, 1, 0, 0x09, 0x40, 0, 0, 0, 0, 0, 0];

// The last epoch, of three steps.
const LAST_STEPS: [u8; 15] = [0, 1, 0, 0, 0, 1, 0, 3, 0, 0, 0, 0, 0, 0, 0];

// An epoch of thread 2, which there isn't.
const NO_THREAD: [u8; 15] = [0, 1, 0, 0, 0, 2, 0, 3, 0, 0, 0, 0, 0, 0, 0];

/// The guest's file.
pub(crate) fn guest(alloc: Global) -> Result<Vec<u8>, Fail> {
    Ok(file_of(alloc, &WORDS)?)
}

// The registers x1 to x31 after this many epochs, of which the seventh is the last.
fn registers(epochs: u32) -> [u32; 31] {
    let passes = epochs.min(6);
    let mut x = [0; 31];
    x[1] = 0x7fff_ffe0;
    if epochs == 0 {
        return x;
    }
    x[6] = passes;
    x[7] = if passes < 6 { 1 } else { 0 };
    x[9] = 1;
    x[10] = 0x0001_0000 + passes;
    x[11] = 1;
    x[16] = if epochs > 6 { 1 } else { 2 };
    x
}

// The pc after this many epochs.
fn pc(epochs: u32) -> u32 {
    match epochs {
        0 => 0x0001_0054,
        7 => 0x0001_008c,
        _ => 0x0001_0080,
    }
}

// The body of a mark of the guest after this many epochs, with this count of steps, by the format's tables.
fn mark(alloc: Global, file: &[u8], epochs: u32, steps: u64) -> Result<Vec<u8>, Fail> {
    let mut body = Vec::new(alloc);
    // the kind, the steps, the input's place, the heap's start and the break, and the end
    body.push(1)?;
    body.extend_from_slice(&steps.to_le_bytes())?;
    body.extend_from_slice(&[0; 8])?;
    body.extend_from_slice(&0x0001_1000u32.to_le_bytes())?;
    body.extend_from_slice(&0x0001_1000u32.to_le_bytes())?;
    if epochs > 6 {
        body.extend_from_slice(&[1, 1, 0, 0, 0])?;
    } else {
        body.push(0)?;
    }
    // one thread, which runs: pc, no clear-on-exit address, and the registers
    body.extend_from_slice(&[1, 0, 0])?;
    body.extend_from_slice(&pc(epochs).to_le_bytes())?;
    body.extend_from_slice(&[0; 4])?;
    for register in registers(epochs) {
        body.extend_from_slice(&register.to_le_bytes())?;
    }
    // the file's page, and 16 of the stack
    body.extend_from_slice(&[17, 0])?;
    body.extend_from_slice(&0x10u32.to_le_bytes())?;
    body.push(5)?;
    body.extend_from_slice(file)?;
    body.extend_from_slice(&[0; 3956])?;
    for number in 0..16u32 {
        body.extend_from_slice(&(0x7_fff0 + number).to_le_bytes())?;
        body.push(6)?;
        body.extend_from_slice(&[0; 4096])?;
    }
    Ok(body)
}

// The count of steps after this many epochs.
fn steps(epochs: u32) -> u64 {
    if epochs > 6 {
        98_361
    } else {
        u64::from(epochs).saturating_mul(16_393)
    }
}

// The body of the record with this letter, after this many epochs.
fn body(alloc: Global, file: &[u8], letter: u8, epochs: u32) -> Result<Vec<u8>, Fail> {
    match letter {
        b'e' => Ok(ONE_PASS.to_vec(alloc)?),
        b'x' => Ok(LAST_STEPS.to_vec(alloc)?),
        b'b' => Ok(NO_THREAD.to_vec(alloc)?),
        b'm' => mark(alloc, file, epochs, steps(epochs)),
        b'h' => mark(alloc, file, epochs, 1 << 63),
        b'w' => {
            let mut body = mark(alloc, file, epochs, steps(epochs))?;
            body.pop();
            body.push(1)?;
            Ok(body)
        }
        _ => Ok(b"\x07".to_vec(alloc)?),
    }
}

/// The journal whose records have these letters: `e` an epoch of one pass, `x` the last epoch, `b` an epoch that can't
/// be run, `m` the mark of the guest there, `w` one of another state, `h` one of 2^63 steps, and any other letter a
/// malformed record.
pub(crate) fn journal(alloc: Global, letters: &[u8]) -> Result<Vec<u8>, Fail> {
    let file = guest(alloc)?;
    let mut journal = journal_of(alloc, &file, &[])?;
    // the closed gate comes last
    journal.pop();
    let mut epochs: u32 = 0;
    for letter in letters {
        let body = body(alloc, &file, *letter, epochs)?;
        journal.push(1)?;
        journal.extend_from_slice(&(body.len().min(1 << 20) as u32).to_le_bytes())?;
        journal.extend_from_slice(&body)?;
        if *letter == b'e' || *letter == b'x' {
            epochs = epochs.saturating_add(1);
        }
    }
    journal.push(0)?;
    Ok(journal)
}
