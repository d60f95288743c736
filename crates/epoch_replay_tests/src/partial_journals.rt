// Journals with partial marks, of two guests.
use std::alloc::Global;
use std::test::Fail;
use test_files::{WRITES, file_of};
use test_journals::journal_of;

// A pass counts down from 8,192, adds 1 to x7, and stores its lowest bit in the last page of the stack. There is no
// end.
const WORDS: [u32; 7] = [
    0x0000_2337, // lui x6, 2
    0xfff3_0313, // addi x6, x6, -1
    0xfe03_1ee3, // bne x6, x0, -4
    0x0013_8393, // addi x7, x7, 1
    0x0013_f293, // andi x5, x7, 1
    0x0051_2023, // sw x5, 0(x2)
    0xfe9f_f06f, // jal x0, -24
];

// An epoch of 16,389 steps, which are one pass.
const ONE_PASS: [u8; 15] = [0, 1, 0, 0, 0, 1, 0, 0x05, 0x40, 0, 0, 0, 0, 0, 0];

// An epoch of one step.
const ONE_STEP: [u8; 15] = [0, 1, 0, 0, 0, 1, 0, 1, 0, 0, 0, 0, 0, 0, 0];

// An epoch of thread 2, which there isn't.
const NO_THREAD: [u8; 15] = [0, 1, 0, 0, 0, 2, 0, 3, 0, 0, 0, 0, 0, 0, 0];

// A mark's count of steps, and the pc and the registers x1 to x31 of its thread.
#[derive(Clone, Copy)]
struct Hart {
    steps: u64,
    pc: u32,
    registers: [u32; 31],
}

// All of a mark up to its pages, with this kind, by the format's tables.
fn fields(alloc: Global, kind: u8, hart: Hart) -> Result<Vec<u8>, Fail> {
    let mut body = Vec::new(alloc);
    // the kind, the steps, the input's place, the heap's start and the break, and no end
    body.push(kind)?;
    body.extend_from_slice(&hart.steps.to_le_bytes())?;
    body.extend_from_slice(&[0; 8])?;
    body.extend_from_slice(&0x0001_1000u32.to_le_bytes())?;
    body.extend_from_slice(&0x0001_1000u32.to_le_bytes())?;
    body.push(0)?;
    // one thread, which runs: pc, no clear-on-exit address, and the registers
    body.extend_from_slice(&[1, 0, 0])?;
    body.extend_from_slice(&hart.pc.to_le_bytes())?;
    body.extend_from_slice(&[0; 4])?;
    for register in hart.registers {
        body.extend_from_slice(&register.to_le_bytes())?;
    }
    Ok(body)
}

// A page's number and flags.
fn page(body: &mut Vec<u8>, number: u32, flags: u8) -> Result<(), Fail> {
    body.extend_from_slice(&number.to_le_bytes())?;
    body.push(flags)?;
    Ok(())
}

// The bytes of the stack's last page with this word, which the guest stores at 7FFFFFE0.
fn last_page(body: &mut Vec<u8>, word: u8) -> Result<(), Fail> {
    body.extend_from_slice(&[0; 4064])?;
    body.push(word)?;
    body.extend_from_slice(&[0; 31])?;
    Ok(())
}

// The pages of a full mark: the file's, and 16 of the stack.
fn full_pages(body: &mut Vec<u8>, file: &[u8], word: u8) -> Result<(), Fail> {
    body.extend_from_slice(&[17, 0])?;
    page(body, 0x10, 5)?;
    body.extend_from_slice(file)?;
    body.extend_from_slice(&[0; 3984])?;
    for number in 0..15u32 {
        page(body, 0x7_fff0 + number, 6)?;
        body.extend_from_slice(&[0; 4096])?;
    }
    page(body, 0x7_ffff, 6)?;
    last_page(body, word)
}

// The same pages as a partial mark has them, each as in the base, but the last with this word if there is one.
fn kept_pages(body: &mut Vec<u8>, word: Option<u8>) -> Result<(), Fail> {
    page(body, 0x10, 5)?;
    body.push(0)?;
    for number in 0..15u32 {
        page(body, 0x7_fff0 + number, 6)?;
        body.push(0)?;
    }
    page(body, 0x7_ffff, 6)?;
    match word {
        Some(word) => {
            body.push(1)?;
            last_page(body, word)
        }
        None => Ok(body.push(0)?),
    }
}

fn partial(alloc: Global, hart: Hart, word: Option<u8>) -> Result<Vec<u8>, Fail> {
    let mut body = fields(alloc, 2, hart)?;
    body.extend_from_slice(&[17, 0])?;
    kept_pages(&mut body, word)?;
    Ok(body)
}

// A partial mark with the page below the stack, as in the base, which doesn't have it. The file's page comes before it.
fn lacking(alloc: Global, hart: Hart) -> Result<Vec<u8>, Fail> {
    let mut body = fields(alloc, 2, hart)?;
    body.extend_from_slice(&[2, 0])?;
    page(&mut body, 0x10, 5)?;
    body.push(0)?;
    page(&mut body, 0x7_ffef, 6)?;
    body.push(0)?;
    Ok(body)
}

// After this many passes.
fn passed(passes: u32) -> Hart {
    let mut registers = [0; 31];
    registers[1] = 0x7fff_ffe0;
    registers[4] = passes % 2;
    registers[6] = passes;
    Hart {
        steps: u64::from(passes).saturating_mul(16_389),
        pc: 0x0001_0054,
        registers,
    }
}

// The body of the record with this letter, after this many passes.
fn body(alloc: Global, file: &[u8], letter: u8, passes: u32) -> Result<Vec<u8>, Fail> {
    let hart = passed(passes);
    let word = (passes % 2) as u8;
    match letter {
        b'e' => Ok(ONE_PASS.to_vec(alloc)?),
        b'b' => Ok(NO_THREAD.to_vec(alloc)?),
        b'm' => {
            let mut body = fields(alloc, 1, hart)?;
            full_pages(&mut body, file, word)?;
            Ok(body)
        }
        b'p' => partial(alloc, hart, Some(word)),
        b'o' => partial(alloc, hart, Some(word ^ 1)),
        b's' => partial(alloc, hart, None),
        b't' => partial(alloc, passed(passes.saturating_add(2)), Some(word)),
        b'l' => lacking(alloc, hart),
        _ => {
            let mut body = partial(alloc, hart, None)?;
            body.push(0)?;
            Ok(body)
        }
    }
}

/// The journal whose records have these letters: `e` an epoch of one pass, `b` an epoch that can't be run, `m` a full
/// mark of the guest there, `p` a partial one with the bytes of the page that changes, `s` one without bytes, `o` one
/// with the bytes of the page as it is an odd number of passes later, `t` one after two more passes, `l` one with a
/// page that no base has, and any other letter a partial mark with a byte too many.
pub(crate) fn partial_journal(alloc: Global, letters: &[u8]) -> Result<Vec<u8>, Fail> {
    let file = file_of(alloc, &WORDS)?;
    let mut journal = journal_of(alloc, &file, &[])?;
    // the closed gate comes last
    journal.pop();
    let mut passes: u32 = 0;
    for letter in letters {
        let body = body(alloc, &file, *letter, passes)?;
        append(&mut journal, &body)?;
        if *letter == b'e' {
            passes = passes.saturating_add(1);
        }
    }
    journal.push(0)?;
    Ok(journal)
}

fn append(journal: &mut Vec<u8>, body: &[u8]) -> Result<(), Fail> {
    journal.push(1)?;
    journal.extend_from_slice(&(body.len().min(1 << 20) as u32).to_le_bytes())?;
    journal.extend_from_slice(body)?;
    Ok(())
}

// The guest that writes three bytes, after this many steps.
fn stepped(steps: u32) -> Hart {
    let mut registers = [0; 31];
    registers[1] = 0x7fff_ffe0;
    registers[9] = match steps {
        0 => 0,
        6 => 3,
        7 | 8 => 0,
        _ => 1,
    };
    registers[10] = match steps {
        0 | 1 => 0,
        2 => 0x0001_0000,
        _ => 0x0001_0078,
    };
    registers[11] = if steps < 4 { 0 } else { 3 };
    registers[16] = match steps {
        8 => 1,
        5 | 6 | 7 => 2,
        _ => 0,
    };
    Hart {
        steps: u64::from(steps),
        pc: 0x0001_0054u32.saturating_add(steps.saturating_mul(4)),
        registers,
    }
}

/// The journal of the guest that writes three bytes, in nine epochs of one step, with a partial mark after each but the
/// last.
pub(crate) fn each_step(alloc: Global) -> Result<Vec<u8>, Fail> {
    let mut journal = journal_of(alloc, &WRITES, &[])?;
    journal.pop();
    for steps in 1..=8u32 {
        append(&mut journal, &ONE_STEP)?;
        append(&mut journal, &partial(alloc, stepped(steps), None)?)?;
    }
    append(&mut journal, &ONE_STEP)?;
    journal.push(0)?;
    Ok(journal)
}
