// A hart and a memory that run one instruction.
ghost use Rattle.std.specs.Prelude.{◌≡◌, ◌↔◌, ◌<◌, ◌≤◌, IfOk, Some, length, true};
ghost use Rattle.rv_vectors.specs.Running.{after_of, contents, first_hart, first_memory, linked, row_outcome, relative, shown, sixteen_of};

use crate::row::{After, Before, Row};
use cow_pages::Pages;
use dp_base::OutOfMemory;
use guest_state::Hart;
use rv_step::{Stepped, exec};
use std::alloc::Global;

// Where the instruction stands, at the start of its page.
const PC: u32 = 0x0001_0000;

const CODE_PAGE: u32 = 0x10;

const CODE_FLAGS: u8 = 1;

const DATA_PAGE: u32 = 0x20;

const DATA_FLAGS: u8 = 6;

const X7: u32 = 0x1357_2468;

/// Returns whether a row's instruction does what the row says.
pub(crate) fn agrees(alloc: Global, row: &Row) -> Result<bool, OutOfMemory>
    ensures { IfOk result (λ agrees. (agrees ≡ true) ↔ (row_outcome row.now.word row.now.before ≡ Some row.now.after)) }
{
    match run(alloc, row.word, &row.before)? {
        Some(left) => Ok(left == row.after),
        None => Ok(false),
    }
}

// Runs the instruction that a word is, once. Returns what it leaves, or `None` if it isn't done.
fn run(alloc: Global, word: u32, before: &Before) -> Result<Option<After>, OutOfMemory>
    ensures { IfOk result (λ left. left ≡ row_outcome word before.now) }
{
    let mut hart = hart_of(before);
    let mut pages = pages_of(alloc, word, before)?;
    match exec(&mut hart, &mut pages)? {
        Stepped::Went => {}
        Stepped::Ecall => return Ok(None),
        Stepped::Trap { .. } => return Ok(None),
        Stepped::Busy => return Ok(None),
    }
    match pages.page_bytes(DATA_PAGE) {
        Some(page) => Ok(Some(after_of(word, &hart, page))),
        None => Ok(None),
    }
}

fn hart_of(before: &Before) -> Hart
    ensures { result ≡ first_hart before.now }
{
    let mut hart = Hart {
        pc: PC,
        x: [0; 31],
        held: None,
    };
    hart.set_register(5, before.x5);
    hart.set_register(6, before.x6);
    hart.set_register(7, X7);
    hart
}

// The bytes of the data page, up to the last of the sixteen.
fn contents(sixteen: &[u8; 16]) -> [u8; 0x108]
    ensures bytes { result ≡ contents sixteen.now }
    ensures size { length result ≡ 0x108 }
{
    let mut bytes = [0; 0x108];
    bytes[0xf8..].copy_from_slice(sixteen);
    bytes
}

fn pages_of(alloc: Global, word: u32, before: &Before) -> Result<Pages, OutOfMemory>
    ensures { IfOk result (λ pages. pages ≡ first_memory word before.now) }
{
    let mut pages = Pages::new(alloc)?;
    pages.map_above(CODE_PAGE, CODE_FLAGS, &word.to_le_bytes())?;
    pages.map_above(DATA_PAGE, DATA_FLAGS, &contents(&before.bytes))?;
    Ok(pages)
}

// What an instruction has left, of the hart and of the data page.
fn after_of(word: u32, hart: &Hart, page: &[u8]) -> After
    requires { 0x108 ≤ length page.now }
    ensures { result ≡ after_of word hart.now page.now }
{
    let linked = linked(word);
    After {
        x5: shown(linked, hart, 5),
        x6: shown(linked, hart, 6),
        x7: shown(linked, hart, 7),
        distance: relative(hart.pc),
        bytes: sixteen_of(page),
    }
}

fn sixteen_of(page: &[u8]) -> [u8; 16]
    requires { 0x108 ≤ length page.now }
    ensures { result ≡ sixteen_of page.now }
{
    let mut bytes = [0; 16];
    bytes.copy_from_slice(&page[0xf8..0x108]);
    bytes
}

// The register to which a word writes a value that holds pc: AUIPC, JAL and JALR.
fn linked(word: u32) -> Option<u8>
    ensures { result ≡ linked word }
{
    let rd = ((word >> 7) & 0x1f) as u8;
    match word & 0x7f {
        0x17 => Some(rd),
        0x6f => Some(rd),
        0x67 => Some(rd),
        _ => None,
    }
}

// Less the instruction's own address.
fn relative(value: u32) -> u32
    ensures { result ≡ relative value }
{
    value.wrapping_sub(PC)
}

fn shown(linked: Option<u8>, hart: &Hart, number: u8) -> u32
    requires { number < 32 }
    ensures { result ≡ shown linked hart.now number }
{
    let value = hart.register(number);
    match linked {
        Some(to) => { if to == number { relative(value) } else { value } }
        None => value,
    }
}
