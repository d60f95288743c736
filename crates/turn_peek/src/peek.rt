// What a thread's next turn is, seen before it is taken.
ghost use Rattle.std.specs.Prelude.{◌≡◌, ℕ};
ghost use Rattle.dp_base.specs.declared.access.AmoOp.{AmoOp};
ghost use Rattle.dp_base.specs.Memory.{Memory, width_bytes};
ghost use Rattle.guest_state.specs.declared.hart.Hart.{Hart};
ghost use Rattle.rv_step.specs.Decoding.{decoded};
ghost use Rattle.rv_step.specs.Effect.{branches, changes_word, jumps, loads, loads_reserved, stores, stores_conditional};
ghost use Rattle.rv_step.specs.Execution.{executed};
ghost use Rattle.rv_step.specs.Operands.{AreOperands};
ghost use Rattle.rv_step.specs.Step.{of_instruction};
ghost use Rattle.turn_peek.specs.Arguments.{a2, moved};
ghost use Rattle.turn_peek.specs.Peek.{call_peeked, effect_peeked, hart_peeked, instruction_peeked, read_peeked, thread_peeked, word_peeked};
ghost use Rattle.turn_peek.specs.ReadCall.{read_at_once};

use crate::calls::{A2, A7, CLOCK, READ};
use crate::read_call::read_at_once;
use cow_pages::Pages;
use dp_base::Width;
use dp_base::limits::MAX_CALL_BYTES;
use guest_state::{Hart, Thread};
use rv_step::{Instr, address, decode, is_below_signed};

/// What a thread's next turn is.
#[derive(Clone, Copy, Debug, PartialEq, Eq)]
pub enum Peek {
    /// There is none: the guest has ended, no such thread was made, or it doesn't run.
    NotRunnable,
    /// An instruction that the thread does by itself.
    Plain,
    /// A turn that other threads may wait for: a call, a trap, an LR or an AMO.
    Sync,
    /// An SC.
    Sc,
    /// A call that reads at most `max` bytes of input, from this offset on.
    Read { place: u64, max: u32 },
    /// A call that reads the clock.
    Clock,
}

/// Returns what a thread's next turn is. `input` is how many bytes of its input the guest has read.
pub fn peek_thread(thread: &Thread, pages: &Pages, input: u64) -> Peek
    ensures { result ≡ thread_peeked pages.now input (Some thread.now) }
{
    match thread {
        Thread::Runs { hart, .. } => at_hart(hart, pages, input),
        Thread::Waits { .. } => Peek::NotRunnable,
        Thread::Gone(_) => Peek::NotRunnable,
    }
}

#[tactic(auto, unfolding(crate::specs::Peek::hart_peeked, rv_step::specs::Step::effect))]
fn at_hart(hart: &Hart, pages: &Pages, input: u64) -> Peek
    ensures { result ≡ hart_peeked hart.now pages.now input }
{
    if hart.pc % 4 != 0 {
        return Peek::Sync;
    }
    match pages.code_at(hart.pc) {
        Some(word) => at_word(word, hart, pages, input),
        None => Peek::Sync,
    }
}

fn at_word(word: u32, hart: &Hart, pages: &Pages, input: u64) -> Peek
    ensures { result ≡ effect_peeked hart.now pages.now input (word_peeked (decoded word)) (of_instruction hart.now pages.now word (decoded word)) }
{
    match decode(word) {
        Some(instr) => at_instruction(instr, hart, pages, input),
        None => Peek::Sync,
    }
}

fn at_call(hart: &Hart, pages: &Pages, input: u64) -> Peek
    ensures { result ≡ call_peeked hart.now pages.now input }
{
    match hart.register(A7) {
        READ => at_read(hart, pages, input),
        CLOCK => Peek::Clock,
        _ => Peek::Sync,
    }
}

fn at_read(hart: &Hart, pages: &Pages, input: u64) -> Peek
    ensures { result ≡ read_peeked input (moved (a2 hart.now)) (read_at_once pages.now hart.now) }
{
    match read_at_once(hart, pages) {
        Some(_) => Peek::Sync,
        None => Peek::Read {
            place: input,
            max: hart.register(A2).min(MAX_CALL_BYTES),
        },
    }
}

fn at_jump(target: u32) -> Peek
    ensures { (rd input : ℕ) (h : Hart) (m : Memory) → result ≡ effect_peeked h m input Peek.Plain (jumps rd target h m) }
{
    if target % 4 == 0 {
        Peek::Plain
    } else {
        Peek::Sync
    }
}

fn at_branch(hart: &Hart, taken: bool, imm: u32) -> Peek
    ensures { (input : ℕ) (m : Memory) → result ≡ effect_peeked hart.now m input Peek.Plain (branches taken imm hart.now m) }
{
    if !taken {
        return Peek::Plain;
    }
    at_jump(hart.pc.wrapping_add(imm))
}

fn at_load(pages: &Pages, at: u32, width: Width) -> Peek
    ensures { (extend : ℕ → ℕ) (rd input : ℕ) (h : Hart) → result ≡ effect_peeked h pages.now input Peek.Plain (loads width extend rd at h pages.now) }
{
    if pages.may_read_range(at, bytes_of(width)) {
        Peek::Plain
    } else {
        Peek::Sync
    }
}

fn at_store(pages: &Pages, at: u32, width: Width) -> Peek
    ensures { (value input : ℕ) (h : Hart) → result ≡ effect_peeked h pages.now input Peek.Plain (stores width at value h pages.now) }
{
    if pages.may_write_range(at, bytes_of(width)) {
        Peek::Plain
    } else {
        Peek::Sync
    }
}

fn bytes_of(width: Width) -> u32
    ensures { result ≡ width_bytes width }
{
    match width {
        Width::One => 1,
        Width::Two => 2,
        Width::Four => 4,
    }
}

// It synchronises whether it traps or not, as an AMO does.
fn at_load_reserved() -> Peek
    ensures { (rd at input : ℕ) (h : Hart) (m : Memory) → result ≡ effect_peeked h m input Peek.Sync (loads_reserved rd at h m) }
{
    Peek::Sync
}

// An SC traps if the word may not be stored, also if its address isn't reserved.
fn at_store_conditional(pages: &Pages, at: u32) -> Peek
    ensures { (rd value input : ℕ) (h : Hart) → result ≡ effect_peeked h pages.now input Peek.Sc (stores_conditional rd at value h pages.now) }
{
    if at % 4 == 0 && pages.may_write_range(at, 4) {
        Peek::Sc
    } else {
        Peek::Sync
    }
}

fn at_amo() -> Peek
    ensures { (op : AmoOp) (rd at value input : ℕ) (h : Hart) (m : Memory) → result ≡ effect_peeked h m input Peek.Sync (changes_word op rd at value h m) }
{
    Peek::Sync
}

fn at_instruction(instr: Instr, hart: &Hart, pages: &Pages, input: u64) -> Peek
    requires { AreOperands instr }
    ensures { result ≡ effect_peeked hart.now pages.now input (instruction_peeked instr) (executed instr hart.now pages.now) }
{
    match instr {
        Instr::Lui { .. } => Peek::Plain,
        Instr::Auipc { .. } => Peek::Plain,
        Instr::Jal { imm, .. } => at_jump(hart.pc.wrapping_add(imm)),
        Instr::Jalr { rs1, imm, .. } => at_jump(address(hart, rs1, imm) / 2 * 2),
        Instr::Beq { rs1, rs2, imm } => {
            let (a, b) = (hart.register(rs1), hart.register(rs2));
            at_branch(hart, a == b, imm)
        }
        Instr::Bne { rs1, rs2, imm } => {
            let (a, b) = (hart.register(rs1), hart.register(rs2));
            at_branch(hart, a != b, imm)
        }
        Instr::Blt { rs1, rs2, imm } => {
            let (a, b) = (hart.register(rs1), hart.register(rs2));
            at_branch(hart, is_below_signed(a, b), imm)
        }
        Instr::Bge { rs1, rs2, imm } => {
            let (a, b) = (hart.register(rs1), hart.register(rs2));
            at_branch(hart, !is_below_signed(a, b), imm)
        }
        Instr::Bltu { rs1, rs2, imm } => {
            let (a, b) = (hart.register(rs1), hart.register(rs2));
            at_branch(hart, a < b, imm)
        }
        Instr::Bgeu { rs1, rs2, imm } => {
            let (a, b) = (hart.register(rs1), hart.register(rs2));
            at_branch(hart, a >= b, imm)
        }
        Instr::Lb { rs1, imm, .. } => at_load(pages, address(hart, rs1, imm), Width::One),
        Instr::Lh { rs1, imm, .. } => at_load(pages, address(hart, rs1, imm), Width::Two),
        Instr::Lw { rs1, imm, .. } => at_load(pages, address(hart, rs1, imm), Width::Four),
        Instr::Lbu { rs1, imm, .. } => at_load(pages, address(hart, rs1, imm), Width::One),
        Instr::Lhu { rs1, imm, .. } => at_load(pages, address(hart, rs1, imm), Width::Two),
        Instr::Sb { rs1, imm, .. } => at_store(pages, address(hart, rs1, imm), Width::One),
        Instr::Sh { rs1, imm, .. } => at_store(pages, address(hart, rs1, imm), Width::Two),
        Instr::Sw { rs1, imm, .. } => at_store(pages, address(hart, rs1, imm), Width::Four),
        Instr::Addi { .. } => Peek::Plain,
        Instr::Slti { .. } => Peek::Plain,
        Instr::Sltiu { .. } => Peek::Plain,
        Instr::Xori { .. } => Peek::Plain,
        Instr::Ori { .. } => Peek::Plain,
        Instr::Andi { .. } => Peek::Plain,
        Instr::Slli { .. } => Peek::Plain,
        Instr::Srli { .. } => Peek::Plain,
        Instr::Srai { .. } => Peek::Plain,
        Instr::Add { .. } => Peek::Plain,
        Instr::Sub { .. } => Peek::Plain,
        Instr::Sll { .. } => Peek::Plain,
        Instr::Slt { .. } => Peek::Plain,
        Instr::Sltu { .. } => Peek::Plain,
        Instr::Xor { .. } => Peek::Plain,
        Instr::Srl { .. } => Peek::Plain,
        Instr::Sra { .. } => Peek::Plain,
        Instr::Or { .. } => Peek::Plain,
        Instr::And { .. } => Peek::Plain,
        Instr::Fence => Peek::Plain,
        Instr::Ecall => at_call(hart, pages, input),
        Instr::Ebreak => Peek::Sync,
        Instr::LrW { .. } => at_load_reserved(),
        Instr::ScW { rs1, .. } => at_store_conditional(pages, hart.register(rs1)),
        Instr::AmoswapW { .. } => at_amo(),
        Instr::AmoaddW { .. } => at_amo(),
        Instr::AmoxorW { .. } => at_amo(),
        Instr::AmoandW { .. } => at_amo(),
        Instr::AmoorW { .. } => at_amo(),
        Instr::AmominW { .. } => at_amo(),
        Instr::AmomaxW { .. } => at_amo(),
        Instr::AmominuW { .. } => at_amo(),
        Instr::AmomaxuW { .. } => at_amo(),
    }
}
