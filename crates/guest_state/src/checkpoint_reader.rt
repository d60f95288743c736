// The parts of a checkpoint, each read from the start of bytes.
ghost use Rattle.std.specs.Prelude.{◌≡◌, IfSome, option_map};
ghost use Rattle.dp_base.specs.Field.{number_at};
ghost use Rattle.dp_base.specs.Journal.{many_at};
ghost use Rattle.dp_base.specs.Memory.{IsPage};
ghost use Rattle.dp_base.specs.View.{page_of};
ghost use Rattle.guest_state.specs.Checkpoint.{end_from, exit_from, trap_from, hart_from, thread_from, runs_from, waits_from, gone_from, page_from};

use crate::end::End;
use crate::hart::Hart;
use crate::thread::Thread;
use dp_base::limits::{PAGE_BYTES, PAGE_NUMBERS};
use dp_base::little_endian::{read_u8, read_u16, read_u32};
use dp_base::{PageView, Tid};

// The kinds of an end.
const NO_END: u8 = 0;

const EXIT: u8 = 1;

const TRAP: u8 = 2;

const DEADLOCK: u8 = 3;

// The kinds of a thread.
const RUNS: u8 = 0;

const WAITS: u8 = 1;

const GONE: u8 = 2;

/// Returns how a guest ended, and the bytes after it. Returns `None` exactly if the bytes don't start with an end.
#[tactic(auto, unfolding(crate::specs::Checkpoint::end_from))]
pub fn read_end(bytes: &[u8]) -> Option<(End, &[u8])>
    ensures { option_map (λ x. (x.0, x.1.now)) result ≡ end_from bytes.now }
{
    let (kind, rest) = read_u8(bytes)?;
    match kind {
        NO_END => Some((End::None, rest)),
        EXIT => read_exit(rest),
        TRAP => read_trap(rest),
        DEADLOCK => Some((End::Deadlock, rest)),
        _ => None,
    }
}

#[tactic(auto, unfolding(crate::specs::Checkpoint::exit_from))]
fn read_exit(bytes: &[u8]) -> Option<(End, &[u8])>
    ensures { option_map (λ x. (x.0, x.1.now)) result ≡ exit_from bytes.now }
{
    let (code, rest) = read_u32(bytes)?;
    Some((End::Exit(code), rest))
}

#[tactic(auto, unfolding(crate::specs::Checkpoint::trap_from))]
fn read_trap(bytes: &[u8]) -> Option<(End, &[u8])>
    ensures { option_map (λ x. (x.0, x.1.now)) result ≡ trap_from bytes.now }
{
    let (tid, rest) = read_u16(bytes)?;
    let (cause, rest) = read_u8(rest)?;
    let (value, rest) = read_u32(rest)?;
    if cause < 8 {
        let tid = Tid(tid);
        Some((End::Trap { tid, cause, value }, rest))
    } else {
        None
    }
}

/// Returns a thread, and the bytes after it. Returns `None` exactly if the bytes don't start with one.
#[tactic(auto, unfolding(crate::specs::Checkpoint::thread_from))]
pub fn read_thread(bytes: &[u8]) -> Option<(Thread, &[u8])>
    ensures { option_map (λ x. (x.0, x.1.now)) result ≡ thread_from bytes.now }
{
    let (kind, rest) = read_u8(bytes)?;
    match kind {
        RUNS => read_runs(rest),
        WAITS => read_waits(rest),
        GONE => read_gone(rest),
        _ => None,
    }
}

#[tactic(auto, unfolding(crate::specs::Checkpoint::runs_from))]
fn read_runs(bytes: &[u8]) -> Option<(Thread, &[u8])>
    ensures { option_map (λ x. (x.0, x.1.now)) result ≡ runs_from bytes.now }
{
    let (hart, clear, rest) = read_hart(bytes)?;
    Some((Thread::Runs { hart, clear }, rest))
}

#[tactic(auto, unfolding(crate::specs::Checkpoint::waits_from))]
fn read_waits(bytes: &[u8]) -> Option<(Thread, &[u8])>
    ensures { option_map (λ x. (x.0, x.1.now)) result ≡ waits_from bytes.now }
{
    let (addr, rest) = read_u32(bytes)?;
    let (hart, clear, rest) = read_hart(rest)?;
    Some((Thread::Waits { addr, hart, clear }, rest))
}

#[tactic(auto, unfolding(crate::specs::Checkpoint::gone_from))]
fn read_gone(bytes: &[u8]) -> Option<(Thread, &[u8])>
    ensures { option_map (λ x. (x.0, x.1.now)) result ≡ gone_from bytes.now }
{
    let (code, rest) = read_u32(bytes)?;
    Some((Thread::Gone(code), rest))
}

// A hart without a reservation, its clear-on-exit address, and the bytes after them.
#[tactic(auto, unfolding(crate::specs::Checkpoint::hart_from))]
fn read_hart(bytes: &[u8]) -> Option<(Hart, u32, &[u8])>
    ensures { option_map (λ x. ((x.0, x.1), x.2.now)) result ≡ hart_from bytes.now }
{
    let (pc, rest) = read_u32(bytes)?;
    let (clear, rest) = read_u32(rest)?;
    let (x, rest) = read_registers(rest)?;
    let hart = Hart { pc, x, held: None };
    Some((hart, clear, rest))
}

// The registers x1 to x31, and the bytes after them.
fn read_registers(bytes: &[u8]) -> Option<([u32; 31], &[u8])>
    ensures { option_map (λ x. (x.0, x.1.now)) result ≡ many_at (number_at 4) 31 bytes.now }
{
    let mut x = [0; 31];
    let mut rest = bytes;
    for place in 0..31 {
        let Some((value, behind)) = read_u32(rest) else {
            return None;
        };
        x[place] = value;
        rest = behind;
    }
    Some((x, rest))
}

/// Returns a page, and the bytes after it. Returns `None` exactly if the bytes don't start with one.
#[tactic(auto, unfolding(crate::specs::Checkpoint::page_from))]
pub fn read_page(bytes: &[u8]) -> Option<(PageView<'_>, &[u8])>
    ensures page { option_map (λ x. (page_of x.0, x.1.now)) result ≡ page_from bytes.now }
    ensures kept { IfSome result (λ x. IsPage (page_of x.0)) }
{
    let (number, rest) = read_u32(bytes)?;
    let (flags, rest) = read_u8(rest)?;
    if rest.len() < PAGE_BYTES as usize {
        return None;
    }
    let (bytes, rest) = rest.split_at(PAGE_BYTES as usize);
    if number < PAGE_NUMBERS && flags < 8 {
        let page = PageView {
            number,
            flags,
            bytes,
        };
        Some((page, rest))
    } else {
        None
    }
}
