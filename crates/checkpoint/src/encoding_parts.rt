// The bytes of a checkpoint, put into a sink part by part.
ghost use Rattle.std.specs.Prelude.{◌≡◌, ◌<◌, ◌^◌, ◌++◌, true, IsErr, length};
ghost use Rattle.byteorder.specs.Endian.{little_bytes};
ghost use Rattle.std.specs.List.{flat_map};
ghost use Rattle.guest_state.specs.Checkpoint.{word, end_bytes, hart_bytes, thread_bytes, page_bytes};
ghost use Rattle.dp_base.specs.View.{page_of};
ghost use Rattle.checkpoint.specs.Sink.{Adds};
ghost use Rattle.checkpoint.specs.State.{state_bytes};

use crate::sink::Sink;
use dp_base::{OutOfMemory, PageView};
use guest_kernel::State;
use guest_state::{End, Hart, Thread};

/// Puts a state's bytes.
pub(crate) fn write_state<S: Sink>(sink: &mut S, state: &State) -> Result<(), OutOfMemory>
    ensures added { Adds S.holds sink.old sink.new result (state_bytes state.now) }
    ensures cause { IsErr result → S.may_fail ≡ true }
{
    write_numbers(sink, state)?;
    write_end(sink, state.end)?;
    write_counted_threads(sink, state.threads.as_slice())?;
    write_counted_pages(sink, state)?;
    Ok(())
}

pub(crate) fn write_numbers<S: Sink>(sink: &mut S, state: &State) -> Result<(), OutOfMemory>
    ensures added { Adds S.holds sink.old sink.new result (little_bytes 8 state.now.steps
        ++ (little_bytes 8 state.now.input ++ (word state.now.heap ++ word state.now.brk))) }
    ensures cause { IsErr result → S.may_fail ≡ true }
{
    write_long(sink, state.steps)?;
    write_long(sink, state.input)?;
    write_word(sink, state.heap)?;
    write_word(sink, state.brk)
}

// How the guest ended.
pub(crate) fn write_end<S: Sink>(sink: &mut S, end: End) -> Result<(), OutOfMemory>
    ensures added { Adds S.holds sink.old sink.new result (end_bytes end) }
    ensures cause { IsErr result → S.may_fail ≡ true }
{
    match end {
        End::None => sink.put(&[0]),
        End::Exit(code) => {
            sink.put(&[1])?;
            write_word(sink, code)
        }
        End::Trap { tid, cause, value } => {
            sink.put(&[2])?;
            sink.put(&tid.0.to_le_bytes())?;
            sink.put(&cause.to_le_bytes())?;
            write_word(sink, value)
        }
        End::Deadlock => sink.put(&[3]),
    }
}

// The threads, after their count.
pub(crate) fn write_counted_threads<S: Sink>(
    sink: &mut S,
    threads: &[Thread],
) -> Result<(), OutOfMemory>
    requires { length threads.now < 2 ^ 16 }
    ensures added { Adds S.holds sink.old sink.new result
        (little_bytes 2 (length threads.now) ++ flat_map thread_bytes threads.now) }
    ensures cause { IsErr result → S.may_fail ≡ true }
{
    sink.put(&(threads.len() as u16).to_le_bytes())?;
    write_threads(sink, threads)
}

fn write_threads<S: Sink>(sink: &mut S, threads: &[Thread]) -> Result<(), OutOfMemory>
    ensures added { Adds S.holds sink.old sink.new result (flat_map thread_bytes threads.now) }
    ensures cause { IsErr result → S.may_fail ≡ true }
{
    for thread in threads {
        write_thread(sink, thread)?;
    }
    Ok(())
}

fn write_thread<S: Sink>(sink: &mut S, thread: &Thread) -> Result<(), OutOfMemory>
    ensures added { Adds S.holds sink.old sink.new result (thread_bytes thread.now) }
    ensures cause { IsErr result → S.may_fail ≡ true }
{
    match thread {
        Thread::Runs { hart, clear } => {
            sink.put(&[0])?;
            write_hart(sink, hart, *clear)
        }
        Thread::Waits { addr, hart, clear } => {
            sink.put(&[1])?;
            write_waiting(sink, *addr, hart, *clear)
        }
        Thread::Gone(code) => {
            sink.put(&[2])?;
            write_word(sink, *code)
        }
    }
}

fn write_waiting<S: Sink>(
    sink: &mut S,
    addr: u32,
    hart: &Hart,
    clear: u32,
) -> Result<(), OutOfMemory>
    ensures added { Adds S.holds sink.old sink.new result (word addr ++ hart_bytes hart.now clear) }
    ensures cause { IsErr result → S.may_fail ≡ true }
{
    write_word(sink, addr)?;
    write_hart(sink, hart, clear)
}

fn write_hart<S: Sink>(sink: &mut S, hart: &Hart, clear: u32) -> Result<(), OutOfMemory>
    ensures added { Adds S.holds sink.old sink.new result (hart_bytes hart.now clear) }
    ensures cause { IsErr result → S.may_fail ≡ true }
{
    write_word(sink, hart.pc)?;
    write_word(sink, clear)?;
    write_words(sink, &hart.x)
}

fn write_words<S: Sink>(sink: &mut S, words: &[u32]) -> Result<(), OutOfMemory>
    ensures added { Adds S.holds sink.old sink.new result (flat_map word words.now) }
    ensures cause { IsErr result → S.may_fail ≡ true }
{
    for number in words {
        write_word(sink, *number)?;
    }
    Ok(())
}

// The pages, after their count.
fn write_counted_pages<S: Sink>(sink: &mut S, state: &State) -> Result<(), OutOfMemory>
    ensures added { Adds S.holds sink.old sink.new result
        (little_bytes 2 (length state.now.pages) ++ flat_map page_bytes state.now.pages) }
    ensures cause { IsErr result → S.may_fail ≡ true }
{
    sink.put(&(state.pages.pages() as u16).to_le_bytes())?;
    write_pages(sink, state)
}

fn write_pages<S: Sink>(sink: &mut S, state: &State) -> Result<(), OutOfMemory>
    ensures added { Adds S.holds sink.old sink.new result (flat_map page_bytes state.now.pages) }
    ensures cause { IsErr result → S.may_fail ≡ true }
{
    let count = state.pages.pages() as usize;
    for place in 0..count {
        let Some(page) = state.pages.at(place) else {
            unreachable!();
        };
        write_page(sink, &page)?;
    }
    Ok(())
}

fn write_page<S: Sink>(sink: &mut S, page: &PageView<'_>) -> Result<(), OutOfMemory>
    ensures added { Adds S.holds sink.old sink.new result (page_bytes (page_of page.now)) }
    ensures cause { IsErr result → S.may_fail ≡ true }
{
    write_word(sink, page.number)?;
    sink.put(&[page.flags])?;
    sink.put(page.bytes)
}

pub(crate) fn write_word<S: Sink>(sink: &mut S, number: u32) -> Result<(), OutOfMemory>
    ensures added { Adds S.holds sink.old sink.new result (word number) }
    ensures cause { IsErr result → S.may_fail ≡ true }
{
    sink.put(&number.to_le_bytes())
}

fn write_long<S: Sink>(sink: &mut S, number: u64) -> Result<(), OutOfMemory>
    ensures added { Adds S.holds sink.old sink.new result (little_bytes 8 number) }
    ensures cause { IsErr result → S.may_fail ≡ true }
{
    sink.put(&number.to_le_bytes())
}
