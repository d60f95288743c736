// Threads one after another on one processor, whose steps are noted as those of a pass are.
ghost use Rattle.std.specs.Prelude.{◌≤◌};

use crate::noted_pages::NotedPages;
use crate::pass_part::run_hart;
use crate::stopped_turns::{Taken, take_turn};
use crate::stretch_course::Course;
use crate::thread_run::{Share, ThreadRun, add_threads, grant, put_hart, running};
use dp_base::OutOfMemory;
use guest_kernel::State;
use rv_step::Stepped;
use std::alloc::Global;
use std::mem;
use supply::Supply;

// Lets the threads go on, one after another, until their quotas are used or none can go on.
pub(crate) fn use_quotas(
    alloc: Global,
    state: &mut State,
    supply: &Supply,
    threads: &mut [ThreadRun],
    course: &mut Course,
) -> Result<(), OutOfMemory> {
    let mut memory = NotedPages::new(alloc)?;
    use_quotas_in(alloc, state, supply, threads, course, &mut memory)
}

// The same, with a memory that has no pages and no entries.
fn use_quotas_in(
    alloc: Global,
    state: &mut State,
    supply: &Supply,
    threads: &mut [ThreadRun],
    course: &mut Course,
    memory: &mut NotedPages,
) -> Result<(), OutOfMemory> {
    for _ in 0..u32::MAX {
        if !run_each(alloc, state, supply, threads, course, memory)? {
            return Ok(());
        }
    }
    Ok(())
}

// Lets the threads go on, one after another, until the stretch is over or none can go on. Threads that wait or yield
// leave their steps to others.
pub(crate) fn run_to_end(
    alloc: Global,
    state: &mut State,
    supply: &Supply,
    threads: &mut Vec<ThreadRun>,
    course: &mut Course,
) -> Result<(), OutOfMemory> {
    let mut memory = NotedPages::new(alloc)?;
    use_quotas_in(alloc, state, supply, threads, course, &mut memory)?;
    for _ in 0..u32::MAX {
        add_threads(alloc, state, threads)?;
        if !grant(state, threads, course.left(state), Share::All) {
            return Ok(());
        }
        let before = state.steps;
        use_quotas_in(alloc, state, supply, threads, course, &mut memory)?;
        if state.steps == before {
            return Ok(());
        }
    }
    Ok(())
}

// Lets each thread go on. Returns whether a step was taken.
fn run_each(
    alloc: Global,
    state: &mut State,
    supply: &Supply,
    threads: &mut [ThreadRun],
    course: &mut Course,
    memory: &mut NotedPages,
) -> Result<bool, OutOfMemory> {
    let mut moved = false;
    for index in 0..threads.len() {
        if run_through_calls(alloc, state, supply, threads, index, course, memory)? {
            moved = true;
        }
    }
    Ok(moved)
}

// Lets a thread go on, and take the turns of the calls at which it stops, until its quota is used or it waits, yields or
// ends. A thread that yields loses its quota: it may look for what another one does. Returns whether a step was taken.
fn run_through_calls(
    alloc: Global,
    state: &mut State,
    supply: &Supply,
    threads: &mut [ThreadRun],
    index: usize,
    course: &mut Course,
    memory: &mut NotedPages,
) -> Result<bool, OutOfMemory> {
    let mut moved = false;
    for _ in 0..u32::MAX {
        let went = match threads.get_mut(index) {
            Some(thread) => run_thread(state, thread, course, memory)?,
            None => Went::Nowhere,
        };
        if went.has_moved() {
            moved = true;
        }
        if !went.has_stopped() {
            return Ok(moved);
        }
        let taken = take_turn(alloc, state, supply, threads, index, course)?;
        if taken == Taken::Nothing {
            return Ok(moved);
        }
        moved = true;
        if taken == Taken::AYield
            && let Some(thread) = threads.get_mut(index)
        {
            thread.quota = 0;
        }
    }
    Ok(moved)
}

// How far a thread went.
#[derive(Clone, Copy)]
enum Went {
    Nowhere,
    // To the end of its quota or of the stretch.
    ToItsEnd,
    // To a call or a trap, with or without a step.
    ToACall { moved: bool },
}

impl Went {
    fn has_stopped(self) -> bool {
        matches!(self, Went::ToACall { .. })
    }

    fn has_moved(self) -> bool {
        match self {
            Went::Nowhere => false,
            Went::ToItsEnd => true,
            Went::ToACall { moved } => moved,
        }
    }
}

// Lets a thread go on until it has used its quota, the stretch is over, or it stops at a call or a trap.
fn run_thread(
    state: &mut State,
    thread: &mut ThreadRun,
    course: &mut Course,
    memory: &mut NotedPages,
) -> Result<Went, OutOfMemory> {
    let limit = course.left(state).min(u64::from(thread.quota)) as u32;
    if limit == 0 {
        return Ok(Went::Nowhere);
    }
    let Some(hart) = running(state, thread.tid) else {
        return Ok(Went::Nowhere);
    };
    memory.tickets = course.tickets;
    let mut hart = hart;
    mem::swap(&mut state.pages, &mut memory.pages);
    let run = run_hart(&mut hart, memory, limit);
    mem::swap(&mut state.pages, &mut memory.pages);
    course.tickets = memory.tickets;
    let stop = run.stop?;
    if memory.is_out_of_memory {
        return Err(OutOfMemory);
    }
    put_hart(state, thread.tid, hart);
    state.steps = state.steps.saturating_add(u64::from(run.steps));
    thread.note(run.steps, 0, 1, &memory.entries)?;
    memory.entries.clear();
    if matches!(stop, Stepped::Went) {
        return Ok(Went::ToItsEnd);
    }
    Ok(Went::ToACall {
        moved: run.steps > 0,
    })
}
