// A pass: threads run side by side on shared words, each up to its quota.
ghost use Rattle.std.specs.Prelude.{◌≡◌, ◌+◌, ◌*◌, ◌<◌, ◌≤◌, ◌^◌, IfOk};
ghost use Rattle.shared_words.specs.Copied.{AreMarksOf};
ghost use Rattle.shared_words.specs.Rule.{view_of};
ghost use Rattle.shared_words.specs.Words.{IsSeatAt, table_of};

use crate::kept_words::{KeptWords, words_of};
use crate::noted_words::{NotedAmo, NotedWords};
use crate::pass_part::{Part, race_parts};
use crate::stretch_course::Course;
use crate::thread_run::{ThreadRun, put_hart, running};
use amo_order::{Amo, PLACES, Placed, order_amos};
use disk_model::Gate;
use dp_base::OutOfMemory;
use dp_base::limits::MAX_THREADS;
use guest_kernel::State;
use rv_step::Stepped;
use shared_words::{Marks, Naming, RacingMem, Seat, SharedWords};
use std::alloc::Global;
use std::marker::Brand;
use std::thread::Threads;

// Lets the threads that may take steps race. The tickets count on.
pub(crate) fn race_pass<R: Threads + Sync, G: Gate + Sync>(
    rt: &R,
    alloc: Global,
    gate: &G,
    workers: u32,
    state: &mut State,
    threads: &mut [ThreadRun],
    course: &mut Course,
    kept: &mut Option<KeptWords>,
) -> Result<(), OutOfMemory>
    requires { 0 < workers }
{
    let KeptWords {
        words,
        mut seat,
        passes,
        pages: _,
        blocks: _,
    } = words_of(alloc, kept.take(), &state.pages)?;
    let first = words.ticket(&mut seat);
    // The tickets of the words count on from pass to pass, and those of a stretch begin anew.
    let base = course.tickets.wrapping_sub(first.wrapping_mul(PLACES));
    let (mut seat, marks) = race_on::<Brand, R, G>(
        rt, alloc, gate, workers, &words, seat, state, threads, base,
    )?;
    words.copy_to(&mut seat, &marks, &mut state.pages)?;
    let last = words.ticket(&mut seat);
    let places = last.saturating_sub(first).saturating_mul(PLACES);
    course.tickets = course.tickets.saturating_add(places);
    let pages = state.pages.share(alloc)?;
    *kept = Some(KeptWords {
        words,
        seat,
        passes: passes - 1,
        pages,
        blocks: marks.count().min(u32::MAX as usize) as u32,
    });
    Ok(())
}

// Lets the threads race on these words. Returns a seat, and marks of what was stored to.
fn race_on<J: Naming + Send + Sync, R: Threads + Sync, G: Gate + Sync>(
    rt: &R,
    alloc: Global,
    gate: &G,
    workers: u32,
    words: &SharedWords,
    seat: Seat,
    state: &mut State,
    threads: &mut [ThreadRun],
    base: u64,
) -> Result<(Seat, Marks), OutOfMemory>
    requires some { 0 < workers }
    requires named { table_of words.now ≡ J.table }
    requires seat { IsSeatAt J.table seat }
    requires budget { 2 ^ 42 ≤ (view_of seat).budget }
    ensures seat { IfOk result (λ r. IsSeatAt J.table r.0) }
    ensures budget { IfOk result (λ r. (view_of seat).budget ≤ (view_of r.0).budget + 2 ^ 42) }
    ensures marks { IfOk result (λ r. AreMarksOf words.now r.1) }
{
    let mut marks = words.no_marks(alloc)?;
    let (mut parts, seat) = make_parts::<J>(alloc, words, seat, state, threads)?;
    race_parts(rt, gate, workers, &mut parts);
    let mut amos = Vec::new(alloc);
    let seat = take_parts(
        words, seat, state, threads, parts, base, &mut marks, &mut amos,
    )?;
    let placed = order_amos(alloc, &amos)?;
    put_places(threads, &placed);
    Ok((seat, marks))
}

// Makes a part of each thread that may take steps. Returns the first seat too.
fn make_parts<'a, J: Naming>(
    alloc: Global,
    words: &'a SharedWords,
    mut seat: Seat,
    state: &State,
    threads: &[ThreadRun],
) -> Result<(Vec<Part<'a, J>>, Seat), OutOfMemory>
    requires named { table_of words.now ≡ J.table }
    requires seat { IsSeatAt J.table seat }
    requires budget { 2 ^ 42 ≤ (view_of seat).budget }
    ensures seat { IfOk result (λ r. IsSeatAt J.table r.1) }
    ensures budget { IfOk result (λ r. (view_of seat).budget ≤ (view_of r.1).budget + 2 ^ 42) }
{
    let mut parts = Vec::new(alloc);
    for index in 0..threads.len().min(MAX_THREADS) {
        let tid = threads[index].tid;
        let quota = threads[index].quota;
        if quota == 0 {
            continue;
        }
        if let Some(hart) = running(state, tid) {
            let (rest, new) = words.split(seat);
            seat = rest;
            parts.push(Part {
                index,
                tid,
                worker: 1,
                hart,
                memory: NotedWords::new(alloc, RacingMem::new(alloc, words, new)?),
                quota,
                steps: 0,
                stop: Ok(Stepped::Went),
            })?;
        }
    }
    Ok((parts, seat))
}

// Takes the parts' threads back, joins their seats, and adds their marks.
fn take_parts<J: Naming>(
    words: &SharedWords,
    mut seat: Seat,
    state: &mut State,
    threads: &mut [ThreadRun],
    parts: Vec<Part<'_, J>>,
    base: u64,
    marks: &mut Marks,
    amos: &mut Vec<Amo>,
) -> Result<Seat, OutOfMemory>
    requires named { table_of words.now ≡ J.table }
    requires seat { IsSeatAt J.table seat }
    requires marks { AreMarksOf words.now marks.old }
    ensures seat { IfOk result (λ r. IsSeatAt J.table r) }
    ensures budget { IfOk result (λ r. (view_of seat).budget ≤ (view_of r).budget) }
    ensures marks { AreMarksOf words.now marks.new }
{
    for part in parts {
        let (other, stored) = take_part(state, threads, part, base, amos)?;
        seat = words.join(seat, other);
        marks.add(&stored);
    }
    Ok(seat)
}

// Takes a part's thread back, and adds its AMOs. Returns its seat, and marks of what it stored to.
fn take_part<J: Naming>(
    state: &mut State,
    threads: &mut [ThreadRun],
    part: Part<'_, J>,
    base: u64,
    amos: &mut Vec<Amo>,
) -> Result<(Seat, Marks), OutOfMemory>
    ensures { IfOk result (λ r. IsSeatAt J.table r.0) }
{
    let Part {
        index,
        tid,
        worker: _,
        hart,
        memory,
        quota: _,
        steps,
        stop,
    } = part;
    let stop = stop?;
    let NotedWords {
        memory,
        amos: noted,
        entries: _,
        is_out_of_memory,
    } = memory;
    if is_out_of_memory || memory.is_out_of_memory() {
        return Err(OutOfMemory);
    }
    let (seat, log, marks) = memory.into_parts();
    put_hart(state, tid, hart);
    state.steps = state.steps.saturating_add(u64::from(steps));
    if let Some(thread) = threads.get_mut(index) {
        thread.at_call = matches!(stop, Stepped::Ecall | Stepped::Trap { .. });
        let first = thread.entry_count();
        thread.note(steps, base, PLACES, log.as_slice())?;
        add_amos(index, thread, first, &noted, amos)?;
    }
    Ok((seat, marks))
}

// Adds the AMOs of a thread whose entries in this pass begin with the first one.
fn add_amos(
    index: usize,
    thread: &ThreadRun,
    first: usize,
    noted: &[NotedAmo],
    amos: &mut Vec<Amo>,
) -> Result<(), OutOfMemory> {
    for amo in noted {
        let entry = first.saturating_add(amo.entry);
        if let Some(ticket) = thread.ticket(entry) {
            amos.push(Amo {
                thread: index,
                entry,
                address: amo.address,
                found: amo.found,
                stored: amo.stored,
                ticket,
                next: thread.ticket(entry.saturating_add(1)).unwrap_or(u64::MAX),
            })?;
        }
    }
    Ok(())
}

// Gives AMOs their places as tickets.
fn put_places(threads: &mut [ThreadRun], placed: &[Placed]) {
    for placed in placed {
        if let Some(thread) = threads.get_mut(placed.amo.thread) {
            thread.set_ticket(placed.amo.entry, placed.place);
        }
    }
}
