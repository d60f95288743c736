// What a thread does in a stretch.
use dp_base::{Log, OutOfMemory, Tid};
use guest_kernel::{Hart, State, Thread};
use std::alloc::Global;
use sync_hints::{Sc, ThreadLog};

// What a thread has done in a stretch, and how many steps it may still take.
#[derive(Drop)]
pub(crate) struct ThreadRun {
    pub(crate) tid: Tid,
    pub(crate) quota: u32,
    // Whether it stopped at a call or a trap.
    pub(crate) at_call: bool,
    steps: u32,
    // The ticket of each step that synchronises, and what the step is.
    entries: Vec<(u64, Sc)>,
}

impl ThreadRun {
    pub(crate) fn new(alloc: Global, tid: Tid) -> ThreadRun {
        ThreadRun {
            tid,
            quota: 0,
            at_call: false,
            steps: 0,
            entries: Vec::new(alloc),
        }
    }

    // Notes steps, and those that synchronise. A ticket of the stretch is counted from a base.
    pub(crate) fn note(
        &mut self,
        steps: u32,
        base: u64,
        each: u64,
        entries: &[(u64, Sc)],
    ) -> Result<(), OutOfMemory> {
        self.quota = self.quota.saturating_sub(steps);
        self.steps = self.steps.saturating_add(steps);
        for entry in entries {
            let ticket = base.wrapping_add(entry.0.wrapping_mul(each));
            self.entries.push((ticket, entry.1))?;
        }
        Ok(())
    }

    // How many steps that synchronise are noted.
    pub(crate) fn entry_count(&self) -> usize {
        self.entries.len()
    }

    // The ticket of an entry. There is none after the last one.
    pub(crate) fn ticket(&self, entry: usize) -> Option<u64> {
        self.entries.get(entry).map(|entry| entry.0)
    }

    // Gives an entry another ticket.
    pub(crate) fn set_ticket(&mut self, entry: usize, ticket: u64) {
        if let Some(entry) = self.entries.get_mut(entry) {
            entry.0 = ticket;
        }
    }
}

// The logs of the threads that have taken steps.
pub(crate) fn logs_of(
    alloc: Global,
    threads: Vec<ThreadRun>,
) -> Result<Vec<ThreadLog>, OutOfMemory> {
    let mut logs = Vec::new(alloc);
    for thread in threads {
        let ThreadRun {
            tid,
            steps,
            entries,
            ..
        } = thread;
        if steps > 0 {
            logs.push(ThreadLog {
                tid,
                steps,
                entries: Log::from_vec(entries),
            })?;
        }
    }
    Ok(logs)
}

// The hart of a thread that runs.
pub(crate) fn running(state: &State, tid: Tid) -> Option<Hart> {
    match state.threads.get(tid) {
        Some(&Thread::Runs { hart, .. }) => Some(hart),
        _ => None,
    }
}

// Puts the hart of a thread that runs back, without a reservation.
pub(crate) fn put_hart(state: &mut State, tid: Tid, mut hart: Hart) {
    hart.held = None;
    if let Some(&Thread::Runs { clear, .. }) = state.threads.get(tid) {
        state.threads.set(tid, Thread::Runs { hart, clear });
    }
}

// How many threads run.
pub(crate) fn running_count(state: &State) -> u32 {
    let mut count = 0u32;
    for thread in state.threads.as_slice() {
        if matches!(thread, Thread::Runs { .. }) {
            count = count.saturating_add(1);
        }
    }
    count
}

// How many threads run and may take steps.
pub(crate) fn ready_count(state: &State, threads: &[ThreadRun]) -> u32 {
    let mut count = 0u32;
    for thread in threads {
        if thread.quota > 0 && running(state, thread.tid).is_some() {
            count = count.saturating_add(1);
        }
    }
    count
}

// Adds the threads that were made since. They have no quota yet.
pub(crate) fn add_threads(
    alloc: Global,
    state: &State,
    threads: &mut Vec<ThreadRun>,
) -> Result<(), OutOfMemory> {
    for index in threads.len()..state.threads.len() {
        threads.push(ThreadRun::new(alloc, Tid(index as u16 + 1)))?;
    }
    Ok(())
}

// Who gets a share of the steps that are left.
#[derive(Clone, Copy, PartialEq, Eq)]
pub(crate) enum Share {
    // The threads that run.
    Running,
    // All. A thread that waits may be woken.
    All,
}

// Shares steps among the threads that run: at least one each. Returns whether there was anything to share.
pub(crate) fn grant(state: &State, threads: &mut [ThreadRun], steps: u64, share: Share) -> bool {
    let count = u64::from(running_count(state));
    if count == 0 || steps == 0 {
        return false;
    }
    let each = (steps / count).max(1).min(u64::from(u32::MAX)) as u32;
    for index in 0..threads.len() {
        let gets = share == Share::All || running(state, threads[index].tid).is_some();
        threads[index].quota = if gets { each } else { 0 };
    }
    true
}
