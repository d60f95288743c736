// A racer whose offers are nonsense.
ghost use Rattle.std.specs.Prelude.{◌+◌, ◌<◌, ◌^◌};

use dp_base::limits::MAX_THREADS;
use dp_base::{Log, OutOfMemory, Tid};
use guest_kernel::{End, Pages, State, Thread, Threads, start_from_file};
use racing_runner::{ChaosRacer, JobSink, More, Offer, Plan, Racer, offers_of};
use std::alloc::Global;
use std::thread::Threads as Spawns;
use supply::Supply;
use sync_hints::{Hints, Sc, SyncHint};
use test_files::EXITS;

// Offers states and hints of these kinds, the state this many times. Of the kind 0 are the states that `ChaosRacer` 0
// offers, each once, and its hints.
#[derive(Clone, Copy)]
pub(crate) struct Nonsense {
    pub(crate) state: u32,
    pub(crate) hints: u32,
    pub(crate) count: u32,
}

// The greatest number of steps.
const MOST: u32 = u32::MAX;

fn hint(tid: u16, sc: Sc) -> SyncHint {
    SyncHint { tid: Tid(tid), sc }
}

fn hints_with(
    alloc: Global,
    counts: &[(Tid, u32)],
    order: &[SyncHint],
) -> Result<Hints, OutOfMemory> {
    Ok(Hints {
        counts: Log::from_vec(counts.to_vec(alloc)?),
        order: Log::from_vec(order.to_vec(alloc)?),
    })
}

// Hints of a kind.
fn hints_of(alloc: Global, kind: u32) -> Result<Hints, OutOfMemory> {
    match kind {
        // threads that are never made: nobody's step can be taken
        2 => hints_with(
            alloc,
            &[(Tid(u16::MAX), MOST)],
            &[hint(u16::MAX, Sc::Won), hint(u16::MAX, Sc::Lost)],
        ),
        5 => hints_with(alloc, &[(Tid(0), MOST)], &[hint(0, Sc::Lost)]),
        // the first thread alone, up to its first step that isn't plain
        3 => hints_with(alloc, &[(Tid(1), MOST)], &[]),
        // an order that no run has
        4 => hints_with(
            alloc,
            &[(Tid(1), MOST), (Tid(2), MOST), (Tid(3), MOST)],
            &[
                hint(1, Sc::Lost),
                hint(3, Sc::Won),
                hint(2, Sc::NotSc),
                hint(0, Sc::NotSc),
            ],
        ),
        // two counts of one thread, of which the first counts
        6 => hints_with(alloc, &[(Tid(1), 0), (Tid(1), MOST)], &[]),
        _ => Ok(Hints::none(alloc)),
    }
}

fn exits(alloc: Global) -> Result<State, OutOfMemory> {
    match start_from_file(alloc, &EXITS) {
        Ok(state) => Ok(state),
        Err(_) => Err(OutOfMemory),
    }
}

// A state with its threads exited.
fn exited(alloc: Global, start: &State) -> Result<Threads, OutOfMemory> {
    let mut items = start.threads.as_slice().to_vec(alloc)?;
    for item in items.iter_mut() {
        *item = Thread::Gone(7);
    }
    if items.len() > MAX_THREADS {
        return Err(OutOfMemory);
    }
    Ok(Threads::from_vec(items))
}

// A state with thread 1 at an address that is no multiple of 4.
fn astray(alloc: Global, start: &State) -> Result<Threads, OutOfMemory> {
    let mut threads = start.threads.share(alloc)?;
    if let Some(&Thread::Runs { mut hart, clear }) = threads.get(Tid(1)) {
        hart.pc = 0xffff_fffe;
        threads.set(Tid(1), Thread::Runs { hart, clear });
    }
    Ok(threads)
}

// The start of a round, spoilt so that no run of the guest comes to it.
fn state_of(alloc: Global, kind: u32, start: &State) -> Result<State, OutOfMemory> {
    let mut state = start.share(alloc)?;
    match kind {
        // another guest
        1 => return exits(alloc),
        // it has ended
        2 => state.end = End::Exit(0),
        // it is past each limit
        3 => state.steps = u64::MAX,
        4 => state.threads = Threads::from_vec(Vec::new(alloc)),
        5 => state.threads = exited(alloc, start)?,
        6 => state.input = u64::MAX,
        7 => state.threads = astray(alloc, start)?,
        8 => {
            state.heap = u32::MAX;
            state.brk = 0;
        }
        _ => state.pages = Pages::new(alloc)?,
    }
    Ok(state)
}

// Offers one after another, until the sink takes no more.
fn offer_all<K: JobSink>(sink: &mut K, offers: Vec<Offer>)
    requires ready { K.ready sink.old }
    ensures ready { K.ready sink.new }
    ensures goes { K.goes sink.old sink.new }
{
    'each: for offer in offers {
        match sink.offer(offer.hints, offer.next) {
            More::Yes => {}
            More::Enough => return,
        }
    }
}

// An offer with hints of a kind. Those of the kind 0 are its own.
fn with_hints(alloc: Global, offer: Offer, kind: u32) -> Result<Offer, OutOfMemory> {
    if kind == 0 {
        return Ok(offer);
    }
    let Offer { next, .. } = offer;
    let hints = hints_of(alloc, kind)?;
    Ok(Offer { hints, next })
}

impl Nonsense {
    // What it offers in a round from this start.
    fn offers<R: Spawns + Sync>(
        self,
        rt: &R,
        alloc: Global,
        start: &State,
        supply: &Supply,
        plan: &Plan,
    ) -> Result<Vec<Offer>, OutOfMemory>
        requires { start.now.steps + plan.now.left < 2 ^ 63 }
    {
        let mut made = Vec::new(alloc);
        if self.state == 0 {
            let good = offers_of(rt, alloc, &mut ChaosRacer::new(0), start, supply, plan)?;
            for offer in good {
                made.push(with_hints(alloc, offer, self.hints)?)?;
            }
            return Ok(made);
        }
        for _ in 0..self.count {
            let next = state_of(alloc, self.state, start)?;
            let hints = hints_of(alloc, self.hints)?;
            made.push(Offer { hints, next })?;
        }
        Ok(made)
    }
}

impl Racer for Nonsense {
    ghost use Rattle.std.specs.Prelude.{None};

    ghost tells = { λ racer start supply plan. None };

    fn race<R: Spawns + Sync, K: JobSink>(
        &mut self,
        rt: &R,
        alloc: Global,
        start: &State,
        supply: &Supply,
        plan: &Plan,
        sink: &mut K,
    ) -> Result<(), OutOfMemory> {
        let offers = self.offers(rt, alloc, start, supply, plan)?;
        offer_all(sink, offers);
        Ok(())
    }
}
