// A racer whose offers are nonsense.
use dp_base::{Log, OutOfMemory, Tid};
use guest_kernel::{End, State};
use racing_runner::{JobSink, Plan, Racer};
use std::alloc::Global;
use std::thread::Threads;
use supply::Supply;
use sync_hints::{Hints, Sc, SyncHint};

/// Offers a state past each limit, an ended one, and the start again, over and over, with hints of threads that are
/// never made. It goes on after an `Enough`.
#[derive(Clone, Copy)]
pub(crate) struct Nonsense {
    pub(crate) count: u32,
}

fn state_of(alloc: Global, kind: u32, start: &State) -> Result<State, OutOfMemory> {
    let mut state = start.share(alloc)?;
    match kind % 3 {
        0 => state.steps = u64::MAX,
        1 => state.end = End::Exit(0),
        _ => {}
    }
    Ok(state)
}

fn hints_of(alloc: Global, kind: u32) -> Result<Hints, OutOfMemory> {
    let mut hints = Hints::none(alloc);
    if kind % 2 == 0 {
        let hint = SyncHint {
            tid: Tid(u16::MAX),
            sc: Sc::Won,
        };
        hints = Hints {
            counts: Log::from_vec([(Tid(0), u32::MAX)].to_vec(alloc)?),
            order: Log::from_vec([hint].to_vec(alloc)?),
        };
    }
    Ok(hints)
}

impl Racer for Nonsense {
    ghost use Rattle.std.specs.Prelude.{None};

    ghost tells = { λ racer start supply plan. None };

    fn race<R: Threads + Sync, K: JobSink>(
        &mut self,
        _rt: &R,
        alloc: Global,
        start: &State,
        _supply: &Supply,
        _plan: &Plan,
        sink: &mut K,
    ) -> Result<(), OutOfMemory> {
        offer_all(alloc, self.count, start, sink)
    }
}

fn offer_all<K: JobSink>(
    alloc: Global,
    count: u32,
    start: &State,
    sink: &mut K,
) -> Result<(), OutOfMemory>
    requires ready { K.ready sink.old }
    ensures ready { K.ready sink.new }
    ensures goes { K.goes sink.old sink.new }
{
    'each: for kind in 0..count {
        let next = state_of(alloc, kind, start)?;
        let hints = hints_of(alloc, kind)?;
        let _ = sink.offer(hints, next);
    }
    Ok(())
}
