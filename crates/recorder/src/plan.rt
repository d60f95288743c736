// The plan of a round.
ghost use Rattle.std.specs.Prelude.{◌≡◌, ◌<◌};
ghost use Rattle.recorder.specs.Racing.{plan_of};

use crate::options::Options;
use guest_kernel::State;
use racing_runner::Plan;

// The plan of a round from this state.
pub(crate) fn plan_of(options: &Options, first: u16, start: &State) -> Plan
    ensures { result ≡ plan_of options.now first start.now }
{
    Plan {
        epoch: options.epoch,
        slice: options.slice,
        jobs: options.ahead,
        left: options.limit.saturating_sub(start.steps),
        first,
    }
}
