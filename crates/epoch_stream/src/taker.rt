// What takes the results of a round.
ghost use Rattle.std.specs.Prelude.{◌≡◌, ◌<◌, ◌+◌};
ghost use Rattle.dp_base.specs.declared.limits.TheConstants.{MAX_JOBS};
ghost use Rattle.epoch_runner.specs.declared.epoch_run.EpochRun.{EpochRun};
ghost use Rattle.epoch_runner.specs.declared.epoch_run.Ran.TheVariants.{Epoch};
ghost use Rattle.racing_runner.specs.declared.offer.More.TheVariants.{Yes};

use epoch_runner::Ran;
use racing_runner::More;

/// Takes the results of a round, in the order of the jobs.
pub trait Taker {
    ghost use Rattle.std.specs.Prelude.{ℕ};
    ghost use Rattle.epoch_runner.specs.declared.epoch_run.Ran.{Ran};
    ghost use Rattle.racing_runner.specs.declared.offer.More.{More};
    ghost use Rattle.guest_kernel.specs.declared.state.State.{State};

    /// What a take does: of the taker before, the result, the answer and the taker after.
    ghost takes: { Self → Ran → More → Self → Type 0 };

    /// It may take a result.
    ghost ready: { Self → Type 0 };

    /// The next epoch should start in this state.
    ghost expects: { Self → State → Type 0 };

    /// How many results it has taken.
    ghost taken: { Self → ℕ };

    /// Takes the next result. Returns `Enough` if no more are taken.
    fn take(&mut self, ran: Ran) -> More
        requires ready { ready self.old }
        requires few { taken self.old < MAX_JOBS }
        ensures takes { takes self.old ran result self.new }
        ensures ready { result ≡ Yes → ready self.new × (taken self.new ≡ taken self.old + 1) };

    /// Takes the next result as `take` does. An epoch is known to start in the state that is expected, so its start
    /// need not be compared.
    fn take_known(&mut self, ran: Ran) -> More
        requires ready { ready self.old }
        requires few { taken self.old < MAX_JOBS }
        requires known { (run : EpochRun) → ran ≡ Epoch run → expects self.old run.start }
        ensures takes { takes self.old ran result self.new }
        ensures ready { result ≡ Yes → ready self.new × (taken self.new ≡ taken self.old + 1) };
}
