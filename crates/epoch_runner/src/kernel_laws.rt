// The laws of the kernel that this crate's proofs use, each in one place.
ghost use Rattle.epoch_runner.specs.KernelLaws.{RunLaws, TurnLaws};

use guest_kernel::laws;

// A turn is of a thread that runs, goes by its peek, and is one step.
pub(crate) fn turn_laws()
    ensures { TurnLaws }
{
    laws::a_turn_is_of_a_thread_that_runs();
    laws::a_turn_goes_by_its_peek();
    laws::a_turn_is_one_step();
    laws::the_place_grows_by_what_is_read();
}

// Turns make slices, and slices a run.
pub(crate) fn run_laws()
    ensures { RunLaws }
{
    laws::a_turn_reads_and_writes_little();
    laws::a_longer_log_serves();
    laws::turns_count_on();
    laws::a_slice_more();
}
