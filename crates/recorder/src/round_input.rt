// What a round reads from the input and the clock.
ghost use Rattle.std.specs.Prelude.{◌≡◌, ◌<◌, ◌≤◌, ◌^◌, true, IsErr, OnErr, OnOk};
ghost use Rattle.dp_base.specs.Counts.{Rose};
ghost use Rattle.disk_model.specs.Known.{IfKnown};
ghost use Rattle.epoch_runner.specs.Answering.{input_due};
ghost use Rattle.recorder.specs.Drawing.{RoundInput, Drew, supply_of};
ghost use Rattle.supply.specs.Supplied.{IsSupply, end_of};
ghost use Rattle.supply.specs.declared.TheConstants.{MAX_ROOM};

use disk_model::Inlet;
use epoch_runner::input_due;
use guest_kernel::State;
use supply::{InputFault, Supply};

/// Refills the supply exactly if a thread of the guest waits for input, and then reads the clock once, for the round's
/// stamp.
///
/// # Errors
///
/// `InputFault` if input was due and could not be read. The clock wasn't read then.
pub(crate) fn draw<I: Inlet>(
    inlet: &mut I,
    supply: &mut Supply,
    state: &State,
) -> Result<(), InputFault>
    requires supply { IsSupply supply.old }
    requires room { supply.old.room ≡ MAX_ROOM }
    requires place { supply.old.place ≤ state.now.input }
    requires within { state.now.input ≤ end_of supply.old }
    requires early { state.now.input < 2 ^ 63 }
    ensures drew { OnOk result ((d : RoundInput) × (d.due ≡ input_due state.now supply.old) × (supply.new ≡ supply_of supply.old d)
        × IfKnown (Drew d) (I.input inlet.old) (I.input inlet.new)) }
    ensures is_supply { OnOk result (IsSupply supply.new) }
    ensures kept { OnErr result (I.input inlet.new ≡ I.input inlet.old) }
    ensures due { IsErr result → input_due state.now supply.old ≡ true }
    ensures none { OnOk result (I.input_faults inlet.new ≡ I.input_faults inlet.old) }
    ensures cause { IsErr result → Rose (I.input_faults inlet.old) (I.input_faults inlet.new) }
    ensures count { I.input_faults inlet.old ≤ I.input_faults inlet.new }
{
    epoch_runner::laws::a_supply_lets_a_guest_step();
    if input_due(state, supply) {
        supply.refill(inlet)?;
    }
    supply.set_stamp(inlet.clock());
    Ok(())
}
