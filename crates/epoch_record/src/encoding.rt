// An epoch becomes the body of its record.
ghost use Rattle.std.specs.Prelude.{◌≡◌, IfOk};
ghost use Rattle.dp_base.specs.Journal.{IsEpoch, epoch_body};
ghost use Rattle.epoch_record.specs.Epoch.{epoch_of};

use crate::epoch::Epoch;
use dp_base::OutOfMemory;
use dp_base::journal_writer::write_epoch_body;
use std::alloc::Global;

/// Returns the body of an epoch's record.
pub fn encode(alloc: Global, epoch: &Epoch) -> Result<Vec<u8>, OutOfMemory>
    requires { IsEpoch (epoch_of epoch.now) }
    ensures { IfOk result (λ body. body.items ≡ epoch_body (epoch_of epoch.now)) }
{
    let mut body = Vec::new(alloc);
    write_epoch_body(&mut body, epoch.slices.as_slice(), epoch.answers.as_slice())?;
    Ok(body)
}
