// The epoch that many tests share.
ghost use Rattle.std.specs.Prelude.{◌≡◌, IfOk};
ghost use Rattle.dp_base.specs.Journal.{frame};
ghost use Rattle.test_journals.specs.declared.epoch.TheConstants.{THREE_STEPS};

use dp_base::OutOfMemory;
use journal_text::Frame;
use std::alloc::Global;

/// The body of an epoch of one slice, of thread 1 and three steps, with no answer.
pub const THREE_STEPS: [u8; 15] = [
    0x00, 0x01, 0x00, 0x00, 0x00, 0x01, 0x00, 0x03, 0x00, 0x00, 0x00, 0x00, 0x00, 0x00, 0x00,
];

/// Returns the frame of that epoch.
///
/// # Errors
/// No memory.
#[tactic(auto, unfolding(journal_text::specs::Records::record_in, dp_base::specs::Journal::epoch_body_at, dp_base::specs::Journal::many_at, dp_base::specs::Journal::slice_at))]
pub fn frame_of_three_steps(alloc: Global) -> Result<Frame, OutOfMemory>
    ensures { IfOk result (λ made. made ≡ frame THREE_STEPS) }
{
    Frame::of(alloc, &THREE_STEPS)
}
