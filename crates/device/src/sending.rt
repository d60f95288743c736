ghost use Rattle.std.specs.Prelude.{◌≡◌, ◌≤◌, IsErr, OnOk, is_ok};
ghost use Rattle.dp_base.specs.Counts.{Rose};
ghost use Rattle.disk_model.specs.Known.{IfKnown};
ghost use Rattle.device.specs.Sending.{SendCalls, Sent, joined_pieces};

use disk_model::{Failed, Stream, World};

/// Sends all of these bytes, in as many parts as it takes. At every moment of the call a prefix of them was sent, and a
/// crash leaves on the disk what it would have left before the call.
///
/// # Errors
///
/// `Failed` if the stream failed. Any prefix of the bytes may have been sent, and nothing else was.
pub fn send_all<W: World>(world: &mut W, to: Stream, bytes: &[u8]) -> Result<(), Failed>
    ensures history { IfKnown (Sent to bytes.now (is_ok result)) (W.history world.old) (W.history world.new) }
    ensures calls { IfKnown (SendCalls to bytes.now (is_ok result)) (W.history world.old) (W.history world.new) }
    ensures none { OnOk result (W.sink_faults world.new ≡ W.sink_faults world.old) }
    ensures cause { IsErr result → Rose (W.sink_faults world.old) (W.sink_faults world.new) }
    ensures count { W.sink_faults world.old ≤ W.sink_faults world.new }
    ensures disk { W.disk_faults world.new ≡ W.disk_faults world.old }
{
    let mut sent = 0;
    'parts: while sent < bytes.len() {
        sent += world.emit(to, &bytes[sent..])?;
    }
    Ok(())
}

/// Sends these pieces one after another, each whole. At every moment of the call a prefix of all the pieces together
/// was sent, and a crash leaves on the disk what it would have left before the call.
///
/// # Errors
///
/// `Failed` if the stream failed. Any prefix of all the pieces together may have been sent, and nothing else was.
pub fn send_pieces<W: World>(world: &mut W, to: Stream, pieces: &[&[u8]]) -> Result<(), Failed>
    ensures history { IfKnown (Sent to (joined_pieces pieces.now) (is_ok result)) (W.history world.old) (W.history world.new) }
    ensures none { OnOk result (W.sink_faults world.new ≡ W.sink_faults world.old) }
    ensures cause { IsErr result → Rose (W.sink_faults world.old) (W.sink_faults world.new) }
    ensures count { W.sink_faults world.old ≤ W.sink_faults world.new }
    ensures disk { W.disk_faults world.new ≡ W.disk_faults world.old }
{
    for piece in pieces {
        send_all(world, to, piece)?;
    }
    Ok(())
}
