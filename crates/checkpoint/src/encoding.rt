// A state's encoding in memory.
ghost use Rattle.std.specs.Prelude.{◌≡◌, ◌++◌, true, IfOk};
ghost use Rattle.checkpoint.specs.Sink.{Adds};
ghost use Rattle.checkpoint.specs.State.{IsEncodable, state_bytes};

use crate::encoding_parts::write_state;
use crate::sink::Sink;
use dp_base::OutOfMemory;
use dp_base::little_endian::write_bytes;
use guest_kernel::State;
use std::alloc::Global;

// A vector as a sink.
#[derive(Drop)]
pub(crate) struct Buffer {
    pub bytes: Vec<u8>,
}

impl Sink for Buffer {
    ghost holds = { λ b bytes. b.bytes.items ≡ bytes };

    ghost may_fail = { true };

    fn put(&mut self, bytes: &[u8]) -> Result<(), OutOfMemory> {
        write_bytes(&mut self.bytes, bytes)
    }
}

/// Returns a state's encoding.
pub fn encode(alloc: Global, state: &State) -> Result<Vec<u8>, OutOfMemory>
    requires { IsEncodable state.now }
    ensures { IfOk result (λ bytes. bytes.items ≡ state_bytes state.now) }
{
    let mut buffer = Buffer {
        bytes: Vec::new(alloc),
    };
    write_state(&mut buffer, state)?;
    Ok(buffer.bytes)
}
