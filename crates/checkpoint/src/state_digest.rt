// A state's digest.
ghost use Rattle.std.specs.Prelude.{◌≡◌, false};
ghost use Rattle.sha2.specs.Hashers.{Holds256};
ghost use Rattle.checkpoint.specs.State.{IsEncodable, digest_of};

use crate::encoding_parts::write_state;
use crate::sink::Sink;
use dp_base::OutOfMemory;
use guest_kernel::State;
use sha2::{Digest, Sha256};

// A hash as a sink, which never wants memory.
#[derive(Drop)]
struct Hash {
    hasher: Sha256,
}

impl Sink for Hash {
    ghost holds = { λ h bytes. Holds256 h.hasher bytes };

    ghost may_fail = { false };

    fn put(&mut self, bytes: &[u8]) -> Result<(), OutOfMemory> {
        self.hasher.update(bytes);
        Ok(())
    }
}

/// Returns the digest of a state: SHA-256 (FIPS 180-4) of its encoding. Takes no memory.
pub fn digest(state: &State) -> [u8; 32]
    requires { IsEncodable state.now }
    ensures { result ≡ digest_of state.now }
{
    let mut hash = Hash {
        hasher: Sha256::new(),
    };
    match write_state(&mut hash, state) {
        Ok(()) => hash.hasher.finalize(),
        Err(OutOfMemory) => unreachable!(),
    }
}
