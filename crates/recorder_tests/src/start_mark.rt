// The mark of a guest's start.
ghost use Rattle.std.specs.Prelude.{◌≡◌, ◌⊎◌, ◌∷◌, IfErr, IfOk};
ghost use Rattle.dp_base.specs.declared.journal_writer.TheConstants.{MARK_KIND};
ghost use Rattle.elf_image.specs.Faults.{image_fault, fault_number};
ghost use Rattle.guest_kernel.specs.Start.{IsGuestFile, start_state};
ghost use Rattle.checkpoint.specs.State.{state_bytes};

use checkpoint::encode;
use dp_base::little_endian::{write_bytes, write_u8};
use elf_image::ImageFault;
use guest_kernel::start_from_file;
use journal_text::MARK_KIND;
use std::alloc::Global;

/// Returns the body of a mark of the state in which a guest starts.
///
/// # Errors
/// The first fault that applies to the file, or no memory.
pub fn mark_of_start(alloc: Global, guest: &[u8]) -> Result<Vec<u8>, ImageFault>
    ensures body { IfOk result (λ body. body.items ≡ MARK_KIND ∷ state_bytes (start_state guest.now)) }
    ensures accepted { IfOk result (λ body. IsGuestFile guest.now) }
    ensures refused { IfErr result (λ fault. (fault ≡ ImageFault.OutOfMemory) ⊎ (image_fault guest.now ≡ fault_number fault)) }
{
    checkpoint::laws::a_start_state_is_encodable();
    let state = start_from_file(alloc, guest)?;
    let encoding = encode(alloc, &state)?;
    let mut body = Vec::new(alloc);
    write_u8(&mut body, MARK_KIND)?;
    write_bytes(&mut body, &encoding)?;
    Ok(body)
}
