// Why a file is no image.
ghost use Rattle.std.specs.Prelude.{◌≡◌};
ghost use Rattle.elf_image.specs.Faults.{fault_number};
ghost use Rattle.elf_image.specs.declared.image_fault.ImageFault.TheVariants as faults;

use dp_base::OutOfMemory;
use std::alloc::AllocError;

/// Why a file is no image: the first that applies. Numbers are in docs/GUEST.md.
#[derive(Clone, Copy, Debug, PartialEq, Eq)]
pub enum ImageFault {
    /// It has more than 1,048,576 bytes.
    TooLong,
    /// It has fewer than 52 bytes, or doesn't begin as an ELF file of version 1 does.
    NotElf,
    /// It isn't of 32 bits.
    NotClass32,
    /// It isn't little-endian.
    NotLittle,
    /// It isn't an executable.
    NotExec,
    /// It isn't for RISC-V.
    NotRiscv,
    /// The entries of its program header table don't have 32 bytes, or the table isn't in the file.
    BadTable,
    /// It wants an interpreter.
    Interp,
    /// A segment is longer in the file than in memory, isn't in the file, ends past FFFFF000 (hexadecimal), has a page
    /// of the stack, or has a byte of another segment; or no segment has a byte.
    BadSegment,
    /// Its pages and the 16 of the stack are more than 1,024.
    TooManyPages,
    OutOfMemory,
}

impl ImageFault {
    /// Returns the number of the fault, from 1 on, or `None` for `OutOfMemory`.
    pub fn number(self) -> Option<u32>
        ensures { result ≡ fault_number self }
    {
        match self {
            ImageFault::TooLong => Some(1),
            ImageFault::NotElf => Some(2),
            ImageFault::NotClass32 => Some(3),
            ImageFault::NotLittle => Some(4),
            ImageFault::NotExec => Some(5),
            ImageFault::NotRiscv => Some(6),
            ImageFault::BadTable => Some(7),
            ImageFault::Interp => Some(8),
            ImageFault::BadSegment => Some(9),
            ImageFault::TooManyPages => Some(10),
            ImageFault::OutOfMemory => None,
        }
    }
}

impl From<OutOfMemory> for ImageFault {
    ghost from_gives = { λ _ e. e ≡ faults.OutOfMemory };

    fn from(_: OutOfMemory) -> Self {
        ImageFault::OutOfMemory
    }
}

impl From<AllocError> for ImageFault {
    ghost from_gives = { λ _ e. e ≡ faults.OutOfMemory };

    fn from(_: AllocError) -> Self {
        ImageFault::OutOfMemory
    }
}
