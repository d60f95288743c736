// The file of a made guest (System V ABI, edition 4.1, ELF32).
ghost use Rattle.std.specs.Prelude.{◌≡◌, ◌++◌, ◌<◌, ◌^◌, None, IfOk, OnOk, length};
ghost use Rattle.elf_image.specs.Faults.{image_fault};
ghost use Rattle.guest_gen.specs.Guest.{elf_header, guest_file, halves, program_header, words};
ghost use Rattle.guest_gen.specs.Listing.{code_from};

use crate::encoding::encode;
use crate::instruction::Instruction;
use crate::listing::{CODE, FILE_ADDRESS, FILE_BYTES, HEADER_BYTES};
use dp_base::OutOfMemory;
use dp_base::limits::PAGE_BYTES;
use dp_base::little_endian::{write_bytes, write_u16, write_u32};
use std::alloc::Global;

// ELFCLASS32, ELFDATA2LSB and EV_CURRENT after the magic number, and padding.
const IDENT: [u8; 16] = [0x7f, 0x45, 0x4c, 0x46, 1, 1, 1, 0, 0, 0, 0, 0, 0, 0, 0, 0];

const ET_EXEC: u16 = 2;

const EM_RISCV: u16 = 243;

const EV_CURRENT: u32 = 1;

const ELF_HEADER_BYTES: u16 = 52;

const PROGRAM_HEADER_BYTES: u16 = 32;

const PT_LOAD: u32 = 1;

const PF_X: u32 = 1;

const PF_R: u32 = 4;

/// Returns the file of guest `n`. It has 1 + n mod 8 threads, which share a counter. Each adds 1 to it 1 + (n / 8) mod
/// 1000 times, each time under a lock. The first thread waits for the others, writes the counter as 8 lower-case
/// hexadecimal digits and a newline, and ends the guest with code 0. The guest reads no input and no clock.
///
/// A thread takes the lock by three steps of one slice: LR, a branch and SC. So the guest never ends in slices of one
/// or two steps.
pub fn make(alloc: Global, n: u32) -> Result<Vec<u8>, OutOfMemory>
    ensures file { IfOk result (λ file. file.items ≡ guest_file n) }
    ensures accepted { IfOk result (λ file. image_fault file.items ≡ None) }
{
    let mut file = Vec::new(alloc);
    write_headers(&mut file, FILE_BYTES)?;
    write_code(&mut file, &CODE)?;
    write_words(&mut file, &[n % 8, 1 + n / 8 % 1000])?;
    Ok(file)
}

// Appends the headers of a file of this many bytes.
fn write_headers(file: &mut Vec<u8>, bytes: u32) -> Result<(), OutOfMemory>
    ensures added { OnOk result (file.new.items ≡ file.old.items ++ elf_header ++ program_header bytes) }
{
    let entry = FILE_ADDRESS + HEADER_BYTES;
    let table = ELF_HEADER_BYTES as u32;
    write_bytes(file, &IDENT)?;
    write_halves(file, &[ET_EXEC, EM_RISCV])?;
    write_words(file, &[EV_CURRENT, entry, table, 0, 0])?;
    write_halves(file, &[ELF_HEADER_BYTES, PROGRAM_HEADER_BYTES, 1, 0, 0, 0])?;
    write_words(
        file,
        &[
            PT_LOAD,
            0,
            FILE_ADDRESS,
            FILE_ADDRESS,
            bytes,
            bytes,
            PF_R | PF_X,
            PAGE_BYTES,
        ],
    )?;
    Ok(())
}

// Adds the code.
fn write_code(file: &mut Vec<u8>, code: &[Instruction]) -> Result<(), OutOfMemory>
    requires { length code.now < 2 ^ 16 }
    ensures added { OnOk result (file.new.items ≡ file.old.items ++ code_from 0 code.now) }
{
    let mut index = 0;
    for instruction in code {
        write_u32(file, encode(index, *instruction))?;
        index += 1;
    }
    Ok(())
}

fn write_halves(file: &mut Vec<u8>, numbers: &[u16]) -> Result<(), OutOfMemory>
    ensures added { OnOk result (file.new.items ≡ file.old.items ++ halves numbers.now) }
{
    for number in numbers {
        write_u16(file, *number)?;
    }
    Ok(())
}

fn write_words(file: &mut Vec<u8>, numbers: &[u32]) -> Result<(), OutOfMemory>
    ensures added { OnOk result (file.new.items ≡ file.old.items ++ words numbers.now) }
{
    for number in numbers {
        write_u32(file, *number)?;
    }
    Ok(())
}
