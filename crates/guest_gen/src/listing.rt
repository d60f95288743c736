// The code of made guests. It is the same for all of them: two words follow it, by which they differ.
//
// No thread uses a stack. What the threads share is on the pages of thread 1's stack, and is 0 at the start: the lock,
// which is 1 while a thread holds it; the counter; the text; and a clear-on-exit word for each thread that is spawned.
// That is set to 1 before the thread is spawned. Once the thread has exited the kernel clears it, and wakes the thread
// that waits on it. While several threads run, the lock and the clear-on-exit words of those that run are accessed only
// by atomic instructions and calls, and the counter only under the lock. So the guest has no race.
use crate::instruction::Instruction;
use crate::instruction::Instruction::{
    Addi, Andi, Beq, Bge, Blt, Bne, Ecall, Jal, Jalr, LrW, Lui, Lw, Sb, ScW, Srl, Sw,
};
use crate::register::Register::{A0, A1, A2, A3, A7, Ra, S0, S1, S2, S3, S4, T0, T1, Zero};
use turn_peek::calls::{
    EXIT_ALL, EXIT_THREAD, FUTEX_WAIT, FUTEX_WAKE, SPAWN, STANDARD_OUTPUT, WRITE, YIELD,
};

/// The address at which the file is mapped.
pub(crate) const FILE_ADDRESS: u32 = 0x0001_0000;

/// Bytes of the file's headers. The code follows them.
pub(crate) const HEADER_BYTES: u32 = 84;

/// Instructions of the code.
pub(crate) const CODE_LEN: usize = 85;

/// Bytes of the file: headers, code, and two words.
pub(crate) const FILE_BYTES: u32 = HEADER_BYTES + 4 * CODE_LEN as u32 + 8;

// Offsets in the file of the words after the code: how many threads are spawned, and how many rounds each thread makes.
const SPAWNED: u32 = FILE_BYTES - 8;

const ROUNDS: u32 = FILE_BYTES - 4;

const THREAD_OFFSET: u32 = HEADER_BYTES + 4 * THREAD as u32;

const SHARED_ADDRESS: u32 = 0x7fff_0000;

// Offsets in what the threads share. LR and SC have no immediate, so the lock is first.
const LOCK: u32 = 0;

const COUNTER: u32 = 4;

const TEXT: u32 = 8;

const CLEAR_WORDS: u32 = 32;

// Characters: 0, a and the end of a line.
const DIGITS: u32 = 0x30;

const LETTERS: u32 = 0x61;

const NEWLINE: u32 = 0x0a;

// Immediates are modulo 2 ^ 32.
const MINUS_1: u32 = 0xffff_ffff;

const MINUS_4: u32 = 0xffff_fffc;

// Indexes in the code.
const SPAWN_NEXT: u16 = 4;

const ALL_SPAWNED: u16 = 16;

const JOIN_NEXT: u16 = 18;

const ALL_JOINED: u16 = 26;

const DIGIT: u16 = 29;

const DECIMAL: u16 = 34;

const THREAD: u16 = 49;

const COUNT: u16 = 55;

const ROUND: u16 = 57;

const LOST: u16 = 58;

const ACQUIRE: u16 = 60;

const KEPT: u16 = 68;

const RELEASE: u16 = 70;

const HELD: u16 = 80;

/// The code.
pub(crate) const CODE: [Instruction; CODE_LEN] = [
    // Thread 1: it spawns the others, each with a clear word of its own.
    Lui(S0, SHARED_ADDRESS),
    Lui(S1, FILE_ADDRESS),
    Lw(S2, S1, SPAWNED),
    Addi(S3, S0, CLEAR_WORDS),
    // SPAWN_NEXT: S2 threads are left to spawn, and S3 is where the next clear word is.
    Beq(S2, Zero, ALL_SPAWNED),
    Addi(T0, Zero, 1),
    Sw(S3, T0, 0),
    Addi(A0, S1, THREAD_OFFSET),
    Addi(A1, Zero, 0),
    Addi(A2, Zero, 0),
    Addi(A3, S3, 0),
    Addi(A7, Zero, SPAWN),
    Ecall,
    Addi(S3, S3, 4),
    Addi(S2, S2, MINUS_1),
    Jal(Zero, SPAWN_NEXT),
    // ALL_SPAWNED: it counts itself, and waits for the others.
    Jal(Ra, COUNT),
    Addi(S2, S0, CLEAR_WORDS),
    // JOIN_NEXT: S2 is the address of the next clear-on-exit word. A wait answers 0 once the thread was woken. Then it
    // waits again, and is answered at once that the word isn't 1.
    Beq(S2, S3, ALL_JOINED),
    Addi(A0, S2, 0),
    Addi(A1, Zero, 1),
    Addi(A7, Zero, FUTEX_WAIT),
    Ecall,
    Beq(A0, Zero, JOIN_NEXT),
    Addi(S2, S2, 4),
    Jal(Zero, JOIN_NEXT),
    // ALL_JOINED: it writes the counter, the highest digit first.
    Lw(S2, S0, COUNTER),
    Addi(S3, S0, TEXT),
    Addi(S4, Zero, 28),
    // DIGIT: the digit is S4 bits from the lowest one, and S3 is where it is written.
    Srl(T0, S2, S4),
    Andi(T0, T0, 15),
    Addi(T1, Zero, 10),
    Blt(T0, T1, DECIMAL),
    Addi(T0, T0, LETTERS - DIGITS - 10),
    // DECIMAL
    Addi(T0, T0, DIGITS),
    Sb(S3, T0, 0),
    Addi(S3, S3, 1),
    Addi(S4, S4, MINUS_4),
    Bge(S4, Zero, DIGIT),
    Addi(T0, Zero, NEWLINE),
    Sb(S3, T0, 0),
    Addi(A0, Zero, STANDARD_OUTPUT),
    Addi(A1, S0, TEXT),
    Addi(A2, Zero, 9),
    Addi(A7, Zero, WRITE),
    Ecall,
    Addi(A0, Zero, 0),
    Addi(A7, Zero, EXIT_ALL),
    Ecall,
    // THREAD: a thread that was spawned counts, and exits.
    Lui(S0, SHARED_ADDRESS),
    Lui(S1, FILE_ADDRESS),
    Jal(Ra, COUNT),
    Addi(A0, Zero, 0),
    Addi(A7, Zero, EXIT_THREAD),
    Ecall,
    // COUNT: adds 1 to the counter in each round, under the lock. S0 and S1 are set, and it returns to Ra.
    Lw(S4, S1, ROUNDS),
    Addi(T1, Zero, 1),
    // ROUND: S4 rounds are left.
    Jal(Zero, ACQUIRE),
    // LOST: a slice ended between LR and SC. A yield ends this one, so the next try begins a slice.
    Addi(A7, Zero, YIELD),
    Ecall,
    // ACQUIRE
    LrW(T0, S0),
    Bne(T0, Zero, HELD),
    ScW(T0, S0, T1),
    Bne(T0, Zero, LOST),
    Lw(T0, S0, COUNTER),
    Addi(T0, T0, 1),
    Sw(S0, T0, COUNTER),
    Jal(Zero, RELEASE),
    // KEPT: as at LOST.
    Addi(A7, Zero, YIELD),
    Ecall,
    // RELEASE
    LrW(T0, S0),
    ScW(T0, S0, Zero),
    Bne(T0, Zero, KEPT),
    Addi(A0, S0, LOCK),
    Addi(A1, Zero, 1),
    Addi(A7, Zero, FUTEX_WAKE),
    Ecall,
    Addi(S4, S4, MINUS_1),
    Bne(S4, Zero, ROUND),
    Jalr(Zero, Ra, 0),
    // HELD: waits while another thread holds the lock, and tries again. Each release wakes one of those that wait.
    Addi(A0, S0, LOCK),
    Addi(A1, Zero, 1),
    Addi(A7, Zero, FUTEX_WAIT),
    Ecall,
    Jal(Zero, ACQUIRE),
];
