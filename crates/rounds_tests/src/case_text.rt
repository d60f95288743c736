// Recordings as text, for tables.
use crate::nonsense::Nonsense;
use crate::reckless::Reckless;
use crate::recorded::{Left, recorded, replayed};
use disk_model::Stream;
use dp_base::Slice;
use epoch_record::decode;
use journal_text::{Head, Rec, header, next_record};
use racing_runner::{ChaosRacer, IdleRacer};
use recorder::{Options, RecordFault};
use std::alloc::Global;
use std::sync::Wait;
use std::test::Fail;
use std::thread::Threads;
use test_files::file_of;
use test_worlds::{Failing, inlet_of, world_of};

// A line of a table. A case is a line of numbers with blanks in between, and then what it comes to.
//
// The numbers are the racer's, the steps of an epoch and of a slice, the epochs of a round, the steps of the recording,
// and the bytes of the journal, each at most (`all` for the greatest), and the take of the input that fails, 0 for
// none. A racer below 1000 is the `ChaosRacer` of this number, and 1000 is `IdleRacer`. 2000 and more is `Reckless`
// over the `ChaosRacer` of the number less 2000. 3000 and more is `Nonsense`: the last three digits are its kind of
// states, its kind of hints, and how often it offers a state.
//
// Then come lines of what the recording came to: its answer, how many rounds it had, its journal and what it sent, each
// with its length and its hash; the steps of each epoch in the journal; and the report's line, if there is one.
pub(crate) type Line = &'static str;

// A guest's words, the pieces of its input, and the readings of the clock.
#[derive(Clone, Copy)]
pub(crate) struct Guest<'a> {
    pub(crate) words: &'a [u32],
    pub(crate) pieces: &'a [&'a [u8]],
    pub(crate) clocks: &'a [u64],
}

// How many records a journal has at most.
const MOST_RECORDS: u32 = 1000;

// FNV-1a of bytes.
fn hash_of(bytes: &[u8]) -> u64 {
    let mut hash = 0xcbf2_9ce4_8422_2325u64;
    for byte in bytes {
        hash = (hash ^ u64::from(*byte)).wrapping_mul(0x100_0000_01b3);
    }
    hash
}

fn numbers_of(line: &str) -> [u64; 7] {
    let mut numbers = [0; 7];
    for (number, word) in numbers.iter_mut().zip(line.split(' ')) {
        *number = word.parse().unwrap_or(u64::MAX);
    }
    numbers
}

fn word_of(number: u64) -> u32 {
    number.min(u32::MAX as u64) as u32
}

// The options of the numbers of a case, moved into their ranges.
fn options_of([_, epoch, slice, ahead, limit, room, _]: [u64; 7], workers: u32) -> Options {
    Options {
        workers: workers.min(64).max(1),
        epoch: word_of(epoch).min(1_000_000).max(1),
        slice: word_of(slice).min(100_000).max(1),
        ahead: word_of(ahead).min(64).max(1),
        mark: 0,
        limit: limit.min(1_000_000_000_000).max(1),
        room: room.min(1 << 30),
    }
}

fn left_by<R: Threads + Wait + Sync>(
    rt: &R,
    alloc: Global,
    guest: Guest,
    file: &[u8],
    numbers: [u64; 7],
    workers: u32,
) -> Result<Left, Fail> {
    let failing = if numbers[6] == 0 {
        Failing::Never
    } else {
        Failing::From(numbers[6])
    };
    let inlet = inlet_of(alloc, guest.pieces, guest.clocks, failing)?;
    let world = world_of(alloc, Failing::Never, Failing::Never, 4096)?;
    let options = options_of(numbers, workers);
    let number = word_of(numbers[0]);
    if number >= 3000 {
        let racer = Nonsense {
            state: number / 100 % 10,
            hints: number / 10 % 10,
            count: number % 10,
        };
        return recorded(rt, alloc, file, options, inlet, world, racer);
    }
    if number >= 2000 {
        let racer = Reckless {
            racer: ChaosRacer::new(number - 2000),
        };
        return recorded(rt, alloc, file, options, inlet, world, racer);
    }
    if number == 1000 {
        return recorded(rt, alloc, file, options, inlet, world, IdleRacer);
    }
    let racer = ChaosRacer::new(number);
    recorded(rt, alloc, file, options, inlet, world, racer)
}

fn push_answer(text: &mut String, alloc: Global, left: &Left) -> Result<(), Fail> {
    match left.answer {
        Ok(_) => text.push_str("ok")?,
        Err(RecordFault::StepLimit(steps)) => {
            text.push_str(&format!(in alloc; "limit {steps}")?)?;
        }
        Err(RecordFault::JournalFull { end, need }) => {
            text.push_str(&format!(in alloc; "full {end} {need}")?)?;
        }
        Err(RecordFault::InputFault) => text.push_str("input")?,
        Err(_) => text.push_str("another fault")?,
    }
    Ok(())
}

fn sum_of(slices: &[Slice]) -> u32 {
    let mut steps = 0u32;
    for slice in slices {
        steps = steps.saturating_add(slice.steps);
    }
    steps
}

// The steps of each epoch of a journal. Returns how many epochs there are.
fn push_steps(text: &mut String, alloc: Global, journal: &[u8]) -> Result<u32, Fail> {
    text.push_str("steps")?;
    let mut count = 0u32;
    let mut at = match header(journal) {
        Head::Whole { guest_len } => 9 + u64::from(guest_len),
        Head::NoJournal => {
            text.push_str("\n")?;
            return Ok(0);
        }
    };
    for _ in 0..MOST_RECORDS {
        match next_record(journal, at) {
            Rec::Epoch { body, next } => {
                let steps = match decode(alloc, body)? {
                    Some(epoch) => sum_of(epoch.slices.as_slice()),
                    None => 0,
                };
                text.push_str(&format!(in alloc; " {steps}")?)?;
                count = count.saturating_add(1);
                at = next;
            }
            _ => break,
        }
    }
    text.push_str("\n")?;
    Ok(count)
}

// What a case comes to, as a table has it, if a replay of its journal sends the same.
fn case_text<R: Threads + Wait + Sync>(
    rt: &R,
    alloc: Global,
    guest: Guest,
    line: Line,
    workers: u32,
) -> Result<String, Fail> {
    let file = file_of(alloc, guest.words)?;
    let left = left_by(rt, alloc, guest, &file, numbers_of(line), workers)?;
    let (journal, sent) = (left.world.bytes(), left.world.sent(Stream::Out));
    let mut text = String::from_str(alloc, line)?;
    text.push_str("\n")?;
    push_answer(&mut text, alloc, &left)?;
    text.push_str(&format!(in alloc;
        ", {} rounds, {} bytes {:016x}, {} sent {:016x}\n",
        left.rounds,
        journal.len(),
        hash_of(journal),
        sent.len(),
        hash_of(sent)
    )?)?;
    let epochs = push_steps(&mut text, alloc, journal)?;
    text.push_str(&String::from_utf8_lossy(alloc, left.world.sent(Stream::Note))?)?;
    if !journal.is_empty() && replayed(rt, alloc, journal, workers, sent)? != (Ok(epochs), true) {
        return Err("a replay sends what was sent".into());
    }
    Ok(text)
}

// What the cases of a table come to, as the table has it, and the table.
pub(crate) fn texts_of<R: Threads + Wait + Sync>(
    rt: &R,
    alloc: Global,
    guest: Guest,
    workers: u32,
    lines: &[Line],
) -> Result<(String, String), Fail> {
    let mut found = String::new(alloc);
    let mut expected = String::new(alloc);
    for line in lines {
        if line
            .as_bytes()
            .first()
            .is_some_and(|byte| byte.is_ascii_digit())
        {
            found.push_str(&case_text(rt, alloc, guest, line, workers)?)?;
        }
        expected.push_str(line)?;
        expected.push_str("\n")?;
    }
    Ok((found, expected))
}
