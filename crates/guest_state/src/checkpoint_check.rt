// Whether bytes are a checkpoint, with nothing of it stored.
ghost use Rattle.std.specs.Prelude.{◌≡◌, if◌then◌else◌, is_some, length, option_map};
ghost use Rattle.dp_base.specs.Encoding.{whole};
ghost use Rattle.dp_base.specs.Journal.{many_at};
ghost use Rattle.guest_state.specs.Checkpoint.{checkpoint_from, is_alive, is_heap, live, page_from, rising, thread_from, traps_within};
ghost use Rattle.guest_state.specs.View.{counting, hold, testing};

use crate::checkpoint_reader::{read_end, read_page, read_thread};
use crate::end::End;
use crate::thread::Thread;
use dp_base::limits::{MAX_LIVE_THREADS, MAX_PAGES, MAX_THREADS, PAGE_BYTES, PAGE_NUMBERS};
use dp_base::little_endian::{read_u16, read_u32, read_u64};

/// The address past which no heap ends: the end of memory.
pub const HEAP_END: u32 = PAGE_NUMBERS * PAGE_BYTES;

/// Returns whether the bytes are one checkpoint, and nothing follows it. Takes no memory.
pub fn is_checkpoint(bytes: &[u8]) -> bool
    ensures { result ≡ is_some (whole checkpoint_from bytes.now) }
{
    match skip_checkpoint(bytes) {
        Some(rest) => rest.is_empty(),
        None => false,
    }
}

// The bytes after a checkpoint.
#[tactic(auto, unfolding(crate::specs::Checkpoint::checkpoint_from))]
fn skip_checkpoint(bytes: &[u8]) -> Option<&[u8]>
    ensures { option_map (λ x. x.now) result ≡ option_map (λ x. x.1) (checkpoint_from bytes.now) }
{
    let (_steps, rest) = read_u64(bytes)?;
    let (_input, rest) = read_u64(rest)?;
    let (heap, rest) = read_u32(rest)?;
    let (brk, rest) = read_u32(rest)?;
    let (end, rest) = read_end(rest)?;
    let (threads, rest) = read_u16(rest)?;
    let (live, rest) = skip_threads(threads, rest)?;
    let (pages, rest) = read_u16(rest)?;
    let (rising, rest) = skip_pages(pages, rest)?;
    let bounds = CheckpointBounds {
        heap,
        brk,
        end,
        threads,
        live,
        pages,
        rising,
    };
    if bounds.hold() { Some(rest) } else { None }
}

/// What the bounds of a checkpoint are about.
#[derive(Clone, Copy)]
pub struct CheckpointBounds {
    /// The addresses at which the heap starts and ends.
    pub heap: u32,
    pub brk: u32,
    pub end: End,
    /// How many threads there are, and how many of them are alive.
    pub threads: u16,
    pub live: usize,
    /// How many pages there are, and whether their numbers rise.
    pub pages: u16,
    pub rising: bool,
}

impl CheckpointBounds {
    /// Returns whether a checkpoint is within its bounds.
    pub fn hold(&self) -> bool
        ensures { result ≡ hold self.now }
    {
        is_heap(self.heap, self.brk)
            && 0 < self.threads
            && self.threads as usize <= MAX_THREADS
            && self.live <= MAX_LIVE_THREADS
            && traps_within(self.threads, self.end)
            && u32::from(self.pages) <= MAX_PAGES
            && self.rising
    }
}

// How many of the first `count` threads are alive, and the bytes after them.
fn skip_threads(count: u16, bytes: &[u8]) -> Option<(usize, &[u8])>
    ensures { option_map (λ x. counting count x.0 x.1.now) result
        ≡ option_map (λ x. counting (length x.0) (live x.0) x.1) (many_at thread_from count bytes.now) }
{
    let mut alive = 0;
    let mut rest = bytes;
    'threads: for _ in 0..count {
        let Some((thread, behind)) = read_thread(rest) else {
            return None;
        };
        alive += alive_count(&thread);
        rest = behind;
    }
    Some((alive, rest))
}

/// Returns 1 for a thread that is alive, and 0 for one that has exited.
pub fn alive_count(thread: &Thread) -> usize
    ensures { result ≡ (if is_alive thread.now then 1 else 0) }
{
    match thread {
        Thread::Runs { .. } => 1,
        Thread::Waits { .. } => 1,
        Thread::Gone(_) => 0,
    }
}

/// Returns how many of the threads are alive.
pub fn live_count(threads: &[Thread]) -> usize
    ensures { result ≡ live threads.now }
{
    let mut alive = 0;
    for thread in threads {
        alive += alive_count(thread);
    }
    alive
}

// Whether the numbers of the first `count` pages rise, and the bytes after them.
fn skip_pages(count: u16, bytes: &[u8]) -> Option<(bool, &[u8])>
    ensures { option_map (λ x. testing count x.0 x.1.now) result
        ≡ option_map (λ x. testing (length x.0) (rising x.0) x.1) (many_at page_from count bytes.now) }
{
    let mut all_rise = true;
    let mut least = 0;
    let mut rest = bytes;
    'pages: for _ in 0..count {
        let Some((page, behind)) = read_page(rest) else {
            return None;
        };
        all_rise &= least <= page.number;
        least = page.number + 1;
        rest = behind;
    }
    Some((all_rise, rest))
}

fn is_heap(heap: u32, brk: u32) -> bool
    ensures { result ≡ is_heap heap brk }
{
    heap % PAGE_BYTES == 0 && heap <= brk && brk <= HEAP_END
}

fn traps_within(count: u16, end: End) -> bool
    ensures { result ≡ traps_within count end }
{
    match end {
        End::Trap { tid, .. } => 0 < tid.0 && tid.0 <= count,
        End::None => true,
        End::Exit(_) => true,
        End::Deadlock => true,
    }
}
