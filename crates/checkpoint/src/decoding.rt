// A state from its encoding.
ghost use Rattle.std.specs.Prelude.{◌≡◌, ◌≤◌, true, IfOk, IfSome, length, option_map};
ghost use Rattle.dp_base.specs.declared.limits.TheConstants.{MAX_PAGES};
ghost use Rattle.dp_base.specs.Encoding.{whole};
ghost use Rattle.dp_base.specs.Journal.{many_at};
ghost use Rattle.guest_state.specs.Checkpoint.{checkpoint_from, live, thread_from};
ghost use Rattle.checkpoint.specs.Reading.{rising_pages_at, with_head};
ghost use Rattle.checkpoint.specs.State.{IsEncodable, checkpoint_of};

use dp_base::OutOfMemory;
use dp_base::limits::MAX_PAGES;
use dp_base::little_endian::{read_u16, read_u32, read_u64};
use guest_kernel::{Pages, State, Threads};
use guest_state::{CheckpointBounds, End, Thread, live_count, read_end, read_page, read_thread};
use std::alloc::Global;

// What a checkpoint has before its threads, and how many of them follow.
#[derive(Clone, Copy)]
struct CheckpointHead {
    steps: u64,
    input: u64,
    heap: u32,
    brk: u32,
    end: End,
    thread_count: u16,
}

/// Returns the state whose encoding these bytes are. Returns `None` exactly if they are no state's, also if more bytes
/// follow it.
pub fn decode(alloc: Global, body: &[u8]) -> Result<Option<State>, OutOfMemory>
    ensures found { IfOk result (λ found. option_map checkpoint_of found ≡ whole checkpoint_from body.now) }
    ensures encodable { IfOk result (λ found. IfSome found IsEncodable) }
{
    guest_state::laws::whole_checkpoints();
    let Some((head, rest)) = read_head(body) else {
        return Ok(None);
    };
    let Some((threads, rest)) = read_threads(alloc, head.thread_count, rest)? else {
        return Ok(None);
    };
    let Some((page_count, rest)) = read_u16(rest) else {
        return Ok(None);
    };
    if u32::from(page_count) > MAX_PAGES {
        return Ok(None);
    }
    let Some((pages, rest)) = read_pages(alloc, page_count, rest)? else {
        return Ok(None);
    };
    let bounds = bounds_of(head, live_count(&threads), page_count);
    if !bounds.hold() {
        return Ok(None);
    }
    if !rest.is_empty() {
        return Ok(None);
    }
    Ok(Some(State {
        pages,
        heap: head.heap,
        brk: head.brk,
        threads: Threads::from_vec(threads),
        input: head.input,
        steps: head.steps,
        end: head.end,
    }))
}

// The fields before the threads, and the bytes after them.
#[tactic(auto, unfolding(guest_state::specs::Checkpoint::checkpoint_from))]
fn read_head(bytes: &[u8]) -> Option<(CheckpointHead, &[u8])>
    ensures { checkpoint_from bytes.now ≡ with_head (option_map (λ x. (x.0, x.1.now)) result) }
{
    let (steps, rest) = read_u64(bytes)?;
    let (input, rest) = read_u64(rest)?;
    let (heap, rest) = read_u32(rest)?;
    let (brk, rest) = read_u32(rest)?;
    let (end, rest) = read_end(rest)?;
    let (thread_count, rest) = read_u16(rest)?;
    let head = CheckpointHead {
        steps,
        input,
        heap,
        brk,
        end,
        thread_count,
    };
    Some((head, rest))
}

// The bounds of a state with this many threads alive and this many pages, whose numbers rise.
fn bounds_of(head: CheckpointHead, live: usize, pages: u16) -> CheckpointBounds
    ensures { result ≡ record {
      heap = head.heap;
      brk = head.brk;
      end = head.end;
      threads = head.thread_count;
      live = live;
      pages = pages;
      rising = true;
    } }
{
    CheckpointBounds {
        heap: head.heap,
        brk: head.brk,
        end: head.end,
        threads: head.thread_count,
        live,
        pages,
        rising: true,
    }
}

// The first `count` threads, and the bytes after them.
pub(crate) fn read_threads(
    alloc: Global,
    count: u16,
    bytes: &[u8],
) -> Result<Option<(Vec<Thread>, &[u8])>, OutOfMemory>
    ensures { IfOk result (λ found. option_map (λ x. (x.0.items, x.1.now)) found
        ≡ many_at thread_from count bytes.now) }
{
    let mut threads = Vec::new(alloc);
    let mut rest = bytes;
    'threads: for _ in 0..count {
        let Some((thread, behind)) = read_thread(rest) else {
            return Ok(None);
        };
        threads.push(thread)?;
        rest = behind;
    }
    Ok(Some((threads, rest)))
}

// The first `count` pages in rising order, and the bytes after them. `None` also if their numbers don't rise.
fn read_pages(
    alloc: Global,
    count: u16,
    bytes: &[u8],
) -> Result<Option<(Pages, &[u8])>, OutOfMemory>
    requires { count ≤ MAX_PAGES }
    ensures { IfOk result (λ found. option_map (λ x. (x.0, x.1.now)) found ≡ rising_pages_at count bytes.now) }
{
    let mut pages = Pages::new(alloc)?;
    let mut least = 0;
    let mut rest = bytes;
    'pages: for _ in 0..count {
        let Some((page, behind)) = read_page(rest) else {
            return Ok(None);
        };
        if page.number < least {
            return Ok(None);
        }
        pages.map_above(page.number, page.flags, page.bytes)?;
        least = page.number + 1;
        rest = behind;
    }
    Ok(Some((pages, rest)))
}
