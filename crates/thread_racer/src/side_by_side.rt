// Work on a slice, side by side.
ghost use Rattle.std.specs.Prelude.{◌<◌};
ghost use denote.Param.Send.{IsSend, IsSync};

use std::marker::{Send, Sync};
use std::thread::{self, Threads};

// Calls `f` at each chunk of so many items, each in a thread of its own where one can be made. The caller starts them all
// and then waits. It calls none of them itself, since the system may start a thread on the processor of the one that
// makes it, and there it waits as long as that one runs.
#[cycle(chunks)]
pub(crate) fn side_by_side<R: Threads + Sync, T: Send, F: Fn(&mut [T]) + Sync>(
    rt: &R,
    f: &F,
    each: usize,
    items: &mut [T],
)
    requires some { 0 < each }
    requires always { F.IsAlwaysCallable f.now }
{
    if items.is_empty() {
        return;
    }
    let (first, others) = items.split_at_mut(each.min(items.len()));
    both(rt, f, first, each, others);
}

#[cycle(chunks)]
fn both<R: Threads + Sync, T: Send, F: Fn(&mut [T]) + Sync>(
    rt: &R,
    f: &F,
    first: &mut [T],
    each: usize,
    others: &mut [T],
)
    requires some { 0 < each }
    requires always { F.IsAlwaysCallable f.now }
{
    let mut front = ||
        requires { IsSync F.row × IsSend T.row × F.IsAlwaysCallable f.now }
    { call(f, first) };
    let mut back = ||
        requires { IsSync R.row × IsSync F.row × IsSend T.row × (0 < each) × F.IsAlwaysCallable f.now }
    { side_by_side(rt, f, each, others) };
    thread::join_mut(rt, &mut front, &mut back);
}

fn call<T, F: Fn(&mut [T])>(f: &F, items: &mut [T])
    requires { F.IsAlwaysCallable f.now }
{
    f(items);
}
