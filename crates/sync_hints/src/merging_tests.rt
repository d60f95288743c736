// Logs of threads and the orders that they are merged to, by hand.
use crate::{Sc, ThreadLog, merge};
use dp_base::{Log, Tid};
use std::alloc::Global;
use std::test::Fail;

fn log_of(
    alloc: Global,
    thread: u16,
    steps: u32,
    entries: &[(u64, Sc)],
) -> Result<ThreadLog, Fail> {
    let mut log = Log::new(alloc);
    for entry in entries {
        log.put(*entry)?;
    }
    Ok(ThreadLog {
        tid: Tid(thread),
        steps,
        entries: log,
    })
}

// The threads of the merged order of two logs.
fn order_of(alloc: Global, first: &[(u64, Sc)], second: &[(u64, Sc)]) -> Result<Vec<u16>, Fail> {
    let mut logs = Vec::new(alloc);
    logs.push(log_of(alloc, 1, 10, first)?)?;
    logs.push(log_of(alloc, 2, 20, second)?)?;
    let hints = merge(alloc, &logs)?;
    let mut threads = Vec::new(alloc);
    for hint in hints.order.as_slice() {
        threads.push(hint.tid.0)?;
    }
    Ok(threads)
}

#[test]
fn orders_of_two_logs(rt: HostRuntime) -> Result<(), Fail> {
    let alloc = rt.alloc();
    let apart = order_of(
        alloc,
        &[(0, Sc::NotSc), (3, Sc::Won)],
        &[(1, Sc::NotSc), (2, Sc::Lost)],
    )?;
    assert_eq!(rt; apart.as_slice(), [1u16, 2, 2, 1].as_slice());
    let equal = order_of(
        alloc,
        &[(5, Sc::NotSc), (5, Sc::Won)],
        &[(5, Sc::NotSc), (4, Sc::NotSc)],
    )?;
    assert_eq!(rt; equal.as_slice(), [2u16, 1, 1, 2].as_slice());
    let none = order_of(alloc, &[], &[(u64::MAX, Sc::NotSc)])?;
    assert_eq!(rt; none.as_slice(), [2u16].as_slice());
    Ok(())
}

// What an SC did stays with its step, and the counts are the logs' steps.
#[test]
fn steps_and_stores(rt: HostRuntime) -> Result<(), Fail> {
    let alloc = rt.alloc();
    let mut logs = Vec::new(alloc);
    logs.push(log_of(alloc, 7, u32::MAX, &[(9, Sc::Lost)])?)?;
    logs.push(log_of(alloc, 3, 0, &[(8, Sc::Won)])?)?;
    let hints = merge(alloc, &logs)?;
    assert_eq!(rt;
        hints.counts.as_slice(),
        [(Tid(7), u32::MAX), (Tid(3), 0)].as_slice()
    );
    let mut at = 0;
    assert_eq!(rt;
        hints.order.next(&mut at).map(|hint| hint.sc),
        Some(Sc::Won)
    );
    assert_eq!(rt;
        hints.order.next(&mut at).map(|hint| hint.sc),
        Some(Sc::Lost)
    );
    assert_eq!(rt; hints.order.next(&mut at).map(|hint| hint.sc), None);
    Ok(())
}
