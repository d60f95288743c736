// Orders of many AMOs.
use amo_order::{Amo, PLACES, order_amos};
use std::alloc::Global;
use std::test::Fail;

// A thread gives a lock back, others fail to take it, and then one takes it. So the others come after that. They have
// to come before the next ticket of the last one of them, the first ticket after the one that takes it. Returns how
// many are put elsewhere than at their tickets.
fn moved(alloc: Global, others: u32) -> Result<u32, Fail> {
    let mut amos = Vec::new(alloc);
    let taken = (u64::from(others) + 2) * PLACES;
    amos.push(Amo {
        thread: 0,
        entry: 0,
        address: 4096,
        found: 7,
        stored: 0,
        ticket: PLACES,
        next: u64::MAX,
    })?;
    for other in 0..others {
        amos.push(Amo {
            thread: other as usize + 1,
            entry: 0,
            address: 4096,
            found: 1,
            stored: 1,
            ticket: (u64::from(other) + 2) * PLACES,
            next: taken + PLACES,
        })?;
    }
    amos.push(Amo {
        thread: others as usize + 1,
        entry: 0,
        address: 4096,
        found: 0,
        stored: 1,
        ticket: taken,
        next: u64::MAX,
    })?;
    let mut count = 0u32;
    for placed in &order_amos(alloc, &amos)? {
        if placed.place != placed.amo.ticket {
            count = count.saturating_add(1);
        }
    }
    Ok(count)
}

#[test]
fn as_many_as_there_are_places(rt: HostRuntime) -> Result<(), Fail> {
    let alloc = rt.alloc();
    assert_eq!(rt; moved(alloc, 62)?, 62);
    assert_eq!(rt; moved(alloc, 63)?, 63);
    // The last one would come to its thread's next ticket.
    assert_eq!(rt; moved(alloc, 64)?, 0);
    Ok(())
}
