// Orders of a few AMOs.
use amo_order::{Amo, PLACES, order_amos};
use std::alloc::Global;
use std::test::Fail;

// Puts AMOs in order. Each is a number of four digits: its word, its thread, what it found, and what it stored. Their
// tickets are in the order of the list. Returns their places in the list, from 1 on, in the order in which they are
// put, as the digits of a number.
fn order_of(alloc: Global, steps: &[u32]) -> Result<u32, Fail> {
    let mut amos = Vec::new(alloc);
    let count = steps.len().min(9);
    for index in 0..count {
        let mut next = u64::MAX;
        for later in (index + 1..count).rev() {
            if steps[later] / 100 % 10 == steps[index] / 100 % 10 {
                next = (later as u64 + 1) * PLACES;
            }
        }
        amos.push(Amo {
            thread: (steps[index] / 100 % 10) as usize,
            entry: index,
            address: 4096 + 4 * (steps[index] / 1000 % 10),
            found: steps[index] / 10 % 10,
            stored: steps[index] % 10,
            ticket: (index as u64 + 1) * PLACES,
            next,
        })?;
    }
    let mut order = Vec::new(alloc);
    for placed in &order_amos(alloc, &amos)? {
        order.push((placed.place, (placed.amo.ticket / PLACES).min(9) as u32))?;
    }
    order.sort_by_key(|place| place.0)?;
    let mut digits = 0u32;
    for place in &order {
        digits = digits.wrapping_mul(10).wrapping_add(place.1);
    }
    Ok(digits)
}

// A lock that holds 0 or 1: taking it is 01, giving it back 10, and a try that fails 11.
#[test]
fn orders_of_a_lock(rt: HostRuntime) -> Result<(), Fail> {
    let alloc = rt.alloc();
    // As the tickets say.
    assert_eq!(rt; order_of(alloc, &[1, 111, 10, 101, 110])?, 12345);
    // The second one took the lock after the first one had given it back.
    assert_eq!(rt; order_of(alloc, &[1, 101, 10, 110])?, 1324);
    // The first one took it after the second one had given it back.
    assert_eq!(rt; order_of(alloc, &[1, 101, 110, 10])?, 2314);
    // Between the first one's ticket and its exchange the second one took it and gave it back. A third one had it
    // before.
    assert_eq!(rt; order_of(alloc, &[201, 210, 1, 101, 110, 10])?, 124536);
    // The first one took it after two others had given it back.
    assert_eq!(rt; order_of(alloc, &[1, 101, 110, 201, 210, 10])?, 234516);
    // So did it here, and in between a fourth one failed.
    assert_eq!(rt;
        order_of(alloc, &[1, 101, 311, 110, 201, 210, 10])?,
        2345617
    );
    // A try failed after the lock was taken again.
    assert_eq!(rt; order_of(alloc, &[1, 10, 211, 101, 110])?, 12435);
    // Two locks.
    assert_eq!(rt;
        order_of(alloc, &[1, 1201, 101, 1301, 10, 1210, 110, 1310])?,
        12536478
    );
    Ok(())
}

#[test]
fn orders_that_stay(rt: HostRuntime) -> Result<(), Fail> {
    let alloc = rt.alloc();
    // A counter.
    assert_eq!(rt; order_of(alloc, &[1, 112, 223, 334, 45])?, 12345);
    // A lock that is given back by plain stores.
    assert_eq!(rt; order_of(alloc, &[1, 101, 201, 1, 301])?, 12345);
    // In no order each finds what the one before it stored.
    assert_eq!(rt; order_of(alloc, &[1, 123, 45])?, 123);
    // In one it does, but in that the first one comes after its thread's next ticket.
    assert_eq!(rt; order_of(alloc, &[1, 1055, 101, 110])?, 1234);
    assert_eq!(rt; order_of(alloc, &[])?, 0);
    Ok(())
}
