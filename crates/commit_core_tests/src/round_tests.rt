// Rounds over a guest that counts in a loop, and all short orders of events.
use commit_core::{Core, Event, Verdict};
use epoch_runner::{Bounds, Ran, run_epoch};
use guest_kernel::{State, start_from_file};
use std::alloc::Global;
use std::test::Fail;
use supply::Supply;
use sync_hints::Hints;
use test_files::file_of;

// addi x10, x10, 1, and a jump back to it, over and over
const COUNTS: [u32; 2] = [0x0015_0513, 0xffdf_f06f];

// The guest's state after this many steps.
fn state_at(alloc: Global, steps: u32) -> Result<State, Fail> {
    let start = start_from_file(alloc, &file_of(alloc, &COUNTS)?)?;
    match ran(alloc, start, steps)? {
        Ran::Epoch(run) => Ok(run.end),
        Ran::Idle(state) => Ok(state),
    }
}

// The epoch of this many steps from a state, or an idle result if there are none.
fn ran(alloc: Global, start: State, steps: u32) -> Result<Ran, Fail> {
    if start.steps > 1000 || steps > 1000 {
        return Err("few steps".into());
    }
    let bounds = Bounds {
        steps,
        slice: 1000,
        first: 1,
    };
    let supply = Supply::new(alloc, 1)?;
    Ok(run_epoch(alloc, start, &Hints::none(alloc), &supply, bounds)?)
}

// A verdict as a letter, with its number.
fn letter(verdict: &Verdict) -> (char, u32) {
    match verdict {
        Verdict::Noted => ('n', 0),
        Verdict::Double { i } => ('d', *i),
        Verdict::Stranger { i } => ('s', *i),
        Verdict::NotYet { i } => ('y', *i),
        Verdict::Commit { .. } => ('c', 0),
        Verdict::Squash { i } => ('q', *i),
        Verdict::Over { i } => ('o', *i),
        Verdict::Closed => ('x', 0),
    }
}

// Offers, claims, ends and takes a job.
fn tell(core: &mut Core, index: u32, ran: Ran) -> [(char, u32); 4] {
    let offered = core.apply(Event::Offer(index));
    let claimed = core.apply(Event::Claim(index));
    let done = core.apply(Event::Done(index));
    let taken = core.apply(Event::Take(index, ran));
    [
        letter(&offered),
        letter(&claimed),
        letter(&done),
        letter(&taken),
    ]
}

// A round from the guest's start: jobs by the steps before them and the steps of their own; then what the judgements
// answer.
#[derive(Clone, Copy)]
struct Round {
    first: (u32, u32),
    second: (u32, u32),
    third: (u32, u32),
    verdicts: [(char, u32); 4],
    // The steps of the committed state in the end.
    steps: u64,
}

fn rounds() -> [Round; 7] {
    [
        // Each starts where the one before ended.
        Round {
            first: (0, 5),
            second: (5, 3),
            third: (8, 2),
            verdicts: [('c', 0), ('c', 0), ('c', 0), ('y', 4)],
            steps: 10,
        },
        // The second starts elsewhere, and what follows it isn't judged.
        Round {
            first: (0, 5),
            second: (4, 3),
            third: (5, 2),
            verdicts: [('c', 0), ('q', 2), ('x', 0), ('x', 0)],
            steps: 5,
        },
        // So does the first.
        Round {
            first: (1, 5),
            second: (6, 3),
            third: (0, 2),
            verdicts: [('q', 1), ('x', 0), ('x', 0), ('x', 0)],
            steps: 0,
        },
        // There is nothing to run from the committed state.
        Round {
            first: (0, 5),
            second: (5, 0),
            third: (5, 2),
            verdicts: [('c', 0), ('o', 2), ('x', 0), ('x', 0)],
            steps: 5,
        },
        // There is nothing to run, and it is another state.
        Round {
            first: (0, 5),
            second: (6, 0),
            third: (5, 2),
            verdicts: [('c', 0), ('q', 2), ('x', 0), ('x', 0)],
            steps: 5,
        },
        // The last starts elsewhere.
        Round {
            first: (0, 1),
            second: (1, 1),
            third: (3, 1),
            verdicts: [('c', 0), ('c', 0), ('q', 3), ('x', 0)],
            steps: 2,
        },
        // Nothing at all.
        Round {
            first: (0, 0),
            second: (0, 5),
            third: (5, 1),
            verdicts: [('o', 1), ('x', 0), ('x', 0), ('x', 0)],
            steps: 0,
        },
    ]
}

fn judged(alloc: Global, round: Round) -> Result<([(char, u32); 4], u64), Fail> {
    let mut core = Core::round(alloc, state_at(alloc, 0)?, 3)?;
    let jobs = [(1, round.first), (2, round.second), (3, round.third)];
    for (index, (before, steps)) in jobs {
        let ran = ran(alloc, state_at(alloc, before)?, steps)?;
        if tell(&mut core, index, ran) != [('n', 0); 4] {
            return Err("it is noted".into());
        }
    }
    let mut verdicts = [(' ', 0); 4];
    for place in verdicts.iter_mut() {
        *place = letter(&core.apply(Event::Judge));
    }
    Ok((verdicts, core.into_committed().steps))
}

#[test]
fn results_in_order(rt: HostRuntime) -> Result<(), Fail> {
    for round in rounds() {
        assert_eq!(rt; judged(rt.alloc(), round)?, (round.verdicts, round.steps));
    }
    Ok(())
}

// What the round is by a table: the last event of each of two jobs, 0 for none to 4 for taken and 5 for committed; and
// whether it is closed. Job 1 starts in the committed state, job 2 elsewhere.
#[derive(Clone, Copy)]
struct Table {
    first: u32,
    second: u32,
    closed: bool,
}

// The verdict on an event of a job, 1 to 4, by its last event.
fn noted(last: u32, event: u32, index: u32) -> (char, u32) {
    if last >= event {
        ('d', index)
    } else if last + 1 == event {
        ('n', 0)
    } else {
        ('s', index)
    }
}

// The verdict on an event, 0 to 8: the four of job 1, the four of job 2, and the judgement; and the table after it.
fn by_table(table: Table, event: u32) -> ((char, u32), Table) {
    if event < 4 {
        let verdict = noted(table.first, event + 1, 1);
        let first = if verdict.0 == 'n' {
            event + 1
        } else {
            table.first
        };
        return (verdict, Table { first, ..table });
    }
    if event < 8 {
        // The second job is offered after the first.
        let verdict = if event == 4 && table.first == 0 {
            ('s', 2)
        } else {
            noted(table.second, event - 3, 2)
        };
        let second = if verdict.0 == 'n' {
            event - 3
        } else {
            table.second
        };
        return (verdict, Table { second, ..table });
    }
    if table.closed {
        return (('x', 0), table);
    }
    match (table.first, table.second) {
        (5, 4) => (
            ('q', 2),
            Table {
                closed: true,
                ..table
            },
        ),
        (5, _) => (('y', 2), table),
        (4, _) => (('c', 0), Table { first: 5, ..table }),
        _ => (('y', 1), table),
    }
}

// Applies an event to the round. The epochs of its jobs start in these states.
fn apply(
    alloc: Global,
    core: &mut Core,
    [first, second]: [&State; 2],
    event: u32,
) -> Result<(char, u32), Fail> {
    let event = match event {
        0 => Event::Offer(1),
        1 => Event::Claim(1),
        2 => Event::Done(1),
        3 => Event::Take(1, ran(alloc, first.share(alloc)?, 2)?),
        4 => Event::Offer(2),
        5 => Event::Claim(2),
        6 => Event::Done(2),
        7 => Event::Take(2, ran(alloc, second.share(alloc)?, 2)?),
        _ => Event::Judge,
    };
    Ok(letter(&core.apply(event)))
}

// The first order of five events, after these, of which a verdict isn't the table's; or how many orders there are.
fn first_other(alloc: Global, before: &[u32]) -> Result<u32, Fail> {
    let (first, second) = (state_at(alloc, 0)?, state_at(alloc, 1)?);
    for order in 0..59_049u32 {
        let mut core = Core::round(alloc, first.share(alloc)?, 2)?;
        let mut table = Table {
            first: 0,
            second: 0,
            closed: false,
        };
        for event in before {
            let (_, next) = by_table(table, *event);
            let _verdict = apply(alloc, &mut core, [&first, &second], *event)?;
            table = next;
        }
        let mut rest = order;
        for _ in 0..5 {
            let event = rest % 9;
            rest /= 9;
            let (expected, next) = by_table(table, event);
            if apply(alloc, &mut core, [&first, &second], event)? != expected {
                return Ok(order);
            }
            table = next;
        }
    }
    Ok(59_049)
}

// Every order of five events over two jobs, from a fresh round, and from one whose jobs were all taken but for the last
// event.
#[test]
fn orders_of_events(rt: HostRuntime) -> Result<(), Fail> {
    let begun: [&[u32]; 2] = [&[], &[0, 4, 1, 5, 2, 6, 3]];
    for before in begun {
        assert_eq!(rt; first_other(rt.alloc(), before)?, 59_049);
    }
    Ok(())
}

// Jobs that the round can't have.
#[test]
fn numbers_of_jobs(rt: HostRuntime) -> Result<(), Fail> {
    let alloc = rt.alloc();
    let mut core = Core::round(alloc, state_at(alloc, 0)?, 2)?;
    for (event, verdict) in [
        (Event::Offer(0), ('s', 0)),
        (Event::Offer(2), ('s', 2)),
        (Event::Claim(0), ('s', 0)),
        (Event::Offer(u32::MAX), ('s', u32::MAX)),
        (Event::Offer(1), ('n', 0)),
        (Event::Offer(2), ('n', 0)),
        (Event::Offer(3), ('s', 3)),
        (Event::Done(3), ('s', 3)),
        (Event::Judge, ('y', 1)),
    ] {
        assert_eq!(rt; letter(&core.apply(event)), verdict);
    }
    assert_eq!(rt; core.committed().steps, 0u64);
    Ok(())
}
