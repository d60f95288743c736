// The answers of a board for two jobs and one worker, on one thread.
use job_board::{Board, Claim, Collected};
use std::test::Fail;
use stop_word::StopWord;

#[test]
fn answers_of_a_round(rt: HostRuntime) -> Result<(), Fail> {
    let alloc = rt.alloc();
    let (board, mut publisher, mut workers, mut collector) = Board::<u8, u16>::new(alloc, 2, 1)?;
    let mut worker = workers.remove(0);
    assert!(rt; matches!(&board.claim(&rt, &mut worker), Claim::Empty));
    assert!(rt; matches!(&board.collect(&rt, &mut collector), Collected::Empty));
    board.publish(&rt, &mut publisher, 7);
    board.publish(&rt, &mut publisher, 8);
    assert!(rt;
        matches!(
            &board.claim(&rt, &mut worker),
            Claim::Job { index: 1, job: 7 }
        )
    );
    board.deposit(&rt, &mut worker, 70);
    let receipt = board.finish(&rt, publisher);
    assert!(rt;
        matches!(
            &board.collect(&rt, &mut collector),
            Collected::Result {
                index: 1,
                result: 70
            }
        )
    );
    assert!(rt;
        matches!(
            &board.claim(&rt, &mut worker),
            Claim::Job { index: 2, job: 8 }
        )
    );
    board.deposit(&rt, &mut worker, 80);
    assert!(rt; matches!(&board.claim(&rt, &mut worker), Claim::Stop));
    assert!(rt; matches!(&board.collect(&rt, &mut collector), Collected::Count(2)));
    assert!(rt;
        matches!(
            &board.collect(&rt, &mut collector),
            Collected::Result {
                index: 2,
                result: 80
            }
        )
    );
    assert!(rt; matches!(&board.collect(&rt, &mut collector), Collected::Empty));
    assert!(rt; matches!(&board.claim(&rt, &mut worker), Claim::Empty));
    workers.push(worker)?;
    let left = board.close(&rt, receipt, workers, collector);
    assert!(rt; left.jobs.is_empty() && left.results.is_empty());
    Ok(())
}

// Two jobs of three are claimed and one result is collected. The others are left, with their indexes.
#[test]
fn what_is_left(rt: HostRuntime) -> Result<(), Fail> {
    let alloc = rt.alloc();
    let (board, mut publisher, mut workers, mut collector) = Board::<u8, u16>::new(alloc, 3, 1)?;
    let mut worker = workers.remove(0);
    board.publish(&rt, &mut publisher, 7);
    board.publish(&rt, &mut publisher, 8);
    board.publish(&rt, &mut publisher, 9);
    assert!(rt;
        matches!(
            &board.claim(&rt, &mut worker),
            Claim::Job { index: 1, job: 7 }
        )
    );
    board.deposit(&rt, &mut worker, 70);
    assert!(rt;
        matches!(
            &board.claim(&rt, &mut worker),
            Claim::Job { index: 2, job: 8 }
        )
    );
    board.deposit(&rt, &mut worker, 80);
    assert!(rt;
        matches!(
            &board.collect(&rt, &mut collector),
            Collected::Result {
                index: 1,
                result: 70
            }
        )
    );
    let receipt = board.finish(&rt, publisher);
    workers.push(worker)?;
    let left = board.close(&rt, receipt, workers, collector);
    assert!(rt; left.jobs.as_slice() == [(3, 9)].as_slice());
    assert!(rt; left.results.as_slice() == [(2, 80)].as_slice());
    Ok(())
}

#[test]
fn answers_of_a_stop_word(rt: HostRuntime) -> Result<(), Fail> {
    let (word, mut stopper) = StopWord::new(rt.alloc())?;
    let mut first = word.watcher(&mut stopper);
    assert!(rt; !word.is_stopped(&mut first));
    word.stop(&mut stopper);
    let mut second = word.watcher(&mut stopper);
    assert!(rt; word.is_stopped(&mut first) && word.is_stopped(&mut second));
    word.settle(&mut stopper, first);
    word.settle(&mut stopper, second);
    Ok(())
}
