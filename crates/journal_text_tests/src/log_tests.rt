use dp_base::{Answer, Slice, Tid};
use slice_log::SliceLog;
use std::test::Fail;
use syscall_log::AnswerLog;

#[test]
fn slices_in_order(rt: HostRuntime) -> Result<(), Fail> {
    let mut log = SliceLog::new(rt.alloc());
    log.put(Slice {
        tid: Tid(1),
        steps: 2,
    })?;
    log.put(Slice {
        tid: Tid(9),
        steps: 1,
    })?;
    let mut at = 0;
    assert_eq!(rt; log.next(&mut at).map(|slice| slice.steps), Some(2));
    assert_eq!(rt; log.next(&mut at).map(|slice| slice.tid), Some(Tid(9)));
    assert_eq!(rt; (log.next(&mut at), at), (None, 2));
    Ok(())
}

#[test]
fn slices_given_back(rt: HostRuntime) -> Result<(), Fail> {
    let slices = [Slice {
        tid: Tid(4),
        steps: 7,
    }];
    let log = SliceLog::from_vec(slices.to_vec(rt.alloc())?);
    assert_eq!(rt; log.into_vec().as_slice(), slices.as_slice());
    Ok(())
}

#[test]
fn answers_in_order(rt: HostRuntime) -> Result<(), Fail> {
    let mut log = AnswerLog::from_vec(Vec::new(rt.alloc()));
    log.put(Answer::Clock(7))?;
    log.put(Answer::Clock(9))?;
    let mut at = 1;
    assert!(rt; matches!(log.next(&mut at), Some(Answer::Clock(9))));
    assert!(rt; log.next(&mut at).is_none());
    assert_eq!(rt; (at, log.into_vec().len()), (2, 2));
    Ok(())
}
