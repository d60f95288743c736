use dp_base::limits::*;
use std::test::*;

// Each limit in other words than those that make it.
#[test]
fn limits_in_other_words(rt: HostRuntime) {
    assert_eq!(rt; MAX_PAGES * PAGE_BYTES, 4 << 20);
    assert_eq!(rt; PAGE_NUMBERS * PAGE_BYTES, 0xffff_f000);
    assert_eq!(rt; FIRST_STACK_PAGE * PAGE_BYTES, 0x7fff_0000);
    assert_eq!(rt;
        (FIRST_STACK_PAGE + STACK_PAGES) * PAGE_BYTES,
        STACK_POINTER + 32
    );
    assert_eq!(rt; MAX_THREADS, 1 << 10);
    assert_eq!(rt; MAX_CALL_BYTES, PAGE_BYTES);
    assert_eq!(rt; MAX_EPOCH_STEPS, 10u32.pow(6));
    assert_eq!(rt; MAX_BODY_BYTES, 16 << 20);
    assert_eq!(rt; MAX_JOURNAL_BYTES, 64 * MAX_BODY_BYTES as u64);
}
