// The limits, each by its number.
ghost use Rattle.std.specs.Prelude.{◌≡◌, ◌^◌, length};
ghost use Rattle.dp_base.specs.declared.limits.TheConstants.{
  EPOCH_END_BYTES,
  FIRST_STACK_PAGE,
  MAX_BODY_BYTES,
  MAX_CALL_BYTES,
  MAX_EPOCH_STEPS,
  MAX_GUEST_BYTES,
  MAX_JOBS,
  MAX_JOURNAL_BYTES,
  MAX_LIVE_THREADS,
  MAX_PAGES,
  MAX_THREADS,
  MAX_WORKERS,
  PAGE_BYTES,
  PAGE_NUMBERS,
  STACK_PAGES,
  STACK_POINTER,
};

use dp_base::Page;

// What a guest may have.
fn guests()
    ensures file { MAX_GUEST_BYTES ≡ 1048576 }
    ensures page { PAGE_BYTES ≡ 4096 }
    ensures pages { MAX_PAGES ≡ 1024 }
    ensures page_numbers { PAGE_NUMBERS ≡ 0xfffff }
    ensures first_stack_page { FIRST_STACK_PAGE ≡ 0x7fff0 }
    ensures stack_pages { STACK_PAGES ≡ 16 }
    ensures stack_pointer { STACK_POINTER ≡ 0x7fffffe0 }
    ensures threads { MAX_THREADS ≡ 1024 }
    ensures live_threads { MAX_LIVE_THREADS ≡ 64 }
    ensures call { MAX_CALL_BYTES ≡ 4096 }
{}

// What an epoch, a journal and a command may have.
fn recordings()
    ensures steps { MAX_EPOCH_STEPS ≡ 1000000 }
    ensures epoch_end { EPOCH_END_BYTES ≡ 65536 }
    ensures body { MAX_BODY_BYTES ≡ 16777216 }
    ensures journal { MAX_JOURNAL_BYTES ≡ 2 ^ 30 }
    ensures workers { MAX_WORKERS ≡ 64 }
    ensures jobs { MAX_JOBS ≡ 64 }
{}

// The bytes of a page are as many as the limit says.
fn pages(page: &Page) -> usize
    ensures bytes { length page.now.bytes ≡ PAGE_BYTES }
    ensures len { result ≡ PAGE_BYTES }
{
    page.bytes.as_slice().len()
}
