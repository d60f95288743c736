// A range of addresses.
use dp_base::limits::{FIRST_STACK_PAGE, PAGE_BYTES, STACK_PAGES};

/// So many bytes of memory from an address on.
#[derive(Clone, Copy, Debug, PartialEq, Eq)]
pub struct Span {
    pub addr: u32,
    pub size: u32,
}

/// The stack of thread 1.
pub(crate) const STACK: Span = Span {
    addr: PAGE_BYTES * FIRST_STACK_PAGE,
    size: PAGE_BYTES * STACK_PAGES,
};

impl Span {
    ghost use Rattle.std.specs.Prelude.{◌≡◌, ◌+◌};
    ghost use Rattle.elf_image.specs.Next.{IsNextPassing};
    ghost use Rattle.elf_image.specs.Segment.{has_page, meet};

    /// Returns the first address after it.
    pub fn end(self) -> u64
        ensures { result ≡ self.addr + self.size }
    {
        u64::from(self.addr) + u64::from(self.size)
    }

    /// Returns whether both have a byte in common.
    pub fn meets(self, other: Span) -> bool
        ensures { result ≡ meet self.addr self.size other.addr other.size }
    {
        (self.size > 0 && other.size > 0)
            && (u64::from(self.addr) < other.end() && u64::from(other.addr) < self.end())
    }

    /// Returns whether a page has a byte of it.
    pub fn has_page(self, number: u32) -> bool
        ensures { result ≡ has_page self number }
    {
        // Any number may be asked for, and the address of a high one has more than 32 bits.
        let start = u64::from(PAGE_BYTES) * u64::from(number);
        let end = start + u64::from(PAGE_BYTES);
        self.size > 0 && (u64::from(self.addr) < end && start < self.end())
    }

    /// Returns the least number from one on of a page that has a byte of it.
    pub fn next_page(self, least: u32) -> Option<u32>
        ensures { IsNextPassing (has_page self) least result }
    {
        if self.size == 0 {
            return None;
        }
        let first = self.addr / PAGE_BYTES;
        let last = ((self.end() - 1) / u64::from(PAGE_BYTES)) as u32;
        if last < least {
            return None;
        }
        Some(first.max(least))
    }
}
