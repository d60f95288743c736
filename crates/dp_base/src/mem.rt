// A guest's memory, as a hart sees it.
ghost use Rattle.std.specs.Prelude.{◌≡◌, IfOk, IfSome, OnErr, OnOk, Some};
ghost use Rattle.dp_base.specs.Counts.{Counted, CountedOk, CountedStoreOk};
ghost use Rattle.dp_base.specs.Memory.{after_amo, allowed, amo_word, answer_of, fetched, loaded, may_store, stored, stored_answer};

use crate::{Access, AmoOp, OutOfMemory, Width};

/// A memory that harts load from and store to. If its pages are known, each access is exact and never busy, and an
/// `Err` changes nothing. If they aren't, the contract says only this: the memory counts how often it answers `Busy`,
/// and how often a conditional store answers `Done(false)`.
pub trait Mem {
    ghost use Rattle.std.specs.Prelude.{List, Option};
    ghost use Rattle.dp_base.specs.Counts.{Contention};
    ghost use Rattle.dp_base.specs.declared.page.Page.{Page};

    /// The pages, if they are known.
    ghost memory: { Self → Option (List Page) };

    /// How often it has answered `Busy`, and how often a conditional store has answered `Done(false)`. Each count stops
    /// at 2^64 - 1.
    ghost contention: { Self → Contention };

    /// Fetches the word at an address. Each byte must be executable.
    fn fetch(&mut self, address: u32) -> Access<u32>
        ensures word { IfSome (memory self.old) (λ pages. result ≡ answer_of (fetched address pages)) }
        ensures same { IfSome (memory self.old) (λ pages. memory self.new ≡ Some pages) }
        ensures counted { Counted result (contention self.old) (contention self.new) };

    /// Loads the bytes at an address, extended by zeros. Each byte must be readable.
    fn load(&mut self, address: u32, width: Width) -> Access<u32>
        ensures value { IfSome (memory self.old) (λ pages. result ≡ answer_of (loaded width address pages)) }
        ensures same { IfSome (memory self.old) (λ pages. memory self.new ≡ Some pages) }
        ensures counted { Counted result (contention self.old) (contention self.new) };

    /// Stores the low bytes of a value at an address. Each byte must be writable.
    fn store(&mut self, address: u32, width: Width, value: u32) -> Result<Access<()>, OutOfMemory>
        ensures answer { IfSome (memory self.old) (λ pages. IfOk result (λ answer. answer
            ≡ allowed (may_store width address pages))) }
        ensures stored { IfSome (memory self.old) (λ pages. OnOk result (memory self.new
            ≡ Some (stored width address value pages))) }
        ensures err { IfSome (memory self.old) (λ pages. OnErr result (memory self.new ≡ Some pages)) }
        ensures counted { CountedOk result (contention self.old) (contention self.new) };

    /// Loads the word at an address, and stores what the operation makes of it and the value. Returns the
    /// word that was loaded. Each byte must be readable and writable.
    fn amo(&mut self, address: u32, op: AmoOp, value: u32) -> Result<Access<u32>, OutOfMemory>
        ensures word { IfSome (memory self.old) (λ pages. IfOk result (λ answer. answer
            ≡ answer_of (amo_word address pages))) }
        ensures stored { IfSome (memory self.old) (λ pages. OnOk result (memory self.new
            ≡ Some (after_amo op address value pages))) }
        ensures err { IfSome (memory self.old) (λ pages. OnErr result (memory self.new ≡ Some pages)) }
        ensures counted { CountedOk result (contention self.old) (contention self.new) };

    /// Loads the word at an address, as LR does. Each byte must be readable.
    fn load_reserved(&mut self, address: u32) -> Access<u32>
        ensures word { IfSome (memory self.old) (λ pages. result ≡ answer_of (loaded Width.Four address pages)) }
        ensures same { IfSome (memory self.old) (λ pages. memory self.new ≡ Some pages) }
        ensures counted { Counted result (contention self.old) (contention self.new) };

    /// Stores a word, as an SC does whose reservation is valid. Returns whether it stored. Each byte must be writable.
    fn store_conditional(&mut self, address: u32, value: u32) -> Result<Access<bool>, OutOfMemory>
        ensures answer { IfSome (memory self.old) (λ pages. IfOk result (λ answer. answer
            ≡ stored_answer (may_store Width.Four address pages))) }
        ensures stored { IfSome (memory self.old) (λ pages. OnOk result (memory self.new
            ≡ Some (stored Width.Four address value pages))) }
        ensures err { IfSome (memory self.old) (λ pages. OnErr result (memory self.new ≡ Some pages)) }
        ensures counted { CountedStoreOk result (contention self.old) (contention self.new) };

    /// Looks whether a word may be stored at an address, and stores nothing.
    fn can_store(&mut self, address: u32) -> Access<()>
        ensures answer { IfSome (memory self.old) (λ pages. result ≡ allowed (may_store Width.Four address pages)) }
        ensures same { IfSome (memory self.old) (λ pages. memory self.new ≡ Some pages) }
        ensures counted { Counted result (contention self.old) (contention self.new) };
}
