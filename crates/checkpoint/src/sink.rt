// What takes the bytes of a checkpoint: a vector, or a hash.
ghost use Rattle.std.specs.Prelude.{◌≡◌, ℕ, Bool, List, true, IsErr};
ghost use Rattle.checkpoint.specs.Sink.{Adds};

use dp_base::OutOfMemory;

/// What takes bytes, one row after another.
pub(crate) trait Sink {
    /// It took these bytes so far.
    ghost holds: { Self → List ℕ → Type 0 };

    /// Whether it may want memory.
    ghost may_fail: { Bool };

    /// Appends more bytes.
    fn put(&mut self, bytes: &[u8]) -> Result<(), OutOfMemory>
        ensures added { Adds holds self.old self.new result bytes.now }
        ensures cause { IsErr result → may_fail ≡ true };
}
