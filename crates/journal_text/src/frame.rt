// A record as an append writes it.
ghost use Rattle.std.specs.Prelude.{◌≡◌, ◌++◌, IfOk};
ghost use Rattle.dp_base.specs.Journal.{frame};
ghost use Rattle.journal_text.specs.View.{IsFrameLength, IsRecordBody};

use dp_base::OutOfMemory;
use dp_base::journal_writer::write_frame;
use std::alloc::Global;
use std::marker::Model;

/// A record as it is written after the closed gate: its length, its body and the next closed gate.
#[derive(Drop)]
pub struct Frame {
    bytes: Vec<u8>,
}

impl Model for Frame {
    ghost use Rattle.std.specs.Prelude.{List, ℕ};

    ghost Value = { List ℕ };

    ghost use Rattle.journal_text.specs.View.{IsFrameLength};

    ghost view = { λ f. f.bytes.items };

    ghost invariant = { λ f. IsFrameLength f.bytes.items };
}

impl Frame {
    /// Makes the frame of a record with this body.
    ///
    /// # Errors
    /// No memory.
    pub fn of(alloc: Global, body: &[u8]) -> Result<Frame, OutOfMemory>
        requires { IsRecordBody body.now }
        ensures { IfOk result (λ f. f ≡ frame body.now) }
    {
        let mut bytes = Vec::new(alloc);
        write_frame(&mut bytes, body)?;
        Ok(Frame { bytes })
    }

    /// Borrows the bytes.
    pub fn as_slice(&self) -> &[u8]
        ensures bytes { result.now ≡ self.now }
        ensures length { IsFrameLength self.now }
    {
        &self.bytes
    }
}
