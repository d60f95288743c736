// Pieces of an input, of which some bytes were given.
ghost use Rattle.std.specs.Prelude.{◌≡◌, ◌<◌, ◌-◌, ◌++◌, [], min, map, length, take, drop, slice_index_or};
ghost use Rattle.disk_model.specs.Input.{is_at_end, taken};
ghost use Rattle.disk_mem.specs.MemoryInput.{pieces_at, gave};

use std::marker::Model;

/// Pieces, which are given from the first byte of the first one on. Clauses see the bytes that were given, and what is
/// left.
#[derive(Drop)]
pub(crate) struct Pieces {
    pieces: Vec<Vec<u8>>,
    // how many pieces were given, and how many bytes of the next one
    at: usize,
    from: usize,
}

impl Model for Pieces {
    ghost use Rattle.std.specs.Prelude.{map};
    ghost use Rattle.disk_mem.specs.MemoryInput.{Pieces as Given, pieces_at};

    ghost Value = { Given };

    ghost view = { λ p. pieces_at (map (λ v. v.items) p.pieces.items) p.at p.from };
}

impl Pieces {
    /// Makes pieces of which none was given.
    pub(crate) fn new(pieces: Vec<Vec<u8>>) -> Pieces
        ensures given { result.given ≡ [] }
        ensures left { result.left ≡ map (λ v. v.items) pieces.items }
    {
        Pieces {
            pieces,
            at: 0,
            from: 0,
        }
    }

    /// Returns `true` if no piece is left, or an empty one is in front.
    pub(crate) fn is_at_end(&self) -> bool
        ensures { result ≡ is_at_end self.now.left }
    {
        if self.pieces.len() <= self.at {
            return true;
        }
        piece_at(&self.pieces, self.at).len() <= self.from
    }

    /// Gives the next piece, or as much of it as the buffer holds, into the start of the buffer. Returns how many
    /// bytes.
    pub(crate) fn give(&mut self, buf: &mut [u8]) -> usize
        ensures count { result ≡ length (taken (length buf.old) self.old.left) }
        ensures bytes { buf.new ≡ taken (length buf.old) self.old.left ++ drop result buf.old }
        ensures after { self.new ≡ gave (length buf.old) self.old }
    {
        if self.pieces.len() <= self.at {
            return 0;
        }
        let piece = piece_at(&self.pieces, self.at);
        let len = piece.len();
        let count = copy_part(piece, self.from, buf);
        if 0 < count && self.from + count == len {
            self.at += 1;
            self.from = 0;
        } else {
            self.from += count;
        }
        count
    }
}

fn piece_at(pieces: &[Vec<u8>], at: usize) -> &[u8]
    requires { at < length pieces.now }
    ensures { result.now ≡ slice_index_or (map (λ v. v.items) pieces.now) at [] }
{
    &pieces[at]
}

// Copies bytes from an offset on into the start of a buffer. Returns how many.
fn copy_part(bytes: &[u8], from: usize, buf: &mut [u8]) -> usize
    ensures count { result ≡ min (length buf.old) (length bytes.now - from) }
    ensures copied { buf.new ≡ take result (drop from bytes.now) ++ drop result buf.old }
{
    let rest = &bytes[from.min(bytes.len())..];
    let count = rest.len().min(buf.len());
    buf[..count].copy_from_slice(&rest[..count]);
    count
}
