// What a guest's file maps.
ghost use Rattle.std.specs.Prelude.{◌≡◌};
ghost use Rattle.elf_image.specs.Segment.{AreSegments, heap_start, span_of, spans_of};

use crate::span::Span;
use dp_base::Bytes;
use std::marker::Model;

/// A part of a guest's memory, as its file gives it.
#[derive(Drop)]
pub struct Segment {
    /// Its addresses.
    pub addr: u32,
    /// Its first bytes, from the file; the rest is zero.
    pub bytes: Bytes,
    /// How many bytes it has in memory.
    pub size: u32,
    /// Execute 1, write 2, read 4.
    pub flags: u8,
}

impl Segment {
    /// Returns its address range.
    pub fn span(&self) -> Span
        ensures { result ≡ span_of self.now }
    {
        Span {
            addr: self.addr,
            size: self.size,
        }
    }
}

/// The segments of an image.
#[derive(Drop)]
pub struct Segments {
    items: Vec<Segment>,
}

impl Model for Segments {
    ghost use Rattle.std.specs.Prelude.{List};
    ghost use Rattle.elf_image.specs.declared.image.Segment.{Segment};

    ghost Value = { List Segment };

    ghost use Rattle.elf_image.specs.Segment.{AreSegments};

    ghost view = { λ s. s.items.items };

    ghost invariant = { λ s. AreSegments s.items.items };
}

impl Segments {
    /// Makes the segments of an image.
    pub(crate) fn from_vec(items: Vec<Segment>) -> Self
        requires { AreSegments items.items }
        ensures { result ≡ items.items }
    {
        Segments { items }
    }

    /// Returns the segments, in the order of the file's table.
    pub fn as_slice(&self) -> &[Segment]
        ensures segments { result.now ≡ self.now }
        ensures kept { AreSegments self.now }
    {
        &self.items
    }
}

/// What is mapped when a guest starts.
#[derive(Drop)]
pub struct Image {
    /// The address at which thread 1 starts.
    pub entry: u32,
    pub segments: Segments,
    /// The address at which the heap starts: the start of the next page after the segment that ends last.
    pub heap: u32,
    ghost heap_is_theirs: { heap ≡ heap_start (spans_of segments) },
}
