//! What follows from the definitions alone. Each function's contract is a law over all files or segments; a call of it
//! costs nothing and hands the law to the caller's proof.

ghost use Rattle.std.specs.Prelude.{◌≡◌, ◌<◌, ◌≤◌, ◌%◌, ℕ, List, None, length};
ghost use Rattle.dp_base.specs.declared.limits.TheConstants.{MAX_GUEST_BYTES, PAGE_BYTES};
ghost use Rattle.dp_base.specs.Field.{AreBytes};
ghost use Rattle.elf_image.specs.declared.image.Segment.{Segment};
ghost use Rattle.elf_image.specs.Faults.{image_fault};
ghost use Rattle.elf_image.specs.Image.{image_page_bytes, page_flags, segments_of};
ghost use Rattle.elf_image.specs.Segment.{AreSegments, ArePageNumbers, MEMORY_END, heap_start, spans_of, start_pages};

/// A file without a fault has segments, and at most 1,048,576 bytes.
pub fn a_file_without_fault_has_segments()
    ensures segments { (file : List ℕ) → image_fault file ≡ None → AreSegments (segments_of file) }
    ensures size { (file : List ℕ) → image_fault file ≡ None → length file ≤ MAX_GUEST_BYTES }
{}

/// The pages with which a guest starts rise, and are few.
pub fn start_pages_are_page_numbers()
    ensures { (segments : List Segment) → AreSegments segments → ArePageNumbers (start_pages (spans_of segments)) }
{}

/// The flags of a page are three bits.
pub fn page_flags_are_three_bits()
    ensures { (segments : List Segment) (number : ℕ) → AreSegments segments → page_flags segments number < 8 }
{}

/// What the segments of a file give is bytes.
pub fn a_page_of_a_file_is_bytes()
    ensures { (file : List ℕ) (number : ℕ) → AreBytes file → AreBytes (image_page_bytes (segments_of file) number) }
{}

/// The heap starts at a page's start, at the end of memory at most.
pub fn a_heap_starts_in_memory()
    ensures place { (segments : List Segment) → AreSegments segments → heap_start (spans_of segments) ≤ MEMORY_END }
    ensures aligned { (segments : List Segment) → heap_start (spans_of segments) % PAGE_BYTES ≡ 0 }
{}
