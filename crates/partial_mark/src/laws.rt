//! Laws of partial marks, over all values and all bytes.

ghost use Rattle.std.specs.Prelude.{◌≡◌, Some};
ghost use Rattle.std.specs.List.{AllByRecursion};
ghost use Rattle.dp_base.specs.Encoding.{IsPrefixCode, IsWholeCode};
ghost use Rattle.guest_state.specs.Checkpoint.{Checkpoint, IsCheckpoint};
ghost use Rattle.partial_mark.specs.Base.{applied, partial_of, restored};
ghost use Rattle.partial_mark.specs.Partial.{IsPartial, IsPartialPage, Partial, partial_bytes, partial_from, partial_page_bytes, partial_page_from};

/// A page of a partial mark has one encoding.
pub fn partial_pages()
    ensures { IsPrefixCode partial_page_from partial_page_bytes IsPartialPage }
{}

/// A partial mark has one encoding, and an encoding is of one partial mark.
pub fn partials()
    ensures { IsPrefixCode partial_from partial_bytes IsPartial }
{}

/// Decoding all of the bytes, with none left: an encoding gives its partial mark, and bytes that give a partial mark
/// are its encoding.
pub fn whole_partials()
    ensures { IsWholeCode partial_from partial_bytes IsPartial }
{}

/// The partial mark that is written of a checkpoint has an encoding. Over the same base it restores that checkpoint,
/// and so do its bytes.
pub fn a_partial_stands_for_its_checkpoint()
    ensures encodable { (base c : Checkpoint) → IsCheckpoint c → IsPartial (partial_of base c) }
    ensures applied { (base c : Checkpoint) → applied base (partial_of base c) ≡ Some c }
    ensures restored { (base c : Checkpoint) → IsCheckpoint c → restored base (partial_bytes (partial_of base c)) ≡ Some c }
{}

/// What a partial mark restores over a base that is a checkpoint is a checkpoint.
pub fn a_partial_stands_for_a_checkpoint()
    ensures { (base : Checkpoint) (m : Partial) (c : Checkpoint) → IsCheckpoint base → IsPartial m
        → applied base m ≡ Some c → IsCheckpoint c }
{}
