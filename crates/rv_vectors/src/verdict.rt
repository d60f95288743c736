// What becomes of a line of the vectors.
ghost use Rattle.std.specs.Prelude.{◌≡◌, IfOk, MatchOption, false, true};
ghost use Rattle.rv_vectors.specs.Judging.{IsVerdictOn, is_rowless};
ghost use Rattle.rv_vectors.specs.Reading.{row_of};
ghost use Rattle.rv_vectors.specs.declared.verdict.Verdict.TheVariants.{NoRow, Unreadable};

use crate::machine::agrees;
use crate::row::parse;
use dp_base::OutOfMemory;
use std::alloc::Global;

/// What a line of the input came to.
#[derive(Clone, Copy, Debug, PartialEq, Eq)]
pub(crate) enum Verdict {
    /// Its instruction does what the row says.
    Agrees,
    /// Its instruction does something else, which may be a trap or a call, or its word is none.
    Differs,
    /// It should be a row, and has none.
    Unreadable,
    /// It is empty, or a comment, which begins with `#`.
    NoRow,
}

/// Runs the instruction of the row that a line has, and returns what came of it.
pub(crate) fn judge(alloc: Global, line: &str) -> Result<Verdict, OutOfMemory>
    ensures rowless { IfOk result (λ verdict. is_rowless line.now ≡ true → verdict ≡ NoRow) }
    ensures row { IfOk result (λ verdict. is_rowless line.now ≡ false → MatchOption (row_of line.now) (verdict ≡ Unreadable) (λ row. IsVerdictOn row verdict)) }
{
    if is_rowless(line) {
        return Ok(Verdict::NoRow);
    }
    let Some(row) = parse(line) else {
        return Ok(Verdict::Unreadable);
    };
    if agrees(alloc, &row)? {
        Ok(Verdict::Agrees)
    } else {
        Ok(Verdict::Differs)
    }
}

// Nothing, or a comment.
fn is_rowless(line: &str) -> bool
    ensures { result ≡ is_rowless line.now }
{
    match line.as_bytes() {
        [] => true,
        [first, ..] => *first == b'#',
    }
}
