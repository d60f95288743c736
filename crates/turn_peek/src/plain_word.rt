// Words whose turn is plain if the hart goes on.
ghost use Rattle.std.specs.Prelude.{◌≡◌, ◌==◌, not, true, IfSome};
ghost use Rattle.rv_step.specs.Decoding.{decoded};
ghost use Rattle.rv_step.specs.Field.{opcode};
ghost use Rattle.turn_peek.specs.Peek.{instruction_peeked};
ghost use Rattle.turn_peek.specs.declared.peek.Peek.{Peek};

// The opcode of LR, SC and the AMOs.
const AMO: u32 = 0x2f;

#[inline(always)]
fn opcode(word: u32) -> u32
    ensures { result ≡ opcode word }
{
    word & 0x7f
}

/// Returns whether a word is outside the opcode of LR, SC and the AMOs. If a hart goes on from such a word, its turn is
/// `Peek::Plain`.
#[inline(always)]
pub fn is_plain(word: u32) -> bool
    ensures answer { result ≡ not (opcode word == 0x2f) }
    ensures plain { result ≡ true → IfSome (decoded word) (λ instr. instruction_peeked instr ≡ Peek.Plain) }
{
    opcode(word) != AMO
}
