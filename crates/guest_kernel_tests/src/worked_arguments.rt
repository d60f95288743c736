// The numbers of a call's registers, of the two calls and of the answers that this crate tells, and definitions worked
// out by hand.
ghost use Rattle.std.specs.Prelude.{◌≡◌, [], Some};
ghost use Rattle.turn_peek.specs.declared.calls.TheConstants.{A0, A1, A2, A3, A7, CLOCK, EBADF, EFAULT, READ};
ghost use Rattle.turn_peek.specs.Arguments.{minus, moved};
ghost use Rattle.turn_peek.specs.ReadCall.{answered_at_once};

fn registers()
    ensures first { A0 ≡ 10 }
    ensures second { A1 ≡ 11 }
    ensures third { A2 ≡ 12 }
    ensures fourth { A3 ≡ 13 }
    ensures number { A7 ≡ 17 }
{}

fn numbers_of_calls()
    ensures read { READ ≡ 3 }
    ensures clock { CLOCK ≡ 8 }
{}

fn answers()
    ensures bad_descriptor { EBADF ≡ 0xfffffff7 }
    ensures bad_address { EFAULT ≡ 0xfffffff2 }
    ensures minus_nine { minus 9 ≡ 0xfffffff7 }
    ensures minus_fourteen { minus 14 ≡ 0xfffffff2 }
{}

fn bytes_moved()
    ensures none { moved 0 ≡ 0 }
    ensures all { moved 4096 ≡ 4096 }
    ensures no_more { moved 4097 ≡ 4096 }
    ensures of_the_most { moved 0xffffffff ≡ 4096 }
{}

// On no page: the descriptor is looked at first, then the length, then the range.
#[tactic(auto, unfolding(dp_base::specs::Memory::bytes_with))]
fn reads_at_once()
    ensures descriptor { answered_at_once [] 1 0 0 ≡ Some (minus 9) }
    ensures nothing { answered_at_once [] 0 0 0 ≡ Some 0 }
    ensures range { answered_at_once [] 0 0 1 ≡ Some (minus 14) }
{}
