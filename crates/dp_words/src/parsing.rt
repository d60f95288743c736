// A command out of words.
ghost use Rattle.std.specs.Prelude.{◌≡◌, IfOk, IsErrOf, false, true, Some};
ghost use Rattle.clap.specs.Words.{subcommand_rows_of};
ghost use Rattle.dp_words.specs.Commands.{IsInRange, are_taken, command_found, command_of};
ghost use Rattle.dp_words.specs.Found.{IsFound};
ghost use Rattle.dp_words.specs.Fault.{fault_of};
ghost use Rattle.dp_words.specs.declared.parsing.WordsFault.TheVariants as faults;

use crate::command::Command;
use crate::command_line::command_line;
use crate::found_values;
use clap::ArgMatches;
use clap::error::ErrorKind;
use std::alloc::{AllocError, Global};

/// Why words gave no command.
#[derive(Clone, Copy, Debug, PartialEq, Eq)]
pub enum WordsFault {
    /// The command line doesn't take the words.
    Usage,
    /// An allocation failed.
    OutOfMemory,
}

impl From<AllocError> for WordsFault {
    ghost from_gives = { λ _ fault. fault ≡ faults.OutOfMemory };

    fn from(_: AllocError) -> Self {
        WordsFault::OutOfMemory
    }
}

/// Returns the command that the arguments say. The first one is the program's name, which isn't read.
///
/// # Errors
///
/// `Usage` only if the command line doesn't take the words (`are_taken`): an unknown word, one too many or too few, a
/// number out of its form or range, and a call for help or the version. `OutOfMemory` if an allocation fails.
pub fn parse(alloc: Global, words: &[String]) -> Result<Command, WordsFault>
    ensures taken { IfOk result (λ _. are_taken words.now ≡ true) }
    ensures command { IfOk result (λ command. command_of words.now ≡ Some command) }
    ensures ranges { IfOk result IsInRange }
    ensures usage { IsErrOf result faults.Usage → are_taken words.now ≡ false }
{
    match command_line(alloc)?.try_get_matches_from(words) {
        Ok(matches) => Ok(found(alloc, &matches)?),
        Err(error) => Err(fault_of(error.kind())),
    }
}

// The command of what clap found. It fails only if an allocation does.
fn found(alloc: Global, matches: &ArgMatches<'_>) -> Result<Command, AllocError>
    requires { IsFound (subcommand_rows_of matches.now) }
    ensures command { IfOk result (λ command. command_found (subcommand_rows_of matches.now) ≡ Some command) }
    ensures ranges { IfOk result IsInRange }
{
    match matches.subcommand().unwrap() {
        ("record", matches) => found_values::record(alloc, matches),
        ("replay", matches) => found_values::replay(alloc, matches),
        ("inspect", matches) => found_values::inspect(alloc, matches),
        ("selftest", matches) => Ok(found_values::selftest(matches)),
        _ => unreachable!(),
    }
}

fn fault_of(kind: ErrorKind) -> WordsFault
    ensures { result ≡ fault_of kind }
{
    match kind {
        ErrorKind::OutOfMemory => WordsFault::OutOfMemory,
        _ => WordsFault::Usage,
    }
}
