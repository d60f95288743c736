// What a parse found, as the values of a command.
ghost use Rattle.std.specs.Prelude.{◌≡◌, ◌<◌, ◌^◌, IfOk};
ghost use Rattle.clap.specs.Words.{found_of, rows_of};
ghost use Rattle.dp_words.specs.CommandLine.{inspect_words, record_words, replay_words, selftest_words};
ghost use Rattle.dp_words.specs.Commands.{IsInRange, inspect_of, number_named, record_command, replay_of, selftest_of, text_of};
ghost use Rattle.dp_words.specs.Found.{HasNumber, HasText, HasValues};

use crate::command::Command;
use crate::text::Text;
use clap::ArgMatches;
use std::alloc::{AllocError, Global};

/// The command of `record`. It fails only if an allocation does.
pub(crate) fn record(alloc: Global, matches: &ArgMatches<'_>) -> Result<Command, AllocError>
    requires { HasValues record_words (rows_of (found_of matches.now)) }
    ensures command { IfOk result (λ command. command ≡ record_command (rows_of (found_of matches.now))) }
    ensures ranges { IfOk result IsInRange }
{
    let guest = text(alloc, matches, "guest")?;
    let journal = text(alloc, matches, "journal")?;
    Ok(Command::Record {
        guest,
        journal,
        workers: small_number(matches, "workers"),
        epoch: small_number(matches, "epoch"),
        slice: small_number(matches, "slice"),
        ahead: small_number(matches, "ahead"),
        mark: small_number(matches, "mark"),
        limit: number(matches, "limit"),
    })
}

/// The command of `replay`. It fails only if an allocation does.
pub(crate) fn replay(alloc: Global, matches: &ArgMatches<'_>) -> Result<Command, AllocError>
    requires { HasValues replay_words (rows_of (found_of matches.now)) }
    ensures command { IfOk result (λ command. command ≡ replay_of (rows_of (found_of matches.now))) }
    ensures ranges { IfOk result IsInRange }
{
    let workers = small_number(matches, "workers");
    Ok(Command::Replay {
        journal: text(alloc, matches, "journal")?,
        workers,
    })
}

/// The command of `inspect`. It fails only if an allocation does.
pub(crate) fn inspect(alloc: Global, matches: &ArgMatches<'_>) -> Result<Command, AllocError>
    requires { HasValues inspect_words (rows_of (found_of matches.now)) }
    ensures command { IfOk result (λ command. command ≡ inspect_of (rows_of (found_of matches.now))) }
    ensures ranges { IfOk result IsInRange }
{
    Ok(Command::Inspect {
        journal: text(alloc, matches, "journal")?,
    })
}

/// The command of `selftest`.
pub(crate) fn selftest(matches: &ArgMatches<'_>) -> Command
    requires { HasValues selftest_words (rows_of (found_of matches.now)) }
    ensures command { result ≡ selftest_of (rows_of (found_of matches.now)) }
    ensures ranges { IsInRange result }
{
    Command::Selftest {
        n: small_number(matches, "n"),
    }
}

// The text of this name.
fn text(alloc: Global, matches: &ArgMatches<'_>, name: &str) -> Result<Text, AllocError>
    requires { HasText name.now (rows_of (found_of matches.now)) }
    ensures { IfOk result (λ text. text ≡ text_of name.now (rows_of (found_of matches.now))) }
{
    Ok(Text::from_string(String::from_str(alloc, found(matches, name))?))
}

// A text, borrowed.
fn found<'m>(matches: &'m ArgMatches<'_>, name: &str) -> &'m str
    requires { HasText name.now (rows_of (found_of matches.now)) }
    ensures { result.now ≡ text_of name.now (rows_of (found_of matches.now)) }
{
    matches.get_str(name).unwrap()
}

// The number of this name.
fn number(matches: &ArgMatches<'_>, name: &str) -> u64
    requires { HasNumber (2 ^ 64) name.now (rows_of (found_of matches.now)) }
    ensures { result ≡ number_named name.now (rows_of (found_of matches.now)) }
{
    found(matches, name).parse::<u64>().unwrap()
}

// A number below 2^32.
fn small_number(matches: &ArgMatches<'_>, name: &str) -> u32
    requires { HasNumber (2 ^ 32) name.now (rows_of (found_of matches.now)) }
    ensures { result ≡ number_named name.now (rows_of (found_of matches.now)) }
{
    number(matches, name) as u32
}
