// The command line, as clap parses it: a function for each subcommand, and a line for each word of it.
ghost use Rattle.std.specs.Prelude.{◌≡◌, IfOk, false};
ghost use Rattle.clap.specs.Words.{app_of, with_rule};
ghost use Rattle.clap.specs.declared.builder.command.Command.TheViews.{out-Command as fields_of};
ghost use Rattle.dp_words.specs.CommandLine.{command_line, inspect_subcommand, number, record_subcommand, replay_subcommand, required_number, selftest_subcommand, text};

use clap::builder::ValueParser;
use clap::{Arg, ArgAction, Command};
use dp_base::limits::{
    MAX_EPOCH_STEPS, MAX_JOBS, MAX_MARK_EPOCHS, MAX_RECORDING_STEPS, MAX_SLICE_STEPS, MAX_WORKERS,
};
use std::alloc::{AllocError, Global};

/// The whole command line. It fails only if an allocation does.
pub(crate) fn command_line<'a>(alloc: Global) -> Result<Command<'a>, AllocError>
    ensures { IfOk result (λ line. app_of line ≡ command_line) }
{
    Command::new(alloc, "dpcli")
        .subcommand_required(true)
        .disable_help_subcommand(true)
        .subcommand(record(alloc)?)?
        .subcommand(replay(alloc)?)?
        .subcommand(inspect(alloc)?)?
        .subcommand(selftest(alloc)?)
}

// `record GUEST JOURNAL` and its options.
fn record<'a>(alloc: Global) -> Result<Command<'a>, AllocError>
    ensures { IfOk result (λ line. (app_of line ≡ record_subcommand) × ((fields_of line).has_globals ≡ false)) }
{
    let record = Command::new(alloc, "record");
    let record = with_text(alloc, record, "guest")?;
    let record = with_text(alloc, record, "journal")?;
    let record = with_number(alloc, record, "workers", 1, MAX_WORKERS as u64, "4")?;
    let record = with_number(alloc, record, "epoch", 1, MAX_EPOCH_STEPS as u64, "20000")?;
    let record = with_number(alloc, record, "slice", 1, MAX_SLICE_STEPS as u64, "1000")?;
    let record = with_number(alloc, record, "ahead", 1, MAX_JOBS as u64, "16")?;
    let record = with_number(alloc, record, "mark", 0, MAX_MARK_EPOCHS as u64, "16")?;
    with_number(alloc, record, "limit", 1, MAX_RECORDING_STEPS, "1000000000")
}

// `replay JOURNAL` and its option.
fn replay<'a>(alloc: Global) -> Result<Command<'a>, AllocError>
    ensures { IfOk result (λ line. (app_of line ≡ replay_subcommand) × ((fields_of line).has_globals ≡ false)) }
{
    let replay = Command::new(alloc, "replay");
    let replay = with_text(alloc, replay, "journal")?;
    with_number(alloc, replay, "workers", 1, MAX_WORKERS as u64, "4")
}

// `inspect JOURNAL`.
fn inspect<'a>(alloc: Global) -> Result<Command<'a>, AllocError>
    ensures { IfOk result (λ line. (app_of line ≡ inspect_subcommand) × ((fields_of line).has_globals ≡ false)) }
{
    with_text(alloc, Command::new(alloc, "inspect"), "journal")
}

// `selftest N`.
fn selftest<'a>(alloc: Global) -> Result<Command<'a>, AllocError>
    ensures { IfOk result (λ line. (app_of line ≡ selftest_subcommand) × ((fields_of line).has_globals ≡ false)) }
{
    with_required_number(
        alloc,
        Command::new(alloc, "selftest"),
        "n",
        0,
        u32::MAX as u64,
    )
}

// The line with one more text, which must be there.
fn with_text<'a>(alloc: Global, line: Command<'a>, name: &'a str) -> Result<Command<'a>, AllocError>
    ensures { IfOk result (λ more. (app_of more ≡ with_rule (app_of line.entry) (text name.entry.now))
        × ((fields_of more).has_globals ≡ (fields_of line.entry).has_globals)) }
{
    line.arg(Arg::new(alloc, name).required(true).action(ArgAction::Set))
}

// The line with one more number in its bounds, which must be there.
fn with_required_number<'a>(
    alloc: Global,
    line: Command<'a>,
    name: &'a str,
    least: u64,
    most: u64,
) -> Result<Command<'a>, AllocError>
    ensures { IfOk result (λ more.
        (app_of more ≡ with_rule (app_of line.entry) (required_number name.entry.now least most))
        × ((fields_of more).has_globals ≡ (fields_of line.entry).has_globals)) }
{
    line.arg(
        Arg::new(alloc, name)
            .required(true)
            .action(ArgAction::Set)
            .value_parser(ValueParser::unsigned(least, most)),
    )
}

// The line with one more option, a number with its bounds and its default.
fn with_number<'a>(
    alloc: Global,
    line: Command<'a>,
    name: &'a str,
    least: u64,
    most: u64,
    default: &'a str,
) -> Result<Command<'a>, AllocError>
    ensures { IfOk result (λ more.
        (app_of more ≡ with_rule (app_of line.entry) (number name.entry.now least most default.entry.now))
        × ((fields_of more).has_globals ≡ (fields_of line.entry).has_globals)) }
{
    line.arg(
        Arg::new(alloc, name)
            .long(name)
            .action(ArgAction::Set)
            .value_parser(ValueParser::unsigned(least, most))
            .default_value(default),
    )
}
