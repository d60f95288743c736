// The command line with its help. `dp_words` decides what is a command; this line says why not, and takes the same.
use clap::builder::ValueParser;
use clap::{Arg, ArgAction, Command};
use dp_base::limits::{
    MAX_EPOCH_STEPS, MAX_JOBS, MAX_MARK_EPOCHS, MAX_RECORDING_STEPS, MAX_SLICE_STEPS, MAX_WORKERS,
};
use std::alloc::{AllocError, Global};

// `rt version` names the logic too. Kits with the same logic prove the same.
const VERSION: &str = "0.1, proved by Rattle, logic dac8208d650f15bf";

/// The whole command line. It fails only if an allocation does.
pub(crate) fn help_command_line<'a>(alloc: Global) -> Result<Command<'a>, AllocError> {
    Command::new(alloc, "dpcli")
        .bin_name("dpcli")?
        .version(VERSION)
        .about("Records a multithreaded RV32IA guest, and replays it exactly.")
        .after_help(
            "The report goes to standard error, and so does what went wrong. docs/TUTORIAL.md has each status.",
        )
        .subcommand_required(true)
        .subcommand(record(alloc)?)?
        .subcommand(replay(alloc)?)?
        .subcommand(inspect(alloc)?)?
        .subcommand(selftest(alloc)?)
}

/// What each command does, and what it takes: the help of all of them. It fails only if an allocation does.
pub(crate) fn help(alloc: Global) -> Result<String, AllocError> {
    let mut text = help_command_line(alloc)?.render_help()?;
    text.push_str("\n")?;
    text.push_str(record(alloc)?.render_help()?.as_str())?;
    text.push_str("\n")?;
    text.push_str(replay(alloc)?.render_help()?.as_str())?;
    text.push_str("\n")?;
    text.push_str(inspect(alloc)?.render_help()?.as_str())?;
    text.push_str("\n")?;
    text.push_str(selftest(alloc)?.render_help()?.as_str())?;
    Ok(text)
}

fn record<'a>(alloc: Global) -> Result<Command<'a>, AllocError> {
    Command::new(alloc, "record")
        .bin_name("dpcli record")?
        .about(
            "Runs a guest and writes a journal of it. Standard input is the guest's input, standard output its output.",
        )
        .arg(text(
            alloc,
            "guest",
            "GUEST",
            "The guest's file: an ELF file for RV32IA",
        ))?
        .arg(text(
            alloc,
            "journal",
            "JOURNAL",
            "The journal's file: a new one, or an empty one",
        ))?
        .arg(number(
            alloc,
            "epoch",
            1,
            MAX_EPOCH_STEPS as u64,
            "20000",
            "Steps of an epoch, 1 to 1,000,000: each epoch is synced to the disk before its output is sent",
        ))?
        .arg(number(
            alloc,
            "slice",
            1,
            MAX_SLICE_STEPS as u64,
            "1000",
            "Steps that one thread takes before another gets its turn, 1 to 100,000",
        ))?
        .arg(number(
            alloc,
            "limit",
            1,
            MAX_RECORDING_STEPS,
            "1000000000",
            "Steps of the whole recording, 1 to 1,000,000,000,000: it stops there, with status 11",
        ))?
        .arg(number(
            alloc,
            "mark",
            0,
            MAX_MARK_EPOCHS as u64,
            "16",
            "Epochs from one mark to the next, 0 to 1,000: a replay by several workers starts at each mark; 0 writes none",
        ))?
        .arg(number(
            alloc,
            "workers",
            1,
            MAX_WORKERS as u64,
            "4",
            "Threads for the epochs of a round, 1 to 64: the racing run has 4 of its own",
        ))?
        .arg(number(
            alloc,
            "ahead",
            1,
            MAX_JOBS as u64,
            "16",
            "Epochs of a round at most, 1 to 64: with 1 nothing races, and the schedule is the same each time",
        ))
}

fn replay<'a>(alloc: Global) -> Result<Command<'a>, AllocError> {
    Command::new(alloc, "replay")
        .bin_name("dpcli replay")?
        .about("Runs the guest of a journal again. Its output goes to standard output.")
        .arg(text(alloc, "journal", "JOURNAL", "The journal's file"))?
        .arg(number(
            alloc,
            "workers",
            1,
            MAX_WORKERS as u64,
            "4",
            "Threads for the parts of a journal between marks, 1 to 64",
        ))
}

fn inspect<'a>(alloc: Global) -> Result<Command<'a>, AllocError> {
    Command::new(alloc, "inspect")
        .bin_name("dpcli inspect")?
        .about("Lists the records of a journal on standard output, and runs nothing.")
        .arg(text(alloc, "journal", "JOURNAL", "The journal's file"))
}

fn selftest<'a>(alloc: Global) -> Result<Command<'a>, AllocError> {
    Command::new(alloc, "selftest")
        .bin_name("dpcli selftest")?
        .about(
            "Makes a guest, records it in memory, replays the recording twice, and prints its report on standard output.",
        )
        .arg(
            Arg::new(alloc, "n")
                .value_name("N")
                .help(
                    "The guest's number, 0 to 4,294,967,295: guest 23 has 8 threads that add 1 to a counter 3 times each",
                )
                .required(true)
                .action(ArgAction::Set)
                .value_parser(ValueParser::unsigned(0, u32::MAX as u64)),
        )
}

// A text that must be there.
fn text<'a>(alloc: Global, id: &'a str, shown: &'a str, help: &'a str) -> Arg<'a> {
    Arg::new(alloc, id)
        .value_name(shown)
        .help(help)
        .required(true)
        .action(ArgAction::Set)
}

// An option: a number with its bounds and its default.
fn number<'a>(
    alloc: Global,
    name: &'a str,
    least: u64,
    most: u64,
    default: &'a str,
    help: &'a str,
) -> Arg<'a> {
    Arg::new(alloc, name)
        .long(name)
        .value_name("N")
        .help(help)
        .action(ArgAction::Set)
        .value_parser(ValueParser::unsigned(least, most))
        .default_value(default)
}
