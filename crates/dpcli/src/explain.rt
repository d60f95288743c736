// The lines that follow a status's line.
use crate::help::{help, help_command_line};
use clap::error::ErrorKind;
use disk_model::Stream;
use dp_real::{RealFiles, RealInlet, RealWorld, Refusal};
use dp_top::Status;
use dp_words::{Command, parse};
use std::alloc::{AllocError, Global};
use std::io::Stdin;

/// Says what the system refused, if that is the cause of this status: which file, what was tried, and the system's
/// reason.
pub(crate) fn explain_fault(
    alloc: Global,
    status: Status,
    words: &[String],
    files: &RealFiles,
    inlet: &RealInlet<Stdin>,
    world: &mut RealWorld,
) -> Result<(), AllocError> {
    let refusal = match status {
        Status::GuestFault => files.file_refusal(),
        Status::InputFault => inlet.input_refusal(),
        Status::DiskFault => world.disk_refusal(),
        Status::OutputFault => world.sink_refusal(),
        _ => None,
    };
    let Some(refusal) = refusal else {
        return Ok(());
    };
    let Ok(command) = parse(alloc, words) else {
        return Ok(());
    };
    let line = refusal_line(alloc, file_of(status, &command), &refusal)?;
    let _ = world.send(Stream::Note, line.as_bytes());
    Ok(())
}

// The file that a refusal with this status is about.
fn file_of(status: Status, command: &Command) -> Option<&str> {
    match command {
        Command::Record { guest, journal, .. } => match status {
            Status::GuestFault => Some(guest.as_str()),
            Status::DiskFault => Some(journal.as_str()),
            _ => None,
        },
        Command::Replay { journal, .. } | Command::Inspect { journal } => match status {
            Status::DiskFault => Some(journal.as_str()),
            _ => None,
        },
        Command::Selftest { .. } => None,
    }
}

fn refusal_line(
    alloc: Global,
    file: Option<&str>,
    refusal: &Refusal,
) -> Result<String, AllocError> {
    let tried = refusal.tried;
    let reason = refusal.reason;
    match file {
        Some(name) => format!(in alloc; "dpcli: {name}: {tried}: {reason}\n"),
        None => format!(in alloc; "dpcli: {tried}: {reason}\n"),
    }
}

/// Says which argument is wrong. If the arguments ask for help or the version, sends these to standard output.
pub(crate) fn explain_words(
    alloc: Global,
    words: &[String],
    world: &mut RealWorld,
) -> Result<(), AllocError> {
    if let Err(error) = help_command_line(alloc)?.try_get_matches_from(words) {
        let (to, text) = match error.kind() {
            ErrorKind::DisplayHelp => (Stream::Out, help(alloc)?),
            ErrorKind::DisplayVersion => (Stream::Out, format!(in alloc; "{error}")?),
            _ => (Stream::Note, format!(in alloc; "{error}")?),
        };
        let _ = world.send(to, text.as_bytes());
    }
    Ok(())
}

/// Says that an argument isn't text.
pub(crate) fn explain_bytes(world: &mut RealWorld) -> Result<(), AllocError> {
    let _ = world.send(
        Stream::Note,
        b"dpcli: an argument isn't UTF-8, and a path must be\n",
    );
    Ok(())
}
