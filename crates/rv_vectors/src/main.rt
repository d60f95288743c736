//! The program: reads rows of what single instructions do, runs each instruction once and compares.
//!
//! It prints how many rows agree, and before that a line for each that differs or can't be read. It ends with 0 if all
//! agree, else with 1. How a row reads is at the top of `stdin`. Builds on `rv_step` for the instructions and on
//! `cow_pages` for their memory.
#![tactic(auto)]

mod machine;
mod row;
mod verdict;

use crate::verdict::{Verdict, judge};
use dp_base::OutOfMemory;
use std::alloc::Global;
use std::io::{self, BufRead, BufReader, Write};
use std::process::ExitCode;

// Writes which rows differ or can't be read, and how many agree. Returns whether all do.
fn compare<R: BufRead + Drop, W: Write>(
    alloc: Global,
    rows: R,
    writer: &mut W,
) -> io::Result<bool> {
    let mut agree = 0u64;
    let mut all = true;
    for (place, line) in rows.lines(alloc).enumerate() {
        let line = line?;
        let number = place as u64 + 1;
        match judge(alloc, &line) {
            Ok(Verdict::Agrees) => agree = agree.saturating_add(1),
            Ok(Verdict::Differs) => {
                all = false;
                writeln!(writer, "line {number} differs: {line}")?;
            }
            Ok(Verdict::Unreadable) => {
                all = false;
                writeln!(writer, "line {number} can't be read: {line}")?;
            }
            Ok(Verdict::NoRow) => {}
            Err(OutOfMemory) => return Err(io::Error::from(io::ErrorKind::OutOfMemory)),
        }
    }
    writeln!(writer, "{agree} rows agree")?;
    Ok(all)
}

// The same of what standard input has, on standard output.
fn compare_input(rt: HostRuntime) -> io::Result<bool> {
    let alloc = rt.alloc();
    let rows = BufReader::new(alloc, rt.reader())?;
    compare(alloc, rows, &mut rt.stdout())
}

fn main(rt: HostRuntime) -> ExitCode {
    match compare_input(rt) {
        Ok(true) => ExitCode::SUCCESS,
        _ => ExitCode::FAILURE,
    }
}

#[cfg(test)]
mod tests;
