//! The program: does what its words say to the files, the input, the clock and the streams of the system, and ends with
//! the status's number. `run` says on standard error what came of it; `explain` adds what the system refused, or which
//! word is wrong.
#![tactic(auto)]

mod explain;
mod help;

use disk_model::OpenGate;
use dp_real::{RealFiles, RealInlet, RealWorld};
use dp_report::emit_fault;
use dp_top::{Status, run};
use explain::{explain_bytes, explain_fault, explain_words};
use std::env;
use std::io::{self, ErrorKind};
use std::process::ExitCode;
use thread_racer::ThreadRacer;

// Threads of the racing run, whatever `--workers` says of the epochs of a round.
const RACING_WORKERS: u32 = 4;

fn main(rt: HostRuntime) -> ExitCode {
    let alloc = rt.alloc();
    let mut world = RealWorld::new(rt);
    let mut files = RealFiles::new(rt);
    let mut inlet = RealInlet::new(rt);
    let (words, are_text) = match program_words(&rt) {
        Ok(words) => (words, true),
        Err(error) if error.kind() == ErrorKind::OutOfMemory => {
            // The status stays if its line can't be sent.
            let _ = emit_fault(&mut world, &Status::OutOfMemory);
            return ExitCode::from(Status::OutOfMemory.number());
        }
        // No words are no command either.
        Err(_) => (Vec::new(alloc), false),
    };
    let racer = ThreadRacer::new(RACING_WORKERS);
    let (mut world, status) = run(
        &rt, alloc, &words, &mut files, &mut inlet, world, racer, &OpenGate,
    );
    // The status stays if there is no memory for a line, or if it can't be sent.
    let _ = match status {
        Status::Usage if are_text => explain_words(alloc, &words, &mut world),
        Status::Usage => explain_bytes(&mut world),
        _ => explain_fault(alloc, status, &words, &files, &inlet, &mut world),
    };
    ExitCode::from(status.number())
}

// The program's words, its name first. Fails also if one isn't text.
fn program_words(rt: &HostRuntime) -> io::Result<Vec<String>> {
    Ok(env::args(rt)?.collect(rt.alloc())?)
}
