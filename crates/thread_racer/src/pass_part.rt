// The parts of a pass: what each thread does in it, and how they run side by side.
ghost use Rattle.std.specs.Prelude.{◌<◌, ◌≤◌};

use crate::noted_words::NotedWords;
use crate::side_by_side::side_by_side;
use disk_model::Gate;
use dp_base::{Mem, OutOfMemory, Tid};
use guest_kernel::Hart;
use rv_step::{Stepped, exec};
use shared_words::{Naming, RacingMem};
use std::thread::Threads;

// What a thread does in a pass: steps up to its quota, until it stops at a call or a trap, or others are in its way.
#[derive(Drop)]
pub(crate) struct Part<'a, J: Naming> {
    // The index of its thread in the list of threads.
    pub(crate) index: usize,
    pub(crate) tid: Tid,
    pub(crate) worker: u32,
    pub(crate) hart: Hart,
    pub(crate) memory: NotedWords<RacingMem<'a, J>>,
    pub(crate) quota: u32,
    pub(crate) steps: u32,
    pub(crate) stop: Result<Stepped, OutOfMemory>,
}

// How many steps a hart took, and why it stopped.
#[derive(Clone, Copy)]
pub(crate) struct HartRun {
    pub(crate) steps: u32,
    pub(crate) stop: Result<Stepped, OutOfMemory>,
}

#[inline(never)]
pub(crate) fn run_hart<M: Mem>(hart: &mut Hart, memory: &mut M, limit: u32) -> HartRun
    ensures { result.steps ≤ limit }
{
    for step in 0..limit {
        match exec(hart, memory) {
            Ok(Stepped::Went) => {}
            stop => return HartRun { steps: step, stop },
        }
    }
    HartRun {
        steps: limit,
        stop: Ok(Stepped::Went),
    }
}

impl<J: Naming> Part<'_, J> {
    fn run<G: Gate>(&mut self, gate: &G) {
        gate.pass(self.worker, u32::from(self.tid.0));
        let run = run_hart(&mut self.hart, &mut self.memory, self.quota);
        self.steps = run.steps;
        self.stop = run.stop;
    }
}

// Runs the parts side by side, in at most this many threads of the system.
pub(crate) fn race_parts<R: Threads + Sync, G: Gate + Sync, J: Naming + Send + Sync>(
    rt: &R,
    gate: &G,
    workers: u32,
    parts: &mut [Part<'_, J>],
)
    requires { 0 < workers }
{
    set_workers(parts, workers);
    let each = parts.len().div_ceil(workers as usize).max(1);
    if parts.len() <= each {
        run_in_turn(gate, parts);
    } else {
        side_by_side(rt, &|some| run_in_turn(gate, some), each, parts);
    }
}

fn run_in_turn<G: Gate, J: Naming>(gate: &G, parts: &mut [Part<'_, J>]) {
    for index in 0..parts.len() {
        parts[index].run(gate);
    }
}

// Each worker has as many parts, the last one fewer.
fn set_workers<J: Naming>(parts: &mut [Part<'_, J>], workers: u32)
    requires { 0 < workers }
{
    let count = parts.len();
    for index in 0..count {
        parts[index].worker = worker_of(index, count, workers);
    }
}

fn worker_of(index: usize, count: usize, workers: u32) -> u32
    requires { 0 < workers }
{
    let each = count.div_ceil(workers as usize).max(1);
    (index / each & 0xffff) as u32 + 1
}
