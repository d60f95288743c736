// A command on memory forms.
use disk_mem::MemWorld;
use disk_model::OpenGate;
use dp_top::{Status, run};
use racing_runner::IdleRacer;
use std::alloc::Global;
use std::sync::Wait;
use std::test::Fail;
use std::thread::Threads;
use test_worlds::{Failing, file_named, inlet_of, texts_of};

/// What a run with these words comes to, where `g` is this guest, the input has these pieces, and the world has this
/// disk.
pub(crate) fn ran<R: Threads + Wait + Sync>(
    rt: &R,
    alloc: Global,
    words: &[&str],
    guest: &[u8],
    fetch: Failing,
    pieces: &[&[u8]],
    world: MemWorld,
) -> Result<(MemWorld, Status), Fail> {
    let texts = texts_of(alloc, words)?;
    let mut files = file_named(alloc, "g", guest, fetch)?;
    let mut inlet = inlet_of(alloc, pieces, &[], Failing::Never)?;
    Ok(run(
        rt, alloc, &texts, &mut files, &mut inlet, world, IdleRacer, &OpenGate,
    ))
}
