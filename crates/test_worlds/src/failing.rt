// Which calls fail, as a table has it.
ghost use Rattle.std.specs.Prelude.{◌≡◌, ◌<◌, IfOk};
ghost use Rattle.disk_mem.specs.declared.fails.Fails.TheVariants.{At, Never};
ghost use Rattle.disk_mem.specs.MemoryWorld.{fresh, restarted};
ghost use Rattle.test_worlds.specs.Outside.{fails_as};

use disk_mem::{CallNumbers, Fails, MemWorld};
use dp_base::OutOfMemory;
use std::alloc::Global;

/// Which calls of one kind fail, by their number. The first call has the number 1. Unlike a `Fails` it can be copied,
/// so that a table may have it.
#[derive(Clone, Copy)]
pub enum Failing {
    /// None.
    Never,
    /// The one with this number.
    At(u64),
    /// Two: those with these numbers.
    AtBoth(u64, u64),
    /// The one with this number, and each after it.
    From(u64),
}

/// Returns these calls as a world in memory takes them.
///
/// # Errors
/// No memory.
pub fn fails_of(alloc: Global, failing: Failing) -> Result<Fails, OutOfMemory>
    ensures { IfOk result (λ fails. fails ≡ fails_as failing) }
{
    match failing {
        Failing::Never => Ok(Fails::Never),
        Failing::At(number) => fails_at(alloc, &[number]),
        Failing::AtBoth(first, second) => fails_at(alloc, &[first, second]),
        Failing::From(number) => Ok(Fails::From(number)),
    }
}

fn fails_at(alloc: Global, numbers: &[u64]) -> Result<Fails, OutOfMemory>
    ensures { IfOk result (λ fails. fails ≡ At numbers.now) }
{
    Ok(Fails::At(CallNumbers::from_vec(numbers.to_vec(alloc)?)))
}

/// Makes an empty disk some of whose calls fail, with streams some of whose emits fail, and which take at most `piece`
/// bytes at each.
///
/// # Errors
/// No memory.
pub fn world_of(
    alloc: Global,
    disk: Failing,
    sink: Failing,
    piece: u32,
) -> Result<MemWorld, OutOfMemory>
    requires { 0 < piece }
    ensures { IfOk result (λ world. world ≡ fresh (fails_as disk) (fails_as sink) piece) }
{
    let disk = fails_of(alloc, disk)?;
    let sink = fails_of(alloc, sink)?;
    MemWorld::new(alloc, disk, sink, piece)
}

/// Makes a disk with these bytes, some of whose calls fail. An emit takes 4,096 bytes at most, and none fails.
///
/// # Errors
/// No memory.
pub fn disk_of(alloc: Global, bytes: &[u8], disk: Failing) -> Result<MemWorld, OutOfMemory>
    ensures { IfOk result (λ world. world ≡ restarted bytes.now (fresh (fails_as disk) Never 4096)) }
{
    world_of(alloc, disk, Failing::Never, 4096)?.of_disk(alloc, bytes)
}
