// One call on a disk, as a table has it.
use disk_mem::MemWorld;
use disk_model::World;

#[derive(Clone, Copy)]
pub(crate) enum Step {
    Attach,
    Len,
    // Two bytes, from an offset on.
    Read(u64),
    Write(u64, &'static [u8]),
    Cut(u64),
    Sync,
    Nothing,
}

// Whether the call answers `Ok`.
pub(crate) fn take_step(world: &mut MemWorld, step: Step) -> bool {
    match step {
        Step::Attach => world.attach("journal", true).is_ok(),
        Step::Len => world.len().is_ok(),
        Step::Read(at) => {
            let mut buf = [0; 2];
            world.read_at(at, &mut buf).is_ok()
        }
        Step::Write(at, bytes) => world.write_at(at, bytes).is_ok(),
        Step::Cut(len) => world.cut(len).is_ok(),
        Step::Sync => world.sync().is_ok(),
        Step::Nothing => true,
    }
}
