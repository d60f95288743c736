// The clock of an input in memory.
use disk_model::Inlet;
use dp_base::OutOfMemory;
use std::alloc::Global;
use std::test::Fail;
use test_worlds::{Failing, inlet_of};

// What a clock with these readings gives at four calls, and how many takes there were.
fn four_clocks(
    alloc: Global,
    readings: &[u64],
    takes: Failing,
) -> Result<([u64; 4], u64), OutOfMemory> {
    let mut inlet = inlet_of(alloc, &[], readings, takes)?;
    let read = [inlet.clock(), inlet.clock(), inlet.clock(), inlet.clock()];
    Ok((read, inlet.takes()))
}

// Past its list a clock gives the last reading again.
#[test]
fn reads_clocks(rt: HostRuntime) -> Result<(), Fail> {
    let came = four_clocks(rt.alloc(), &[5, 7], Failing::From(1))?;
    assert_eq!(rt; came, ([5, 7, 7, 7], 0));
    let came = four_clocks(rt.alloc(), &[], Failing::Never)?;
    assert_eq!(rt; came, ([0; 4], 0));
    Ok(())
}
