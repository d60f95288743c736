// Recordings of `WRITES` in epochs of one step, with marks.
use disk_model::{OpenGate, Stream};
use dp_top::{Status, run};
use racing_runner::IdleRacer;
use std::test::Fail;
use test_files::WRITES;
use test_worlds::{Failing, disk_of, file_named, inlet_of, texts_of};

// The nine epochs take 20 bytes each, after the 134 bytes of the header, the guest and the closed gate. After the ninth
// the guest has ended. A mark of this guest takes 270 bytes: it stores nothing.
#[test]
fn marks_by_the_words(rt: HostRuntime) -> Result<(), Fail> {
    let alloc = rt.alloc();
    for (mark, length) in [("0", 314usize), ("1", 2_474), ("2", 1_394), ("16", 314)] {
        let words = ["dpcli", "record", "g", "j", "--epoch", "1", "--mark", mark];
        let texts = texts_of(alloc, &words)?;
        let mut files = file_named(alloc, "g", &WRITES, Failing::Never)?;
        let mut inlet = inlet_of(alloc, &[], &[], Failing::Never)?;
        let world = disk_of(alloc, &[], Failing::Never)?;
        let (world, status) = run(
            &rt, alloc, &texts, &mut files, &mut inlet, world, IdleRacer, &OpenGate,
        );
        assert_eq!(rt; status, Status::Ok);
        assert_eq!(rt; world.bytes().len(), length);
        assert!(rt; world.sent(Stream::Out) == b"hi\n".as_slice());
    }
    Ok(())
}
