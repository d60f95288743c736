// Recordings that stop within a round, at a limit of steps or of bytes.
use crate::case_text::{Guest, Line, texts_of};
use crate::guests::FIVE_LETTERS;
use std::test::Fail;

const WRITER: Guest = Guest {
    words: &FIVE_LETTERS,
    pieces: &[],
    clocks: &[],
};

fn limit_lines() -> [Line; 71] {
    [
        // The limit is in the first, third, fourth and last of five jobs, and where they end. The racer knows it, or
        // doesn't.
        "0 9 1000 16 22 all 0",
        "limit 22, 1 rounds, 214 bytes f37c9c93d19d1bdb, 3 sent e71fa2190541574b",
        "steps 9 9 4",
        "1 9 1000 16 22 all 0",
        "limit 22, 3 rounds, 214 bytes f37c9c93d19d1bdb, 3 sent e71fa2190541574b",
        "steps 9 9 4",
        "2000 9 1000 16 1 all 0",
        "limit 1, 1 rounds, 174 bytes e6a02a751015b674, 0 sent cbf29ce484222325",
        "steps 1",
        "2000 9 1000 16 9 all 0",
        "limit 9, 1 rounds, 174 bytes 4b4d7f886b3e05dc, 1 sent af63dc4c8601ec8c",
        "steps 9",
        "2000 9 1000 16 22 all 0",
        "limit 22, 1 rounds, 214 bytes f37c9c93d19d1bdb, 3 sent e71fa2190541574b",
        "steps 9 9 4",
        "2000 9 1000 16 26 all 0",
        "limit 26, 1 rounds, 214 bytes a5d3471d7f31438f, 3 sent e71fa2190541574b",
        "steps 9 9 8",
        "2000 9 1000 16 27 all 0",
        "limit 27, 1 rounds, 214 bytes 1268f1bfea964d7c, 3 sent e71fa2190541574b",
        "steps 9 9 9",
        "2000 9 1000 16 28 all 0",
        "limit 28, 1 rounds, 234 bytes 9fef6f1f9cd4c963, 4 sent fc179f83ee0724dd",
        "steps 9 9 9 1",
        "2000 9 1000 16 36 all 0",
        "limit 36, 1 rounds, 234 bytes 3b421a0c41ac79fb, 5 sent 6348c52d762364a8",
        "steps 9 9 9 9",
        "2000 9 1000 16 40 all 0",
        "limit 40, 1 rounds, 254 bytes ba161ea60478677b, 5 sent 6348c52d762364a8",
        "steps 9 9 9 9 4",
        "2000 9 1000 16 41 all 0",
        "ok, 1 rounds, 254 bytes 26abc9486fdd7168, 5 sent 6348c52d762364a8",
        "steps 9 9 9 9 5",
        "epochs 5 squashes 0 steps 41 sent 5 end exit 0 state 3a157c16b61b53b6e5615ec901684d6a1a8668982706739643cc703f13f2d1db",
        // The room is less than the header needs, ends in the first, third and last record, and is just enough.
        "0 9 1000 16 all 153 0",
        "full 0 154, 0 rounds, 0 bytes cbf29ce484222325, 0 sent cbf29ce484222325",
        "steps",
        "0 9 1000 16 all 154 0",
        "full 154 20, 1 rounds, 154 bytes 381d3329b5354abb, 0 sent cbf29ce484222325",
        "steps",
        "0 9 1000 16 all 173 0",
        "full 154 20, 1 rounds, 154 bytes 381d3329b5354abb, 0 sent cbf29ce484222325",
        "steps",
        "0 9 1000 16 all 174 0",
        "full 174 20, 1 rounds, 174 bytes 4b4d7f886b3e05dc, 1 sent af63dc4c8601ec8c",
        "steps 9",
        "0 9 1000 16 all 194 0",
        "full 194 20, 1 rounds, 194 bytes 22bc94a385a7005b, 2 sent 089c4407b545986a",
        "steps 9 9",
        "0 9 1000 16 all 213 0",
        "full 194 20, 1 rounds, 194 bytes 22bc94a385a7005b, 2 sent 089c4407b545986a",
        "steps 9 9",
        "0 9 1000 16 all 214 0",
        "full 214 20, 1 rounds, 214 bytes 1268f1bfea964d7c, 3 sent e71fa2190541574b",
        "steps 9 9 9",
        "0 9 1000 16 all 253 0",
        "full 234 20, 1 rounds, 234 bytes 3b421a0c41ac79fb, 5 sent 6348c52d762364a8",
        "steps 9 9 9 9",
        "0 9 1000 16 all 254 0",
        "ok, 1 rounds, 254 bytes 26abc9486fdd7168, 5 sent 6348c52d762364a8",
        "steps 9 9 9 9 5",
        "epochs 5 squashes 0 steps 41 sent 5 end exit 0 state 3a157c16b61b53b6e5615ec901684d6a1a8668982706739643cc703f13f2d1db",
        "1 9 1000 16 all 213 0",
        "full 194 20, 3 rounds, 194 bytes 22bc94a385a7005b, 2 sent 089c4407b545986a",
        "steps 9 9",
        "0 9 1000 2 all 213 0",
        "full 194 20, 2 rounds, 194 bytes 22bc94a385a7005b, 2 sent 089c4407b545986a",
        "steps 9 9",
        "1000 9 1000 16 all 213 0",
        "full 194 20, 3 rounds, 194 bytes 22bc94a385a7005b, 2 sent 089c4407b545986a",
        "steps 9 9",
    ]
}

// Epochs of 9, 9, 9, 9 and 5 steps, with the outputs `a`, `b`, `c`, `de` and none. The header and the closed gate have
// 154 bytes, each record 20.
#[test]
fn limits_within_a_round(rt: HostRuntime) -> Result<(), Fail> {
    for workers in [1u32, 2, 5] {
        let (found, expected) = texts_of(&rt, rt.alloc(), WRITER, workers, &limit_lines())?;
        assert_eq!(rt; found.as_str(), expected.as_str(), "workers {workers}");
    }
    Ok(())
}
