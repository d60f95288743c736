// Rounds of a racer whose offers are nonsense.
use crate::case_text::{Guest, Line, texts_of};
use crate::guests::{ECHO, READS_AND_COUNTS};
use std::test::Fail;
use test_files::WRITES_WORDS;

const WRITER: Guest = Guest {
    words: &WRITES_WORDS,
    pieces: &[],
    clocks: &[],
};

fn state_lines() -> [Line; 47] {
    [
        // States of another guest, that have ended, past each limit, with no thread, of threads that exited, past the
        // input, at no instruction, with no heap and with no page. Nobody can follow the hints.
        "3121 2 1000 16 all all 0",
        "ok, 5 rounds, 234 bytes 8961713939370bec, 3 sent 33734a193006ba70",
        "steps 2 2 2 2 1",
        "epochs 5 squashes 5 steps 9 sent 3 end exit 0 state 5e7e08b662a2648fef71b4527eed27a6cdaea8232e2b564dfcc9f494b1615bd4",
        "3222 2 1000 16 all all 0",
        "ok, 5 rounds, 234 bytes 8961713939370bec, 3 sent 33734a193006ba70",
        "steps 2 2 2 2 1",
        "epochs 5 squashes 5 steps 9 sent 3 end exit 0 state 5e7e08b662a2648fef71b4527eed27a6cdaea8232e2b564dfcc9f494b1615bd4",
        "3353 2 1000 16 all all 0",
        "ok, 5 rounds, 234 bytes 8961713939370bec, 3 sent 33734a193006ba70",
        "steps 2 2 2 2 1",
        "epochs 5 squashes 5 steps 9 sent 3 end exit 0 state 5e7e08b662a2648fef71b4527eed27a6cdaea8232e2b564dfcc9f494b1615bd4",
        "3421 2 1000 16 all all 0",
        "ok, 5 rounds, 234 bytes 8961713939370bec, 3 sent 33734a193006ba70",
        "steps 2 2 2 2 1",
        "epochs 5 squashes 5 steps 9 sent 3 end exit 0 state 5e7e08b662a2648fef71b4527eed27a6cdaea8232e2b564dfcc9f494b1615bd4",
        "3524 2 1000 16 all all 0",
        "ok, 5 rounds, 234 bytes 8961713939370bec, 3 sent 33734a193006ba70",
        "steps 2 2 2 2 1",
        "epochs 5 squashes 5 steps 9 sent 3 end exit 0 state 5e7e08b662a2648fef71b4527eed27a6cdaea8232e2b564dfcc9f494b1615bd4",
        "3652 2 1000 16 all all 0",
        "ok, 5 rounds, 234 bytes 8961713939370bec, 3 sent 33734a193006ba70",
        "steps 2 2 2 2 1",
        "epochs 5 squashes 5 steps 9 sent 3 end exit 0 state 5e7e08b662a2648fef71b4527eed27a6cdaea8232e2b564dfcc9f494b1615bd4",
        "3729 2 1000 16 all all 0",
        "ok, 5 rounds, 234 bytes 8961713939370bec, 3 sent 33734a193006ba70",
        "steps 2 2 2 2 1",
        "epochs 5 squashes 5 steps 9 sent 3 end exit 0 state 5e7e08b662a2648fef71b4527eed27a6cdaea8232e2b564dfcc9f494b1615bd4",
        "3821 2 1000 16 all all 0",
        "ok, 5 rounds, 234 bytes 8961713939370bec, 3 sent 33734a193006ba70",
        "steps 2 2 2 2 1",
        "epochs 5 squashes 5 steps 9 sent 3 end exit 0 state 5e7e08b662a2648fef71b4527eed27a6cdaea8232e2b564dfcc9f494b1615bd4",
        "3925 2 1000 16 all all 0",
        "ok, 5 rounds, 234 bytes 8961713939370bec, 3 sent 33734a193006ba70",
        "steps 2 2 2 2 1",
        "epochs 5 squashes 5 steps 9 sent 3 end exit 0 state 5e7e08b662a2648fef71b4527eed27a6cdaea8232e2b564dfcc9f494b1615bd4",
        // Up to a limit, and with room for one offer and for none.
        "3353 2 1000 16 5 all 0",
        "limit 5, 3 rounds, 194 bytes 18d7fae2ee0c3b20, 0 sent cbf29ce484222325",
        "steps 2 2 1",
        "3119 2 1000 2 all all 0",
        "ok, 5 rounds, 234 bytes 8961713939370bec, 3 sent 33734a193006ba70",
        "steps 2 2 2 2 1",
        "epochs 5 squashes 5 steps 9 sent 3 end exit 0 state 5e7e08b662a2648fef71b4527eed27a6cdaea8232e2b564dfcc9f494b1615bd4",
        "3119 2 1000 1 all all 0",
        "ok, 5 rounds, 234 bytes 8961713939370bec, 3 sent 33734a193006ba70",
        "steps 2 2 2 2 1",
        "epochs 5 squashes 0 steps 9 sent 3 end exit 0 state 5e7e08b662a2648fef71b4527eed27a6cdaea8232e2b564dfcc9f494b1615bd4",
    ]
}

// Each round commits its first epoch and squashes the next: the journal is that of a racer that offers nothing.
#[test]
fn nonsense_states(rt: HostRuntime) -> Result<(), Fail> {
    for workers in [1u32, 2, 5] {
        let (found, expected) = texts_of(&rt, rt.alloc(), WRITER, workers, &state_lines())?;
        assert_eq!(rt; found.as_str(), expected.as_str(), "workers {workers}");
    }
    Ok(())
}

fn hint_lines() -> [Line; 28] {
    [
        // Good states, and hints that nobody can follow, or that can't be followed to the end.
        "3000 2 1000 16 all all 0",
        "ok, 1 rounds, 234 bytes 8961713939370bec, 3 sent 33734a193006ba70",
        "steps 2 2 2 2 1",
        "epochs 5 squashes 0 steps 9 sent 3 end exit 0 state 5e7e08b662a2648fef71b4527eed27a6cdaea8232e2b564dfcc9f494b1615bd4",
        "3010 2 1000 16 all all 0",
        "ok, 1 rounds, 234 bytes 8961713939370bec, 3 sent 33734a193006ba70",
        "steps 2 2 2 2 1",
        "epochs 5 squashes 0 steps 9 sent 3 end exit 0 state 5e7e08b662a2648fef71b4527eed27a6cdaea8232e2b564dfcc9f494b1615bd4",
        "3020 2 1000 16 all all 0",
        "ok, 1 rounds, 234 bytes 8961713939370bec, 3 sent 33734a193006ba70",
        "steps 2 2 2 2 1",
        "epochs 5 squashes 0 steps 9 sent 3 end exit 0 state 5e7e08b662a2648fef71b4527eed27a6cdaea8232e2b564dfcc9f494b1615bd4",
        "3030 2 1000 16 all all 0",
        "ok, 1 rounds, 240 bytes a8dc04edf3630c42, 3 sent 33734a193006ba70",
        "steps 2 2 2 2 1",
        "epochs 5 squashes 0 steps 9 sent 3 end exit 0 state 5e7e08b662a2648fef71b4527eed27a6cdaea8232e2b564dfcc9f494b1615bd4",
        "3040 2 1000 16 all all 0",
        "ok, 1 rounds, 240 bytes a8dc04edf3630c42, 3 sent 33734a193006ba70",
        "steps 2 2 2 2 1",
        "epochs 5 squashes 0 steps 9 sent 3 end exit 0 state 5e7e08b662a2648fef71b4527eed27a6cdaea8232e2b564dfcc9f494b1615bd4",
        "3050 2 1000 16 all all 0",
        "ok, 1 rounds, 234 bytes 8961713939370bec, 3 sent 33734a193006ba70",
        "steps 2 2 2 2 1",
        "epochs 5 squashes 0 steps 9 sent 3 end exit 0 state 5e7e08b662a2648fef71b4527eed27a6cdaea8232e2b564dfcc9f494b1615bd4",
        "3060 2 1000 16 all all 0",
        "ok, 1 rounds, 234 bytes 8961713939370bec, 3 sent 33734a193006ba70",
        "steps 2 2 2 2 1",
        "epochs 5 squashes 0 steps 9 sent 3 end exit 0 state 5e7e08b662a2648fef71b4527eed27a6cdaea8232e2b564dfcc9f494b1615bd4",
    ]
}

// One thread has one schedule, so all epochs are committed. Hints that are followed in part cut an epoch into two
// slices.
#[test]
fn nonsense_hints(rt: HostRuntime) -> Result<(), Fail> {
    for workers in [1u32, 2, 5] {
        let (found, expected) = texts_of(&rt, rt.alloc(), WRITER, workers, &hint_lines())?;
        assert_eq!(rt; found.as_str(), expected.as_str(), "workers {workers}");
    }
    Ok(())
}

const COUNTER: Guest = Guest {
    words: &READS_AND_COUNTS,
    pieces: &[b"abc", b"de"],
    clocks: &[5, 7, 0x1_2345_6789],
};

fn counter_lines() -> [Line; 64] {
    [
        // Nobody can follow the hints: the journal is that of a racer that offers nothing.
        "1000 12 5 16 all all 0",
        "ok, 18 rounds, 1067 bytes 94670779c8b05173, 13 sent f3f775ef279c7c79",
        "steps 12 12 12 12 12 12 12 12 12 12 12 12 12 12 12 12 12 4",
        "epochs 18 squashes 0 steps 208 sent 13 end exit 0 state 3f4bf9035865d97ba0c49ac7f029367b1bc63368697d9e0426c6faa9e083b326",
        "3121 12 5 16 all all 0",
        "ok, 18 rounds, 1067 bytes 94670779c8b05173, 13 sent f3f775ef279c7c79",
        "steps 12 12 12 12 12 12 12 12 12 12 12 12 12 12 12 12 12 4",
        "epochs 18 squashes 18 steps 208 sent 13 end exit 0 state 3f4bf9035865d97ba0c49ac7f029367b1bc63368697d9e0426c6faa9e083b326",
        "3353 12 5 16 all all 0",
        "ok, 18 rounds, 1067 bytes 94670779c8b05173, 13 sent f3f775ef279c7c79",
        "steps 12 12 12 12 12 12 12 12 12 12 12 12 12 12 12 12 12 4",
        "epochs 18 squashes 18 steps 208 sent 13 end exit 0 state 3f4bf9035865d97ba0c49ac7f029367b1bc63368697d9e0426c6faa9e083b326",
        "3622 12 5 16 all all 0",
        "ok, 18 rounds, 1067 bytes 94670779c8b05173, 13 sent f3f775ef279c7c79",
        "steps 12 12 12 12 12 12 12 12 12 12 12 12 12 12 12 12 12 4",
        "epochs 18 squashes 18 steps 208 sent 13 end exit 0 state 3f4bf9035865d97ba0c49ac7f029367b1bc63368697d9e0426c6faa9e083b326",
        "3722 12 5 16 all all 0",
        "ok, 18 rounds, 1067 bytes 94670779c8b05173, 13 sent f3f775ef279c7c79",
        "steps 12 12 12 12 12 12 12 12 12 12 12 12 12 12 12 12 12 4",
        "epochs 18 squashes 18 steps 208 sent 13 end exit 0 state 3f4bf9035865d97ba0c49ac7f029367b1bc63368697d9e0426c6faa9e083b326",
        "3912 12 5 16 all all 0",
        "ok, 18 rounds, 1067 bytes 94670779c8b05173, 13 sent f3f775ef279c7c79",
        "steps 12 12 12 12 12 12 12 12 12 12 12 12 12 12 12 12 12 4",
        "epochs 18 squashes 18 steps 208 sent 13 end exit 0 state 3f4bf9035865d97ba0c49ac7f029367b1bc63368697d9e0426c6faa9e083b326",
        // Hints that are followed in part: the first epoch of each round goes by them.
        "3131 12 5 16 all all 0",
        "ok, 17 rounds, 1047 bytes df28cf50132c05f3, 13 sent f3f775ef279c7c79",
        "steps 12 12 12 12 12 12 12 12 12 12 12 12 12 12 12 12 9",
        "epochs 17 squashes 17 steps 201 sent 13 end exit 0 state fc5bd75a7b78c70f1f78bfef28a290251f4df1e1d71ae4e4fbbc8da49ba6b503",
        "3241 12 5 16 all all 0",
        "ok, 25 rounds, 1663 bytes e5f8503d5024473f, 13 sent f3f775ef279c7c79",
        "steps 12 12 12 12 12 12 12 12 12 12 12 12 12 12 12 12 12 12 12 12 12 12 12 12 11",
        "epochs 25 squashes 25 steps 299 sent 13 end exit 0 state ea4d13ac6c098ad69171c6a757c7ab1eab9451212f5e718738a373d98baccd5b",
        "3831 12 6 16 all all 0",
        "ok, 17 rounds, 987 bytes 278a0c6de188353f, 13 sent f3f775ef279c7c79",
        "steps 12 12 12 12 12 12 12 12 12 12 12 12 12 12 12 12 9",
        "epochs 17 squashes 17 steps 201 sent 13 end exit 0 state fc5bd75a7b78c70f1f78bfef28a290251f4df1e1d71ae4e4fbbc8da49ba6b503",
        // Good states, of which those that another schedule doesn't come to are squashed.
        "3000 12 5 4 all all 0",
        "ok, 5 rounds, 1003 bytes 7a3df8dba44f77c0, 13 sent f3f775ef279c7c79",
        "steps 12 12 12 12 12 12 12 12 12 12 12 12 12 11 12 10",
        "epochs 16 squashes 0 steps 189 sent 13 end exit 0 state 331894011eb7ac87f7783fe68d70cc0fbc289b2221c6e8abc753374de009dc49",
        "3010 12 5 4 all all 0",
        "ok, 6 rounds, 1105 bytes 5a0ad760c9f1f66c, 13 sent f3f775ef279c7c79",
        "steps 12 12 12 12 12 12 12 12 12 12 12 12 12 12 12 12 12 12 1",
        "epochs 19 squashes 2 steps 217 sent 13 end exit 0 state dc9457196d9318757b34afffd4ac4d33989a77c3465b8a72dfc21d1c82f404f4",
        "3020 12 5 4 all all 0",
        "ok, 6 rounds, 1105 bytes 5a0ad760c9f1f66c, 13 sent f3f775ef279c7c79",
        "steps 12 12 12 12 12 12 12 12 12 12 12 12 12 12 12 12 12 12 1",
        "epochs 19 squashes 2 steps 217 sent 13 end exit 0 state dc9457196d9318757b34afffd4ac4d33989a77c3465b8a72dfc21d1c82f404f4",
        "3030 12 5 4 all all 0",
        "ok, 8 rounds, 1017 bytes 07e9a13b7c8a9231, 13 sent f3f775ef279c7c79",
        "steps 12 12 12 12 12 12 12 12 12 12 12 12 12 12 10 12 10",
        "epochs 17 squashes 5 steps 200 sent 13 end exit 0 state 5472f26a2618259f9073dccb2db68f09d528256aeefae5f731f62809d923be7f",
        "3040 12 5 4 all all 0",
        "ok, 22 rounds, 1697 bytes 4fe044144c21e502, 13 sent f3f775ef279c7c79",
        "steps 12 12 12 12 12 12 12 12 12 12 12 12 12 12 12 12 12 12 12 12 12 12 12 12 12 12 10",
        "epochs 27 squashes 20 steps 322 sent 13 end exit 0 state 2306e46a258ba79e3357c8a90461fe41de225d7a597df398f56153ce5ad7fee4",
        "3050 12 5 4 all all 0",
        "ok, 6 rounds, 1105 bytes 5a0ad760c9f1f66c, 13 sent f3f775ef279c7c79",
        "steps 12 12 12 12 12 12 12 12 12 12 12 12 12 12 12 12 12 12 1",
        "epochs 19 squashes 2 steps 217 sent 13 end exit 0 state dc9457196d9318757b34afffd4ac4d33989a77c3465b8a72dfc21d1c82f404f4",
        "3060 12 5 4 all all 0",
        "ok, 6 rounds, 1105 bytes 5a0ad760c9f1f66c, 13 sent f3f775ef279c7c79",
        "steps 12 12 12 12 12 12 12 12 12 12 12 12 12 12 12 12 12 12 1",
        "epochs 19 squashes 2 steps 217 sent 13 end exit 0 state dc9457196d9318757b34afffd4ac4d33989a77c3465b8a72dfc21d1c82f404f4",
    ]
}

// Three threads.
#[test]
fn nonsense_of_threads(rt: HostRuntime) -> Result<(), Fail> {
    for workers in [1u32, 2, 5] {
        let (found, expected) = texts_of(&rt, rt.alloc(), COUNTER, workers, &counter_lines())?;
        assert_eq!(rt; found.as_str(), expected.as_str(), "workers {workers}");
    }
    Ok(())
}

const READER: Guest = Guest {
    words: &ECHO,
    pieces: &[b"abcdef", b"gh", b"ijklm"],
    clocks: &[],
};

fn reader_lines() -> [Line; 24] {
    [
        // The same of a guest that reads.
        "1000 4 1000 16 all all 0",
        "ok, 17 rounds, 517 bytes 6491f1b559bdd0c5, 13 sent 4213ea06398bc308",
        "steps 4 4 4 4 4 4 2 4 4 3 4 4 4 4 4 2 4",
        "epochs 17 squashes 0 steps 63 sent 13 end exit 0 state 2eb3cdb6d543150c1e66653e646ded34595246ec155241f0aac5afc506ed83b9",
        "3622 4 1000 16 all all 0",
        "ok, 17 rounds, 517 bytes 6491f1b559bdd0c5, 13 sent 4213ea06398bc308",
        "steps 4 4 4 4 4 4 2 4 4 3 4 4 4 4 4 2 4",
        "epochs 17 squashes 17 steps 63 sent 13 end exit 0 state 2eb3cdb6d543150c1e66653e646ded34595246ec155241f0aac5afc506ed83b9",
        "3652 4 1000 16 all all 0",
        "ok, 17 rounds, 517 bytes 6491f1b559bdd0c5, 13 sent 4213ea06398bc308",
        "steps 4 4 4 4 4 4 2 4 4 3 4 4 4 4 4 2 4",
        "epochs 17 squashes 17 steps 63 sent 13 end exit 0 state 2eb3cdb6d543150c1e66653e646ded34595246ec155241f0aac5afc506ed83b9",
        "3133 4 1000 16 all all 0",
        "ok, 17 rounds, 547 bytes aece300da7e19e73, 13 sent 4213ea06398bc308",
        "steps 4 4 4 4 4 4 2 4 4 3 4 4 4 4 4 2 4",
        "epochs 17 squashes 17 steps 63 sent 13 end exit 0 state 2eb3cdb6d543150c1e66653e646ded34595246ec155241f0aac5afc506ed83b9",
        "3030 4 1000 16 all all 0",
        "ok, 5 rounds, 547 bytes aece300da7e19e73, 13 sent 4213ea06398bc308",
        "steps 4 4 4 4 4 4 2 4 4 3 4 4 4 4 4 2 4",
        "epochs 17 squashes 0 steps 63 sent 13 end exit 0 state 2eb3cdb6d543150c1e66653e646ded34595246ec155241f0aac5afc506ed83b9",
        "3040 4 1000 16 all all 0",
        "ok, 5 rounds, 595 bytes 31fb2f3eb2c19cab, 13 sent 4213ea06398bc308",
        "steps 4 4 4 4 4 4 2 4 4 3 4 4 4 4 4 2 4",
        "epochs 17 squashes 0 steps 63 sent 13 end exit 0 state 2eb3cdb6d543150c1e66653e646ded34595246ec155241f0aac5afc506ed83b9",
    ]
}

// One thread that reads.
#[test]
fn nonsense_of_a_reader(rt: HostRuntime) -> Result<(), Fail> {
    for workers in [1u32, 2, 5] {
        let (found, expected) = texts_of(&rt, rt.alloc(), READER, workers, &reader_lines())?;
        assert_eq!(rt; found.as_str(), expected.as_str(), "workers {workers}");
    }
    Ok(())
}
