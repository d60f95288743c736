// Rounds of a guest of threads that reads input and asks for the time, and of one that waits for input.
use crate::case_text::{Guest, Line, texts_of};
use crate::guests::{ECHO, READS_AND_COUNTS};
use std::test::Fail;

const COUNTER: Guest = Guest {
    words: &READS_AND_COUNTS,
    pieces: &[b"abc", b"de"],
    clocks: &[5, 7, 0x1_2345_6789],
};

fn counter_lines() -> [Line; 60] {
    [
        // Good offers, by rounds of one job, of two and of up to 64.
        "0 10 6 1 all all 0",
        "ok, 20 rounds, 1017 bytes fde2ed25c6ac8d84, 13 sent f3f775ef279c7c79",
        "steps 10 10 10 10 10 10 10 10 10 10 10 10 10 10 10 10 10 10 10 6",
        "epochs 20 squashes 0 steps 196 sent 13 end exit 0 state c528e61f9fd3a20ccd15841a7a1333e53beca3e426f9524f53ae9030de72c92d",
        "0 10 6 2 all all 0",
        "ok, 11 rounds, 1105 bytes ee5267997cc27cea, 13 sent f3f775ef279c7c79",
        "steps 10 10 10 10 10 10 10 10 10 10 10 10 10 10 10 10 10 10 10 10 10 3",
        "epochs 22 squashes 0 steps 213 sent 13 end exit 0 state 9afec75187e1811587aa46a01f1493b07c070ab4fb5da3cfe4fadfb97eb2b2ff",
        "0 10 6 64 all all 0",
        "ok, 4 rounds, 1057 bytes e2130f4d7a72071f, 13 sent f3f775ef279c7c79",
        "steps 10 10 10 10 10 10 10 10 10 10 10 10 10 1 10 10 6 10 3 10 10 2",
        "epochs 22 squashes 0 steps 192 sent 13 end exit 0 state 1df0068236a76a4156149c69ccc12b9129daee965be0abe67a91f094576846b9",
        "0 15 9 2 all all 0",
        "ok, 7 rounds, 877 bytes 5dcb5a06a65933bc, 13 sent f3f775ef279c7c79",
        "steps 15 15 15 15 15 15 15 15 15 15 15 15 8",
        "epochs 13 squashes 0 steps 188 sent 13 end exit 0 state 6ab091b1703cb9d36c7e77681dd9971d601d815b4fa77b4f29e0480b60759d47",
        "0 15 9 64 all all 0",
        "ok, 4 rounds, 843 bytes 2bce2d52745f2ed1, 13 sent f3f775ef279c7c79",
        "steps 15 15 15 15 15 15 15 15 6 15 11 13 15 7",
        "epochs 14 squashes 0 steps 187 sent 13 end exit 0 state 9c75b8bcf8ffa1a01ad1b5ab399fb576b3ee9a08759a34a4724e8cdfa98cdaf6",
        "0 25 3 2 all all 0",
        "ok, 6 rounds, 1039 bytes 441e2a765dd56bf8, 13 sent f3f775ef279c7c79",
        "steps 25 25 25 25 25 25 25 25 25 14",
        "epochs 10 squashes 1 steps 239 sent 13 end exit 0 state 8a4652169c11a2069c207caf651109310e0345b5f177777a5a57a22ea5df345e",
        // The first offer of each round is spoilt, or is the one before it; the eighth; the second.
        "1 12 5 2 all all 0",
        "ok, 17 rounds, 1041 bytes 790729b2516030ea, 13 sent f3f775ef279c7c79",
        "steps 12 12 12 12 12 12 12 12 12 12 12 12 12 12 12 12 7",
        "epochs 17 squashes 16 steps 199 sent 13 end exit 0 state e05b1b0a21438f2b80d32f9207d1918374ae71a2b24f3123b1bc67877fb38d2c",
        "1 12 5 64 all all 0",
        "ok, 17 rounds, 1041 bytes 790729b2516030ea, 13 sent f3f775ef279c7c79",
        "steps 12 12 12 12 12 12 12 12 12 12 12 12 12 12 12 12 7",
        "epochs 17 squashes 16 steps 199 sent 13 end exit 0 state e05b1b0a21438f2b80d32f9207d1918374ae71a2b24f3123b1bc67877fb38d2c",
        "3 10 6 4 all all 0",
        "ok, 22 rounds, 1117 bytes ea557df6a7287843, 13 sent f3f775ef279c7c79",
        "steps 10 10 10 10 10 10 10 10 10 10 10 10 10 10 10 10 10 10 10 10 10 6",
        "epochs 22 squashes 21 steps 216 sent 13 end exit 0 state 1f4495fcc48e7b9d64a7d9597dd2e8b5f8e72de0ef5e3e684638ef02cf8495c6",
        "29 12 5 64 all all 0",
        "ok, 4 rounds, 1023 bytes 03a04094d1bbd334, 13 sent f3f775ef279c7c79",
        "steps 12 12 12 12 12 12 12 12 12 12 12 12 5 12 1 12 10",
        "epochs 17 squashes 1 steps 184 sent 13 end exit 0 state 6437621a06fe9e75a515db065e00abc52f0db442f889488d058e1dc589e0e447",
        "31 10 6 64 all all 0",
        "ok, 4 rounds, 1073 bytes c7c624678031f6a6, 13 sent f3f775ef279c7c79",
        "steps 10 10 10 10 10 10 10 10 10 10 10 10 10 10 10 2 10 3 10 10 2",
        "epochs 21 squashes 1 steps 187 sent 13 end exit 0 state f6ec3d121be56d8d00ad730c2efcc23242d5feaf3fd98c20e03b57cb58c3a3a8",
        "5 15 9 64 all all 0",
        "ok, 7 rounds, 859 bytes 601b3045727da01a, 13 sent f3f775ef279c7c79",
        "steps 15 15 15 15 15 15 15 15 15 15 15 15 8",
        "epochs 13 squashes 6 steps 188 sent 13 end exit 0 state 6ab091b1703cb9d36c7e77681dd9971d601d815b4fa77b4f29e0480b60759d47",
        "7 25 3 64 all all 0",
        "ok, 5 rounds, 947 bytes 0186fdd08b4953df, 13 sent f3f775ef279c7c79",
        "steps 25 25 25 25 25 25 25 23 22",
        "epochs 9 squashes 3 steps 220 sent 13 end exit 0 state 6f103b6127613f4cbc13250eab8b76bb4f8e3207ccd5ecdd3b7062017553c680",
        // Nothing is offered.
        "2 12 5 64 all all 0",
        "ok, 18 rounds, 1067 bytes 94670779c8b05173, 13 sent f3f775ef279c7c79",
        "steps 12 12 12 12 12 12 12 12 12 12 12 12 12 12 12 12 12 4",
        "epochs 18 squashes 0 steps 208 sent 13 end exit 0 state 3f4bf9035865d97ba0c49ac7f029367b1bc63368697d9e0426c6faa9e083b326",
        "1000 12 5 64 all all 0",
        "ok, 18 rounds, 1067 bytes 94670779c8b05173, 13 sent f3f775ef279c7c79",
        "steps 12 12 12 12 12 12 12 12 12 12 12 12 12 12 12 12 12 4",
        "epochs 18 squashes 0 steps 208 sent 13 end exit 0 state 3f4bf9035865d97ba0c49ac7f029367b1bc63368697d9e0426c6faa9e083b326",
    ]
}

// Three threads.
#[test]
fn rounds_of_threads(rt: HostRuntime) -> Result<(), Fail> {
    for workers in [1u32, 2, 5, 64] {
        let (found, expected) = texts_of(&rt, rt.alloc(), COUNTER, workers, &counter_lines())?;
        assert_eq!(rt; found.as_str(), expected.as_str(), "workers {workers}");
    }
    Ok(())
}

fn stop_lines() -> [Line; 24] {
    [
        // The limit is within the 11th of 14 jobs, or in the first after a spoilt offer; the room is; and each take
        // fails in turn.
        "0 10 6 64 105 all 0",
        "limit 105, 1 rounds, 802 bytes f0458eb54be89fcd, 0 sent cbf29ce484222325",
        "steps 10 10 10 10 10 10 10 10 10 10 5",
        "2000 10 6 64 105 all 0",
        "limit 105, 1 rounds, 808 bytes 80ab37041bd0b0dd, 0 sent cbf29ce484222325",
        "steps 10 10 10 10 10 10 10 10 10 10 5",
        "2001 10 6 4 47 all 0",
        "limit 47, 5 rounds, 600 bytes 7b7d18001cb64d3f, 0 sent cbf29ce484222325",
        "steps 10 10 10 10 7",
        "0 10 6 64 all 800 0",
        "full 776 38, 1 rounds, 776 bytes 4fa4731c7515c064, 0 sent cbf29ce484222325",
        "steps 10 10 10 10 10 10 10 10 10 10",
        "0 10 6 64 all all 1",
        "input, 1 rounds, 874 bytes 0252f3b55a079805, 0 sent cbf29ce484222325",
        "steps 10 10 10 10 10 10 10 10 10 10 10 10 10 1",
        "0 10 6 64 all all 2",
        "input, 2 rounds, 943 bytes 5993ac4d4cf45930, 3 sent e71fa2190541574b",
        "steps 10 10 10 10 10 10 10 10 10 10 10 10 10 1 10 10 6",
        "1 12 5 4 all all 2",
        "input, 9 rounds, 780 bytes 72951e0521fef65d, 3 sent e71fa2190541574b",
        "steps 12 12 12 12 12 12 12 12 12",
        "0 10 6 64 all all 3",
        "input, 3 rounds, 988 bytes 1cc99bb0ac7bf886, 5 sent 6348c52d762364a8",
        "steps 10 10 10 10 10 10 10 10 10 10 10 10 10 1 10 10 6 10 3",
    ]
}

// The same guest, up to a limit, to the end of its room, and to a fault of its input.
#[test]
fn rounds_that_stop(rt: HostRuntime) -> Result<(), Fail> {
    for workers in [1u32, 2, 5] {
        let (found, expected) = texts_of(&rt, rt.alloc(), COUNTER, workers, &stop_lines())?;
        assert_eq!(rt; found.as_str(), expected.as_str(), "workers {workers}");
    }
    Ok(())
}

const READER: Guest = Guest {
    words: &ECHO,
    pieces: &[b"abcdef", b"gh", b"ijklm"],
    clocks: &[],
};

fn reader_lines() -> [Line; 60] {
    [
        // Epochs of 4 and of 11 steps may end where the thread waits for input. The job that starts there has no step
        // to take. It is not squashed.
        "0 4 1000 64 all all 0",
        "ok, 5 rounds, 517 bytes 6491f1b559bdd0c5, 13 sent 4213ea06398bc308",
        "steps 4 4 4 4 4 4 2 4 4 3 4 4 4 4 4 2 4",
        "epochs 17 squashes 0 steps 63 sent 13 end exit 0 state 2eb3cdb6d543150c1e66653e646ded34595246ec155241f0aac5afc506ed83b9",
        "1 4 1000 64 all all 0",
        "ok, 17 rounds, 517 bytes 6491f1b559bdd0c5, 13 sent 4213ea06398bc308",
        "steps 4 4 4 4 4 4 2 4 4 3 4 4 4 4 4 2 4",
        "epochs 17 squashes 13 steps 63 sent 13 end exit 0 state 2eb3cdb6d543150c1e66653e646ded34595246ec155241f0aac5afc506ed83b9",
        "0 5 1000 64 all all 0",
        "ok, 5 rounds, 477 bytes feac7e1319efe6db, 13 sent 4213ea06398bc308",
        "steps 4 5 5 5 5 2 5 5 1 5 5 5 5 2 4",
        "epochs 15 squashes 0 steps 63 sent 13 end exit 0 state 2eb3cdb6d543150c1e66653e646ded34595246ec155241f0aac5afc506ed83b9",
        "1 5 1000 64 all all 0",
        "ok, 15 rounds, 477 bytes feac7e1319efe6db, 13 sent 4213ea06398bc308",
        "steps 4 5 5 5 5 2 5 5 1 5 5 5 5 2 4",
        "epochs 15 squashes 10 steps 63 sent 13 end exit 0 state 2eb3cdb6d543150c1e66653e646ded34595246ec155241f0aac5afc506ed83b9",
        "0 11 1000 64 all all 0",
        "ok, 5 rounds, 317 bytes ee97c88024a7b7cf, 13 sent 4213ea06398bc308",
        "steps 4 11 11 11 11 11 4",
        "epochs 7 squashes 0 steps 63 sent 13 end exit 0 state 2eb3cdb6d543150c1e66653e646ded34595246ec155241f0aac5afc506ed83b9",
        "1 11 1000 64 all all 0",
        "ok, 7 rounds, 317 bytes ee97c88024a7b7cf, 13 sent 4213ea06398bc308",
        "steps 4 11 11 11 11 11 4",
        "epochs 7 squashes 5 steps 63 sent 13 end exit 0 state 2eb3cdb6d543150c1e66653e646ded34595246ec155241f0aac5afc506ed83b9",
        "3 11 1000 64 all all 0",
        "ok, 7 rounds, 317 bytes ee97c88024a7b7cf, 13 sent 4213ea06398bc308",
        "steps 4 11 11 11 11 11 4",
        "epochs 7 squashes 5 steps 63 sent 13 end exit 0 state 2eb3cdb6d543150c1e66653e646ded34595246ec155241f0aac5afc506ed83b9",
        "5 4 1000 64 all all 0",
        "ok, 10 rounds, 517 bytes 6491f1b559bdd0c5, 13 sent 4213ea06398bc308",
        "steps 4 4 4 4 4 4 2 4 4 3 4 4 4 4 4 2 4",
        "epochs 17 squashes 5 steps 63 sent 13 end exit 0 state 2eb3cdb6d543150c1e66653e646ded34595246ec155241f0aac5afc506ed83b9",
        "0 4 1000 2 all all 0",
        "ok, 10 rounds, 517 bytes 6491f1b559bdd0c5, 13 sent 4213ea06398bc308",
        "steps 4 4 4 4 4 4 2 4 4 3 4 4 4 4 4 2 4",
        "epochs 17 squashes 0 steps 63 sent 13 end exit 0 state 2eb3cdb6d543150c1e66653e646ded34595246ec155241f0aac5afc506ed83b9",
        "0 4 1000 1 all all 0",
        "ok, 17 rounds, 517 bytes 6491f1b559bdd0c5, 13 sent 4213ea06398bc308",
        "steps 4 4 4 4 4 4 2 4 4 3 4 4 4 4 4 2 4",
        "epochs 17 squashes 0 steps 63 sent 13 end exit 0 state 2eb3cdb6d543150c1e66653e646ded34595246ec155241f0aac5afc506ed83b9",
        "1000 4 1000 64 all all 0",
        "ok, 17 rounds, 517 bytes 6491f1b559bdd0c5, 13 sent 4213ea06398bc308",
        "steps 4 4 4 4 4 4 2 4 4 3 4 4 4 4 4 2 4",
        "epochs 17 squashes 0 steps 63 sent 13 end exit 0 state 2eb3cdb6d543150c1e66653e646ded34595246ec155241f0aac5afc506ed83b9",
        // Each take fails in turn.
        "0 4 1000 64 all all 1",
        "input, 1 rounds, 166 bytes 3ea3c3e2f17633e7, 0 sent cbf29ce484222325",
        "steps 4",
        "0 4 1000 64 all all 2",
        "input, 2 rounds, 298 bytes 1e72e1c3d0a767b8, 6 sent d80bda3fbe244a0a",
        "steps 4 4 4 4 4 4 2",
        "0 4 1000 64 all all 3",
        "input, 3 rounds, 363 bytes 30eabab934ee25d6, 8 sent 25da8c1836a8d66d",
        "steps 4 4 4 4 4 4 2 4 4 3",
        "0 4 1000 64 all all 4",
        "input, 4 rounds, 494 bytes 1634addc418e7815, 13 sent 4213ea06398bc308",
        "steps 4 4 4 4 4 4 2 4 4 3 4 4 4 4 4 2",
        "0 4 1000 64 all all 5",
        "ok, 5 rounds, 517 bytes 6491f1b559bdd0c5, 13 sent 4213ea06398bc308",
        "steps 4 4 4 4 4 4 2 4 4 3 4 4 4 4 4 2 4",
        "epochs 17 squashes 0 steps 63 sent 13 end exit 0 state 2eb3cdb6d543150c1e66653e646ded34595246ec155241f0aac5afc506ed83b9",
    ]
}

// One thread.
#[test]
fn rounds_of_a_reader(rt: HostRuntime) -> Result<(), Fail> {
    for workers in [1u32, 2, 5, 64] {
        let (found, expected) = texts_of(&rt, rt.alloc(), READER, workers, &reader_lines())?;
        assert_eq!(rt; found.as_str(), expected.as_str(), "workers {workers}");
    }
    Ok(())
}
