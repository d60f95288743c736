// Words that a command line takes, and words that it refuses.
use dp_words::{Command, WordsFault, parse};
use std::test::Fail;

#[test]
fn words_that_are_taken(rt: HostRuntime) -> Result<(), Fail> {
    let cases: [(&str, &str, [u64; 6]); 14] = [
        ("dpcli replay j", "j", [4, 0, 0, 0, 0, 0]),
        (
            "dpcli record g j",
            "g j",
            [4, 20_000, 1000, 16, 16, 1_000_000_000],
        ),
        (
            "dpcli record g j --workers 64 --epoch 1 --slice 100000 --ahead 1 --mark 0 --limit 1000000000000",
            "g j",
            [64, 1, 100_000, 1, 0, 1_000_000_000_000],
        ),
        (
            "x record --epoch=7 g j",
            "g j",
            [4, 7, 1000, 16, 16, 1_000_000_000],
        ),
        (
            "x record -- --g j",
            "--g j",
            [4, 20_000, 1000, 16, 16, 1_000_000_000],
        ),
        ("x replay --workers 2 j", "j", [2, 0, 0, 0, 0, 0]),
        ("dpcli inspect j", "inspect j", [0; 6]),
        ("x inspect -- --j", "inspect --j", [0; 6]),
        ("dpcli selftest 0", "selftest", [0; 6]),
        ("dpcli selftest 23", "selftest", [23, 0, 0, 0, 0, 0]),
        ("x selftest 0023", "selftest", [23, 0, 0, 0, 0, 0]),
        ("x selftest +23", "selftest", [23, 0, 0, 0, 0, 0]),
        ("x selftest -- 7999", "selftest", [7999, 0, 0, 0, 0, 0]),
        (
            "dpcli selftest 4294967295",
            "selftest",
            [4_294_967_295, 0, 0, 0, 0, 0],
        ),
    ];
    for (line, said, values) in cases {
        let (texts, numbers) = said_by(&rt, line)?;
        assert!(rt; texts.as_str() == said);
        assert!(rt; numbers == values);
    }
    Ok(())
}

// The texts of the command that a line says, and its numbers, with zeros for those that it lacks. The texts of an
// inspection and of a self-test begin with their name.
fn said_by(rt: &HostRuntime, line: &str) -> Result<(String, [u64; 6]), Fail> {
    let alloc = rt.alloc();
    let words = words_of(rt, line)?;
    match parse(alloc, &words) {
        Ok(
            Command::Record {
                guest,
                journal,
                workers,
                epoch,
                slice,
                ahead,
                mark,
                limit,
            },
        ) => {
            let texts = format!(in alloc; "{} {}", guest.as_str(), journal.as_str())?;
            let numbers = [
                u64::from(workers),
                u64::from(epoch),
                u64::from(slice),
                u64::from(ahead),
                u64::from(mark),
                limit,
            ];
            Ok((texts, numbers))
        }
        Ok(Command::Replay { journal, workers }) => Ok((
            journal.into_string(),
            [u64::from(workers), 0, 0, 0, 0, 0],
        )),
        Ok(Command::Inspect { journal }) => Ok((
            format!(in alloc; "inspect {}", journal.as_str())?,
            [0; 6],
        )),
        Ok(Command::Selftest { n }) => Ok((
            String::from_str(alloc, "selftest")?,
            [u64::from(n), 0, 0, 0, 0, 0],
        )),
        Err(_) => Err(Fail::from("refused")),
    }
}

fn words_of(rt: &HostRuntime, line: &str) -> Result<Vec<String>, Fail> {
    let alloc = rt.alloc();
    let mut words = Vec::new(alloc);
    for word in line.split(' ') {
        words.push(String::from_str(alloc, word)?)?;
    }
    Ok(words)
}

#[test]
fn words_that_are_refused(rt: HostRuntime) -> Result<(), Fail> {
    let lines = [
        "dpcli",
        "dpcli record g j --workers 0",
        "dpcli record g j --workers 65",
        "dpcli --help",
        "dpcli --version",
        "dpcli record --help",
        "dpcli record g",
        "dpcli record g j k",
        "dpcli replay",
        "dpcli inspect",
        "dpcli inspect j k",
        "dpcli inspect j --workers 4",
        "dpcli inspect --help",
        "dpcli inspects j",
        "dpcli selftest",
        "dpcli selftest ",
        "dpcli selftest x",
        "dpcli selftest 2x",
        "dpcli selftest 2.0",
        "dpcli selftest 0x17",
        "dpcli selftest -1",
        "dpcli selftest -- -1",
        "dpcli selftest 4294967296",
        "dpcli selftest 18446744073709551616",
        "dpcli selftest 1 2",
        "dpcli selftest 1 --workers 4",
        "dpcli selftest --help",
        "dpcli selftests 1",
        "dpcli record g j --epoch x",
        "dpcli record g j --limit 1000000000001",
    ];
    for line in lines {
        let words = words_of(&rt, line)?;
        let answer = parse(rt.alloc(), &words);
        assert!(rt; matches!(answer, Err(WordsFault::Usage)));
    }
    Ok(())
}
