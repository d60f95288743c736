// Lines of each kind: a row of qemu's run, and the same with one value changed or one field more or less.
use crate::compare;
use crate::verdict::{Verdict, judge};
use std::test::Fail;

const CASES: [(&str, Verdict); 29] = [
    ("", Verdict::NoRow),
    ("#", Verdict::NoRow),
    (
        "# ADD 006283b3 00000001 00000000 - 00000001 00000000 00000001 0 -",
        Verdict::NoRow,
    ),
    // a comment whose fields would be a row
    (
        "#ADD 006283b3 00000800 522c6c89 - 00000800 522c6c89 522c7489 0 -",
        Verdict::NoRow,
    ),
    // ADD, and each value of it changed
    (
        "ADD 006283b3 00000800 522c6c89 - 00000800 522c6c89 522c7489 0 -",
        Verdict::Agrees,
    ),
    (
        "ADD 006283b3 00000801 522c6c89 - 00000800 522c6c89 522c7489 0 -",
        Verdict::Differs,
    ),
    (
        "ADD 006283b3 00000800 522c6c88 - 00000800 522c6c89 522c7489 0 -",
        Verdict::Differs,
    ),
    (
        "ADD 006283b3 00000800 522c6c89 - 00000801 522c6c89 522c7489 0 -",
        Verdict::Differs,
    ),
    (
        "ADD 006283b3 00000800 522c6c89 - 00000800 522c6c88 522c7489 0 -",
        Verdict::Differs,
    ),
    (
        "ADD 006283b3 00000800 522c6c89 - 00000800 522c6c89 522c748a 0 -",
        Verdict::Differs,
    ),
    (
        "ADD 006283b3 00000800 522c6c89 - 00000800 522c6c89 522c7489 1 -",
        Verdict::Differs,
    ),
    (
        "ADD 006283b3 00000800 522c6c89 - 00000800 522c6c89 522c7489 0 00000000000000000000000000000001",
        Verdict::Differs,
    ),
    // SUB's word instead of ADD's, under whatever name
    (
        "ADD 406283b3 00000800 522c6c89 - 00000800 522c6c89 522c7489 0 -",
        Verdict::Differs,
    ),
    (
        "? 006283b3 00000800 522c6c89 - 00000800 522c6c89 522c7489 0 -",
        Verdict::Agrees,
    ),
    (
        " 006283b3 00000800 522C6C89 - 00000800 522c6c89 522c7489 0 -",
        Verdict::Agrees,
    ),
    (
        "A\tB 006283b3 00000800 522c6c89 - 00000800 522c6c89 522c7489 0 -",
        Verdict::Agrees,
    ),
    // bytes before it that aren't after it
    (
        "ADD 006283b3 00000800 522c6c89 00000000000000000000000000000001 00000800 522c6c89 522c7489 0 -",
        Verdict::Differs,
    ),
    // ECALL, and a word that is no instruction
    (
        "ECALL 00000073 00000800 522c6c89 - 00000800 522c6c89 13572468 0 -",
        Verdict::Differs,
    ),
    (
        "MUL 026283b3 00000800 522c6c89 - 00000800 522c6c89 13572468 0 -",
        Verdict::Differs,
    ),
    // a field too few, a field too many, and none
    (
        "ADD 006283b3 00000800 522c6c89 - 00000800 522c6c89 522c7489 0",
        Verdict::Unreadable,
    ),
    (
        "ADD 006283b3 00000800 522c6c89 - 00000800 522c6c89 522c7489 0 - -",
        Verdict::Unreadable,
    ),
    ("ADD", Verdict::Unreadable),
    // two spaces, a space before the name, one at the end, and a tab
    (
        "ADD  006283b3 00000800 522c6c89 - 00000800 522c6c89 522c7489 0 -",
        Verdict::Unreadable,
    ),
    (
        " ADD 006283b3 00000800 522c6c89 - 00000800 522c6c89 522c7489 0 -",
        Verdict::Unreadable,
    ),
    (
        "ADD 006283b3 00000800 522c6c89 - 00000800 522c6c89 522c7489 0 - ",
        Verdict::Unreadable,
    ),
    (
        "ADD 006283b3 00000800 522c6c89 -\t00000800 522c6c89 522c7489 0 -",
        Verdict::Unreadable,
    ),
    // seven digits, a letter that is no digit, and a third digit for the jump
    (
        "ADD 006283b3 0000800 522c6c89 - 00000800 522c6c89 522c7489 0 -",
        Verdict::Unreadable,
    ),
    (
        "ADD 006283b3 0000080g 522c6c89 - 00000800 522c6c89 522c7489 0 -",
        Verdict::Unreadable,
    ),
    (
        "ADD 006283b3 00000800 522c6c89 - 00000800 522c6c89 522c7489 2 -",
        Verdict::Unreadable,
    ),
];

#[test]
fn lines_of_each_kind(rt: HostRuntime) -> Result<(), Fail> {
    for (line, verdict) in CASES {
        assert_eq!(rt; judge(rt.alloc(), line)?, verdict, "{line:?}");
    }
    Ok(())
}

// Rows, a comment and an empty line, of which the third differs and the sixth can't be read.
const ROWS: &[u8] = b"\
# x
ADD 006283b3 00000001 00000000 - 00000001 00000000 00000001 0 -
ADD 006283b3 00000001 00000000 - 00000001 00000000 00000002 0 -

ADD 006283b3 00000800 522c6c89 - 00000800 522c6c89 522c7489 0 -
ADD 006283b3
";

const SAID: &[u8] = b"\
line 3 differs: ADD 006283b3 00000001 00000000 - 00000001 00000000 00000002 0 -
line 6 can't be read: ADD 006283b3
2 rows agree
";

#[test]
fn rows_are_named(rt: HostRuntime) -> Result<(), Fail> {
    let cases: [(&[u8], bool, &[u8]); 5] = [
        (ROWS, false, SAID),
        (b"", true, b"0 rows agree\n"),
        (b"# x\n\n", true, b"0 rows agree\n"),
        (b"x", false, b"line 1 can't be read: x\n0 rows agree\n"),
        (
            b"SUB 406283b3 00000001 00000001 - 00000001 00000001 00000001 0 -",
            false,
            b"line 1 differs: SUB 406283b3 00000001 00000001 - 00000001 00000001 00000001 0 -\n0 rows agree\n",
        ),
    ];
    for (rows, all, said) in cases {
        let mut written = Vec::new(rt.alloc());
        assert_eq!(rt; compare(rt.alloc(), rows, &mut written)?, all);
        assert_eq!(rt; written.as_slice(), said);
    }
    Ok(())
}
