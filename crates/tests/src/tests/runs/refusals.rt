//! Cases of scripts that are refused: the line and the kind, planned and unplanned.
use super::{expect_fused, filled, lines, names};
use cord_script::RefusalKind::{
    BadEscape, BadFormat, BadName, BadNumber, ElseAlone, EndAlone, MissingEnd, MissingIfEnd,
    TooDeep, UnknownName, UnknownStatement, Unterminated, WrongCount, WrongKind,
};
use cord_script::{Refusal, RefusalKind};

// A name, a script with ` ; ` between its lines, the line and the kind of its refusal.
pub(super) type Case = (&'static str, &'static str, u32, RefusalKind);

pub(super) const REFUSALS: &[Case] = &[
    ("unknown-name", "put x", 1, UnknownName),
    ("unknown-statement", "print x", 1, UnknownStatement),
    ("cat-one-operand", "cat z x", 1, WrongCount),
    ("let-quote-open", r#"let x "a"#, 1, Unterminated),
    ("let-bad-escape", r#"let x "\q""#, 1, BadEscape),
    ("repeat-open", "repeat 2", 1, MissingEnd),
    ("end-alone", "end", 1, EndAlone),
    ("sprintf-bad-format", r#"sprintf z "%5%""#, 1, BadFormat),
    (
        "fetch-into-cord",
        r#"let x "a" ; fetch x x 0"#,
        2,
        WrongKind,
    ),
    (
        "sprintf-argument-missing",
        r#"sprintf z "%d""#,
        1,
        WrongCount,
    ),
    ("cat-quote-open", r#"cat z ""#, 1, Unterminated),
    ("put-two-words", "put x y", 1, WrongCount),
    ("let-digit-name", r#"let 9x "a""#, 1, BadName),
    ("put-quoted-word", r#"put "x""#, 1, BadName),
    ("file-empty-path", r#"file x """#, 1, BadName),
    (
        "chars-numeral-too-great",
        "chars a 0 99999999999999999999",
        1,
        BadNumber,
    ),
    ("let-plain-word", "let x a", 1, WrongKind),
    ("len-into-cord", r#"let x "a" ; len x x"#, 2, WrongKind),
    ("cat-of-itself-unknown", "cat x x x", 1, UnknownName),
    (
        "operands-one-too-many",
        r#"let x "a" ; catn z x x x x x x x x x x x x x x x x x"#,
        2,
        WrongCount,
    ),
    (
        "loops-too-deep",
        "repeat 1 ; repeat 1 ; repeat 1 ; repeat 1 ; repeat 1 ; repeat 1 ; repeat 1 ; repeat 1 ; repeat 1",
        9,
        TooDeep,
    ),
    (
        "outer-repeat-open",
        "repeat 1 ; repeat 1 ; end",
        1,
        MissingEnd,
    ),
    ("else-alone", "else", 1, ElseAlone),
    ("else-twice", "if 1 eq 1 ; else ; else ; end", 3, ElseAlone),
    ("else-in-repeat", "repeat 1 ; else ; end", 2, ElseAlone),
    ("if-bad-relation", "if 1 ne 1 ; end", 1, BadName),
    ("if-open-in-repeat", "repeat 2 ; if 1 eq 1", 2, MissingIfEnd),
    (
        "if-open-round-repeat",
        "if 1 eq 1 ; repeat 2 ; end",
        1,
        MissingIfEnd,
    ),
    ("put-no-word", "put", 1, WrongCount),
    ("let-no-text", "let x", 1, WrongCount),
    ("put-number", "set n 1 ; put n", 2, WrongKind),
    ("chars-quoted-number", r#"chars a "0" 1"#, 1, BadNumber),
    ("fn-bad-function", "fn d letters 1", 1, BadName),
    ("number-unknown", "set n m", 1, UnknownName),
];

// Scripts with words that are wrong, the first of which counts: the line and the kind of the refusal.
const WORDS: &[(&str, u32, RefusalKind)] = &[
    ("let x \"a\"\"b\"", 1, WrongCount),
    ("\"let\" x \"a\"", 1, UnknownStatement),
    ("\n # \"\n\nput y\n", 4, UnknownName),
    ("put x\nlet x \"a\"", 1, UnknownName),
    ("let x \"\\q\"", 1, BadEscape),
    ("let x \"\\x4", 1, BadEscape),
    ("let x \"\\x4g\"", 1, BadEscape),
    ("let x \"\\", 1, BadEscape),
    ("let _234567890123456789012345678901Z3 \"\"", 1, BadName),
    ("let 9 a", 1, BadName),
    ("catn z x", 1, WrongCount),
    ("let x \"a\"\ncatn z x 5", 2, BadName),
    ("let x \"a\"\ncatn z x y 5", 2, BadName),
    ("let x \"a\"\ncatn z x y", 2, UnknownName),
    ("let x \"a\"\nset n 1\ncatn z x n", 3, WrongKind),
    ("sprintf z", 1, WrongCount),
    ("sprintf 9 x", 1, BadName),
    ("sprintf 9 \"%q\"", 1, BadName),
    ("sprintf z x", 1, WrongKind),
    ("sprintf z \"%q\" 1", 1, BadFormat),
    ("sprintf z \"%d\" 1 2", 1, WrongCount),
    ("sprintf z \"%d%s\" 9x", 1, WrongCount),
    ("sprintf z \"%d\" \"a\"", 1, BadNumber),
    ("sprintf z \"%d%s\" 9x 5", 1, BadNumber),
    ("sprintf z \"%s\" 5", 1, BadName),
    ("sprintf z \"%s\" y", 1, UnknownName),
    ("set n 1\nsprintf z \"%s\" n", 2, WrongKind),
    ("set n 1\nsprintf n \"%d\" 1", 2, WrongKind),
    ("fn x letters 9x", 1, BadName),
    ("file x p", 1, WrongKind),
    ("file x \"a\\x00\"", 1, BadName),
    ("file x \"\\x80\"", 1, BadName),
    ("set n 9223372036854775808", 1, BadNumber),
    ("set n -", 1, BadNumber),
    ("set n +1", 1, BadName),
    ("end 1", 1, WrongCount),
    ("ecput e 1", 1, UnknownName),
];

// A name, a text and so many copies of a byte after it, which are the script, and the line and the kind of its refusal.
const SIZES: &[(&str, &[u8], u8, usize, u32, RefusalKind)] = &[
    (
        "script-too-big",
        b"",
        b' ',
        1_048_577,
        0,
        RefusalKind::TooBig,
    ),
    (
        "too-many-lines",
        b"",
        b'\n',
        65_537,
        65_537,
        RefusalKind::TooBig,
    ),
    (
        "literal-too-long",
        b"let x \"",
        b'a',
        65_536,
        1,
        RefusalKind::LiteralTooLong,
    ),
];

#[test]
fn refusals(rt: HostRuntime) {
    for &(name, script, line, kind) in REFUSALS {
        let answer = Err(Refusal { line, kind });
        expect_fused(&rt, name, &lines(&rt, script), 0, &answer, b"");
    }
    for &(script, line, kind) in WORDS {
        let answer = Err(Refusal { line, kind });
        expect_fused(&rt, script, script.as_bytes(), 0, &answer, b"");
    }
    for &(name, text, byte, count, line, kind) in SIZES {
        let answer = Err(Refusal { line, kind });
        expect_fused(&rt, name, &filled(&rt, text, byte, count), 0, &answer, b"");
    }
    let answer = Err(Refusal {
        line: 257,
        kind: RefusalKind::TooMany,
    });
    expect_fused(&rt, "names-one-too-many", &names(&rt, 257), 0, &answer, b"");
}
