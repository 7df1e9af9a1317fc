//! Cases of scripts over no files: how each ends, and what it writes, planned and unplanned.
use super::{expect_end, lines};
use cord_meaning::FaultKind::{
    BadByte, Negative, NoFile, OutOfRange, Overflow, TooLong, TooManyTurns,
};
use cord_run::End;

// A name, a script with ` ; ` between its lines, how it ends, and what it writes.
pub(super) type Case = (&'static str, &'static str, End, &'static [u8]);

pub(super) const CORDS: &[Case] = &[
    ("empty-line", "", End::Done, b""),
    ("hello", r#"let x "hello" ; put x"#, End::Done, b"hello"),
    (
        "nul-in-literal",
        r#"let x "a\x00b" ; put x"#,
        End::Done,
        &[0x61, 0x00, 0x62],
    ),
    (
        "assigned-again",
        r#"let x "a" ; let y "b" ; put x ; let x "c" ; put x ; put y ; let x "" ; put x"#,
        End::Done,
        b"acb",
    ),
    (
        "substr-past-end",
        r#"let x "abcdef" ; substr y x 4 10 ; put y ; substr y x 6 1 ; put y"#,
        End::Done,
        b"ef",
    ),
    (
        "substr-over-seam",
        r#"let a "abc" ; let b "def" ; cat t a b ; substr z t 2 3 ; put z"#,
        End::Done,
        b"cde",
    ),
    (
        "catn-catc-balance",
        r#"let a "a" ; let b "b" ; catn z a b a ; catc z z 33 ; balance y z ; put y"#,
        End::Done,
        b"aba!",
    ),
    (
        "operand-assigned-between",
        r#"let a "a" ; let b "b" ; cat t a b ; let a "z" ; substr z t 0 2 ; put z"#,
        End::Done,
        b"ab",
    ),
    (
        "digits-substr",
        "fn d digits 12 ; substr z d 8 3 ; put z",
        End::Done,
        b"890",
    ),
    (
        "ec-statements",
        r#"ecinit e ; ecstr e "ab" ; ecput e 67 ; ectocord z e ; ecput e 68 ; put z ; ectocord y e ; put y"#,
        End::Done,
        b"abCabCD",
    ),
    (
        "sprintf-pads",
        r#"let h "hello" ; sprintf z "%5.2r|%-4d|%05d|%.0d|%%" h 7 -7 0 ; put z"#,
        End::Done,
        b"   he|7   |-0007||%",
    ),
    (
        "sprintf-numbers",
        r#"sprintf z "%08x|%+d|%o|%X|%c" 255 5 8 255 65 ; put z"#,
        End::Done,
        b"000000ff|+5|10|FF|A",
    ),
    (
        "run-of-greatest-length",
        r#"chars a 0 1099511627775 ; len n a ; sprintf z "%d" n ; put z"#,
        End::Done,
        b"1099511627775",
    ),
];

pub(super) const SEARCHES: &[Case] = &[
    (
        "str-at-later-place",
        r#"let p "ab" ; let q "c" ; catn x p p q ; let s "abc" ; str n x 0 s ; sprintf t "%d" n ; put t"#,
        End::Done,
        b"2",
    ),
    (
        "str-from-past-it",
        r#"let p "ab" ; let q "c" ; catn x p p q ; let s "abc" ; str n x 3 s ; sprintf t "%d" n ; put t"#,
        End::Done,
        b"-1",
    ),
    (
        "str-empty-at-end",
        r#"let p "ab" ; let q "c" ; catn x p p q ; let s "" ; str n x 5 s ; sprintf t "%d" n ; put t"#,
        End::Done,
        b"5",
    ),
    (
        "str-empty-past-end",
        r#"let p "ab" ; let q "c" ; catn x p p q ; let s "" ; str n x 6 s ; sprintf t "%d" n ; put t"#,
        End::Done,
        b"-1",
    ),
    (
        "str-over-seam",
        r#"chars a 97 2 ; let b "ab" ; cat x a b ; let s "aab" ; str n x 0 s ; sprintf t "%d" n ; put t"#,
        End::Done,
        b"1",
    ),
    (
        "cmp-unsigned",
        r#"let x "\x80" ; let y "a" ; cmp n x y ; sprintf z "%d" n ; put z"#,
        End::Done,
        b"1",
    ),
    (
        "cmp-prefix-is-less",
        r#"let x "ab" ; let y "abc" ; cmp n x y ; sprintf z "%d" n ; put z"#,
        End::Done,
        b"-1",
    ),
    (
        "ncmp-equal-part",
        r#"let x "abcx" ; let y "zabcy" ; ncmp n x 0 y 1 3 ; sprintf t "%d" n ; put t"#,
        End::Done,
        b"0",
    ),
    (
        "ncmp-one-byte-more",
        r#"let x "abcx" ; let y "zabcy" ; ncmp n x 0 y 1 4 ; sprintf t "%d" n ; put t"#,
        End::Done,
        b"-1",
    ),
    (
        "rchr-from-end",
        r#"let x "hello" ; rchr n x 4 108 ; sprintf t "%d" n ; put t"#,
        End::Done,
        b"3",
    ),
    (
        "chr-from-start",
        r#"let x "hello" ; chr n x 0 108 ; sprintf t "%d" n ; put t"#,
        End::Done,
        b"2",
    ),
    (
        "chr-absent",
        r#"let x "hello" ; chr n x 0 122 ; sprintf t "%d" n ; put t"#,
        End::Done,
        b"-1",
    ),
];

pub(super) const BLOCKS: &[Case] = &[
    (
        "ec-goes-on-after-tocord",
        "ecinit e ; repeat 129 ; ecput e 65 ; end ; ectocord z e ; ecput e 66 ; put z ; ectocord y e ; len n y ; \
            sprintf t \"%d\" n ; put t",
        End::Done,
        b"AAAAAAAAAAAAAAAAAAAAAAAAAAAAAAAAAAAAAAAAAAAAAAAAAAAAAAAAAAAAAAAAAAAAAAAAAAAAAAAAAAAAA\
            AAAAAAAAAAAAAAAAAAAAAAAAAAAAAAAAAAAAAAAAAAAA130",
    ),
    (
        "doubled-thirty-times",
        r#"let x "ab" ; repeat 30 ; cat x x x ; end ; len n x ; fetch c x 2147483647 ; sprintf z "%d %c" n c ; put z"#,
        End::Done,
        b"2147483648 b",
    ),
    (
        "loop-reads-next-turn",
        r#"let x "" ; repeat 3 ; put x ; catc x x 65 ; end"#,
        End::Done,
        b"AAA",
    ),
    (
        "window-moves",
        r#"let x "abcd" ; repeat 6 ; catc x x 101 ; substr x x 1 4 ; end ; put x"#,
        End::Done,
        b"eeee",
    ),
    (
        "window-grows-behind-a-cut-end",
        r#"let x "abcdef" ; let w "xy" ; repeat 3 ; substr x x 1 4 ; cat x x w ; end ; put x"#,
        End::Done,
        b"dexxxy",
    ),
    (
        "repeat-zero",
        r#"repeat 0 ; let x "a" ; end ; put x"#,
        End::Done,
        b"",
    ),
    (
        "repeat-count-read-once",
        r#"set n 2 ; repeat n ; set n 5 ; let x "a" ; put x ; end"#,
        End::Done,
        b"aa",
    ),
    (
        "if-else-both-assign",
        r#"let x "a" ; len n x ; if n eq 1 ; let x "b" ; else ; let x "c" ; end ; put x"#,
        End::Done,
        b"b",
    ),
    (
        "if-without-else-keeps",
        r#"let x "a" ; len n x ; if n gt 1 ; let x "b" ; end ; put x"#,
        End::Done,
        b"a",
    ),
    (
        "numbers-turn-by-turn",
        "set a 0 ; repeat 3 ; add a a 2 ; if a gt 3 ; sub a a 5 ; else ; add a a 1 ; end ; end ; \
            sprintf t \"%d\" a ; put t",
        End::Done,
        b"3",
    ),
    (
        "numerals-of-64-bits",
        r#"set a 9223372036854775807 ; repeat 2 ; sub a a 4294967296 ; end ; sprintf t "%d" a ; put t"#,
        End::Done,
        b"9223372028264841215",
    ),
    (
        "turns-one-too-many",
        "repeat 1000001 ; end",
        End::Fault(1, TooManyTurns),
        b"",
    ),
    ("turns-at-the-limit", "repeat 1000000 ; end", End::Done, b""),
];

pub(super) const FAULTS: &[Case] = &[
    (
        "sum-that-overflows-in-a-turn",
        r#"let x "b" ; put x ; set a 9223372036854775800 ; repeat 9 ; add a a 1 ; end"#,
        End::Fault(5, Overflow),
        b"b",
    ),
    (
        "negative-count-in-a-turn",
        "set n 2 ; repeat 3 ; repeat n ; end ; sub n n 2 ; end",
        End::Fault(3, Negative),
        b"",
    ),
    (
        "fetch-past-end",
        r#"let x "ab" ; put x ; fetch n x 2"#,
        End::Fault(3, OutOfRange),
        b"ab",
    ),
    (
        "doubled-past-the-limit",
        r#"let x "ab" ; repeat 39 ; cat x x x ; end ; put x"#,
        End::Fault(3, TooLong),
        b"",
    ),
    (
        "run-past-the-limit",
        r#"chars a 0 1099511627776 ; len n a ; sprintf z "%d" n ; put z"#,
        End::Fault(1, TooLong),
        b"",
    ),
    (
        "unread-cat-too-long",
        r#"chars a 0 1099511627775 ; let b "b" ; cat t a b ; put b"#,
        End::Fault(3, TooLong),
        b"",
    ),
    (
        "substr-of-unread-cat-too-long",
        r#"chars a 0 1099511627775 ; let b "b" ; cat t a b ; substr z t 0 1 ; put b"#,
        End::Fault(3, TooLong),
        b"",
    ),
    (
        "dead-file-missing",
        r#"let a "a" ; put a ; file x "none" ; put a"#,
        End::Fault(3, NoFile),
        b"a",
    ),
    (
        "add-overflows",
        "set n 9223372036854775807 ; add n n 1",
        End::Fault(2, Overflow),
        b"",
    ),
    (
        "sprintf-negative-hex",
        r#"sprintf z "%x" -1"#,
        End::Fault(1, Negative),
        b"",
    ),
    (
        "chars-byte-too-great",
        "chars a 256 1",
        End::Fault(1, BadByte),
        b"",
    ),
    (
        "chr-past-end",
        r#"let x "hello" ; chr n x 5 111"#,
        End::Fault(2, OutOfRange),
        b"",
    ),
    (
        "catc-byte-too-great",
        r#"let a "a" ; catc z a 256"#,
        End::Fault(2, BadByte),
        b"",
    ),
    (
        "substr-negative-index",
        r#"let x "ab" ; substr y x -1 2"#,
        End::Fault(2, Negative),
        b"",
    ),
    (
        "chars-too-long",
        "chars a 0 1099511627776",
        End::Fault(1, TooLong),
        b"",
    ),
    (
        "sprintf-too-long",
        r#"chars a 65 1099511627775 ; sprintf z "%s!" a"#,
        End::Fault(2, TooLong),
        b"",
    ),
    (
        "sub-overflows",
        "set n -9223372036854775808 ; sub n n 1",
        End::Fault(2, Overflow),
        b"",
    ),
];

// Words as they are read.
const WORDS: &[Case] = &[
    ("comments", " \t\r ; # \"\\q ; #", End::Done, b""),
    (
        "escapes",
        r#"let x "\\\"\n\t\xAf\xfA" ; put x"#,
        End::Done,
        &[92, 34, 10, 9, 175, 250],
    ),
    ("blanks", "\tlet x\"a b\"\r ; put x", End::Done, b"a b"),
    (
        "name-at-the-limit",
        r#"let _234567890123456789012345678901Z "a" ; put _234567890123456789012345678901Z"#,
        End::Done,
        b"a",
    ),
    (
        "name-of-a-statement",
        r#"let let "a" ; put let"#,
        End::Done,
        b"a",
    ),
    (
        "operands-at-the-limit",
        r#"let x "a" ; catn z x x x x x x x x x x x x x x x x ; put z"#,
        End::Done,
        &[b'a'; 16],
    ),
    (
        "blocks-at-the-limit",
        "repeat 1 ; repeat 1 ; repeat 1 ; repeat 1 ; repeat 1 ; repeat 1 ; repeat 1 ; repeat 1 ; \
            end ; end ; end ; end ; end ; end ; end ; end",
        End::Done,
        b"",
    ),
    // Of two names after the first few that share a slot each keeps its own number: 97 * 31 + 80 is 98 * 31 + 49.
    (
        "names-of-one-slot",
        "set n1 1 ; set n2 2 ; set n3 3 ; set n4 4 ; set n5 5 ; set n6 6 ; set n7 7 ; set n8 8 ; set aP 10 ; \
            set b1 20 ; set n9 9 ; add aP aP 1 ; sprintf z \"%d %d %d %d\" aP b1 n1 n9 ; put z",
        End::Done,
        b"11 20 1 9",
    ),
    (
        "cord-into-ec",
        r#"let x "ab" ; ecinit e ; eccat e x ; ecput e 67 ; eccat e x ; ectocord y e ; put y"#,
        End::Done,
        b"abCab",
    ),
    (
        "each-other-statement",
        "chars a 65 3 ; nul b 2 ; sub n -9223372036854775808 1 ; if n gt 1 ; end",
        End::Fault(3, Overflow),
        b"",
    ),
    (
        "a-run-of-the-longest-length-is-searched-at-once",
        r#"chars a 97 1099511627775 ; chr n a 0 98 ; rchr m a 1099511627774 98 ; sprintf t "%d %d" n m ; put t"#,
        End::Done,
        b"-1 -1",
    ),
];

// A branch that is run, or not, and a loop that isn't.
const BRANCHES: &[Case] = &[
    (
        "first-branch",
        "if -1 lt 0 ; repeat -1 ; end ; else ; repeat -1 ; end ; end",
        End::Fault(2, Negative),
        b"",
    ),
    (
        "second-branch",
        "if 2 eq 1 ; repeat -1 ; end ; else ; repeat -1 ; end ; end",
        End::Fault(5, Negative),
        b"",
    ),
    (
        "turns-of-both-loops",
        "repeat 1000 ; repeat 1000 ; end ; end",
        End::Fault(2, TooManyTurns),
        b"",
    ),
    (
        "no-turn",
        "repeat 0 ; repeat -1 ; end ; end",
        End::Done,
        b"",
    ),
];

// Names that get their own text with another one in the place of a range of it.
const EDITS: &[Case] = &[
    (
        "old-text-is-held",
        "let x \"hello brave world\" ; let e \"\" ; let a \"new\" ; cat y x e ; substr l x 0 6 ; substr r x 11 99 ; \
            catn x l a r ; put y ; put x",
        End::Done,
        b"hello brave worldhello new world",
    ),
    (
        "old-text-is-held-twice",
        r#"let x "abc" ; let a "-" ; cat y x x ; substr l x 0 1 ; substr r x 2 9 ; catn x l a r ; put x ; put y"#,
        End::Done,
        b"a-cabcabc",
    ),
    (
        "bytes-are-left-out",
        r#"let x "abcdef" ; substr l x 0 2 ; substr r x 4 9 ; cat x l r ; put x"#,
        End::Done,
        b"abef",
    ),
    (
        "at-both-ends",
        "let x \"bc\" ; let a \"a\" ; substr l x 0 0 ; substr r x 0 9 ; catn x l a r ; substr l x 0 9 ; \
            substr r x 9 9 ; catn x l a r ; put x",
        End::Done,
        b"abca",
    ),
    (
        "ranges-overlap",
        r#"let x "abcd" ; let a "-" ; substr l x 0 3 ; substr r x 1 9 ; catn x l a r ; put x"#,
        End::Done,
        b"abc-bcd",
    ),
    (
        "last-bytes-are-lost",
        r#"let x "abcdef" ; let a "-" ; substr l x 0 1 ; substr r x 3 2 ; catn x l a r ; put x"#,
        End::Done,
        b"a-de",
    ),
    (
        "first-byte-is-lost",
        r#"let x "abcd" ; let a "-" ; substr l x 1 1 ; substr r x 3 9 ; catn x l a r ; put x"#,
        End::Done,
        b"b-d",
    ),
    (
        "own-text-is-put",
        r#"let x "abc" ; substr l x 0 1 ; substr r x 2 9 ; catn x l x r ; put x"#,
        End::Done,
        b"aabcc",
    ),
    (
        "places-of-a-loop",
        "let x \"aaaa\" ; let b \"b\" ; set n 0 ; repeat 3 ; add m n 1 ; substr l x 0 n ; substr r x m 99 ; \
            catn x l b r ; set n m ; end ; put x",
        End::Done,
        b"bbba",
    ),
    (
        "edited-text-too-long",
        "chars x 97 1099511627775 ; chars a 98 2 ; substr l x 0 1 ; substr r x 2 1099511627775 ; catn x l a r ; put x",
        End::Fault(5, TooLong),
        b"",
    ),
];

// Each kind of definition for its length alone: its length, or why there is none. The plan doesn't build it; without
// one it is built.
const DEFINITIONS: &[Case] = &[
    (
        "length-of-cat",
        r#"let a "abc" ; cat z a a ; len n z ; sprintf t "%d" n ; put t"#,
        End::Done,
        b"6",
    ),
    (
        "length-of-let",
        r#"let a "abc" ; let z "hello" ; len n z ; sprintf t "%d" n ; put t"#,
        End::Done,
        b"5",
    ),
    (
        "length-of-balance",
        r#"let a "abc" ; balance z a ; len n z ; sprintf t "%d" n ; put t"#,
        End::Done,
        b"3",
    ),
    (
        "length-of-substr",
        r#"let a "abc" ; substr z a 1 9 ; len n z ; sprintf t "%d" n ; put t"#,
        End::Done,
        b"2",
    ),
    (
        "length-of-fn-digits",
        r#"let a "abc" ; fn z digits 12 ; len n z ; sprintf t "%d" n ; put t"#,
        End::Done,
        b"12",
    ),
    (
        "length-of-fn-bytes",
        r#"let a "abc" ; fn z bytes 0 ; len n z ; sprintf t "%d" n ; put t"#,
        End::Done,
        b"0",
    ),
    (
        "length-of-sprintf",
        r#"let a "abc" ; sprintf z "<%s>" a ; len n z ; sprintf t "%d" n ; put t"#,
        End::Done,
        b"5",
    ),
    (
        "length-of-sprintf-number",
        r#"let a "abc" ; sprintf z "%04d" 7 ; len n z ; sprintf t "%d" n ; put t"#,
        End::Done,
        b"4",
    ),
    (
        "no-length-of-fn-negative",
        r#"let a "abc" ; fn z digits -1 ; len n z ; sprintf t "%d" n ; put t"#,
        End::Fault(2, Negative),
        b"",
    ),
    (
        "no-length-of-fn-too-long",
        r#"let a "abc" ; fn z bytes 1099511627776 ; len n z ; sprintf t "%d" n ; put t"#,
        End::Fault(2, TooLong),
        b"",
    ),
    (
        "no-length-of-sprintf-negative",
        r#"let a "abc" ; sprintf z "%u" -1 ; len n z ; sprintf t "%d" n ; put t"#,
        End::Fault(2, Negative),
        b"",
    ),
    (
        "no-length-of-sprintf-byte",
        r#"let a "abc" ; sprintf z "%c" 256 ; len n z ; sprintf t "%d" n ; put t"#,
        End::Fault(2, BadByte),
        b"",
    ),
    (
        "part-of-the-second-text",
        r#"let a "abc" ; let b "def" ; cat t a b ; substr z t 3 9 ; put z"#,
        End::Done,
        b"def",
    ),
    (
        "part-after-both-texts",
        r#"let a "abc" ; let b "def" ; cat t a b ; substr z t 6 9 ; put z"#,
        End::Done,
        b"",
    ),
];

#[test]
fn cases(rt: HostRuntime) {
    for cases in [
        CORDS,
        WORDS,
        SEARCHES,
        BLOCKS,
        BRANCHES,
        EDITS,
        FAULTS,
        DEFINITIONS,
    ] {
        for (name, script, end, out) in cases {
            expect_end(&rt, name, &lines(&rt, script), *end, out);
        }
    }
}
