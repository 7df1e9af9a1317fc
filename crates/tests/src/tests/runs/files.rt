//! Cases of scripts over files: whole ones, ones that fail after some calls, and ones that give no byte after a place.
use super::super::refused::files::two_files;
use super::super::trees::pattern;
use super::{add, filled, lines, run_way};
use cord_io::{CutFiles, FuseFiles, MemSink};
use cord_run::{End, FaultKind};
use std::process::Abort;

// The bytes of a file, or what is written.
#[derive(Clone, Copy)]
enum Bytes {
    Text(&'static [u8]),
    // So many bytes of the pattern.
    Numbered(usize),
    // So many times a byte.
    Copies(u8, usize),
    // The same twice.
    Twice(usize),
    // At most so many of them, the first ones.
    Prefix(usize),
}

use Bytes::{Copies, Numbered, Prefix, Text, Twice};

// A file beside "b" of 600 bytes, how many calls pass, and the place from which on no byte is given.
#[derive(Clone, Copy)]
struct Device {
    path: &'static str,
    bytes: Bytes,
    passes: u64,
    cut: u64,
}

const LINE: Device = Device {
    path: "p",
    bytes: Text(b"line\n"),
    passes: u64::MAX,
    cut: u64::MAX,
};

const LINE_OF_ONE_CALL: Device = Device { passes: 1, ..LINE };

// Of five bytes, each of which can be read.
const FIVE: Device = Device {
    path: "p",
    bytes: Numbered(5),
    passes: u64::MAX,
    cut: 5,
};

const CUT: Device = Device {
    path: "p",
    bytes: Numbered(1_000),
    passes: u64::MAX,
    cut: 600,
};

// A file of 20 blocks.
const LONG: Device = Device {
    path: "f",
    bytes: Numbered(10_000),
    passes: 21,
    cut: u64::MAX,
};

// Ways to run a script.
const BOTH: &[bool] = &[true, false];

const PLANNED: &[bool] = &[true];

const UNPLANNED: &[bool] = &[false];

// A name, a script, its files, whether it is run by its plan, the end, and what is written.
type Case = (
    &'static str,
    &'static str,
    Device,
    &'static [bool],
    End,
    Bytes,
);

const CASES: &[Case] = &[
    (
        "file-twice",
        r#"file x "p" ; put x ; put x"#,
        LINE,
        BOTH,
        End::Done,
        Text(b"line\nline\n"),
    ),
    (
        "eager-unread-planned",
        r#"eager x "p" ; let y "a" ; put y"#,
        LINE_OF_ONE_CALL,
        PLANNED,
        End::Done,
        Text(b"a"),
    ),
    (
        "eager-unread-unplanned",
        r#"eager x "p" ; let y "a" ; put y"#,
        LINE_OF_ONE_CALL,
        UNPLANNED,
        End::ReadFailed(1),
        Text(b""),
    ),
    (
        "lazy-block-fails",
        r#"lazy x "f" ; put x"#,
        Device {
            bytes: Numbered(200_000),
            passes: 2,
            ..LONG
        },
        BOTH,
        End::ReadFailed(2),
        Prefix(512),
    ),
    (
        "lazy-twice",
        r#"lazy x "f" ; put x ; put x"#,
        LONG,
        BOTH,
        End::Done,
        Twice(10_000),
    ),
    (
        "lazy-last-block-fails",
        r#"lazy x "f" ; put x ; put x"#,
        Device { passes: 20, ..LONG },
        BOTH,
        End::ReadFailed(2),
        Prefix(9_728),
    ),
    (
        "cut-lazy-whole",
        r#"lazy x "p" ; put x"#,
        CUT,
        BOTH,
        End::ReadFailed(2),
        Prefix(512),
    ),
    (
        "cut-lazy-first-block",
        r#"lazy x "p" ; substr y x 0 512 ; put y"#,
        CUT,
        BOTH,
        End::Done,
        Numbered(512),
    ),
    (
        "cut-eager",
        r#"eager x "p" ; put x"#,
        CUT,
        BOTH,
        End::ReadFailed(1),
        Text(b""),
    ),
    (
        "missing-file-is-a-fault",
        r#"eager x "q" ; put x"#,
        LINE,
        BOTH,
        End::Fault(1, FaultKind::NoFile),
        Text(b""),
    ),
    // A file that is there for its length alone isn't read, whatever it is; one that is built is read at once where it
    // is eager, or has at most 131,072 bytes.
    (
        "file-by-path",
        r#"let a "abc" ; file z "p" ; len n z ; sprintf t "%d" n ; put t"#,
        FIVE,
        BOTH,
        End::Done,
        Text(b"5"),
    ),
    (
        "file-missing",
        r#"let a "abc" ; file z "q" ; len n z ; sprintf t "%d" n ; put t"#,
        FIVE,
        BOTH,
        End::Fault(2, FaultKind::NoFile),
        Text(b""),
    ),
    (
        "eager-by-path",
        r#"let a "abc" ; eager z "p" ; len n z ; sprintf t "%d" n ; put t"#,
        FIVE,
        BOTH,
        End::Done,
        Text(b"5"),
    ),
    (
        "eager-missing",
        r#"let a "abc" ; eager z "q" ; len n z ; sprintf t "%d" n ; put t"#,
        FIVE,
        BOTH,
        End::Fault(2, FaultKind::NoFile),
        Text(b""),
    ),
    (
        "lazy-by-path",
        r#"let a "abc" ; lazy z "p" ; len n z ; sprintf t "%d" n ; put t"#,
        FIVE,
        BOTH,
        End::Done,
        Text(b"5"),
    ),
    (
        "lazy-missing",
        r#"let a "abc" ; lazy z "q" ; len n z ; sprintf t "%d" n ; put t"#,
        FIVE,
        BOTH,
        End::Fault(2, FaultKind::NoFile),
        Text(b""),
    ),
    (
        "eager-that-fails",
        r#"let a "abc" ; eager z "p" ; len n z ; sprintf t "%d" n ; put t"#,
        Device {
            bytes: Numbered(5),
            cut: 2,
            ..FIVE
        },
        UNPLANNED,
        End::ReadFailed(2),
        Text(b""),
    ),
    (
        "lazy-that-is-not-read",
        r#"let a "abc" ; lazy z "p" ; len n z ; sprintf t "%d" n ; put t"#,
        Device {
            bytes: Numbered(5),
            cut: 2,
            ..FIVE
        },
        UNPLANNED,
        End::Done,
        Text(b"5"),
    ),
    (
        "short-file-not-read",
        r#"let a "abc" ; file z "p" ; len n z ; sprintf t "%d" n ; put t"#,
        Device {
            bytes: Numbered(131_072),
            cut: 131_071,
            ..FIVE
        },
        PLANNED,
        End::Done,
        Text(b"131072"),
    ),
    (
        "short-file-that-fails",
        r#"let a "abc" ; file z "p" ; len n z ; sprintf t "%d" n ; put t"#,
        Device {
            bytes: Numbered(131_072),
            cut: 131_071,
            ..FIVE
        },
        UNPLANNED,
        End::ReadFailed(2),
        Text(b""),
    ),
    (
        "long-file-not-read",
        r#"let a "abc" ; file z "p" ; len n z ; sprintf t "%d" n ; put t"#,
        Device {
            bytes: Numbered(131_073),
            cut: 0,
            ..FIVE
        },
        UNPLANNED,
        End::Done,
        Text(b"131073"),
    ),
    (
        "blocks-by-entry",
        r#"lazy x "a" ; lazy y "b" ; substr u x 550 10 ; substr v y 550 10 ; put u ; put v"#,
        Device {
            path: "a",
            bytes: Copies(b'a', 600),
            ..LINE
        },
        BOTH,
        End::Done,
        Text(b"aaaaaaaaaabbbbbbbbbb"),
    ),
];

// The bytes, or as many as there are at most.
fn bytes_of(rt: &(impl AllocGlobal + Abort), bytes: Bytes) -> Vec<u8> {
    match bytes {
        Text(text) => Vec::from_slice(rt.alloc(), text).expect(rt, "no memory"),
        Numbered(count) => pattern(rt, rt.alloc(), count),
        Copies(byte, count) => filled(rt, b"", byte, count),
        Twice(count) => {
            let mut all = pattern(rt, rt.alloc(), count);
            add(rt, &mut all, &pattern(rt, rt.alloc(), count));
            all
        }
        Prefix(most) => pattern(rt, rt.alloc(), most),
    }
}

// The files are that of the device, and "b" of 600 bytes.
fn expect_way(rt: &(impl AllocGlobal + Abort), case: &Case, is_planned: bool) {
    let (name, shown, device, _, end, wanted) = case;
    let script = lines(rt, shown);
    let (first, other) = (bytes_of(rt, device.bytes), filled(rt, b"", b'b', 600));
    let files = two_files(rt, rt.alloc(), [(device.path, &first), ("b", &other)]);
    let files = CutFiles::new(FuseFiles::new(files, device.passes), device.cut);
    let mut sink = MemSink::new(rt.alloc());
    let answer = run_way(rt, &script, files, &mut sink, is_planned).0;
    assert!(rt; answer == Ok(*end), "{name}: the end");
    let bytes = bytes_of(rt, *wanted);
    let is_written = match wanted {
        Prefix(_) => bytes.starts_with(sink.bytes()),
        _ => sink.bytes() == bytes.as_slice(),
    };
    assert!(rt; is_written, "{name}: what is written");
}

#[test]
fn cases_over_files(rt: HostRuntime) {
    for case in CASES {
        for is_planned in case.3 {
            expect_way(&rt, case, *is_planned);
        }
    }
}
