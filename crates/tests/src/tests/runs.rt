//! Cases of scripts through `run_text` and `run_unplanned`: the end, and what is written.
mod cases;
mod files;
mod hostile;
mod malformed;
mod refusals;

use super::refused::files::two_files;
use cord_io::{Files, FuseSink, MemFiles, MemSink, Sink};
use cord_run::{End, FaultKind, run_text, run_unplanned};
use cord_script::Refusal;
use std::process::Abort;

const HELLO: &[u8] = b"let x \"hello\"\nput x\n";

// The bytes of a script that is written with ` ; ` between its lines.
fn lines(rt: &(impl AllocGlobal + Abort), shown: &str) -> Vec<u8> {
    let text = shown.replace(rt.alloc(), " ; ", "\n");
    let mut script = text.expect(rt, "no memory").into_bytes();
    add(rt, &mut script, b"\n");
    script
}

// The file "p" of the text `line` and byte 10, and one other file.
pub(super) fn line_and(rt: &(impl AllocGlobal + Abort), path: &str, bytes: &[u8]) -> MemFiles {
    two_files(rt, rt.alloc(), [("p", b"line\n"), (path, bytes)])
}

// Runs a script by its plan or without one. It promises nothing, so that what calls it has little to prove.
pub(super) fn run_way<F: Files, S: Sink>(
    rt: &(impl AllocGlobal + Abort),
    script: &[u8],
    files: F,
    sink: &mut S,
    is_planned: bool,
) -> (Result<End, Refusal>, F) {
    assert!(rt; files.failures() < u64::MAX && sink.failures() < u64::MAX);
    if is_planned {
        run_text(rt.alloc(), script, files, sink)
    } else {
        run_unplanned(rt.alloc(), script, files, sink)
    }
}

// Runs a script over no files both ways, and compares the end and what is written.
fn expect_end(
    rt: &(impl AllocGlobal + Abort),
    name: &str,
    script: &[u8],
    end: End,
    written: &[u8],
) {
    for is_planned in [true, false] {
        let mut sink = MemSink::new(rt.alloc());
        let result = run_way(rt, script, MemFiles::new(rt.alloc()), &mut sink, is_planned).0;
        assert!(rt; result == Ok(end), "{name}");
        assert!(rt; sink.bytes() == written, "{name}");
    }
}

// Runs a script both ways over a sink that passes so many calls of at most 3 bytes, and compares the answer and what is
// written. The sink fails once where writing failed, since there is no finish then, and else never: a script that is
// refused isn't finished.
fn expect_fused(
    rt: &(impl AllocGlobal + Abort),
    name: &str,
    script: &[u8],
    passes: u64,
    answer: &Result<End, Refusal>,
    written: &[u8],
) {
    let failures = u64::from(matches!(answer, Ok(End::WriteFailed(_))));
    for is_planned in [true, false] {
        let files = MemFiles::new(rt.alloc());
        let mut sink = FuseSink::new(MemSink::new(rt.alloc()), passes, 3);
        let result = run_way(rt, script, files, &mut sink, is_planned).0;
        assert!(rt; result == *answer && sink.failures() == failures, "{name}");
        assert!(rt; sink.inner().bytes() == written, "{name}");
    }
}

// A text, and so many copies of a byte after it.
fn filled(rt: &(impl AllocGlobal + Abort), text: &[u8], byte: u8, count: usize) -> Vec<u8> {
    crate::filled(rt.alloc(), text, byte, count).expect(rt, "no memory")
}

// Appends a text.
fn add(rt: &impl Abort, script: &mut Vec<u8>, text: &[u8]) {
    script.extend_from_slice(text).expect(rt, "no memory");
}

// A line `let` for each of so many names of two letters.
fn names(rt: &(impl AllocGlobal + Abort), count: u16) -> Vec<u8> {
    let mut script = Vec::new(rt.alloc());
    for n in 0..count {
        let name = [b'a' + (n / 16 % 26) as u8, b'a' + (n % 16) as u8];
        add(rt, &mut script, b"let ");
        add(rt, &mut script, &name);
        add(rt, &mut script, b" \"a\"\n");
    }
    script
}

// A name, a script, the calls of at most 3 bytes that its sink passes, the end, and what is written. Where the finish
// fails after a fault, that is the end.
const FUSED: &[(&str, &[u8], u64, End, &[u8])] = &[
    ("fuse-sink-no-put", HELLO, 0, End::WriteFailed(2), b""),
    ("fuse-sink-short-put", HELLO, 1, End::WriteFailed(2), b"hel"),
    ("fuse-sink-enough", HELLO, 3, End::Done, b"hello"),
    (
        "fuse-sink-finish-fails",
        b"let x \"a\"\nput x\n",
        1,
        End::WriteFailed(0),
        b"a",
    ),
    (
        "fuse-sink-fault-and-finish-fails",
        b"let x \"a\"\nput x\nfetch n x 1\n",
        1,
        End::WriteFailed(0),
        b"a",
    ),
    (
        "fuse-sink-fault",
        b"let x \"a\"\nput x\nfetch n x 1\n",
        2,
        End::Fault(3, FaultKind::OutOfRange),
        b"a",
    ),
];

#[test]
fn cases_over_a_fuse(rt: HostRuntime) {
    for &(name, script, passes, end, written) in FUSED {
        expect_fused(&rt, name, script, passes, &Ok(end), written);
    }
}

// A text of two gigabytes, 200 substrings of it, and the first byte of each.
fn substrings(rt: &(impl AllocGlobal + Abort)) -> Vec<u8> {
    let alloc = rt.alloc();
    let mut script = lines(rt, "let x \"ab\" ; repeat 30 ; cat x x x ; end");
    for is_fetch in [false, true] {
        for k in 1..=200 {
            let line = if is_fetch {
                format!(in alloc; "fetch n y{k} 0\n")
            } else {
                format!(in alloc; "substr y{k} x {k} 2147483000\n")
            };
            add(rt, &mut script, line.expect(rt, "no memory").as_bytes());
        }
    }
    add(rt, &mut script, b"sprintf z \"%d\" n\nput z\n");
    script
}

// Lines at their limit, and substrings of a text of two gigabytes, which share it.
#[test]
fn built_scripts(rt: HostRuntime) {
    expect_end(&rt, "empty-script", b"", End::Done, b"");
    let script = filled(&rt, b"", b'\n', 65_536);
    expect_end(&rt, "lines-at-the-limit", &script, End::Done, b"");
    expect_end(&rt, "substrings-share", &substrings(&rt), End::Done, b"97");
}
