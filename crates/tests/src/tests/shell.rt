//! The program over devices in memory that fail, or are refused memory: the status, what is written and what is
//! reported. What it answers where nothing fails, the tool `cases` shows.

mod failing;
mod refused;
mod words;

use super::puts::Run;
use super::refused::files::two_files;
use cord_io::{Files, FuseFiles, FuseSink, MemSink};
use cord_shell::drive;
use std::process::Abort;

// The words that run the script at "s": by its plan, and as its statements stand.
const WAYS: &[&[&str]] = &[&["s"], &["--unplanned", "s"]];

// The calls that a device passes which never fails.
const ALL: u64 = u64::MAX;

const HELLO: Run<'static> = Run {
    script: "let x \"hello\"\nput x\n",
    lines: 2,
    puts: &[(2, b"hello")],
    file: b"",
};

// What came of the program's words: the status, how often the files failed, what is written and what is reported.
#[derive(Drop)]
struct Come {
    status: u8,
    files_failed: u64,
    out: FuseSink<MemSink>,
    err: MemSink,
}

fn words_of(rt: &(impl AllocGlobal + Abort), words: &[&str]) -> Vec<String> {
    let alloc = rt.alloc();
    let mut all = Vec::new(alloc);
    for word in words {
        again!(rt, all.push(again!(rt, String::from_str(alloc, word))));
    }
    all
}

// Drives words over the script at "s", of less than ten lines, and the file at "p", which pass so many calls, and an
// output that passes so many of at most so many bytes.
fn come_of(
    rt: &(impl AllocGlobal + Abort),
    run: &Run,
    words: &[&str],
    passes: (u64, u64),
    most: u64,
) -> Come {
    let alloc = rt.alloc();
    let words = words_of(rt, words);
    assert!(rt; most >= 1);
    let files = two_files(rt, alloc, [("s", run.script.as_bytes()), ("p", run.file)]);
    let files = FuseFiles::new(files, passes.0);
    let mut out = FuseSink::new(MemSink::new(alloc), passes.1, most);
    let mut err = MemSink::new(alloc);
    let (status, files) = drive(alloc, &words, files, &mut out, &mut err);
    Come {
        status,
        files_failed: files.failures(),
        out,
        err,
    }
}
