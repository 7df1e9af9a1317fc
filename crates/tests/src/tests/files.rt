// Cases of worked examples over files in memory.
mod reading;

use super::cases::expect_case;
use super::refused::files::two_files;
use super::refused::sources::table;
use super::trees::{Shape, is_cord};
use Ask::{Eager, Failures, FromFile, Lazy, Len, Open, Put, Taken};
use cord_core::Cord;
use cord_file::{FileError, Sources};
use cord_io::{Files, MemFiles, MemSink, Source, SourceId};
use reading::put_part;
use std::alloc::Global;
use std::process::Abort;

// What is asked of a table, and what it answers.
#[derive(Drop)]
enum Ask {
    Open(&'static str, Result<(SourceId, u64), FileError>),
    // How long a source is, where there is one.
    Len(u32, Option<u64>),
    // The cord of a path's bytes, by each call.
    Eager(&'static str, Shape),
    Lazy(&'static str, Shape),
    FromFile(&'static str, Shape),
    // Bytes of the file at a path are put: where they stand, and how many.
    Put((&'static str, u64, u64)),
    // What was put is this.
    Taken(&'static [u8]),
    // How often a call of the files has failed.
    Failures(u64),
}

// That opening a path answers so.
fn expect_open<F: Files>(
    rt: &impl Abort,
    alloc: Global,
    sources: &mut Sources<F>,
    path: &str,
    answer: &Result<(SourceId, u64), FileError>,
) {
    let opened = sources.open(alloc, path);
    expect_case(rt, opened == *answer, path, 0);
}

// That a cord of a path's bytes is so.
fn expect_cord(rt: &impl Abort, cord: Result<Cord, FileError>, path: &str, shape: &Shape) {
    let cord = cord.expect(rt, "no cord");
    expect_case(rt, is_cord(&cord, shape), path, cord.len());
}

fn expect_ask<F: Files>(
    rt: &impl Abort,
    alloc: Global,
    sources: &mut Sources<F>,
    sink: &mut MemSink,
    ask: &Ask,
) {
    match ask {
        Open(path, answer) => expect_open(rt, alloc, sources, path, answer),
        Len(id, len) => {
            let id = SourceId(*id);
            expect_case(
                rt,
                sources.entry_len(id) == *len,
                "the source",
                u64::from(id.0),
            );
        }
        Eager(path, shape) => expect_cord(rt, sources.eager(alloc, path), path, shape),
        Lazy(path, shape) => expect_cord(rt, sources.lazy(alloc, path), path, shape),
        FromFile(path, shape) => expect_cord(rt, sources.from_file(alloc, path), path, shape),
        Put(range) => put_part(rt, alloc, sources, *range, sink),
        Taken(bytes) => {
            assert!(rt; bytes.starts_with(sink.bytes()));
            assert!(rt; sink.bytes().len() == bytes.len());
        }
        Failures(count) => expect_case(rt, sources.failures() == *count, "failures", *count),
    }
}

// What is put by a table over files that is asked so. Closed, the files have failed as often as the table.
fn answered<F: Files + Drop>(rt: &impl Abort, alloc: Global, files: F, asks: &[Ask]) -> MemSink {
    let mut sources = table(rt, alloc, files);
    let mut sink = MemSink::new(alloc);
    for ask in asks {
        expect_ask(rt, alloc, &mut sources, &mut sink, ask);
    }
    let failures = sources.failures();
    let files = sources.close();
    assert!(rt; files.failures() == failures);
    sink
}

// What is asked of tables over the file "p" of `hello`, the only one: it is added twice.
const HELLO: &[&[Ask]] = &[
    &[
        Len(2, None),
        Open("p", Ok((SourceId(2), 5))),
        Open("p", Ok((SourceId(2), 5))),
        Len(2, Some(5)),
        Len(3, None),
        Open("q", Err(FileError::NoFile)),
        Failures(0),
    ],
    &[
        Eager("p", Shape::Leaf(b"hello", 0, 5)),
        Lazy("p", Shape::Func(2, 0, 5)),
        FromFile("p", Shape::Leaf(b"hello", 0, 5)),
        Failures(0),
    ],
    &[Put(("p", 0, 5)), Taken(b"hello"), Failures(0)],
];

#[test]
fn sources_open(rt: HostRuntime) {
    let alloc = rt.alloc();
    for asks in HELLO {
        let files = two_files(&rt, alloc, [("p", b"hello".as_slice()); 2]);
        drop(answered(&rt, alloc, files, asks));
    }
}

// 65 files in memory of one byte each, at the paths "0" to "64".
fn numbered_files(rt: &impl Abort, alloc: Global) -> MemFiles {
    let mut files = MemFiles::new(alloc);
    for i in 0..65u8 {
        let path = format!(in alloc; "{i}").expect(rt, "memory");
        assert!(rt; files.add(alloc, &path, b"x") == Ok(()));
    }
    files
}

#[test]
fn sixty_five_paths(rt: HostRuntime) {
    let alloc = rt.alloc();
    let mut sources = table(&rt, alloc, numbered_files(&rt, alloc));
    for i in 0..64u8 {
        let path = format!(in alloc; "{i}").expect(&rt, "memory");
        let id = SourceId(u32::from(i) + 2);
        expect_open(&rt, alloc, &mut sources, &path, &Ok((id, 1)));
    }
    let too_many = Err(FileError::TooManyFiles);
    expect_open(&rt, alloc, &mut sources, "64", &too_many);
    expect_open(&rt, alloc, &mut sources, "none", &too_many);
    expect_open(&rt, alloc, &mut sources, "63", &Ok((SourceId(65), 1)));
    assert!(rt; sources.failures() == 0);
}
