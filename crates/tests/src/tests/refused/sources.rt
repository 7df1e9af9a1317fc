//! Tables of files: made, paths opened, and files read.
use super::super::cases::expect_equal;
use super::super::trees::{Shape, expect_text, is_cord, pattern};
use super::files::{holds, two_files};
use cord_core::Cord;
use cord_file::{FileError, Sources};
use cord_io::{CordError, Files, MemFiles, MemSink, Sink, Source, SourceId};
use cord_iter::put;
use std::alloc::Global;
use std::process::Abort;

const TWO: [(&str, &[u8]); 2] = [("p", b"hello"), ("q", b"other")];

/// A table over files.
pub fn table<F: Files + Drop>(rt: &impl Abort, alloc: Global, files: F) -> Sources<F> {
    match Sources::new(alloc, files) {
        Ok(sources) => sources,
        Err((_, files)) => match Sources::new(alloc, files) {
            Ok(sources) => sources,
            Err(_) => panic!(rt; "refused twice"),
        },
    }
}

// A table over the two files in which "q" is open, as source 2.
fn table_of_two(rt: &impl Abort, alloc: Global) -> Sources<MemFiles> {
    let mut sources = table(rt, alloc, two_files(rt, alloc, TWO));
    let opened = again!(rt, sources.open(alloc, "q"));
    assert!(rt; opened == (SourceId(2), 5));
    sources
}

// Whether a source is a file of these five bytes.
fn reads(sources: &mut Sources<MemFiles>, id: u32, bytes: &[u8]) -> bool {
    let Some(5) = sources.entry_len(SourceId(id)) else {
        return false;
    };
    let mut out = [0u8; 5];
    sources.read(SourceId(id), 0, &mut out).is_ok() && out.as_slice() == bytes
}

// Whether the sources from 2 on are files of these five bytes, and none follows.
fn are(sources: &mut Sources<MemFiles>, files: &[&[u8]]) -> bool {
    let mut id = 2;
    for bytes in files {
        if !reads(sources, id, bytes) {
            return false;
        }
        id = id.saturating_add(1);
    }
    sources.entry_len(SourceId(id)).is_none() && sources.failures() == 0
}

// The sources where "q" is open, and where "p" is, too.
const ONE_OPEN: &[&[u8]] = &[b"other"];

const BOTH_OPEN: &[&[u8]] = &[b"other", b"hello"];

// Makes a table over the two files, which come back where that is refused.
#[test]
fn refused_new(rt: HostRuntime) {
    let alloc = rt.alloc();
    let mut sources = match Sources::new(alloc, two_files(&rt, alloc, TWO)) {
        Ok(sources) => sources,
        Err((error, mut files)) => {
            assert!(rt; error == CordError::NoMemory);
            assert!(rt; holds(&mut files, "p", Some(b"hello")));
            assert!(rt; holds(&mut files, "q", Some(b"other")));
            table(&rt, alloc, files)
        }
    };
    assert!(rt; sources.entry_len(SourceId(2)).is_none());
    let opened = again!(&rt, sources.open(alloc, "p"));
    assert!(rt; opened == (SourceId(2), 5));
    assert!(rt; reads(&mut sources, 2, b"hello"));
}

#[test]
fn refused_open(rt: HostRuntime) {
    let alloc = rt.alloc();
    let mut sources = table_of_two(&rt, alloc);
    let opened = match sources.open(alloc, "p") {
        Ok(opened) => opened,
        Err(error) => {
            assert!(rt; error == FileError::NoMemory);
            assert!(rt; are(&mut sources, ONE_OPEN), "a source has changed");
            sources.open(alloc, "p").expect(&rt, "memory")
        }
    };
    assert!(rt; opened == (SourceId(3), 5));
    assert!(rt; are(&mut sources, BOTH_OPEN));
}

// Ways to the cord of a file.
#[derive(Clone, Copy)]
enum Way {
    Eager,
    Lazy,
    FromFile,
}

// The cord of "p".
fn cord_by(alloc: Global, sources: &mut Sources<MemFiles>, way: Way) -> Result<Cord, FileError> {
    match way {
        Way::Eager => sources.eager(alloc, "p"),
        Way::Lazy => sources.lazy(alloc, "p"),
        Way::FromFile => sources.from_file(alloc, "p"),
    }
}

// Where the cord was refused when out of memory, "p" is open or not.
#[test]
fn refused_cords_of_a_file(rt: HostRuntime) {
    let alloc = rt.alloc();
    for way in [Way::Eager, Way::Lazy, Way::FromFile] {
        let mut sources = table_of_two(&rt, alloc);
        let cord = match cord_by(alloc, &mut sources, way) {
            Ok(cord) => cord,
            Err(error) => {
                assert!(rt; error == FileError::NoMemory, "another error");
                let is_known = are(&mut sources, ONE_OPEN) || are(&mut sources, BOTH_OPEN);
                assert!(rt; is_known, "another source");
                cord_by(alloc, &mut sources, way).expect(&rt, "memory")
            }
        };
        match way {
            Way::Lazy => assert!(rt; is_cord(&cord, &Shape::Func(3, 0, 5))),
            _ => expect_text(&rt, &cord, b"hello"),
        }
        assert!(rt; are(&mut sources, BOTH_OPEN));
    }
}

// Puts the file "f", of which a read keeps each block for which it finds memory.
fn put_file(
    alloc: Global,
    sources: &mut Sources<MemFiles>,
    sink: &mut MemSink,
) -> Result<(), FileError> {
    let cord = sources.lazy(alloc, "f")?;
    put(&cord, sources, sink)?;
    Ok(())
}

// Puts the file "f" of these bytes. No read is refused: where there was no memory for its cord nothing is put, and a
// sink that found none has taken a prefix; another sink then takes all.
fn expect_put(rt: &impl Abort, alloc: Global, sources: &mut Sources<MemFiles>, bytes: &[u8]) {
    let mut sink = MemSink::new(alloc);
    if let Err(error) = put_file(alloc, sources, &mut sink) {
        let is_unmade = error == FileError::NoMemory && sink.bytes().is_empty();
        assert!(rt; is_unmade || sink.failures() == 1);
        assert!(rt; bytes.starts_with(sink.bytes()));
        sink = MemSink::new(alloc);
        assert!(rt; put_file(alloc, sources, &mut sink) == Ok(()));
    }
    expect_equal(rt, sink.bytes(), bytes);
    assert!(rt; sources.failures() == 0);
}

#[test]
fn refused_blocks(rt: HostRuntime) {
    let alloc = rt.alloc();
    let bytes = pattern(&rt, alloc, 1_500);
    let files = two_files(&rt, alloc, [("f", &bytes), ("q", b"other")]);
    let mut sources = table(&rt, alloc, files);
    expect_put(&rt, alloc, &mut sources, &bytes);
    expect_put(&rt, alloc, &mut sources, &bytes);
}
