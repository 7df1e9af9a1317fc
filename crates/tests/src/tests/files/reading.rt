// Cases of worked examples in which files are read by blocks.
ghost use Rattle.std.specs.Prelude.{◌≡◌, ◌+◌, ◌≤◌};
ghost use Rattle.cord_io.specs.Table.{Lengths, length_at};
ghost use Rattle.cord_core.specs.Cord.{CordFitsIn};

use super::super::refused::files::two_files;
use super::super::refused::sources::table;
use super::super::trees::{Shape, pattern};
use super::Ask::{self, Eager, Failures, Put};
use super::{answered, expect_open};
use cord_core::Cord;
use cord_file::Sources;
use cord_io::{Files, FuseFiles, MemFiles, MemSink, Source, SourceId};
use cord_iter::put;
use cord_pos::Position;
use std::alloc::Global;
use std::process::Abort;

// The path of a file, and where bytes of it stand, and how many.
type Range = (&'static str, u64, u64);

// Puts bytes of the file at a path, which is opened but not read before.
pub(super) fn put_part<F: Files>(
    rt: &impl Abort,
    alloc: Global,
    sources: &mut Sources<F>,
    (path, start, count): Range,
    sink: &mut MemSink,
) {
    let Ok(cord) = sources.lazy(alloc, path) else {
        panic!(rt; "no cord");
    };
    let Ok(part) = cord.substr(alloc, start, count) else {
        panic!(rt; "no memory");
    };
    assert!(rt; put(&part, sources, sink) == Ok(()));
}

// All of a file of 10,000 bytes, in 20 blocks of which no two are alike.
const LONG: Range = ("f", 0, 10_000);

// A file of 20,000 bytes is read into one leaf between two walks over the long file.
const EAGER_BETWEEN: &[Ask] = &[
    Put(LONG),
    Eager("g", Shape::Leaf(&[103; 20_000], 0, 20_000)),
    Put(LONG),
    Failures(0),
];

// One call reads a file whole, and the kept blocks stay: 21 calls for one file, and 2 for the other.
#[test]
fn eager_is_one_call(rt: HostRuntime) {
    let alloc = rt.alloc();
    let bytes = pattern(&rt, alloc, 10_000);
    let files = two_files(&rt, alloc, [("f", &bytes), ("g", &[103; 20_000])]);
    let sink = answered(&rt, alloc, FuseFiles::new(files, 23), EAGER_BETWEEN);
    assert!(rt; sink.bytes().len() == 20_000);
}

// So many bytes of a source from a place on.
fn range_of(rt: &impl Abort, alloc: Global, id: u32, start: u64, count: u64) -> Cord
    ensures { (lengths : Lengths) → start + count ≤ length_at lengths id → CordFitsIn lengths result }
{
    assert!(rt; start <= 10 && count <= 10);
    let Ok(cord) = Cord::from_fn(alloc, SourceId(id), start, count) else {
        panic!(rt; "no memory");
    };
    cord
}

// Three digits, from place 8 on.
#[test]
fn from_fn_of_digits(rt: HostRuntime) {
    let alloc = rt.alloc();
    let mut sources = table(&rt, alloc, MemFiles::new(alloc));
    let mut sink = MemSink::new(alloc);
    let cord = range_of(&rt, alloc, 0, 8, 3);
    assert!(rt; put(&cord, &mut sources, &mut sink) == Ok(()));
    assert!(rt; sink.bytes() == b"890".as_slice());
}

// That a position has this byte over a table whose source 2 is a file of it.
fn expect_fetched(rt: &impl Abort, alloc: Global, position: &mut Position, byte: u8)
    requires { (lengths : Lengths) → 1 ≤ length_at lengths 2 → CordFitsIn lengths position.old.cord }
    ensures { position.new.cord ≡ position.old.cord }
{
    let files = two_files(rt, alloc, [("f", &[byte]), ("g", b"")]);
    let mut sources = table(rt, alloc, files);
    expect_open(rt, alloc, &mut sources, "f", &Ok((SourceId(2), 1)));
    assert!(rt; position.is_valid());
    let Some(1) = sources.entry_len(SourceId(2)) else {
        panic!(rt; "another source");
    };
    assert!(rt; position.fetch(&mut sources) == Ok(byte));
}

#[test]
fn position_keeps_no_bytes(rt: HostRuntime) {
    let alloc = rt.alloc();
    let cord = range_of(&rt, alloc, 2, 0, 1);
    let mut position = Position::set(&cord, 0);
    expect_fetched(&rt, alloc, &mut position, 97);
    expect_fetched(&rt, alloc, &mut position, 98);
}
