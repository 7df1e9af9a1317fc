//! Gap buffers: each edit, and the cord of their text.
use super::super::trees::{cord_of, expect_text};
use super::answers::{is_refused, made};
use cord_edit::EditBuffer;
use cord_io::CordError;
use std::alloc::Global;
use std::process::Abort;

// One edit of a text.
#[derive(Clone, Copy)]
enum Edit {
    Insert(u64, &'static [u8]),
    Remove(u64, u64),
    Splice(u64, u64, &'static [u8]),
}

use Edit::{Insert, Remove, Splice};

// That a buffer has this text.
fn expect_buffer(rt: &impl Abort, alloc: Global, buffer: &mut EditBuffer, text: &[u8]) {
    assert!(rt; buffer.len() == text.len() as u64);
    let first = buffer.to_cord(alloc);
    assert!(rt; buffer.len() == text.len() as u64);
    let second = buffer.to_cord(alloc);
    expect_text(rt, &made(rt, first, second), text);
}

fn make_edit(
    rt: &impl Abort,
    alloc: Global,
    buffer: &mut EditBuffer,
    edit: Edit,
) -> Result<(), CordError> {
    match edit {
        Insert(at, bytes) => buffer.insert(alloc, at, bytes),
        Remove(at, count) => buffer.remove(alloc, at, count),
        Splice(at, count, text) => {
            let middle = cord_of(rt, alloc, text);
            let answer = buffer.splice(alloc, at, count, &middle);
            expect_text(rt, &middle, text);
            answer
        }
    }
}

// Edits, each with the text before it, which is there still where the edit is refused, and the text after all.
const EDITS: &[(&[(&[u8], Edit)], &[u8], &[u8])] = &[
    (&[], b"abc", b"abc"),
    (&[(b"", Insert(0, &[7; 10_000]))], b"", &[7; 10_000]),
    (
        &[
            (b"abcdef", Insert(3, b"x")),
            (b"abcxdef", Insert(1, b"y")),
            (b"aybcxdef", Insert(6, b"z")),
        ],
        b"abcdef",
        b"aybcxdzef",
    ),
    (
        &[(b"abcdef", Insert(6, b"xyz")), (b"abcdefxyz", Remove(1, 2))],
        b"abcdef",
        b"adefxyz",
    ),
    (
        &[
            (b"abcdef", Insert(6, b"xyz")),
            (b"abcdefxyz", Splice(1, 2, b"uvw")),
        ],
        b"abcdef",
        b"auvwdefxyz",
    ),
];

#[test]
fn refused_edits_of_a_buffer(rt: HostRuntime) {
    let alloc = rt.alloc();
    for (edits, text, after) in EDITS {
        let cord = cord_of(&rt, alloc, text);
        let mut buffer = again!(&rt, EditBuffer::of(alloc, &cord));
        for (before, each) in *edits {
            if is_refused(&rt, make_edit(&rt, alloc, &mut buffer, *each)) {
                expect_buffer(&rt, alloc, &mut buffer, before);
                make_edit(&rt, alloc, &mut buffer, *each).expect(&rt, "memory");
            }
        }
        expect_buffer(&rt, alloc, &mut buffer, after);
    }
}
