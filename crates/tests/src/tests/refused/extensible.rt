//! Extensible cords: each way that they grow, and the cord of their text.
use super::super::cases::expect_equal;
use super::super::trees::{cord_of, expect_text, pattern};
use super::answers::{expect_no_memory, is_refused};
use cord_ec::ExtCord;
use cord_io::CordError;
use std::alloc::Global;
use std::process::Abort;

fn ext_of(rt: &impl Abort, alloc: Global, text: &[u8]) -> ExtCord {
    let mut ext = match ExtCord::new(alloc) {
        Ok(ext) => ext,
        Err(error) => {
            expect_no_memory(rt, error);
            ExtCord::new(alloc).expect(rt, "memory")
        }
    };
    assert!(rt; ext.len() == 0);
    again!(rt, ext.append_bytes(alloc, text));
    ext
}

// That an extensible cord has this text. Where it isn't read its length alone is compared, and its buffer stays.
fn expect_ext(rt: &impl Abort, alloc: Global, ext: &mut ExtCord, text: &[u8], is_read: bool) {
    assert!(rt; ext.len() == text.len() as u64);
    if is_read {
        expect_text(rt, &again!(rt, ext.to_cord(alloc)), text);
    }
}

// Ways to append bytes: one alone, all at once, and a cord of them.
#[derive(Clone, Copy)]
enum Way {
    Byte,
    Bytes,
    Cord,
}

fn append(
    rt: &impl Abort,
    alloc: Global,
    ext: &mut ExtCord,
    bytes: &[u8],
    way: Way,
) -> Result<(), CordError> {
    match (way, bytes) {
        (Way::Byte, [byte]) => ext.append(alloc, *byte),
        (Way::Cord, _) => {
            let cord = cord_of(rt, alloc, bytes);
            let answer = ext.append_cord(alloc, &cord);
            expect_text(rt, &cord, bytes);
            answer
        }
        _ => ext.append_bytes(alloc, bytes),
    }
}

// Appends what follows the first bytes of a text; where that is refused the text is read before it is tried again, or
// not.
fn expect_grown(
    rt: &impl Abort,
    alloc: Global,
    text: &[u8],
    first: usize,
    way: Way,
    is_read: bool,
) {
    let Some((before, bytes)) = text.split_at_checked(first) else {
        panic!(rt; "too short");
    };
    let mut ext = ext_of(rt, alloc, before);
    if is_refused(rt, append(rt, alloc, &mut ext, bytes, way)) {
        expect_ext(rt, alloc, &mut ext, before, is_read);
        append(rt, alloc, &mut ext, bytes, way).expect(rt, "memory");
    }
    expect_ext(rt, alloc, &mut ext, text, true);
}

// How long the whole text is, how much of it is there before, and how the rest is appended: to few bytes, after a full
// buffer, bytes that fit it, bytes that take leaves of their own, and a cord.
const GROWTH: &[(usize, usize, Way)] = &[
    (1, 0, Way::Byte),
    (3, 1, Way::Bytes),
    (4_097, 4_096, Way::Byte),
    (500, 100, Way::Bytes),
    (10_100, 100, Way::Bytes),
    (5, 3, Way::Cord),
];

#[test]
fn refused_appends(rt: HostRuntime) {
    for &(count, first, way) in GROWTH {
        let text = pattern(&rt, rt.alloc(), count);
        expect_grown(&rt, rt.alloc(), &text, first, way, false);
        expect_grown(&rt, rt.alloc(), &text, first, way, true);
        expect_equal(&rt, &text, &pattern(&rt, rt.alloc(), count));
    }
}

#[test]
fn refused_to_cord(rt: HostRuntime) {
    let mut ext = ext_of(&rt, rt.alloc(), b"abcde");
    for text in [b"abcde".as_slice(), b"abcdef"] {
        let cord = match ext.to_cord(rt.alloc()) {
            Ok(cord) => cord,
            Err(error) => {
                expect_no_memory(&rt, error);
                expect_ext(&rt, rt.alloc(), &mut ext, text, false);
                ext.to_cord(rt.alloc()).expect(&rt, "memory")
            }
        };
        expect_text(&rt, &cord, text);
        again!(&rt, ext.append(rt.alloc(), b'f'));
    }
}
