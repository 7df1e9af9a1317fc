//! Raw buffers: what makes and fills them, and their shared slice.
use super::super::cases::expect_equal;
use super::super::trees::pattern;
use cord_raw::RawBuf;
use std::alloc::{AllocError, Global};
use std::process::Abort;

// That a buffer is this list.
fn expect_buffer(rt: &impl Abort, buffer: &RawBuf, bytes: &[u8]) {
    assert!(rt;
        buffer.len() == bytes.len() as u64,
        "the buffer is not {bytes:?}"
    );
    let mut room = [0; 4_096];
    let list = &mut room[..bytes.len()];
    buffer.copy_to(0, list);
    expect_equal(rt, list, bytes);
}

// Adds bytes, for which there is room: one alone by a push.
pub fn add(
    rt: &impl Abort,
    alloc: Global,
    buffer: &mut RawBuf,
    bytes: &[u8],
) -> Result<(), AllocError> {
    assert!(rt; bytes.len() as u64 <= RawBuf::CAP - buffer.len());
    match bytes {
        [byte] => buffer.push(alloc, *byte),
        _ => buffer.extend(alloc, bytes),
    }
}

/// That a buffer is this list, of some bytes, and its shared slice too.
pub fn expect_text(rt: &impl Abort, alloc: Global, buffer: &RawBuf, bytes: &[u8]) {
    expect_buffer(rt, buffer, bytes);
    assert!(rt; buffer.len() > 0);
    let shared = match buffer.to_shared(alloc) {
        Ok(shared) => shared,
        Err(_) => {
            expect_buffer(rt, buffer, bytes);
            buffer.to_shared(alloc).expect(rt, "memory")
        }
    };
    expect_equal(rt, shared.as_slice(), bytes);
}

// Fills a buffer with so many bytes of the pattern each time, takes its shared slice, and empties it.
fn expect_calls(rt: &impl Abort, alloc: Global, counts: &[usize], sum: usize) {
    let text = pattern(rt, alloc, sum);
    let mut buffer = again!(rt, RawBuf::new(alloc));
    let mut at = 0;
    for count in counts {
        assert!(rt; at <= text.len() && *count <= text.len() - at);
        let bytes = &text[at..at + *count];
        if add(rt, alloc, &mut buffer, bytes).is_err() {
            expect_buffer(rt, &buffer, &text[..at]);
            add(rt, alloc, &mut buffer, bytes).expect(rt, "memory");
        }
        at = at.saturating_add(*count);
    }
    expect_text(rt, alloc, &buffer, &text);
    buffer.clear();
    assert!(rt; buffer.len() == 0);
}

// How many bytes are added, one time after another, and their sum: some; one after a full block; 28 that fill the first
// block and 372 more that take three; and three blocks at once.
const COUNTS: &[(&[usize], usize)] = &[
    (&[1, 2], 3),
    (&[128, 1], 129),
    (&[100, 400], 500),
    (&[300], 300),
];

#[test]
fn refused_raw_buf_calls(rt: HostRuntime) {
    for &(counts, sum) in COUNTS {
        expect_calls(&rt, rt.alloc(), counts, sum);
    }
}
