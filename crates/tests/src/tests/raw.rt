// Worked values, each call once with ample memory.
use super::cases::expect_case;
use super::refused::raw::{add, expect_text};
use super::trees::pattern;
use cord_raw::RawBuf;
use std::alloc::Global;
use std::process::Abort;
use std::rt::HostRuntime;

// That the text stands there from `start` on.
fn expect_at(rt: &impl Abort, alloc: Global, buffer: &RawBuf, start: u64, text: &[u8]) {
    let mut range = Vec::from_elem(alloc, 0, text.len()).expect(rt, "no memory");
    assert!(rt; start <= buffer.len() && range.len() as u64 <= buffer.len() - start);
    buffer.copy_to(start, &mut range);
    expect_case(rt, range.as_slice() == text, "from", start);
}

#[test]
fn raw_buf_calls(rt: HostRuntime) {
    let alloc = rt.alloc();
    let mut buffer = RawBuf::new(alloc).expect(&rt, "no memory");
    assert!(rt; buffer.len() == 0);
    buffer.push(alloc, 97).expect(&rt, "no memory");
    add(&rt, alloc, &mut buffer, b"bc").expect(&rt, "no memory");
    assert!(rt; buffer.len() == 3);
    expect_at(&rt, alloc, &buffer, 1, b"bc");
    expect_text(&rt, alloc, &buffer, b"abc");
    buffer.clear();
    assert!(rt; buffer.len() == 0);
}

#[test]
fn raw_buf_full_chain(rt: HostRuntime) {
    let alloc = rt.alloc();
    let text = pattern(&rt, alloc, RawBuf::CAP as usize);
    let mut buffer = RawBuf::new(alloc).expect(&rt, "no memory");
    for run in text.chunks(100) {
        add(&rt, alloc, &mut buffer, run).expect(&rt, "no memory");
    }
    assert!(rt; buffer.len() == 4_096);
    expect_text(&rt, alloc, &buffer, &text);
    expect_at(&rt, alloc, &buffer, 127, &[127, 128]);
}
