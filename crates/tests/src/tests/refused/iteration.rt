//! Texts of cords.
use super::super::cases::expect_equal;
use super::super::trees::expect_text;
use super::answers::expect_no_memory;
use super::sources::table;
use cord_core::Cord;
use cord_io::{MemFiles, Source};
use cord_iter::to_vec;

#[test]
fn refused_to_vec(rt: HostRuntime) {
    let alloc = rt.alloc();
    let mut sources = table(&rt, alloc, MemFiles::new(alloc));
    let cord = again!(&rt, Cord::from_bytes(alloc, b"abccd"));
    let text = match to_vec(alloc, &cord, &mut sources) {
        Ok(text) => text,
        Err(error) => {
            expect_no_memory(&rt, error);
            expect_text(&rt, &cord, b"abccd");
            assert!(rt; sources.failures() == 0);
            to_vec(alloc, &cord, &mut sources).expect(&rt, "memory")
        }
    };
    expect_equal(&rt, &text, b"abccd");
}
