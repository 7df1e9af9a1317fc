// What all cases share.
use std::process::Abort;

// That something holds of a case, which is reported by its name and a number. Calls of this take a fraction of the
// proof that a message of their own would take.
pub(super) fn expect_case(rt: &impl Abort, holds: bool, name: &str, number: u64) {
    assert!(rt; holds, "{name}: {number}");
}

// That bytes are these, which are reported where they are not.
pub(super) fn expect_equal(rt: &impl Abort, bytes: &[u8], wanted: &[u8]) {
    assert!(rt; bytes == wanted, "the bytes are not {wanted:?}");
}
