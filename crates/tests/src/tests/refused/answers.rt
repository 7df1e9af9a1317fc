//! Answers of calls that may be refused memory.
use cord_core::Cord;
use cord_io::CordError;
use std::process::Abort;

/// The cord that one of two equal calls made: at most one of them was refused, and that when out of memory.
pub fn made(
    rt: &impl Abort,
    first: Result<Cord, CordError>,
    second: Result<Cord, CordError>,
) -> Cord {
    match first {
        Ok(cord) => cord,
        Err(error) => {
            expect_no_memory(rt, error);
            second.expect(rt, "memory")
        }
    }
}

/// Whether a call was refused, which it was only when out of memory.
pub fn is_refused(rt: &impl Abort, answer: Result<(), CordError>) -> bool {
    match answer {
        Ok(()) => false,
        Err(error) => {
            expect_no_memory(rt, error);
            true
        }
    }
}

/// That a call was refused when out of memory.
pub fn expect_no_memory(rt: &impl Abort, error: CordError) {
    assert!(rt; error == CordError::NoMemory, "another error");
}
