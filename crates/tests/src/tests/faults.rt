// The texts of errors, faults and refusals, and the errors that faults become.
use cord_io::{CordError, ReadFault, WriteFault};
use cord_meaning::FaultKind;
use cord_script::RefusalKind;
use std::alloc::AllocError;

const FAULTS: &[(FaultKind, &str)] = &[
    (FaultKind::Negative, "negative number"),
    (FaultKind::BadByte, "byte out of range"),
    (FaultKind::OutOfRange, "index out of range"),
    (FaultKind::NoFile, "no such file"),
    (FaultKind::TooLong, "too long"),
    (FaultKind::Overflow, "overflow"),
    (FaultKind::TooManyTurns, "too many turns"),
];

const REFUSALS: &[(RefusalKind, u8, &str)] = &[
    (RefusalKind::NoMemory, 16, "no memory"),
    (RefusalKind::WrongCount, 5, "wrong number of words"),
    (RefusalKind::ElseAlone, 17, "else without if"),
    (RefusalKind::MissingIfEnd, 18, "if without end"),
];

#[test]
fn errors_say_what_they_are(rt: HostRuntime) {
    let errors = [
        (
            CordError::NoMemory,
            CordError::from(AllocError),
            "no memory",
        ),
        (CordError::TooLong, CordError::TooLong, "too long"),
        (
            CordError::ReadFailed,
            CordError::from(ReadFault),
            "read failed",
        ),
        (
            CordError::WriteFailed,
            CordError::from(WriteFault),
            "write failed",
        ),
    ];
    for (error, made, text) in errors {
        assert!(rt; error == made, "{made} is not {error}");
        let shown = error.to_string(rt.alloc()).expect(&rt, "no memory");
        assert!(rt; shown.as_str() == text);
    }
}

#[test]
fn kinds_have_codes_and_texts(rt: HostRuntime) {
    for &(kind, text) in FAULTS {
        assert!(rt; kind.text() == text, "{text}");
    }
    for &(kind, code, text) in REFUSALS {
        assert!(rt; kind.code() == code && kind.text() == text, "{text}");
    }
}
