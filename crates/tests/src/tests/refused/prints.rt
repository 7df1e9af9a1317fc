//! Formats and prints.
use super::super::formats::Argument::{self, Num, Text};
use super::super::formats::args_of;
use super::super::trees::{expect_text, is};
use cord_printf::{Arg, Format, FormatError, PrintError, sprintf, sprintf_len};
use std::alloc::Global;
use std::process::Abort;

// Whether an argument is what was given.
fn is_given(arg: &Arg, given: &Argument) -> bool {
    match (arg, given) {
        (Arg::Cord(cord), Text(text)) => is(cord, text),
        (Arg::Num(number), Num(same)) => number == same,
        _ => false,
    }
}

// The format of these bytes.
fn parsed(rt: &impl Abort, alloc: Global, bytes: &[u8]) -> Format {
    match Format::parse(alloc, bytes) {
        Ok(format) => format,
        Err(error) => {
            assert!(rt; error == FormatError::NoMemory, "another error");
            Format::parse(alloc, bytes).expect(rt, "memory")
        }
    }
}

// That a format prints a text of arguments, of which it has its length, and they are what they were.
fn expect_print(rt: &impl Abort, alloc: Global, format: &Format, given: &[Argument], text: &[u8]) {
    let args = args_of(rt, alloc, given);
    let first = sprintf(alloc, format, &args);
    assert!(rt; sprintf_len(format, &args) == Ok(text.len() as u64));
    let cord = match first {
        Ok(cord) => cord,
        Err(error) => {
            assert!(rt; error == PrintError::NoMemory, "another error");
            sprintf(alloc, format, &args).expect(rt, "memory")
        }
    };
    expect_text(rt, &cord, text);
    for (arg, argument) in args.iter().zip(given) {
        assert!(rt; is_given(arg, argument));
    }
}

const FORMATS: &[(&str, &[Argument], &str)] = &[
    ("%5d", &[Num(7)], "    7"),
    ("%+05d", &[Num(7)], "+0007"),
    ("%-05d", &[Num(7)], "7    "),
    ("%05.3d", &[Num(7)], "  007"),
    ("%.3d", &[Num(-5)], "-005"),
    ("%5c", &[Num(65)], "    A"),
    ("%lu", &[Num(3)], "3"),
    (
        "%5.2r|%-4d|%05d|%.0d|%%",
        &[Text(b"hello"), Num(7), Num(-7), Num(0)],
        "   he|7   |-0007||%",
    ),
    // 300 bytes of the format, a cord of 300, and 298 zeros: each by itself more than are gathered.
    (
        "aaaaaaaaaaaaaaaaaaaaaaaaaaaaaaaaaaaaaaaaaaaaaaaaaaaaaaaaaaaaaaaaaaaaaaaaaaaaaaaaaaaaaaaaaaaaaaa\
            aaaaaaaaaaaaaaaaaaaaaaaaaaaaaaaaaaaaaaaaaaaaaaaaaaaaaaaaaaaaaaaaaaaaaaaaaaaaaaaaaaaaaaaaaaaaaaa\
            aaaaaaaaaaaaaaaaaaaaaaaaaaaaaaaaaaaaaaaaaaaaaaaaaaaaaaaaaaaaaaaaaaaaaaaaaaaaaaaaaaaaaaaaaaaaaaa\
            aaaaaaaaaaaaaaa%05d%s%0300d|",
        &[Num(42), Text(&[b'b'; 300]), Num(-7)],
        "aaaaaaaaaaaaaaaaaaaaaaaaaaaaaaaaaaaaaaaaaaaaaaaaaaaaaaaaaaaaaaaaaaaaaaaaaaaaaaaaaaaaaaaaaaaaaaa\
            aaaaaaaaaaaaaaaaaaaaaaaaaaaaaaaaaaaaaaaaaaaaaaaaaaaaaaaaaaaaaaaaaaaaaaaaaaaaaaaaaaaaaaaaaaaaaaa\
            aaaaaaaaaaaaaaaaaaaaaaaaaaaaaaaaaaaaaaaaaaaaaaaaaaaaaaaaaaaaaaaaaaaaaaaaaaaaaaaaaaaaaaaaaaaaaaa\
            aaaaaaaaaaaaaaa00042bbbbbbbbbbbbbbbbbbbbbbbbbbbbbbbbbbbbbbbbbbbbbbbbbbbbbbbbbbbbbbbbbbbbbbbbbbb\
            bbbbbbbbbbbbbbbbbbbbbbbbbbbbbbbbbbbbbbbbbbbbbbbbbbbbbbbbbbbbbbbbbbbbbbbbbbbbbbbbbbbbbbbbbbbbbbb\
            bbbbbbbbbbbbbbbbbbbbbbbbbbbbbbbbbbbbbbbbbbbbbbbbbbbbbbbbbbbbbbbbbbbbbbbbbbbbbbbbbbbbbbbbbbbbbbb\
            bbbbbbbbbbbbbbbbbbbbbbbbbbbbbbbbbbb-00000000000000000000000000000000000000000000000000000000000\
            00000000000000000000000000000000000000000000000000000000000000000000000000000000000000000000000\
            00000000000000000000000000000000000000000000000000000000000000000000000000000000000000000000000\
            00000000000000000000000000000000000000000000000007|",
    ),
];

#[test]
fn refused_sprintf(rt: HostRuntime) {
    for (format, given, text) in FORMATS {
        let format = parsed(&rt, rt.alloc(), format.as_bytes());
        expect_print(&rt, rt.alloc(), &format, given, text.as_bytes());
    }
}

// A copy of a format prints what the format does.
#[test]
fn refused_formats(rt: HostRuntime) {
    let format = parsed(&rt, rt.alloc(), b"ab%5d%%c");
    let copy = again!(&rt, format.clone());
    for each in [&format, &copy] {
        expect_print(&rt, rt.alloc(), each, &[Num(7)], b"ab    7%c");
    }
}
