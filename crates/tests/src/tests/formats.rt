// Cases of worked examples, and a table of what C's printf writes.
use super::cases::expect_case;
use super::trees::{cord_of, expect_text, run_of};
use cord_io::MAX_LEN;
use cord_printf::{Arg, Format, FormatError, PrintError, sprintf, sprintf_len};
use std::alloc::Global;
use std::process::Abort;

// An argument of a case: a number, a cord of these bytes, or a run of the longest length.
#[derive(Clone, Copy)]
pub(super) enum Argument {
    Num(i64),
    Text(&'static [u8]),
    Longest,
}

use Argument::{Longest, Num, Text};

// A format, its arguments, and the text that it prints of them, or why it is refused.
type Print<'a> = (&'a str, &'a [Argument], Result<&'a [u8], PrintError>);

// A conversion of a number, the number, and what C's printf writes of it; the conversions are those of its `long long`.
type Number = (&'static str, i64, &'static [u8]);

// Decimals with flags and widths.
const DECIMALS: &[Number] = &[
    ("%d", 0, b"0"),
    ("%d", 7, b"7"),
    ("%d", -7, b"-7"),
    ("%i", 42, b"42"),
    ("%i", -42, b"-42"),
    ("%ld", 2147483648, b"2147483648"),
    ("%lld", i64::MAX, b"9223372036854775807"),
    ("%d", i64::MIN, b"-9223372036854775808"),
    ("%+d", 0, b"+0"),
    ("%+d", 5, b"+5"),
    ("%+d", -5, b"-5"),
    ("%5d", 42, b"   42"),
    ("%5d", -42, b"  -42"),
    ("%-5d", 42, b"42   "),
    ("%-5d", -42, b"-42  "),
    ("%05d", 42, b"00042"),
    ("%05d", -42, b"-0042"),
    ("%+5d", 7, b"   +7"),
    ("%-+5d", 7, b"+7   "),
    ("%0-5d", -7, b"-7   "),
    ("%++05d", 7, b"+0007"),
    ("%1d", 12345, b"12345"),
    ("%020d", i64::MIN, b"-9223372036854775808"),
    ("%30d", i64::MIN, b"          -9223372036854775808"),
];

// Decimals with a precision.
const PRECISE: &[Number] = &[
    ("%.0d", 0, b""),
    ("%.0d", 1, b"1"),
    ("%.d", 0, b""),
    ("%.1d", 0, b"0"),
    ("%.3d", 7, b"007"),
    ("%.3d", 12345, b"12345"),
    ("%5.3d", 7, b"  007"),
    ("%-5.3d", -7, b"-007 "),
    ("%+.0d", 0, b"+"),
    ("%5.0d", 0, b"     "),
    ("%08.5d", -123, b"  -00123"),
    ("%+08.5d", 123, b"  +00123"),
    ("%-8.5d", 123, b"00123   "),
    ("%.25d", -1, b"-0000000000000000000000001"),
];

// Decimals without a sign.
const UNSIGNED: &[Number] = &[
    ("%u", 0, b"0"),
    ("%u", 3000000000, b"3000000000"),
    ("%llu", i64::MAX, b"9223372036854775807"),
    ("%8u", 77, b"      77"),
    ("%-8u", 77, b"77      "),
    ("%08u", 77, b"00000077"),
    ("%.0u", 0, b""),
    ("%.4u", 77, b"0077"),
    ("%6.4u", 77, b"  0077"),
];

// Octals.
const OCTALS: &[Number] = &[
    ("%o", 0, b"0"),
    ("%o", 8, b"10"),
    ("%o", i64::MAX, b"777777777777777777777"),
    ("%.0o", 0, b""),
    ("%06o", 511, b"000777"),
    ("%-6o", 511, b"777   "),
    ("%.6o", 511, b"000777"),
    ("%024o", 1, b"000000000000000000000001"),
];

// Hexadecimals.
const HEXADECIMALS: &[Number] = &[
    ("%x", 0, b"0"),
    ("%x", 255, b"ff"),
    ("%X", 255, b"FF"),
    ("%x", 48879, b"beef"),
    ("%X", 48879, b"BEEF"),
    ("%x", i64::MAX, b"7fffffffffffffff"),
    ("%lX", 3735928559, b"DEADBEEF"),
    ("%08x", 255, b"000000ff"),
    ("%-8X", 171, b"AB      "),
    ("%.0x", 0, b""),
    ("%.4x", 10, b"000a"),
    ("%8.4X", 10, b"    000A"),
    ("%08.4x", 10, b"    000a"),
    ("%12.0x", 0, b"            "),
    ("%-012x", 4096, b"1000        "),
];

// Bytes.
const BYTES: &[Number] = &[("%c", 65, b"A"), ("%-5c", 65, b"A    "), ("%-c", 97, b"a")];

// What C's printf writes of a text.
const TEXTS: &[(&str, &[u8], &[u8])] = &[
    ("%s", b"hello", b"hello"),
    ("%s", b"", b""),
    ("%8s", b"hello", b"   hello"),
    ("%-8s", b"hello", b"hello   "),
    ("%.2s", b"hello", b"he"),
    ("%5.2s", b"hello", b"   he"),
    ("%-5.2s", b"hello", b"he   "),
    ("%.0s", b"hello", b""),
    ("%.s", b"hello", b""),
    ("%.9s", b"hello", b"hello"),
    ("%3s", b"hello", b"hello"),
    ("%12.5s", b"hello", b"       hello"),
    ("%-12.12s", b"hello", b"hello       "),
];

// Of these the first reason counts for which a print is refused.
const WRONG: &[Argument] = &[Longest, Num(-1), Num(300)];

// Prints of several arguments, and those that are refused.
const PRINTS: &[Print] = &[
    // format_calls
    ("%5d", &[Num(7)], Ok(b"    7")),
    // sprintf_pads
    (
        "%5.2r|%-4d|%05d|%.0d|%%",
        &[Text(b"hello"), Num(7), Num(-7), Num(0)],
        Ok(b"   he|7   |-0007||%"),
    ),
    // sprintf_numbers
    (
        "%08x|%+d|%o|%X|%c",
        &[Num(255), Num(5), Num(8), Num(255), Num(65)],
        Ok(b"000000ff|+5|10|FF|A"),
    ),
    ("%c", &[Num(256)], Err(PrintError::BadByte(0))),
    ("%c", &[Num(-1)], Err(PrintError::BadByte(0))),
    // format_calls
    ("%5d", &[], Err(PrintError::WrongArgs)),
    (
        "%d%u%c",
        &[Num(1), Num(-1), Num(300)],
        Err(PrintError::Negative(1)),
    ),
    // sprintf_negative_hex
    ("%x", &[Num(-1)], Err(PrintError::Negative(0))),
    // sprintf_too_long
    ("%s!", &[Longest], Err(PrintError::TooLong)),
    ("!%s%u%c", WRONG, Err(PrintError::Negative(1))),
    ("!%s%d%c", WRONG, Err(PrintError::BadByte(2))),
    ("!%s%d%d", WRONG, Err(PrintError::TooLong)),
    ("!%s%u", WRONG, Err(PrintError::WrongArgs)),
    ("!%s%u%s", WRONG, Err(PrintError::WrongArgs)),
    ("%d%u%c", WRONG, Err(PrintError::WrongArgs)),
    ("!", WRONG, Err(PrintError::WrongArgs)),
];

// The cases of formats with a number.
const FORMAT_CASES: &[Number] = &[
    ("%+05d", 7, b"+0007"),
    ("%-05d", 7, b"7    "),
    ("%05.3d", 7, b"  007"),
    ("%.3d", -5, b"-005"),
    ("%5c", 65, b"    A"),
    ("%lu", 3, b"3"),
];

// The cases of numbers.
const NUMBERS: &[&[Number]] = &[
    DECIMALS,
    PRECISE,
    UNSIGNED,
    OCTALS,
    HEXADECIMALS,
    BYTES,
    FORMAT_CASES,
];

// A text, and the place from which on it is no format.
type BadText = (&'static str, usize);

const BAD_FORMATS: &[BadText] = &[
    ("%05s", 0),
    ("%+u", 0),
    ("%.1c", 0),
    ("%lc", 0),
    ("%5%", 0),
    ("%", 0),
    ("%10000d", 0),
    ("a%q", 1),
    ("%lld%llld", 4),
    ("100%", 3),
    ("%%%%%", 4),
    ("%.10000d", 0),
    ("ab%-+ d", 2),
    ("%*d", 0),
    ("%#x", 0),
    ("%hd", 0),
    ("%f", 0),
    ("%d%s%n", 4),
    ("%ls", 0),
    ("%-%", 0),
    ("%0c", 0),
    ("%+o", 0),
    ("%5.l", 0),
];

// What the arguments are.
pub(super) fn args_of(rt: &impl Abort, alloc: Global, arguments: &[Argument]) -> Vec<Arg> {
    let mut args = again!(rt, Vec::with_capacity(alloc, arguments.len()));
    for it in arguments {
        let arg = match it {
            Num(number) => Arg::Num(*number),
            Text(bytes) => Arg::Cord(cord_of(rt, alloc, bytes)),
            Longest => Arg::Cord(run_of(rt, alloc, 65, MAX_LEN)),
        };
        args.push(arg).expect(rt, "room");
    }
    args
}

// Prints, and takes the length of the print alone.
fn expect_print(rt: &impl Abort, alloc: Global, (format, arguments, wanted): Print) {
    let parsed = Format::parse(alloc, format.as_bytes()).expect(rt, "no format");
    let args = args_of(rt, alloc, arguments);
    let length = match wanted {
        Ok(text) => Ok(text.len() as u64),
        Err(error) => Err(error),
    };
    expect_case(rt, sprintf_len(&parsed, &args) == length, format, 0);
    match (sprintf(alloc, &parsed, &args), wanted) {
        (Ok(cord), Ok(text)) => expect_text(rt, &cord, text),
        (Err(error), Err(wanted)) => expect_case(rt, error == wanted, format, 1),
        _ => expect_case(rt, false, format, 2),
    }
}

#[test]
fn prints_are_as_in_c(rt: HostRuntime) {
    for numbers in NUMBERS {
        for &(format, number, want) in *numbers {
            expect_print(&rt, rt.alloc(), (format, &[Num(number)], Ok(want)));
        }
    }
    for &(format, text, want) in TEXTS {
        expect_print(&rt, rt.alloc(), (format, &[Text(text)], Ok(want)));
    }
}

#[test]
fn prints_and_refusals(rt: HostRuntime) {
    for print in PRINTS {
        expect_print(&rt, rt.alloc(), *print);
    }
    for &(format, place) in BAD_FORMATS {
        let error = Format::parse(rt.alloc(), format.as_bytes()).err();
        let is_there = error == Some(FormatError::BadFormat(place));
        expect_case(&rt, is_there, format, place as u64);
    }
}
