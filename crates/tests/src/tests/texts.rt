// Worked examples of texts. What makes texts and looks at them promises nothing, so that tests have little to prove.
use super::cases::expect_equal;
use cord::{Format, Text, TextArg, TextBuilder, TextEditor};
use std::alloc::{AllocError, Global};
use std::fmt::Debug;
use std::io::Read;
use std::process::Abort;

// A text of these bytes.
pub(super) fn text_of(rt: &impl Abort, alloc: Global, bytes: &[u8]) -> Text {
    again!(rt, crate::text_of(alloc, bytes))
}

// The text of most tests, of two that are joined.
fn hello(rt: &impl Abort, alloc: Global) -> Text {
    let left = text_of(rt, alloc, b"hello");
    let right = Text::from_str(alloc, " world").expect(rt, "no memory");
    Text::cat(alloc, &left, &right).expect(rt, "no memory")
}

fn expect_bytes(rt: &impl Abort, alloc: Global, text: &Text, wanted: &[u8]) {
    let bytes = text.to_vec(alloc).expect(rt, "no memory");
    expect_equal(rt, &bytes, wanted);
}

fn expect_made<E: Debug>(rt: &impl Abort, alloc: Global, made: Result<Text, E>, wanted: &[u8]) {
    expect_bytes(rt, alloc, &made.expect(rt, "no memory"), wanted);
}

// A text of so many times a byte.
fn run_of(rt: &impl Abort, alloc: Global, byte: u8, count: u64) -> Text {
    Text::repeat(alloc, byte, count).expect(rt, "no memory")
}

// What edits at a place make of "hello world", with ", new" as the new text.
struct Edit {
    start: u64,
    count: u64,
    part: &'static [u8],
    inserted: &'static [u8],
    removed: &'static [u8],
    replaced: &'static [u8],
}

const EDITS: [Edit; 3] = [
    Edit {
        start: 5,
        count: 3,
        part: b" wo",
        inserted: b"hello, new world",
        removed: b"hellorld",
        replaced: b"hello, newrld",
    },
    Edit {
        start: 6,
        count: u64::MAX,
        part: b"world",
        inserted: b"hello , newworld",
        removed: b"hello ",
        replaced: b"hello , new",
    },
    Edit {
        start: 12,
        count: 1,
        part: b"",
        inserted: b"hello world, new",
        removed: b"hello world",
        replaced: b"hello world, new",
    },
];

#[test]
fn edits_leave_the_old_text(rt: HostRuntime) {
    let alloc = rt.alloc();
    let text = hello(&rt, alloc);
    let new = text_of(&rt, alloc, b", new");
    for edit in &EDITS {
        let (start, count) = (edit.start, edit.count);
        expect_made(&rt, alloc, text.substr(alloc, start, count), edit.part);
        expect_made(&rt, alloc, text.insert(alloc, start, &new), edit.inserted);
        expect_made(&rt, alloc, text.remove(alloc, start, count), edit.removed);
        let replaced = text.replace_range(alloc, start, count, &new);
        expect_made(&rt, alloc, replaced, edit.replaced);
    }
    expect_bytes(&rt, alloc, &text, b"hello world");
}

#[test]
fn parts_and_places(rt: HostRuntime) {
    let alloc = rt.alloc();
    let text = hello(&rt, alloc);
    let (prefix, rest) = text.split_at(alloc, 2).expect(&rt, "no memory");
    expect_bytes(&rt, alloc, &prefix, b"he");
    expect_bytes(&rt, alloc, &rest, b"llo world");
    expect_made(&rt, alloc, prefix.repeated(alloc, 3), b"hehehe");
    let first = text.find(alloc, b"o", 5).expect(&rt, "no memory");
    let last = text.rfind(alloc, b"o", 7).expect(&rt, "no memory");
    assert!(rt; first == Some(7) && last == Some(4));
}

// Of 40 leaves of 65 bytes, each of which was joined to those before it. The Fibonacci number 2,584 is the greatest of
// at most 2,600, and the 18th.
#[test]
fn balanced_texts_are_flat(rt: HostRuntime) {
    let alloc = rt.alloc();
    let mut text = Text::empty();
    for _ in 0..40 {
        let longer = text.append_bytes(alloc, &[b'x'; 65]);
        text = longer.expect(&rt, "no memory");
    }
    assert!(rt; text.as_cord().depth() == 39);
    let flat = text.balance(alloc).expect(&rt, "no memory");
    assert!(rt; flat.as_cord().depth() <= 18 && flat == text);
}

#[test]
fn builder(rt: HostRuntime) {
    let alloc = rt.alloc();
    let mut builder = TextBuilder::new(alloc).expect(&rt, "no memory");
    builder.push_bytes(alloc, b"ab").expect(&rt, "no memory");
    builder.push(alloc, b'c').expect(&rt, "no memory");
    let text = builder.to_text(alloc).expect(&rt, "no memory");
    builder.push_text(alloc, &text).expect(&rt, "no memory");
    expect_made(&rt, alloc, builder.to_text(alloc), b"abcabc");
}

// "goodbye" in the place of "hello", "big " in front of "world", and "goodbye" in the place of "rld".
#[test]
fn editor(rt: HostRuntime) {
    let alloc = rt.alloc();
    let mut editor = TextEditor::of(alloc, &hello(&rt, alloc)).expect(&rt, "no memory");
    let word = text_of(&rt, alloc, b"goodbye");
    let made = editor.replace_range(alloc, 0, 5, &word);
    made.expect(&rt, "no memory");
    let made = editor.insert_bytes(alloc, 8, b"big ");
    made.expect(&rt, "no memory");
    editor.remove(alloc, 14, 3).expect(&rt, "no memory");
    editor.insert(alloc, 14, &word).expect(&rt, "no memory");
    expect_made(&rt, alloc, editor.to_text(alloc), b"goodbye big wogoodbye");
}

fn expect_line(
    rt: &impl Abort,
    alloc: Global,
    line: Option<Result<Text, AllocError>>,
    wanted: &[u8],
) {
    let Some(line) = line else {
        panic!(rt; "no line");
    };
    expect_made(rt, alloc, line, wanted);
}

#[test]
fn lines(rt: HostRuntime) {
    let alloc = rt.alloc();
    let text = text_of(&rt, alloc, b"one\n\ntwo");
    expect_line(&rt, alloc, text.lines(alloc).next(), b"one");
    expect_line(&rt, alloc, text.lines_with_ends(alloc).next(), b"one\n");
    let line = text.nth_line(alloc, 2).expect(&rt, "no memory");
    assert!(rt; line == Some(text_of(&rt, alloc, b"two")));
}

#[test]
fn prints(rt: HostRuntime) {
    let alloc = rt.alloc();
    let text = hello(&rt, alloc);
    let Ok(format) = Format::parse(alloc, b"%-6.5s|%03d|%c\n") else {
        panic!(rt; "no format");
    };
    let args = [TextArg::Text(&text), TextArg::Num(-7), TextArg::Num(65)];
    let Ok(case) = Text::print(alloc, &format, &args) else {
        panic!(rt; "not printed");
    };
    expect_bytes(&rt, alloc, &case, b"hello |-07|A\n");
}

// "hello world", three dashes, "hello world!".
fn greeting(rt: &impl Abort, alloc: Global) -> Text {
    let text = hello(rt, alloc);
    let three = [
        text.share(alloc).expect(rt, "no memory"),
        run_of(rt, alloc, b'-', 3),
        text.append_bytes(alloc, b"!").expect(rt, "no memory"),
    ];
    Text::catn(alloc, &three).expect(rt, "no memory")
}

fn expect_shown(rt: &impl Abort, shown: Result<String, AllocError>, wanted: &str) {
    let shown = shown.expect(rt, "no memory");
    assert!(rt; shown.as_str() == wanted, "not shown: {wanted}");
}

// A long text is shown by its beginning.
const LONG: &str =
    r#"Text(33, b"\n\n\n\n\n\n\n\n\n\n\n\n\n\n\n\n\n\n\n\n\n\n\n\n\n\n\n\n\n\n\n\n"..)"#;

const TREE: &str = "Text(101)\n  join of 101, depth 1\n    run of 100, byte 97\n    leaf of 1";

// The text, how its beginning and its tree are shown, and what is read of it.
#[test]
fn texts_are_shown(rt: HostRuntime) {
    let alloc = rt.alloc();
    let text = greeting(&rt, alloc);
    expect_shown(&rt, text.to_string(alloc), "hello world---hello world!");
    let shown = r#"Text(26, b"hello world---hello world!")"#;
    expect_shown(&rt, format!(in alloc; "{text:?}"), shown);
    let long = run_of(&rt, alloc, b'\n', 33);
    expect_shown(&rt, format!(in alloc; "{long:?}"), LONG);
    let run = run_of(&rt, alloc, b'a', 100);
    let joined = run.append_bytes(alloc, b"!").expect(&rt, "no memory");
    expect_shown(&rt, format!(in alloc; "{joined:#?}"), TREE);
    let mut read = String::new(alloc);
    assert!(rt; text.chunks().read_to_string(&mut read).is_ok());
    assert!(rt; read.as_str() == "hello world---hello world!");
}

// What comes after two bytes of a euro sign, and what is shown: what is no character is replaced. Each byte of the sign
// stands in a part of its own.
const AFTER: [(&[u8], &str); 2] = [
    (b"\xAC and so on", "\u{20AC} and so on"),
    (b"a\xFFb\xC3", "\u{FFFD}a\u{FFFD}b\u{FFFD}"),
];

#[test]
fn characters_may_lie_in_several_parts(rt: HostRuntime) {
    let alloc = rt.alloc();
    let (first, second) = (text_of(&rt, alloc, b"\xE2"), run_of(&rt, alloc, 0x82, 1));
    let cut = Text::cat(alloc, &first, &second).expect(&rt, "no memory");
    for (rest, wanted) in AFTER {
        let text = cut.append_bytes(alloc, rest).expect(&rt, "no memory");
        expect_shown(&rt, text.to_string(alloc), wanted);
    }
}
