// Worked examples of line indices.
ghost use Rattle.std.specs.Prelude.{◌<◌};
ghost use Rattle.cord_lines.specs.Index.{IsIndexOf};

use super::cases::expect_case;
use super::texts::text_of;
use cord::Text;
use cord_lines::{LineEditor, LineIndex};
use std::alloc::Global;
use std::process::Abort;

fn index_of(rt: &impl Abort, alloc: Global, text: &Text) -> LineIndex
    ensures { IsIndexOf result text.now }
{
    LineIndex::of(alloc, text).expect(rt, "memory")
}

// That an index has so many lines, and the last one begins there.
fn expect_lines(rt: &impl Abort, index: &LineIndex, text: &Text, (lines, start): (u64, u64)) {
    assert!(rt; index.lines() == lines);
    assert!(rt; index.line_start(text, lines.saturating_sub(1)) == start);
}

// A text so many times.
fn repeated(rt: &impl Abort, alloc: Global, text: &Text, count: u64) -> Text {
    again!(rt, text.repeated(alloc, count))
}

// Whether a line has these bytes, or isn't there.
fn is_line(line: Option<&Text>, bytes: Option<&[u8]>) -> bool {
    match (line, bytes) {
        (Some(line), Some(bytes)) => line.len() == bytes.len() as u64 && line.starts_with(bytes),
        (None, None) => true,
        _ => false,
    }
}

// A line that is looked for: its number, the place where it begins, its bytes, and those without its end.
struct Case(u64, u64, Option<&'static [u8]>, Option<&'static [u8]>);

const CASES: [Case; 5] = [
    Case(0, 0, Some(b"one\n"), Some(b"one")),
    Case(1, 4, Some(b"\n"), Some(b"")),
    Case(2, 5, Some(b"two\n"), Some(b"two")),
    Case(3, 9, Some(b"last"), Some(b"last")),
    Case(4, 13, None, None),
];

// A place in these lines, or after them, its line and its column.
const PLACES: [(u64, u64, u64); 5] = [(0, 0, 0), (3, 0, 3), (4, 1, 0), (12, 3, 3), (99, 3, 4)];

#[test]
fn short_lines(rt: HostRuntime) {
    let alloc = rt.alloc();
    let text = text_of(&rt, alloc, b"one\n\ntwo\nlast");
    let index = index_of(&rt, alloc, &text);
    for case in &CASES {
        assert!(rt; index.line_start(&text, case.0) == case.1);
        let line = index.line_with_end(alloc, &text, case.0);
        let line = line.expect(&rt, "memory");
        expect_case(&rt, is_line(line.as_ref(), case.2), "line", case.0);
        let bare = index.line(alloc, &text, case.0).expect(&rt, "memory");
        expect_case(&rt, is_line(bare.as_ref(), case.3), "bare", case.0);
    }
    assert!(rt; index.lines() == 4);
    for (place, line, column) in PLACES {
        let (found, counted) = (index.line_of(&text, place), index.column(&text, place));
        expect_case(&rt, found == line, "the line of", place);
        expect_case(&rt, counted == column, "the column of", place);
    }
}

// Of no text; and after an edit whose numbers are none of this text all of it is counted.
#[test]
fn no_lines(rt: HostRuntime) {
    let alloc = rt.alloc();
    let nothing = Text::empty();
    for index in [LineIndex::empty(alloc), index_of(&rt, alloc, &nothing)] {
        assert!(rt; index.lines() == 0 && index.line_of(&nothing, 7) == 0);
        assert!(rt; index.line_start(&nothing, 3) == 0 && index.column(&nothing, 3) == 0);
    }
    let text = text_of(&rt, alloc, b"one\ntwo\n");
    let mut index = LineIndex::empty(alloc);
    let edited = index.edited(alloc, &text, u64::MAX, u64::MAX, 1);
    edited.expect(&rt, "memory");
    expect_lines(&rt, &index, &text, (2, 4));
}

// Two bytes begin a character in each of 20,000 of "aé", which has three.
#[test]
fn characters(rt: HostRuntime) {
    let alloc = rt.alloc();
    let once = text_of(&rt, alloc, "aé".as_bytes());
    let text = repeated(&rt, alloc, &once, 20_000);
    let index = index_of(&rt, alloc, &text);
    assert!(rt; index.utf8_len(&text, 0, 60_000) == 40_000);
    assert!(rt; index.utf8_len(&text, 30_001, 2) == 1 && index.utf8_len(&text, 59_999, 9) == 0);
}

// Numbers that look like chance.
#[derive(Drop)]
struct Dice(u64);

impl Dice {
    // A number below `bound`.
    fn roll(&mut self, bound: u64) -> u64
        requires { 0 < bound }
        ensures { result < bound }
    {
        self.0 = self
            .0
            .wrapping_mul(6_364_136_223_846_793_005)
            .wrapping_add(1_442_695_040_888_963_407);
        (self.0 >> 33) % bound
    }
}

// That the editor answers for a place what a count of all bytes before it says. In these texts A9 alone begins no
// character.
fn expect_answers(rt: &impl Abort, alloc: Global, editor: &LineEditor, place: u64) {
    let before = editor.text().substr(alloc, 0, place).expect(rt, "memory");
    let line = before.count_of(b'\n');
    let start = match before.rfind_byte(b'\n', place) {
        Some(end) => end.wrapping_add(1),
        None => 0,
    };
    let column = place.wrapping_sub(start);
    let chars = place.wrapping_sub(before.count_of(0xA9));
    expect_case(rt, editor.line_of(place) == line, "the line of", place);
    expect_case(
        rt,
        editor.line_start(line) == start,
        "the start of line",
        line,
    );
    expect_case(rt, editor.column(place) == column, "the column of", place);
    expect_case(
        rt,
        editor.utf8_len(0, place) == chars,
        "the characters before",
        place,
    );
}

// Edits at places like chance: most change some 100 bytes, one of 20 some 10,000.
#[test]
fn edits_like_chance(rt: HostRuntime) {
    let alloc = rt.alloc();
    let mut dice = Dice(17);
    let line = text_of(&rt, alloc, "one of many lines: é é\n".as_bytes());
    let text = repeated(&rt, alloc, &line, 2_000);
    let mut editor = LineEditor::of(alloc, &text).expect(&rt, "memory");
    for edit in 0..2_000_u64 {
        let most = if dice.roll(20) == 0 { 400 } else { 8 };
        let start = dice.roll(editor.text().len().max(1));
        let removed = dice.roll(22 * most);
        let added = repeated(&rt, alloc, &line, dice.roll(most));
        editor
            .replace_range(alloc, start, removed, &added)
            .expect(&rt, "memory");
        if edit % 4 == 0 {
            let place = dice.roll(editor.text().len().wrapping_add(1).max(1));
            expect_answers(&rt, alloc, &editor, place);
        }
    }
    assert!(rt; editor.lines() > 0);
}

// Puts a line in the place of 20,000 bytes. Where that was refused nothing has changed, and it is done again.
#[test]
fn refused_edit_of_lines(rt: HostRuntime) {
    let alloc = rt.alloc();
    let line = text_of(&rt, alloc, b"a line\n");
    let text = repeated(&rt, alloc, &line, 5_000);
    let mut editor = again!(&rt, LineEditor::of(alloc, &text));
    if editor.replace_range(alloc, 3, 20_000, &line).is_err() {
        assert!(rt; editor.text().len() == 35_000 && editor.lines() == 5_000);
        assert!(rt; editor.line_of(20_003) == 2_857 && editor.line_start(4_999) == 34_993);
        editor
            .replace_range(alloc, 3, 20_000, &line)
            .expect(&rt, "memory");
    }
    assert!(rt; editor.text().len() == 15_007 && editor.lines() == 2_144);
    let second = again!(&rt, editor.line(alloc, 1));
    assert!(rt; is_line(second.as_ref(), Some(b"ne")));
}

// Takes 21,000 bytes out of an index. Where that was refused nothing has changed, and it is done again.
#[test]
fn refused_index_of_lines(rt: HostRuntime) {
    let alloc = rt.alloc();
    let line = text_of(&rt, alloc, b"a line\n");
    let text = repeated(&rt, alloc, &line, 5_000);
    let mut index = again!(&rt, LineIndex::of(alloc, &text));
    let after = again!(&rt, text.remove(alloc, 0, 21_000));
    if index.edited(alloc, &after, 0, 21_000, 0).is_err() {
        expect_lines(&rt, &index, &text, (5_000, 34_993));
        index
            .edited(alloc, &after, 0, 21_000, 0)
            .expect(&rt, "memory");
    }
    expect_lines(&rt, &index, &after, (2_000, 13_993));
}
