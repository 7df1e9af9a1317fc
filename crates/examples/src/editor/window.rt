//! What a window shows of a text.
use cord::{CordError, Text, TextBuilder};
use cord_lines::LineIndex;
use std::alloc::Global;

/// The lines above and below the one of a cursor that a window shows.
const BESIDE: u64 = 2;

/// The line that holds the byte at a place, and those beside it, each after its number; `>` marks the line itself.
pub fn window_of(alloc: Global, text: &Text, place: u64) -> Result<Text, CordError> {
    let index = LineIndex::of(alloc, text)?;
    lines_around(alloc, text, &index, index.line_of(text, place))
}

/// A line and those beside it, each after its number.
fn lines_around(alloc: Global, text: &Text, index: &LineIndex, at: u64) -> Result<Text, CordError> {
    let mut window = TextBuilder::new(alloc)?;
    for number in at.saturating_sub(BESIDE)..at.saturating_add(BESIDE + 1) {
        let Some(line) = index.line(alloc, text, number)? else {
            break;
        };
        let mark = if number == at { '>' } else { ' ' };
        push_line(alloc, &mut window, number, mark, &line)?;
    }
    Ok(window.to_text(alloc)?)
}

/// Adds a line after its number and its mark to a window.
fn push_line(
    alloc: Global,
    window: &mut TextBuilder,
    number: u64,
    mark: char,
    line: &Text,
) -> Result<(), CordError> {
    window.push_bytes(alloc, format!(in alloc; "{number}{mark}")?.as_bytes())?;
    window.push_text(alloc, line)?;
    window.push(alloc, b'\n')?;
    Ok(())
}
