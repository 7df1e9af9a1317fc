//! Templates.
use anyhow::{Context, Result, bail};
use cord::{Files, SourceId, Sources};
use std::alloc::{AllocError, Global};

/// A segment of a template.
#[derive(Clone, Copy)]
pub enum Segment<'a> {
    /// A text of the template, or a value.
    Text(&'a str),
    /// A file, by its source, so many times.
    File(SourceId, u64),
}

/// Reads a template, and opens the files that it names.
pub fn parse<'a, F: Files>(
    alloc: Global,
    template: &'a str,
    values: &'a [String],
    sources: &mut Sources<F>,
) -> Result<Vec<Segment<'a>>> {
    let mut segments = Vec::new(alloc);
    let mut pieces = template.split('{');
    if let Some(text) = pieces.next() {
        add(&mut segments, Segment::Text(text))?;
    }
    for piece in pieces {
        let (words, text) = piece.split_once('}').context("a brace isn't closed")?;
        add(&mut segments, segment_of(alloc, words, values, sources)?)?;
        add(&mut segments, Segment::Text(text))?;
    }
    Ok(segments)
}

/// Adds a segment after the others.
fn add<'a>(segments: &mut Vec<Segment<'a>>, segment: Segment<'a>) -> Result<(), AllocError> {
    segments.push(segment)?;
    Ok(())
}

/// What the words in braces stand for.
fn segment_of<'a, F: Files>(
    alloc: Global,
    words: &'a str,
    values: &'a [String],
    sources: &mut Sources<F>,
) -> Result<Segment<'a>> {
    if let Some(path) = words.strip_prefix("include ") {
        let (id, _) = sources.open(alloc, path)?;
        return Ok(Segment::File(id, 1));
    }
    if let Some(rest) = words.strip_prefix("repeat ") {
        let (times, path) = rest.split_once(' ').context("TIMES PATH is wanted")?;
        let (id, _) = sources.open(alloc, path)?;
        return Ok(Segment::File(id, times.parse::<u64>()?));
    }
    value_of(words, values)
}

/// The value that is given for a name.
fn value_of<'a>(wanted: &str, values: &'a [String]) -> Result<Segment<'a>> {
    for value in values {
        if let Some((name, text)) = value.as_str().split_once('=')
            && name == wanted
        {
            return Ok(Segment::Text(text));
        }
    }
    bail!("no value is given for {wanted}")
}
