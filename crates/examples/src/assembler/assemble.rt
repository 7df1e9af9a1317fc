//! The text of a template, as a cord.
ghost use Rattle.std.specs.Prelude.{◌≡◌, ◌++◌, take, drop, IfOk, OnOk};
ghost use Rattle.std.specs.List.{repeat};
ghost use Rattle.cord_io.specs.Device.{FileSystem};
ghost use Rattle.cord.specs.Means.{Means};
ghost use Rattle.examples.specs.Meaning.{meaning, segment_bytes};

use super::template::Segment;
use cord::{Cord, CordError, MAX_LEN, Sink, Source, SourceId, put, repeated};
use std::alloc::Global;

/// Writes at most `count` bytes of the text of a template, from byte `from` on. No byte of its files is read before.
pub fn write_range<S: Source, W: Sink>(
    alloc: Global,
    src: &mut S,
    segments: &[Segment<'_>],
    from: u64,
    count: u64,
    out: &mut W,
) -> Result<(), CordError>
    ensures { (file_system : FileSystem) → S.consistent src.new file_system → OnOk result
        (W.taken out.new ≡ W.taken out.old ++ take count (drop from
        (meaning (S.table src.old file_system) segments.now))) }
{
    let text = text_of(alloc, src, segments)?;
    let range = text.substr(alloc, from, count)?;
    put(&range, src, out)
}

/// The text of a template.
fn text_of<S: Source>(alloc: Global, src: &S, segments: &[Segment<'_>]) -> Result<Cord, CordError>
    ensures { IfOk result (Means (S.lengths src.now) (λ t. meaning t segments.now)) }
{
    let mut text = Cord::empty();
    for segment in segments {
        let next = cord_of(alloc, src, segment)?;
        text = Cord::cat(alloc, &text, &next)?;
    }
    Ok(text)
}

/// The text of a segment.
fn cord_of<S: Source>(alloc: Global, src: &S, segment: &Segment<'_>) -> Result<Cord, CordError>
    ensures { IfOk result (Means (S.lengths src.now) (λ t. segment_bytes t segment.now)) }
{
    match *segment {
        Segment::Text(text) => Cord::from_bytes(alloc, text.as_bytes()),
        Segment::File(id, times) => copies(alloc, src, id, times),
    }
}

/// The whole of a source, so many times.
fn copies<S: Source>(alloc: Global, src: &S, id: SourceId, times: u64) -> Result<Cord, CordError>
    ensures { IfOk result (Means (S.lengths src.now) (λ t. repeat times (t id.0))) }
{
    let file = whole(alloc, src, id)?;
    let text = repeated(alloc, &file, times)?;
    Ok(text)
}

/// The whole of a source.
fn whole<S: Source>(alloc: Global, src: &S, id: SourceId) -> Result<Cord, CordError>
    ensures { IfOk result (Means (S.lengths src.now) (λ t. t id.0)) }
{
    let len = src.entry_len(id).unwrap_or(0);
    if len > MAX_LEN {
        return Err(CordError::TooLong);
    }
    Cord::from_fn(alloc, id, 0, len)
}
