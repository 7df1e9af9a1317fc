// Texts in pieces: slices of leaves as they are, runs and function parts through a buffer.
ghost use Rattle.std.specs.Prelude.{◌≡◌, ◌+◌, ◌-◌, ◌<◌, ◌≤◌, length, IsSome};
ghost use Rattle.cord_core.specs.Cord.{text_len, CordFitsIn};
ghost use Rattle.cord_search.specs.inner.Pieces.{IsReadable, IsPieceOf};
ghost use Rattle.cord_pos.specs.Spans.{span_len, SpanFitsIn, IsSpanOf};
ghost use Rattle.cord_search.specs.inner.Spans.{IsPartOf, IsSomeOf, StandsIn};
ghost use Rattle.cord_search.specs.inner.Searches.{IsAnswer, IsRead};

use crate::PIECE_LEN;
use crate::spans::{cord_span_at, span_from};
use cord_core::Cord;
use cord_io::{ReadFault, Source};
use cord_pos::{Position, Span};

// At least `count` bytes of a position's cord from a place on, all before `end`, where this span begins: the rest of a
// leaf where that is enough. Else they are copied, some times as many where there are and at least `least`, so that a
// search which goes on after them copies no byte often. The position is moved on over the parts that are copied.
pub(crate) fn window_at<'a, S: Source>(
    position: &mut Position,
    place: u64,
    end: u64,
    span: Span<'a>,
    count: usize,
    least: usize,
    room: &'a mut [u8],
    src: &mut S,
) -> Result<&'a [u8], ReadFault>
    requires text { IsReadable (S.lengths src.old) position.old.cord }
    requires span { IsSpanOf position.old.cord place span }
    requires valid { IsSome position.old.index }
    requires most { count ≤ length room.old }
    requires inside { place + count ≤ end }
    requires within { end ≤ text_len position.old.cord }
    ensures window { IsAnswer ⟦<S as Source>⟧ src.old src.new result (λ window.
        (count ≤ length window.now) × (place + length window.now ≤ end))
        (λ t window. IsPieceOf t position.old.cord place window.now) }
    ensures moved { StandsIn position.old.cord position.new }
{
    let left = end - place;
    if let Span::Bytes(bytes) = span {
        if count <= bytes.len() {
            let most = bytes.len().min(left as usize);
            return Ok(&bytes[..most]);
        }
    }
    let most = count.saturating_mul(4).max(least).min(room.len());
    let len = (most as u64).min(left);
    let window = &mut room[..len as usize];
    gather_by(position, place, window, src)?;
    Ok(window)
}

// Copies the bytes of a cord's text from a place on: those of one part without a position.
pub(crate) fn gather<S: Source>(
    cord: &Cord,
    place: u64,
    out: &mut [u8],
    src: &mut S,
) -> Result<(), ReadFault>
    requires some { 0 < length out.old }
    requires inside { place + length out.old ≤ text_len cord.now }
    requires fits { CordFitsIn (S.lengths src.old) cord.now }
    ensures { IsRead ⟦<S as Source>⟧ src.old src.new result (λ t _. IsPieceOf t cord.now place out.new) }
{
    let span = cord_span_at(cord, place);
    if out.len() as u64 <= span.len() {
        copy_prefix(span, out, src)?;
        return Ok(());
    }
    let mut position = Position::set(cord, place);
    gather_by(&mut position, place, out, src)?;
    Ok(())
}

// The same by a position, which is moved on over the parts.
fn gather_by<S: Source>(
    position: &mut Position,
    place: u64,
    out: &mut [u8],
    src: &mut S,
) -> Result<(), ReadFault>
    requires text { IsReadable (S.lengths src.old) position.old.cord }
    requires valid { IsSome position.old.index }
    requires inside { place + length out.old ≤ text_len position.old.cord }
    ensures text { IsRead ⟦<S as Source>⟧ src.old src.new result (λ t _.
        IsPieceOf t position.old.cord place out.new) }
    ensures moved { StandsIn position.old.cord position.new }
{
    let mut done = 0;
    while done < out.len() {
        let span = span_from(position, place + done as u64);
        let count = span.len().min((out.len() - done) as u64) as usize;
        copy_prefix(span, &mut out[done..done + count], src)?;
        done += count;
    }
    Ok(())
}

// Copies the first bytes of a span, which has as many.
pub(crate) fn copy_prefix<S: Source>(
    span: Span,
    out: &mut [u8],
    src: &mut S,
) -> Result<(), ReadFault>
    requires some { 0 < length out.old }
    requires inside { length out.old ≤ span_len span }
    requires fits { SpanFitsIn (S.lengths src.old) span }
    ensures { IsRead ⟦<S as Source>⟧ src.old src.new result (λ t _. IsPartOf t span.entry 0 out.new) }
{
    match span {
        Span::Bytes(bytes) => {
            let count = out.len();
            out.copy_from_slice(&bytes[..count]);
            Ok(())
        }
        Span::Run { byte, .. } => {
            out.fill(byte);
            Ok(())
        }
        Span::Func { id, start, .. } => src.read(id, start, out),
    }
}

// The first bytes of a span: all of a leaf's, or at most `PIECE_LEN` of another part's.
pub(crate) fn first_piece<'a, S: Source>(
    span: Span<'a>,
    buffer: &'a mut [u8; PIECE_LEN],
    src: &mut S,
) -> Result<&'a [u8], ReadFault>
    requires some { 0 < span_len span }
    requires fits { SpanFitsIn (S.lengths src.old) span }
    ensures { IsAnswer ⟦<S as Source>⟧ src.old src.new result (λ piece. IsSomeOf span.entry piece.now)
        (λ t piece. IsPartOf t span.entry 0 piece.now) }
{
    if let Span::Bytes(bytes) = span {
        return Ok(bytes);
    }
    let count = piece_len(span.len());
    part_of(span, 0, count, buffer, src)
}

// The last bytes of a span: all of a leaf's, or at most `PIECE_LEN` of another part's.
pub(crate) fn last_piece<'a, S: Source>(
    span: Span<'a>,
    buffer: &'a mut [u8; PIECE_LEN],
    src: &mut S,
) -> Result<&'a [u8], ReadFault>
    requires some { 0 < span_len span }
    requires fits { SpanFitsIn (S.lengths src.old) span }
    ensures { IsAnswer ⟦<S as Source>⟧ src.old src.new result (λ piece. IsSomeOf span.entry piece.now)
        (λ t piece. IsPartOf t span.entry (span_len span.entry - length piece.now) piece.now) }
{
    if let Span::Bytes(bytes) = span {
        return Ok(bytes);
    }
    let len = span.len();
    let count = piece_len(len);
    part_of(span, len - count as u64, count, buffer, src)
}

// `count` bytes of a span from a place on: a slice of a leaf, or in the buffer.
pub(crate) fn part_of<'a, S: Source>(
    span: Span<'a>,
    from: u64,
    count: usize,
    buffer: &'a mut [u8],
    src: &mut S,
) -> Result<&'a [u8], ReadFault>
    requires some { 0 < count }
    requires room { count ≤ length buffer.old }
    requires inside { from + count ≤ span_len span }
    requires fits { SpanFitsIn (S.lengths src.old) span }
    ensures { IsAnswer ⟦<S as Source>⟧ src.old src.new result (λ piece. length piece.now ≡ count)
        (λ t piece. IsPartOf t span.entry from piece.now) }
{
    match span {
        Span::Bytes(bytes) => Ok(&bytes[from as usize..from as usize + count]),
        Span::Run { byte, .. } => {
            let piece = &mut buffer[..count];
            piece.fill(byte);
            Ok(piece)
        }
        Span::Func { id, start, .. } => {
            let piece = &mut buffer[..count];
            src.read(id, start + from, piece)?;
            Ok(piece)
        }
    }
}

// How many bytes of those that are left make the next piece.
fn piece_len(left: u64) -> usize
    ensures most { result ≤ PIECE_LEN }
    ensures inside { result ≤ left }
    ensures some { 0 < left → 0 < result }
{
    left.min(PIECE_LEN as u64) as usize
}
