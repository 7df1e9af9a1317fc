// The order of two spans.
ghost use Rattle.std.specs.Prelude.{◌≡◌, ◌<◌, ◌≤◌};
ghost use Rattle.cord_pos.specs.Spans.{span_len, SpanFitsIn};
ghost use Rattle.cord_search.specs.inner.Spans.{IsOrderOfSpans};
ghost use Rattle.cord_search.specs.inner.Searches.{IsRead};

use crate::PIECE_LEN;
use crate::pieces::part_of;
use crate::slices::order_of;
use cord_io::{ReadFault, Source};
use cord_pos::Span;
use std::cmp::Ordering;

// The length of the longest spans that are compared by pieces alone.
const NEAR_LEN: u64 = 2_048;

// The most bytes of each of two longer spans that are compared together.
const WINDOW_LEN: usize = 32_768;

/// The order of two spans of one length: slices of leaves where they lie.
#[inline(always)]
pub(crate) fn order_of_spans<S: Source>(
    span: Span,
    other: Span,
    src: &mut S,
) -> Result<Ordering, ReadFault>
    requires len { span_len other ≡ span_len span }
    requires left_fits { SpanFitsIn (S.lengths src.old) span }
    requires right_fits { SpanFitsIn (S.lengths src.old) other }
    ensures { IsRead ⟦<S as Source>⟧ src.old src.new result (λ t. IsOrderOfSpans t span.entry other.entry) }
{
    match (span, other) {
        (Span::Bytes(bytes), Span::Bytes(others)) => Ok(order_of(bytes, others)),
        _ if span.len() <= NEAR_LEN => order_by::<PIECE_LEN, S>(span, other, src),
        _ => order_by::<WINDOW_LEN, S>(span, other, src),
    }
}

// The same through two buffers: at first `PIECE_LEN` bytes, and then as many as were the same before, up to what a
// buffer holds. So a source is asked for much at once, and little is read after an early difference. It stands apart:
// slices of leaves need no buffers.
#[inline(never)]
fn order_by<const N: usize, S: Source>(
    span: Span,
    other: Span,
    src: &mut S,
) -> Result<Ordering, ReadFault>
    requires some { 0 < N }
    requires few { N ≤ WINDOW_LEN }
    requires len { span_len other ≡ span_len span }
    requires left_fits { SpanFitsIn (S.lengths src.old) span }
    requires right_fits { SpanFitsIn (S.lengths src.old) other }
    ensures { IsRead ⟦<S as Source>⟧ src.old src.new result (λ t. IsOrderOfSpans t span.entry other.entry) }
{
    let (mut buffer, mut other_buffer) = ([0; N], [0; N]);
    let mut done = 0;
    while done < span.len() {
        let next = done.max(PIECE_LEN as u64).min(N as u64);
        let count = next.min(span.len() - done) as usize;
        let piece = part_of(span, done, count, &mut buffer, src)?;
        let other_piece = part_of(other, done, count, &mut other_buffer, src)?;
        match order_of(piece, other_piece) {
            Ordering::Equal => done += count as u64,
            ordering => return Ok(ordering),
        }
    }
    Ok(Ordering::Equal)
}
