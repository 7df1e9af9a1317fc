// Spans of a node's text: what lies in one part, from a place on or up to a place.
ghost use Rattle.std.specs.Prelude.{◌≡◌, ◌≢◌, ◌+◌, ◌<◌, ◌≤◌, length, slice_index, true, is_some, IsSome, IfSome};
ghost use Rattle.cord_core.specs.Cord.{text_len};
ghost use Rattle.cord_pos.specs.Spans.{span_len, IsSpanOf};
ghost use Rattle.cord_search.specs.inner.Spans.{is_other_run, IsRunWithout, IsMisfit, BeginAlike};
ghost use Rattle.cord_search.specs.inner.Spans.{IsBlockOf, IsSpanUpTo, StandsIn};

use crate::PIECE_LEN;
use crate::shared_parts::Spot;
use cord_core::Cord;
use cord_pos::{Position, Span};

/// The length of a run of another byte.
pub(crate) fn run_without(span: Span, wanted: u8) -> Option<u64>
    ensures found { is_some result ≡ is_other_run span.entry wanted }
    ensures run { IfSome result (IsRunWithout span.entry wanted) }
{
    match span {
        Span::Run { byte, len } if byte != wanted => Some(len),
        _ => None,
    }
}

/// At how many places of a span, from its first one on, no text that begins with these bytes can stand, for it is
/// a run that still goes on where they have another byte.
pub(crate) fn misfits(span: Span, prefix: &[u8]) -> u64
    ensures inside { result ≤ span_len span.entry }
    ensures misfit { IsMisfit span.entry prefix.now result }
{
    match span {
        Span::Run { byte, len } => match other_in(prefix, byte) {
            Some(place) => len.saturating_sub(place as u64),
            None => 0,
        },
        _ => 0,
    }
}

/// Whether two spans are runs of one byte, or ranges of one source from one place on: then all of the shorter one
/// is the same.
pub(crate) fn begin_alike(span: Span, other: Span) -> bool
    ensures { result ≡ true → BeginAlike span.entry other.entry }
{
    match (span, other) {
        (Span::Run { byte, .. }, Span::Run { byte: b, .. }) => byte == b,
        (
            Span::Func { id, start, .. },
            Span::Func {
                id: i,
                start: s,
                ..
            },
        ) => { id == i && start == s }
        _ => false,
    }
}

// The first place at which these bytes have another one than this.
fn other_in(bytes: &[u8], byte: u8) -> Option<usize>
    ensures inside { IfSome result (λ place. place < length bytes.now) }
    ensures other { IfSome result (λ place. slice_index bytes.now place ≢ byte) }
{
    for place in 0..bytes.len() {
        if bytes[place] != byte {
            return Some(place);
        }
    }
    None
}

/// What is left of a part of a cord's text from a place on.
#[inline(always)]
pub fn cord_span_at(cord: &Cord, place: u64) -> Span
    requires { place < text_len cord.now }
    ensures { IsSpanOf cord.now place result }
{
    let part = Spot::of_part(cord, place);
    part.span(part.place, part.node.len())
}

/// What a part of a cord's text has up to a place, with the byte there.
pub(crate) fn cord_span_to(cord: &Cord, at: u64) -> Span
    requires { at < text_len cord.now }
    ensures { IsSpanUpTo cord.now (at + 1) result }
{
    let part = Spot::of_part(cord, at);
    part.span(0, part.place + 1)
}

/// What is left of a part of a position's cord from a place on, to which the position is moved: so a walk over the
/// parts takes constant time for each, taken over all of them, and no descent from the root.
pub(crate) fn span_from<'a>(position: &mut Position<'a>, place: u64) -> Span<'a>
    requires valid { IsSome position.old.index }
    requires inside { place < text_len position.old.cord }
    ensures span { IsSpanOf position.old.cord place result }
    ensures moved { StandsIn position.old.cord position.new }
{
    position.move_to(place);
    let Some(span) = position.ahead() else {
        unreachable!()
    };
    span
}

/// What a part of a position's cord has up to a place, before which the position is moved.
pub(crate) fn span_up_to<'a>(position: &mut Position<'a>, end: u64) -> Span<'a>
    requires valid { IsSome position.old.index }
    requires some { 0 < end }
    requires inside { end ≤ text_len position.old.cord }
    ensures span { IsSpanUpTo position.old.cord end result }
    ensures moved { StandsIn position.old.cord position.new }
{
    position.move_to(end - 1);
    let Some(span) = position.behind() else {
        unreachable!()
    };
    span
}

/// What the block of `PIECE_LEN` bytes has of a span that begins in it, where it is a range of a source; else all
/// of it.
pub(crate) fn in_block(span: Span) -> Span
    requires some { 0 < span_len span }
    ensures { IsBlockOf span.entry result }
{
    span.up_to(block_len(span))
}

// How many bytes of a span the block of `PIECE_LEN` bytes has in which it begins, where it is a range of a source;
// else all.
fn block_len(span: Span) -> u64
    requires some { 0 < span_len span }
    ensures some { 0 < result }
    ensures few { result ≤ span_len span.entry }
{
    let size = PIECE_LEN as u64;
    match span {
        Span::Func { start, len, .. } => len.min(size - start % size),
        _ => span.len(),
    }
}
