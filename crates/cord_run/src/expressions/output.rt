// Expressions that are put.
ghost use Rattle.std.specs.Prelude.{◌≡◌, ◌++◌, true, MatchResult};
ghost use Rattle.cord_io.specs.Frames.{LeavesSource};
ghost use Rattle.cord_iter.specs.Output.{CountsFaults, IsPrefixOf, Takes, failures_of};
ghost use Rattle.cord_run.specs.inner.{all_bytes, AllFitIn, MAX_LEN, all_texts, cords, text_in, expr_view, IsOver};
ghost use Rattle.cord_run.specs.inner.{holding_of, plain_of, CountsStops, PutsBytes, PutsText, Wrote};
ghost use Rattle.cord_run.specs.inner.{FileSystem};

use crate::expressions::pieces_of;
use crate::expressions::short_texts::gather;
use crate::expressions::slices::slice_of;
use crate::stops::Stop;
use crate::store::Store;
use arrayvec::ArrayVec;
use cord_core::Cord;
use cord_io::{CordError, Sink, Source};
use cord_iter::put_all;
use cord_plan::Expr;
use std::alloc::Global;

/// Hands a sink the text of an expression, short parts at once and others one by one: no cord is made of the whole.
/// Where all its names hold texts, the sink took the text, or the expression's fault is answered and nothing was put,
/// or after a failure of a device a prefix.
#[inline(always)]
pub(crate) fn write<R: Source, S: Sink>(
    alloc: Global,
    expression: &Expr,
    store: &Store,
    source: &mut R,
    sink: &mut S,
) -> Result<(), Stop>
    requires over { IsOver (R.lengths source.old) store.now.entries.items }
    ensures wrote { (file_system : FileSystem) → R.consistent source.new file_system →
        all_texts (holding_of (R.table source.old file_system) store.now.entries.items)
        (cords (expr_view expression.now))
        ≡ true → Wrote (text_in MAX_LEN (plain_of (R.table source.old file_system) store.now.entries.items)
        (expr_view expression.now)) (S.taken sink.old) (S.taken sink.new) result }
    ensures counts { CountsStops (failures_of ⟦<R as Source>⟧ ⟦<S as Sink>⟧ source.old sink.old)
        (failures_of ⟦<R as Source>⟧ ⟦<S as Sink>⟧ source.new sink.new) result }
    ensures finished { S.finished sink.new ≡ S.finished sink.old }
    ensures source { LeavesSource ⟦<R as Source>⟧ source.old source.new }
{
    match put_short(expression, store, sink) {
        Some(put) => put,
        None => {
            let pieces = pieces_of(alloc, expression, store)?;
            put_pieces(&pieces, source, sink)?;
            Ok(())
        }
    }
}

// Hands a sink the text of an expression that is a leaf or a range of one, or short ones side by side. None where it is
// neither: then the sink is left alone.
#[inline(always)]
fn put_short<S: Sink>(expression: &Expr, store: &Store, sink: &mut S) -> Option<Result<(), Stop>>
    ensures { PutsText ⟦<S as Sink>⟧ store.now.entries.items (expr_view expression.now) sink.old sink.new result }
{
    match slice_of(expression, store) {
        Some(slice) => Some(put_bytes(slice, sink)),
        None => put_gathered(expression, store, sink),
    }
}

// The same of short ones side by side alone.
fn put_gathered<S: Sink>(expression: &Expr, store: &Store, sink: &mut S) -> Option<Result<(), Stop>>
    ensures { PutsText ⟦<S as Sink>⟧ store.now.entries.items (expr_view expression.now) sink.old sink.new result }
{
    let mut text = ArrayVec::new();
    if !gather(expression, store, &mut text) {
        return None;
    }
    Some(put_bytes(text.as_slice(), sink))
}

// Hands a sink bytes.
fn put_bytes<S: Sink>(bytes: &[u8], sink: &mut S) -> Result<(), Stop>
    ensures { PutsBytes ⟦<S as Sink>⟧ bytes.now sink.old sink.new result }
{
    match put_all(bytes, sink) {
        Ok(()) => Ok(()),
        Err(_) => Err(Stop::WriteFailed),
    }
}

// Hands a sink the texts of cords, in order.
fn put_pieces<R: Source, S: Sink>(
    pieces: &[Cord],
    source: &mut R,
    sink: &mut S,
) -> Result<(), CordError>
    requires fits { AllFitIn (R.lengths source.old) pieces.now }
    ensures puts { (file_system : FileSystem) → R.consistent source.new file_system →
        MatchResult result
        (λ _. S.taken sink.new ≡ S.taken sink.old ++ all_bytes (R.table source.old file_system) pieces.now)
        (λ _. Takes (IsPrefixOf (all_bytes (R.table source.old file_system) pieces.now)) (S.taken sink.old)
        (S.taken sink.new)) }
    ensures faults { CountsFaults (failures_of ⟦<R as Source>⟧ ⟦<S as Sink>⟧ source.old sink.old)
        (failures_of ⟦<R as Source>⟧ ⟦<S as Sink>⟧ source.new sink.new) result }
    ensures finished { S.finished sink.new ≡ S.finished sink.old }
    ensures source { LeavesSource ⟦<R as Source>⟧ source.old source.new }
{
    for piece in pieces {
        cord_iter::put(piece, source, sink)?;
    }
    Ok(())
}
