//! Expressions: their cords, their lengths, ranges of them, and their text on a sink.
mod joins;
pub(crate) mod lengths;
pub(crate) mod output;
pub(crate) mod parts;
mod ranges;
mod short_texts;
pub(crate) mod slices;

ghost use Rattle.std.specs.Prelude.{◌≡◌, IfErr, IfOk, Ok};
ghost use Rattle.cord_run.specs.inner.{expr_view, extent_in, InTurn, origins, AreWhole, Builds, IsUnbuilt};

use crate::expressions::joins::join_all;
use crate::expressions::lengths::length_of;
use crate::expressions::parts::{build_pair, build_part, is_part, pair_of};
use crate::expressions::ranges::{Wanted, add_range};
use crate::stops::Stop;
use crate::store::Store;
use cord_core::Cord;
use cord_plan::Expr;
use std::alloc::{AllocError, Global};

/// The cord of an expression. Refused with its fault, or with `NoMemory`.
pub(crate) fn build(alloc: Global, expression: &Expr, store: &Store) -> Result<Cord, Stop>
    ensures { Builds store.now.entries.items (expr_view expression.now) result }
{
    match expression {
        Expr::Cat(members) => match pair_of(members) {
            Some((left, right)) if is_part(left) && is_part(right) => {
                build_pair(alloc, left, right, store)
            }
            _ => build_of_pieces(alloc, expression, store),
        },
        _ => build_part(alloc, expression, store),
    }
}

/// The same, of cords of its parts that are joined.
pub(crate) fn build_of_pieces(alloc: Global, expression: &Expr, store: &Store) -> Result<Cord, Stop>
    ensures { Builds store.now.entries.items (expr_view expression.now) result }
{
    let pieces = pieces_of(alloc, expression, store)?;
    // The length was checked, so only memory can be wanting.
    match join_all(alloc, &pieces) {
        Ok(cord) => Ok(cord),
        Err(_) => Err(Stop::NoMemory),
    }
}

/// Cords of the text of an expression, in order: each is a range of the cord of one of its names, or copies of a byte.
/// Refused with its fault, or with `NoMemory`.
pub(crate) fn pieces_of(alloc: Global, expression: &Expr, store: &Store) -> Result<Vec<Cord>, Stop>
    ensures whole { IfOk result (λ pieces. AreWhole store.now.entries.items (expr_view expression.now) pieces.items ×
        InTurn store.now.entries.items (origins (expr_view expression.now)) pieces.items) }
    ensures refused { IfErr result (IsUnbuilt store.now.entries.items (expr_view expression.now)) }
{
    match length_of(expression, store) {
        Err(kind) => Err(Stop::Fault(kind)),
        Ok(len) => Ok(pieces_within(alloc, expression, store, len)?),
    }
}

// The same of an expression of this length.
fn pieces_within(
    alloc: Global,
    expression: &Expr,
    store: &Store,
    len: u64,
) -> Result<Vec<Cord>, AllocError>
    requires { extent_in store.now.entries.items (expr_view expression.now) ≡ Ok len }
    ensures { IfOk result (λ pieces. AreWhole store.now.entries.items (expr_view expression.now) pieces.items ×
        InTurn store.now.entries.items (origins (expr_view expression.now)) pieces.items) }
{
    let mut pieces = Vec::new(alloc);
    if len == 0 {
        return Ok(pieces);
    }
    let wanted = Wanted {
        skip: 0,
        count: len,
    };
    add_range(alloc, expression, store, wanted, &mut pieces)?;
    Ok(pieces)
}
