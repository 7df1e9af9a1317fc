// Expressions of one part or of two: their cords are made without a list of pieces.
ghost use Rattle.std.specs.Prelude.{◌≡◌, IfSome};
ghost use Rattle.cord_plan.specs.Exprs as plain;
ghost use Rattle.cord_run.specs.inner.{expr_view, members_view, Builds};

use crate::checks::as_index;
use crate::expressions::build_of_pieces;
use crate::expressions::lengths::copies_asked;
use crate::expressions::ranges::copies_of;
use crate::stops::Stop;
use crate::store::Store;
use crate::store::cords::shared;
use cord_core::Cord;
use cord_plan::{Expr, Members};
use cord_script::{Name, Number};
use std::alloc::Global;

/// The members where they are two.
pub(crate) fn pair_of(members: &Members) -> Option<(&Expr, &Expr)>
    ensures { IfSome result (λ pair. members_view members.now
        ≡ plain.member (expr_view pair.0.now) (plain.member (expr_view pair.1.now) plain.nothing)) }
{
    let (prefix, rest) = members.halves();
    if prefix.is_some() || rest.len() != 2 {
        return None;
    }
    Some((rest[0].as_ref(), rest[1].as_ref()))
}

/// The name of a range of one, and the numbers of the range.
pub(crate) fn range_parts(expression: &Expr) -> Option<(&Name, &Number, &Number)>
    ensures { IfSome result (λ parts. expr_view expression.now
        ≡ plain.sub (plain.name parts.0.now) parts.1.now parts.2.now) }
{
    match expression {
        Expr::Sub {
            expression,
            start,
            count,
        } => match expression.as_ref() {
            Expr::Name(name) => Some((name, start, count)),
            _ => None,
        },
        _ => None,
    }
}

/// Whether an expression is one part: a name, copies of a byte, or a range of a name.
pub(crate) fn is_part(expression: &Expr) -> bool {
    match expression {
        Expr::Name(_) | Expr::Run { .. } => true,
        _ => range_parts(expression).is_some(),
    }
}

/// The cord of two expressions, joined. Refused with their fault, or with `NoMemory`.
pub(crate) fn build_pair(
    alloc: Global,
    left: &Expr,
    right: &Expr,
    store: &Store,
) -> Result<Cord, Stop>
    ensures { Builds store.now.entries.items
        (plain.cat (plain.member (expr_view left.now) (plain.member (expr_view right.now) plain.nothing))) result }
{
    let prefix = build_part(alloc, left, store)?;
    let suffix = build_part(alloc, right, store)?;
    Ok(Cord::cat(alloc, &prefix, &suffix)?)
}

/// The cord of an expression, which is best one part. Refused with its fault, or with `NoMemory`.
pub(crate) fn build_part(alloc: Global, expression: &Expr, store: &Store) -> Result<Cord, Stop>
    ensures { Builds store.now.entries.items (expr_view expression.now) result }
{
    match expression {
        Expr::Name(name) => build_name(alloc, name, store),
        Expr::Run { byte, count } => build_run(alloc, byte, count, store),
        _ => match range_parts(expression) {
            Some((name, start, count)) => build_range(alloc, name, start, count, store),
            None => build_of_pieces(alloc, expression, store),
        },
    }
}

// The cord of a name.
fn build_name(alloc: Global, name: &Name, store: &Store) -> Result<Cord, Stop>
    ensures { Builds store.now.entries.items (plain.name name.now) result }
{
    Ok(shared(alloc, store, name)?)
}

// The cord of copies of a byte.
fn build_run(alloc: Global, byte: &Number, count: &Number, store: &Store) -> Result<Cord, Stop>
    ensures { Builds store.now.entries.items (plain.run byte.now count.now) result }
{
    let copies = copies_asked(store.value_of(byte), store.value_of(count))?;
    Ok(copies_of(alloc, copies.byte, copies.count)?)
}

// The cord of a range of a name.
fn build_range(
    alloc: Global,
    name: &Name,
    start: &Number,
    count: &Number,
    store: &Store,
) -> Result<Cord, Stop>
    ensures { Builds store.now.entries.items (plain.sub (plain.name name.now) start.now count.now) result }
{
    let start = as_index(store.value_of(start))?;
    let count = as_index(store.value_of(count))?;
    let cord = shared(alloc, store, name)?;
    Ok(cord.substr(alloc, start, count)?)
}
