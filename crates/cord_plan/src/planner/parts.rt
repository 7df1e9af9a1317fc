// Walks over expressions: their parts, copies of them.
ghost use Rattle.std.specs.Prelude.{◌≡◌, IfOk, map};
ghost use Rattle.cord_plan.specs.Exprs.{parts, parts_of};
ghost use Rattle.cord_plan.specs.inner.Choices.{room_left};
ghost use Rattle.cord_plan.specs.Views.{expr_view, members_of, members_view, shared_view};

use crate::planner::constructors::{named, run_of, sub_of};
use crate::{Expr, Members};
use std::alloc::AllocError;
use std::rc::Rc;

/// How much of a room is left after the parts of an expression, where they find room.
#[cycle(room_left)]
pub(crate) fn room_left(expression: &Expr, room: u32) -> Option<u32>
    ensures { result ≡ room_left (parts (expr_view expression.now)) room }
{
    match expression {
        Expr::Name(_) | Expr::Run { .. } => room.checked_sub(1),
        Expr::Cat(members) => room_left_members(members, room),
        Expr::Sub { expression, .. } => match room_left(expression.as_ref(), room) {
            Some(rest) => rest.checked_sub(1),
            None => None,
        },
    }
}

// The same of members.
#[cycle(room_left)]
fn room_left_members(members: &Members, room: u32) -> Option<u32>
    ensures { result ≡ room_left (parts_of (members_view members.now)) room }
{
    let (prefix, rest) = members.halves();
    match prefix {
        None => room_left_all(rest, room),
        Some(prefix) => match room_left_members(prefix, room) {
            Some(less) => room_left_all(rest, less),
            None => None,
        },
    }
}

// The same of all these expressions.
#[cycle(room_left)]
fn room_left_all(members: &[Rc<Expr>], room: u32) -> Option<u32>
    ensures { result ≡ room_left (parts_of (members_of (map shared_view members.now))) room }
{
    let mut rest = room;
    for member in members {
        match room_left(member.as_ref(), rest) {
            Some(less) => rest = less,
            None => return None,
        }
    }
    Some(rest)
}

/// A copy of an expression, which shares the members of a `cat` and what a `sub` is of.
pub(crate) fn copy(expression: &Expr) -> Result<Expr, AllocError>
    ensures made { IfOk result (λ e. expr_view e ≡ expr_view expression.now) }
{
    match expression {
        Expr::Name(name) => named(name),
        Expr::Run { byte, count } => run_of(byte, count),
        Expr::Cat(members) => Ok(Expr::Cat(members.shared()?)),
        Expr::Sub {
            expression,
            start,
            count,
        } => {
            let shared = expression.clone()?;
            sub_of(shared, start, count)
        }
    }
}
