// The text of expressions.
ghost use Rattle.std.specs.Prelude.{◌≡◌, [], ◌∷◌, ◌++◌, if◌then◌else◌, map};
ghost use Rattle.cord_iter.specs.Output.{Writes};
ghost use Rattle.cord_plan.specs.PlanText.{expr, exprs, number};
ghost use Rattle.cord_plan.specs.inner.Views.{exprs_after, is_nothing};
ghost use Rattle.cord_plan.specs.Views.{expr_view, members_of, members_view, shared_view};

use super::fragments::{Fragment, put_fragments};
use crate::{Expr, Members};
use cord_io::{Sink, WriteFault};
use cord_iter::put_all;
use cord_script::Number;
use std::rc::Rc;

// Hands a sink the text of an expression.
#[cycle(printed_expressions)]
pub(crate) fn put_expression<W: Sink>(expression: &Expr, sink: &mut W) -> Result<(), WriteFault>
    ensures { Writes ⟦<W as Sink>⟧ (expr (expr_view expression.now)) sink.old sink.new result }
{
    match expression {
        Expr::Name(name) => put_all(name.as_slice(), sink),
        Expr::Run { byte, count } => put_numbers(b"run(", byte, count, sink),
        Expr::Cat(members) => {
            put_all(b"cat(", sink)?;
            put_members(members, sink)?;
            put_all(b")", sink)
        }
        Expr::Sub {
            expression,
            start,
            count,
        } => {
            put_all(b"sub(", sink)?;
            put_expression(expression.as_ref(), sink)?;
            put_numbers(b" ", start, count, sink)
        }
    }
}

// Two numbers between this and a bracket.
fn put_numbers<'a, W: Sink>(
    opened: &'a [u8],
    first: &'a Number,
    second: &'a Number,
    sink: &mut W,
) -> Result<(), WriteFault>
    ensures { Writes ⟦<W as Sink>⟧ (opened.now ++ (number first.now ++ 32 ∷ (number second.now ++ 41 ∷ []))) sink.old
        sink.new result }
{
    put_fragments(
        &[
            Fragment::Plain(opened),
            Fragment::Number(first),
            Fragment::Plain(b" "),
            Fragment::Number(second),
            Fragment::Plain(b")"),
        ],
        sink,
    )
}

// What stands before the members that follow these.
fn blank_after(members: &Members) -> &'static [u8]
    ensures { result.now ≡ (if is_nothing (members_view members.now) then [] else 32 ∷ []) }
{
    if members.is_nothing() { b"" } else { b" " }
}

// The members of a `cat`, separated by one blank.
#[cycle(printed_expressions)]
fn put_members<W: Sink>(members: &Members, sink: &mut W) -> Result<(), WriteFault>
    ensures { Writes ⟦<W as Sink>⟧ (exprs (members_view members.now)) sink.old sink.new result }
{
    let (prefix, rest) = members.halves();
    match prefix {
        None => put_listed(b"", rest, sink),
        Some(prefix) => {
            put_members(prefix, sink)?;
            put_listed(blank_after(prefix), rest, sink)
        }
    }
}

// These members, separated by one blank; the first one stands after this.
#[cycle(printed_expressions)]
fn put_listed<W: Sink>(first: &[u8], members: &[Rc<Expr>], sink: &mut W) -> Result<(), WriteFault>
    ensures { Writes ⟦<W as Sink>⟧ (exprs_after first.now (members_of (map shared_view members.now))) sink.old sink.new
        result }
{
    let mut blank = first;
    for member in members {
        put_all(blank, sink)?;
        put_expression(member.as_ref(), sink)?;
        blank = b" ";
    }
    Ok(())
}
