// Which line gave a name its cord last, and whether the names of its expression stay what they were.
ghost use Rattle.std.specs.Prelude.{◌≡◌, ◌++◌, ℕ, List, [], ◌∷◌, true, IfSome, map};
ghost use Rattle.cord_plan.specs.Exprs as plain;
ghost use Rattle.cord_plan.specs.Exprs.{names, names_of, number_names};
ghost use Rattle.cord_plan.specs.inner.Choices.{nearest, IsFacts, IsSimpleLine};
ghost use Rattle.cord_plan.specs.inner.Numbering.{number_of};
ghost use Rattle.cord_plan.specs.inner.Liveness.{stay};
ghost use Rattle.cord_plan.specs.Views.{expr_view, members_of, members_view, shared_view};

use crate::flow::{entry_at, is_before, unless_after};
use crate::planner::expression_facts::Facts;
use crate::planner::operand_choices::Line;
use crate::{Expr, Members};
use cord_script::{Name, Number};
use std::rc::Rc;

/// So many lines are looked at faster than the numbers of names.
const NEAR: usize = 2;

/// The last line before a line that assigns a name of this number, where neither a block's line nor one that reads the
/// name stands after it.
pub(crate) fn nearest(line: &Line, number: Option<usize>) -> Option<usize>
    requires { IsSimpleLine line.now }
    ensures { (x : List ℕ) → number ≡ number_of line.now.recent.now.later.now.numbering x →
        result ≡ nearest line.now.statements.now x line.now.place }
{
    let recent = line.recent;
    let source = entry_at(&recent.assigned, number);
    unless_after(source, entry_at(&recent.read, number), recent.block)
}

// Whether no line from a place up to a line assigns a name.
fn name_stays(line: &Line, from: usize, name: &Name) -> bool
    requires { IsSimpleLine line.now }
    ensures { result ≡ stay line.now.statements.now from line.now.place (name.now ∷ []) }
{
    let recent = line.recent;
    let number = recent.later.numbering.number_of(name);
    is_before(entry_at(&recent.assigned, number), from)
}

fn number_stays(line: &Line, from: usize, number: &Number) -> bool
    requires { IsSimpleLine line.now }
    ensures { result ≡ stay line.now.statements.now from line.now.place (number_names number.now) }
{
    match number {
        Number::Numeral(_) => true,
        Number::Named(name) => name_stays(line, from, name),
    }
}

fn numbers_stay(line: &Line, from: usize, first: &Number, second: &Number) -> bool
    requires { IsSimpleLine line.now }
    ensures { result ≡ stay line.now.statements.now from line.now.place
        (number_names first.now ++ number_names second.now) }
{
    number_stays(line, from, first) && number_stays(line, from, second)
}

// Whether no line from a place up to a line assigns a name of an expression, by the numbers of its names.
#[cycle(stays_far)]
fn stays_far(line: &Line, from: usize, expression: &Expr) -> bool
    requires { IsSimpleLine line.now }
    ensures { result ≡ stay line.now.statements.now from line.now.place (names (expr_view expression.now)) }
{
    match expression {
        Expr::Name(name) => name_stays(line, from, name),
        Expr::Run { byte, count } => numbers_stay(line, from, byte, count),
        Expr::Cat(members) => members_stay_far(line, from, members),
        Expr::Sub {
            expression,
            start,
            count,
        } => {
            stays_far(line, from, expression.as_ref()) && numbers_stay(line, from, start, count)
        }
    }
}

// The same of members.
#[cycle(stays_far)]
fn members_stay_far(line: &Line, from: usize, members: &Members) -> bool
    requires { IsSimpleLine line.now }
    ensures { result ≡ stay line.now.statements.now from line.now.place (names_of (members_view members.now)) }
{
    let (prefix, rest) = members.halves();
    match prefix {
        None => all_stay_far(line, from, rest),
        Some(prefix) => members_stay_far(line, from, prefix) && all_stay_far(line, from, rest),
    }
}

// The same of all these expressions.
#[cycle(stays_far)]
fn all_stay_far(line: &Line, from: usize, members: &[Rc<Expr>]) -> bool
    requires { IsSimpleLine line.now }
    ensures { result ≡ stay line.now.statements.now from line.now.place
        (names_of (members_of (map shared_view members.now))) }
{
    for member in members {
        if !stays_far(line, from, member.as_ref()) {
            return false;
        }
    }
    true
}

// Whether no line from one place up to another assigns a name that a line read since a place, nor one of an expression
// of which this is known.
fn stays_near(line: &Line, from: usize, facts: Facts) -> bool
    requires { IsSimpleLine line.now }
    ensures { (e : plain.Expr) → IsFacts line.now.statements.now line.now.place e facts → result ≡ true →
        stay line.now.statements.now from line.now.place (names e) ≡ true }
{
    let recent = line.recent;
    for p in from..line.place {
        let target = recent.later.numbering.line(p).target;
        if !is_before(entry_at(&recent.read, target), facts.since) {
            return false;
        }
    }
    true
}

/// Whether no line from a place up to a line assigns a name of an expression.
pub(crate) fn stays(line: &Line, from: usize, expression: &Expr, facts: Option<Facts>) -> bool
    requires facts { IfSome facts (λ f. IsFacts line.now.statements.now line.now.place (expr_view expression.now) f) }
    requires line { IsSimpleLine line.now }
    ensures { result ≡ stay line.now.statements.now from line.now.place (names (expr_view expression.now)) }
{
    if let Some(facts) = facts {
        if line.place <= from.saturating_add(NEAR) && stays_near(line, from, facts) {
            return true;
        }
    }
    stays_far(line, from, expression)
}
