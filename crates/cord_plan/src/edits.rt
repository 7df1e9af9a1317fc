// Edits: what a name gets that is made of its own text.
ghost use Rattle.std.specs.Prelude.{◌≡◌, IfSome, true};
ghost use Rattle.cord_plan.specs.Edits.{edit_view, own_range};
ghost use Rattle.cord_plan.specs.Exprs.{cat, member, name, nothing};
ghost use Rattle.cord_plan.specs.Planned.{Joined};
ghost use Rattle.cord_plan.specs.Views.{expr_view, made_view, members_view};

use crate::{Expr, Made, Members};
use cord_script::{Name, Number};

/// A range of the text that a name holds: at most so many bytes from a place on.
#[derive(Clone, Copy)]
pub struct OwnRange<'a> {
    pub start: &'a Number,
    pub count: &'a Number,
}

/// What a name gets, where it is made of the text x that the name holds.
#[derive(Clone, Copy)]
pub enum Edit<'a> {
    /// `cat(x E)`.
    Append(&'a Expr),
    /// `cat(E x)`.
    Prepend(&'a Expr),
    /// `sub(x i n)`.
    Range(OwnRange<'a>),
    /// Something in the place of bytes in the middle, or nothing.
    Replace(Replacement<'a>),
}

/// `cat(sub(x i n) E sub(x j m))`, or the same without E.
#[derive(Clone, Copy)]
pub struct Replacement<'a> {
    pub prefix: OwnRange<'a>,
    pub middle: Option<&'a Expr>,
    pub suffix: OwnRange<'a>,
}

impl Made {
    /// The edit of the text of a name by which the name gets this, where it is one. O(1), and no memory.
    #[inline(always)]
    pub fn edit_of(&self, target: &Name) -> Option<Edit<'_>>
        ensures { IfSome result (λ edit. made_view self.now ≡ Joined (edit_view target.now edit)) }
    {
        match self {
            Made::Joined(Expr::Cat(members)) => joined_edit(target, members),
            Made::Joined(expression) => Some(Edit::Range(own_range(target, expression)?)),
            _ => None,
        }
    }
}

// The edit that members make together, where they are two or three.
#[inline(always)]
fn joined_edit<'a>(target: &Name, members: &'a Members) -> Option<Edit<'a>>
    ensures { IfSome result (λ edit. cat (members_view members.now) ≡ edit_view target.now edit) }
{
    match members.halves() {
        (None, [first, last]) => pair_edit(target, first.as_ref(), last.as_ref()),
        (Some(prefix), [last]) => match prefix.halves() {
            (None, [first, middle]) => Some(Edit::Replace(Replacement {
                prefix: own_range(target, first.as_ref())?,
                middle: Some(middle.as_ref()),
                suffix: own_range(target, last.as_ref())?,
            })),
            _ => None,
        },
        _ => None,
    }
}

// The edit that two members make.
#[inline(always)]
fn pair_edit<'a>(target: &Name, first: &'a Expr, last: &'a Expr) -> Option<Edit<'a>>
    ensures { IfSome result (λ edit. cat (member (expr_view first.now) (member (expr_view last.now) nothing))
        ≡ edit_view target.now edit) }
{
    if is_own(target, first) {
        return Some(Edit::Append(last));
    }
    if is_own(target, last) {
        return Some(Edit::Prepend(first));
    }
    Some(Edit::Replace(Replacement {
        prefix: own_range(target, first)?,
        middle: None,
        suffix: own_range(target, last)?,
    }))
}

// Whether an expression is the text of a name.
#[inline(always)]
fn is_own(target: &Name, expression: &Expr) -> bool
    ensures { result ≡ true → expr_view expression.now ≡ name target.now }
{
    match expression {
        Expr::Name(name) => name.is(target),
        _ => false,
    }
}

// The range of the text of a name that an expression is.
#[inline(always)]
fn own_range<'a>(target: &Name, expression: &'a Expr) -> Option<OwnRange<'a>>
    ensures { IfSome result (λ range. expr_view expression.now ≡ own_range target.now range) }
{
    match expression {
        Expr::Sub {
            expression,
            start,
            count,
        } if is_own(target, expression.as_ref()) => Some(OwnRange { start, count }),
        _ => None,
    }
}
