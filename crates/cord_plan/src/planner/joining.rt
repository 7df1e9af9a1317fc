// The expression of a line, with what stands for its operands.
ghost use Rattle.std.specs.Prelude.{◌≡◌, ◌++◌, ◌∷◌, [], pos, IfOk, map, option_map};
ghost use Rattle.cord_plan.specs.Exprs as plain;
ghost use Rattle.cord_plan.specs.Exprs.{append, preceding, members, nothing};
ghost use Rattle.cord_operands.specs.declared.operands.Number.TheVariants.{Numeral};
ghost use Rattle.cord_plan.specs.Inlined as chosen;
ghost use Rattle.cord_plan.specs.Inlined.{expr_of, expr_with, defining};
ghost use Rattle.cord_plan.specs.inner.Choices.{choice_view};
ghost use Rattle.cord_plan.specs.Views.{expr_view, members_view, shared_view};

use crate::flow::operands_of;
use crate::planner::constructors::{named, run, run_of, sub_of};
use crate::planner::interning::Interner;
use crate::planner::operand_choices::Choice;
use crate::planner::parts::copy;
use crate::{Expr, Members};
use cord_script::{Name, Number, Statement};
use cord_syntax::Operands;
use std::alloc::{AllocError, Global};
use std::rc::Rc;

// An expression that stands for an operand.
fn expression_of(choice: &Choice) -> Result<Expr, AllocError>
    ensures made { IfOk result (λ e. expr_view e ≡ expr_of (choice_view choice.now)) }
{
    match choice {
        Choice::Named(name) => named(name),
        Choice::Replaced(_, expression) => copy(expression),
    }
}

// A copy of an expression, to be shared.
fn shared_copy(alloc: Global, expression: &Expr) -> Result<Rc<Expr>, AllocError>
    ensures made { IfOk result (λ e. shared_view e ≡ expr_view expression.now) }
{
    Ok(Rc::new(alloc, copy(expression)?)?)
}

// The members of a `cat` and a copy of an expression after them; of a `cat` its members, which are shared.
#[inline(always)]
fn with_copy(alloc: Global, members: Members, expression: &Expr) -> Result<Members, AllocError>
    ensures made { IfOk result (λ ms. members_view ms
        ≡ append (members_view members) (preceding (expr_view expression.now) nothing)) }
{
    match expression {
        Expr::Cat(inner) => members.with_shared(alloc, inner),
        Expr::Name(_) | Expr::Run { .. } | Expr::Sub { .. } => {
            members.with(alloc, shared_copy(alloc, expression)?)
        }
    }
}

// The same of an expression that stands for an operand.
#[inline(always)]
fn with_choice(
    alloc: Global,
    interner: &mut Interner,
    members: Members,
    choice: &Choice,
) -> Result<Members, AllocError>
    ensures made { IfOk result (λ ms. members_view ms
        ≡ append (members_view members) (preceding (expr_of (choice_view choice.now)) nothing)) }
{
    match choice {
        Choice::Named(name) => members.with(alloc, interner.name(alloc, name)?),
        Choice::Replaced(_, expression) => with_copy(alloc, members, expression),
    }
}

// The members that these expressions give to a `cat`.
#[inline(always)]
fn joined(alloc: Global, interner: &mut Interner, choices: &[Choice]) -> Result<Members, AllocError>
    ensures made { IfOk result (λ ms. members_view ms ≡ members (map expr_of (map choice_view choices.now))) }
{
    let mut members = Members::nothing();
    'choices: for choice in choices {
        members = with_choice(alloc, interner, members, choice)?;
    }
    Ok(members)
}

// `cat` of the members that these expressions give: others share them, where the first of them are another line's.
fn cat_of(alloc: Global, choices: &[Choice], members: Members) -> Result<Expr, AllocError>
    ensures made { IfOk result (λ e. expr_view e ≡ plain.cat (members_view members)) }
{
    match choices {
        [Choice::Replaced(..), ..] => Ok(Expr::Cat(members.to_share(alloc)?)),
        _ => Ok(Expr::Cat(members)),
    }
}

// `cat` of these expressions.
fn joined_all(
    alloc: Global,
    interner: &mut Interner,
    choices: &[Choice],
) -> Result<Expr, AllocError>
    ensures made { IfOk result (λ e. expr_view e ≡ plain.cat (members (map expr_of (map choice_view choices.now)))) }
{
    let members = joined(alloc, interner, choices)?;
    cat_of(alloc, choices, members)
}

// `cat` of these expressions and one byte.
fn joined_with(
    alloc: Global,
    interner: &mut Interner,
    choices: &[Choice],
    byte: &Number,
) -> Result<Expr, AllocError>
    ensures made { IfOk result (λ e. expr_view e ≡ plain.cat
        (members (map expr_of (map choice_view choices.now) ++ plain.run byte.now (Numeral (pos 1)) ∷ []))) }
{
    let members = joined(alloc, interner, choices)?;
    let all = members.with(alloc, interner.byte(alloc, byte)?)?;
    cat_of(alloc, choices, all)
}

// An expression that stands for an operand, to be shared.
fn shared_expression(
    alloc: Global,
    interner: &mut Interner,
    choice: &Choice,
) -> Result<Rc<Expr>, AllocError>
    ensures made { IfOk result (λ e. shared_view e ≡ expr_of (choice_view choice.now)) }
{
    match choice {
        Choice::Named(name) => interner.name(alloc, name),
        Choice::Replaced(_, expression) => shared_copy(alloc, expression),
    }
}

/// The expression of a simple line, where these stand for its operands; of any other line there is none.
#[inline(always)]
pub(crate) fn expression_with(
    alloc: Global,
    interner: &mut Interner,
    statement: &Statement,
    choices: &[Choice],
) -> Result<Option<Expr>, AllocError>
    ensures made { IfOk result (λ e. option_map expr_view e
        ≡ expr_with statement.now (map expr_of (map choice_view choices.now))) }
{
    match statement {
        Statement::Cat { .. } | Statement::Catn { .. } => Ok(Some(joined_all(
            alloc, interner, choices,
        )?)),
        Statement::Catc { byte, .. } => Ok(Some(joined_with(alloc, interner, choices, byte)?)),
        Statement::Chars { byte, count, .. } => Ok(Some(run_of(byte, count)?)),
        Statement::Nul { count, .. } => {
            let count = count.clone()?;
            Ok(Some(run(Number::Numeral(0), count)))
        }
        Statement::Substr { start, count, .. } => match choices {
            [] => Ok(None),
            [choice, ..] => {
                let expression = shared_expression(alloc, interner, choice)?;
                Ok(Some(sub_of(expression, start, count)?))
            }
        },
        Statement::Put { .. } => match choices {
            [] => Ok(None),
            [choice, ..] => Ok(Some(expression_of(choice)?)),
        },
        _ => Ok(None),
    }
}

// Each of these names, standing for itself.
fn all_named<'a>(alloc: Global, names: &'a [Name]) -> Result<Vec<Choice<'a>>, AllocError>
    ensures { IfOk result (λ cs. map choice_view cs.items ≡ map (λ x. chosen.named x) names.now) }
{
    let mut choices = Vec::with_capacity(alloc, names.len())?;
    for name in names {
        choices.push_reserved(Choice::Named(name));
    }
    Ok(choices)
}

/// The defining expression of a simple statement; of any other there is none.
pub(crate) fn defining_expression(
    alloc: Global,
    interner: &mut Interner,
    statement: &Statement,
) -> Result<Option<Expr>, AllocError>
    ensures made { IfOk result (λ e. option_map expr_view e ≡ defining statement.now) }
{
    match operands_of(statement) {
        None => Ok(None),
        Some(Operands::Nothing) => expression_with(alloc, interner, statement, &[]),
        Some(Operands::One(operand)) => {
            expression_with(alloc, interner, statement, &[Choice::Named(operand)])
        }
        Some(Operands::Two(left, right)) => {
            let choices = [Choice::Named(left), Choice::Named(right)];
            expression_with(alloc, interner, statement, &choices)
        }
        Some(Operands::Listed(names)) => {
            let choices = all_named(alloc, names)?;
            expression_with(alloc, interner, statement, &choices)
        }
    }
}
