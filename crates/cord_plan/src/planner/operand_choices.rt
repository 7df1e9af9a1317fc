// What stands for the operands of a line: their names, or expressions of earlier lines.
ghost use Rattle.std.specs.Prelude.{◌≡◌, ◌==◌, ◌+◌, ◌-◌, ◌<◌, ◌++◌, ◌∷◌, ◌||◌, ℕ, List, Option, Some};
ghost use Rattle.std.specs.Prelude.{IfOk, IfSome, drop, length, map, option_map, slice_get};
ghost use Rattle.cord_plan.specs.Exprs.{names, name, parts};
ghost use Rattle.cord_syntax.specs.declared.statements.Statement.{Statement};
ghost use Rattle.cord_plan.specs.Operands.{assigns, count};
ghost use Rattle.cord_plan.specs.Inlined.{is_small, expr_of, expr_with};
ghost use Rattle.cord_plan.specs.inner.Choices.{is_spare, parts_beside, expression_in, room_left, room_left_by, stands};
ghost use Rattle.cord_plan.specs.inner.Choices.{choice_view, IsChoice, AreChoices, IsFacts, IsKnown, is_cat, is_last};
ghost use Rattle.cord_plan.specs.inner.Choices.{is_named, operation_expression, table_view, IsSimpleLine};
ghost use Rattle.cord_syntax.specs.Readings.{operand_names};
ghost use Rattle.cord_plan.specs.inner.Liveness.{reports};
ghost use Rattle.cord_plan.specs.Views.{expr_view, operation_view};

use crate::flow::{LineNumbers, Recent, assigns, number_at};
use crate::planner::expression_facts::{ExpressionFacts, Facts};
use crate::planner::parts::room_left;
use crate::planner::unchanged::{nearest, stays};
use crate::{Expr, MAX_EXPR_PARTS, Made, Operation};
use cord_script::{Name, Statement};
use cord_syntax::Operands;
use std::alloc::{AllocError, Global};

/// What stands for an operand: its name, or the expression of the line at a place.
#[derive(Clone, Copy)]
pub(crate) enum Choice<'a> {
    Named(&'a Name),
    Replaced(usize, &'a Expr),
}

/// A simple line of a script, with its place, its cord operands, the numbers of its names, and what the lines before it
/// assign and read.
#[derive(Clone, Copy)]
pub(crate) struct Line<'a> {
    pub(crate) statements: &'a [Statement],
    pub(crate) place: usize,
    pub(crate) statement: &'a Statement,
    pub(crate) operands: Operands<'a>,
    pub(crate) numbers: LineNumbers<'a>,
    pub(crate) recent: &'a Recent<'a>,
}

// How many operands there are.
fn operand_count(operands: Operands) -> usize
    ensures { result ≡ length (operand_names operands.entry) }
{
    match operands {
        Operands::Nothing => 0,
        Operands::One(_) => 1,
        Operands::Two(_, _) => 2,
        Operands::Listed(names) => names.len(),
    }
}

// Whether a name stands once in a list.
fn is_once_in(operands: &[Name], name: &Name) -> bool
    ensures { result ≡ (count name.now operands.now == 1) }
{
    let mut times: usize = 0;
    for operand in operands {
        if name.is(operand) {
            times += 1;
        }
    }
    times == 1
}

// Whether a name is one of the operands, and only once.
fn is_named_once(operands: Operands, name: &Name) -> bool
    ensures { result ≡ (count name.now (operand_names operands.entry) == 1) }
{
    match operands {
        Operands::Nothing => false,
        Operands::One(operand) => name.is(operand),
        Operands::Two(left, right) => name.is(left) != name.is(right),
        Operands::Listed(names) => is_once_in(names, name),
    }
}

// Whether nothing but a line itself needs the text of an operand: the line names it once, and assigns it or it isn't
// read later.
fn is_spare(line: &Line, operand: &Name, later: bool) -> bool
    requires { later ≡ reports line.now.recent.now.later.now operand.now line.now.place }
    ensures { result ≡ is_spare line.now.statements.now (reports line.now.recent.now.later.now) line.now.place
        line.now.statement.now (operand_names line.now.operands) operand.now }
{
    is_named_once(line.operands, operand) && (assigns(line.statement, operand) || !later)
}

// The parts of a line's expression beside those of its operands.
fn parts_beside(statement: &Statement) -> usize
    ensures { result ≡ parts_beside statement.now }
{
    match statement {
        Statement::Catc { .. } | Statement::Substr { .. } => 1,
        _ => 0,
    }
}

// How much of a room is left after the parts of what was chosen.
fn room_left_by(chosen: &[Choice], room: u32) -> Option<u32>
    ensures { result ≡ room_left_by (map choice_view chosen.now) room }
{
    let mut rest = room;
    for choice in chosen {
        rest = match choice {
            Choice::Named(_) => rest.checked_sub(1)?,
            Choice::Replaced(_, expression) => room_left(expression, rest)?,
        };
    }
    Some(rest)
}

// How much of a room is left after the parts of an expression, of which this may be known.
fn room_left_known(expression: &Expr, facts: Option<Facts>, room: u32) -> Option<u32>
    requires { (s : List Statement) × (b : ℕ) × IfSome facts (λ f. IsFacts s b (expr_view expression.now) f) }
    ensures { result ≡ room_left (parts (expr_view expression.now)) room }
{
    match facts {
        Some(facts) => room.checked_sub(facts.parts),
        None => room_left(expression, room),
    }
}

// Whether a line's expression stays small with this one for the next operand after those that were chosen for.
fn stays_small(line: &Line, chosen: &[Choice], expression: &Expr, facts: Option<Facts>) -> bool
    requires facts { IfSome facts (λ f. IsFacts line.now.statements.now line.now.place (expr_view expression.now) f) }
    requires line { IsSimpleLine line.now }
    requires more { length chosen.now < length (operand_names line.now.operands) }
    ensures { result ≡ is_small (expr_with line.now.statement.now
        (map expr_of (map choice_view chosen.now) ++ expr_view expression.now
        ∷ map (λ y. name y) (drop (length (map choice_view chosen.now) + 1) (operand_names line.now.operands)))) }
{
    let names = operand_count(line.operands) - chosen.len() - 1;
    match room_left_by(chosen, MAX_EXPR_PARTS) {
        None => false,
        Some(room) => match room_left_known(expression, facts, room) {
            None => false,
            Some(rest) => names + parts_beside(line.statement) <= rest as usize,
        },
    }
}

// The expression of an operation, where it has one.
#[inline(always)]
fn expression_of(operation: &Operation) -> Option<&Expr>
    ensures { option_map (λ e. expr_view e.now) result ≡ operation_expression (operation_view operation.now) }
{
    match operation {
        Operation::Build { made, .. } | Operation::Measure { made, .. } => match made {
            Made::Joined(expression) => Some(expression),
            _ => None,
        },
        Operation::Write { expression, .. } => Some(expression),
        Operation::Keep(_) => None,
    }
}

// The expression of the line at a place, where it has one.
fn expression_at(operations: &[Operation], place: usize) -> Option<&Expr>
    ensures { option_map (λ e. expr_view e.now) result ≡ expression_in (table_view operations.now) place }
{
    expression_of(operations.get(place)?)
}

// Whether the expression of the nearest line that assigns an operand may stand for it, if the line's stays small then.
fn stands(
    line: &Line,
    operand: &Name,
    later: bool,
    source: usize,
    expression: &Expr,
    facts: Option<Facts>,
) -> bool
    requires later { later ≡ reports line.now.recent.now.later.now operand.now line.now.place }
    requires line { IsSimpleLine line.now }
    requires facts { IfSome facts (λ f. IsFacts line.now.statements.now line.now.place (expr_view expression.now) f) }
    ensures { result ≡ stands line.now.statements.now (reports line.now.recent.now.later.now) (expr_view expression.now)
        source line.now.place line.now.statement.now (operand_names line.now.operands) operand.now }
{
    is_spare(line, operand, later) && stays(line, source, expression, facts)
}

/// What stands for the next operand of a line, after those that were chosen for, where the lines before it have these
/// operations.
pub(crate) fn choose<'a>(
    line: &Line,
    known: &ExpressionFacts,
    operand: &'a Name,
    operations: &'a [Operation],
    chosen: &[Choice],
) -> Choice<'a>
    requires line { IsSimpleLine line.now }
    requires known { IsKnown line.now.statements.now line.now.place (table_view operations.now) known.now }
    requires operand { slice_get (operand_names line.now.operands) (length chosen.now) ≡ Some operand.now }
    ensures { IsChoice line.now.statements.now (reports line.now.recent.now.later.now) line.now.place
        line.now.statement.now (operand_names line.now.operands) operand.now
        (table_view operations.now)
        (map choice_view chosen.now) (choice_view result) }
{
    let number = number_at(line.numbers.read, chosen.len());
    match nearest(line, number) {
        None => Choice::Named(operand),
        Some(source) => match expression_at(operations, source) {
            None => Choice::Named(operand),
            Some(expression) => {
                let later = line.recent.later;
                let later = later.is_operand_later(operand, number, chosen.len(), line.place);
                let facts = known.at(number, source);
                if stands(line, operand, later, source, expression, facts)
                    && stays_small(line, chosen, expression, facts)
                {
                    Choice::Replaced(source, expression)
                } else {
                    Choice::Named(operand)
                }
            }
        },
    }
}

#[inline(always)]
fn is_cat(expression: &Expr) -> bool
    ensures { result ≡ is_cat (expr_view expression.now) }
{
    match expression {
        Expr::Cat(_) => true,
        Expr::Name(_) | Expr::Run { .. } | Expr::Sub { .. } => false,
    }
}

/// Whether a choice takes the members that the line before a place joins.
#[inline(always)]
pub(crate) fn is_last(choice: &Choice, place: usize) -> bool
    ensures { result ≡ is_last place (choice_view choice.now) }
{
    match choice {
        Choice::Named(_) => false,
        Choice::Replaced(source, made) => place.saturating_sub(*source) == 1 && is_cat(made),
    }
}

/// Whether a choice is a name.
#[inline(always)]
pub(crate) fn is_named(choice: &Choice) -> bool
    ensures { result ≡ is_named (choice_view choice.now) }
{
    match choice {
        Choice::Named(_) => true,
        Choice::Replaced(..) => false,
    }
}

/// What stands for each operand of a line, where the lines before it have these operations.
pub(crate) fn choose_all<'a>(
    alloc: Global,
    line: &Line<'a>,
    known: &ExpressionFacts,
    operands: &'a [Name],
    operations: &'a [Operation],
) -> Result<Vec<Choice<'a>>, AllocError>
    requires known { IsKnown line.now.statements.now line.now.place (table_view operations.now) known.now }
    requires line { IsSimpleLine line.now }
    requires listed { operand_names line.now.operands ≡ operands.now }
    ensures { IfOk result (λ cs. AreChoices line.now.statements.now
        (reports line.now.recent.now.later.now) line.now.place line.now.statement.now
        (table_view operations.now) (map choice_view cs.items)) }
{
    let mut chosen = Vec::with_capacity(alloc, operands.len())?;
    for operand in operands {
        let choice = choose(line, known, operand, operations, &chosen);
        chosen.push_reserved(choice);
    }
    Ok(chosen)
}
