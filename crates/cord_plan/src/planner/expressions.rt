// The operations of a script's lines, each with its expression over those of the lines before it.
ghost use Rattle.std.specs.Prelude.{◌≡◌, ◌∷◌, [], List, Option, Some, IfOk, map, slice_get};
ghost use Rattle.cord_plan.specs.Exprs as plain;
ghost use Rattle.cord_plan.specs.inner.Choices.{choice_view, AreChoices, IsKnown, AreLonger, IsNext};
ghost use Rattle.cord_plan.specs.inner.Choices.{IsSimpleLine, Takes, is_longer, table_view};
ghost use Rattle.cord_plan.specs.inner.Liveness.{reports, AllReported, IsRecent};
ghost use Rattle.cord_plan.specs.inner.Numbering.{IsNumbered, IsNumbering};
ghost use Rattle.cord_plan.specs.Planned.{planned};
ghost use Rattle.cord_plan.specs.Views.{operation_view};

use crate::flow::{Later, LineNumbers, Recent, operands_of};
use crate::planner::expression_facts::ExpressionFacts;
use crate::planner::interning::Interner;
use crate::planner::joining::expression_with;
use crate::planner::lines::operation_of;
use crate::planner::operand_choices::{Choice, Line, choose, choose_all, is_last, is_named};
use crate::planner::{is_dead, measure_taken};
use crate::{Expr, Operation};
use cord_script::Statement;
use cord_syntax::Operands;
use std::alloc::{AllocError, Global};

// Whether a line with these choices joins the members that the line before it joins, and one more.
#[inline(always)]
fn is_longer(line: &Line, choices: &[Choice]) -> bool
    ensures { result ≡ is_longer line.now.place line.now.statement.now (map choice_view choices.now) }
{
    match (line.statement, choices) {
        (Statement::Catc { .. }, [first]) => is_last(first, line.place),
        (Statement::Cat { .. } | Statement::Catn { .. }, [first, second]) => {
            is_last(first, line.place) && is_named(second)
        }
        _ => false,
    }
}

// Notes the line whose expression a choice takes, where it takes one.
#[inline(always)]
fn note_choice(taken: &mut [bool], choice: &Choice)
    ensures { Takes (choice_view choice.now ∷ []) taken.old taken.new }
{
    match choice {
        Choice::Named(_) => {}
        Choice::Replaced(place, _) => {
            if *place < taken.len() {
                taken[*place] = true;
            }
        }
    }
}

// The same of each of these choices.
#[inline(always)]
fn note_choices(taken: &mut [bool], choices: &[Choice])
    ensures { Takes (map choice_view choices.now) taken.old taken.new }
{
    'choices: for choice in choices {
        note_choice(taken, choice);
    }
}

// The expression of a simple line with these choices, which are noted, and whether it is reported to extend the one
// before it.
#[inline(always)]
fn taking(
    alloc: Global,
    interner: &mut Interner,
    line: &Line,
    choices: &[Choice],
    known: &mut ExpressionFacts,
    taken: &mut [bool],
) -> Result<(Option<Expr>, bool), AllocError>
    requires { IsSimpleLine line.now }
    ensures { (table : List (Option plain.Expr)) → IsKnown line.now.statements.now line.now.place table known.old →
        AreChoices line.now.statements.now (reports line.now.recent.now.later.now) line.now.place
        line.now.statement.now table (map choice_view choices.now) → IfOk result (IsNext line.now.statements.now
        (reports line.now.recent.now.later.now) line.now.place line.now.statement.now table taken.old taken.new
        known.new) }
{
    known.note(line, choices);
    note_choices(taken, choices);
    let expression = expression_with(alloc, interner, line.statement, choices)?;
    Ok((expression, is_longer(line, choices)))
}

// The same of a simple line, which is chosen for. What is chosen for at most two operands takes no memory.
fn expression_over<'a>(
    alloc: Global,
    interner: &mut Interner,
    line: &Line<'a>,
    known: &mut ExpressionFacts,
    operations: &'a [Operation],
    taken: &mut [bool],
) -> Result<(Option<Expr>, bool), AllocError>
    requires line { IsSimpleLine line.now }
    requires known { IsKnown line.now.statements.now line.now.place (table_view operations.now) known.old }
    ensures { IfOk result (IsNext line.now.statements.now (reports line.now.recent.now.later.now) line.now.place
        line.now.statement.now (table_view operations.now) taken.old taken.new known.new) }
{
    match line.operands {
        Operands::Nothing => taking(alloc, interner, line, &[], known, taken),
        Operands::One(operand) => {
            let choice = choose(line, known, operand, operations, &[]);
            taking(alloc, interner, line, &[choice], known, taken)
        }
        Operands::Two(left, right) => {
            let first = choose(line, known, left, operations, &[]);
            let second = choose(line, known, right, operations, &[first]);
            taking(alloc, interner, line, &[first, second], known, taken)
        }
        Operands::Listed(operands) => {
            let choices = choose_all(alloc, line, known, operands, operations)?;
            taking(alloc, interner, line, &choices, known, taken)
        }
    }
}

// The expression of the next line, where it is a simple one, after those that have these operations, and whether it is
// reported to extend the one before it. The lines that it takes are noted.
fn next_expression(
    alloc: Global,
    interner: &mut Interner,
    statements: &[Statement],
    place: usize,
    statement: &Statement,
    numbers: LineNumbers,
    recent: &Recent,
    known: &mut ExpressionFacts,
    operations: &[Operation],
    taken: &mut [bool],
) -> Result<(Option<Expr>, bool), AllocError>
    requires here { slice_get statements.now place ≡ Some statement.now }
    requires recent { IsRecent statements.now place recent.now }
    requires numbers { IsNumbered recent.now.later.now.numbering statement.now numbers }
    requires reported { AllReported statements.now recent.now.later.now }
    requires known { IsKnown statements.now place (table_view operations.now) known.old }
    ensures { IfOk result (IsNext statements.now (reports recent.now.later.now) place statement.now
        (table_view operations.now) taken.old taken.new known.new) }
{
    let Some(operands) = operands_of(statement) else {
        return Ok((None, false));
    };
    let line = Line {
        statements,
        place,
        statement,
        operands,
        numbers,
        recent,
    };
    expression_over(alloc, interner, &line, known, operations, taken)
}

/// The operations of a script's lines, given what is read later, and for each line whether it is reported to extend the
/// one before it.
pub(crate) fn planned_operations(
    alloc: Global,
    statements: &[Statement],
    later: &Later,
) -> Result<(Vec<Operation>, Vec<bool>), AllocError>
    requires reported { AllReported statements.now later.now }
    requires numbered { IsNumbering statements.now later.now.numbering }
    ensures made { IfOk result (λ r. map operation_view r.0.items ≡ planned statements.now (reports later.now)) }
    ensures extending { IfOk result (λ r. AreLonger statements.now (reports later.now) r.1.items) }
{
    let mut taken = vec![in alloc; false; statements.len()]?;
    let mut extending = Vec::with_capacity(alloc, statements.len())?;
    let mut known = ExpressionFacts::of(alloc, later.numbering.count())?;
    let mut recent = Recent::of(alloc, later)?;
    let mut operations = Vec::with_capacity(alloc, statements.len())?;
    let mut interner = Interner::of(alloc);
    for (place, statement) in statements.iter().enumerate() {
        let numbers = later.numbering.line(place);
        let next = next_expression(
            alloc,
            &mut interner,
            statements,
            place,
            statement,
            numbers,
            &recent,
            &mut known,
            &operations,
            &mut taken,
        )?;
        let (mut expression, extends) = next;
        let dead = is_dead(numbers.target, place, later);
        match operation_of(statement, &mut expression, dead) {
            Ok(operation) => operations.push_reserved(operation),
            Err(error) => return Err(error),
        }
        extending.push_reserved(extends);
        recent.note(statement, numbers, place);
    }
    measure_taken(&mut operations, &taken);
    Ok((operations, extending))
}
