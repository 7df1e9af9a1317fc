// The planner: what stands for each operand, the expression of each line, and its operation.
mod constructors;
mod expression_facts;
mod expressions;
mod interning;
mod joining;
mod lines;
mod operand_choices;
mod parts;
mod unchanged;

ghost use Rattle.std.specs.Prelude.{◌≡◌, ℕ, Bool, List, IfOk, IsOkUnless, if◌then◌else◌, length, map};
ghost use Rattle.cord_plan.specs.inner.Liveness.{reports, IsReported};
ghost use Rattle.cord_plan.specs.inner.Numbering.{IsNumberIn};
ghost use Rattle.cord_plan.specs.inner.Choices.{AreUnpaired, measured};
ghost use Rattle.cord_plan.specs.Meaning.{IsPlanOf};
ghost use Rattle.cord_plan.specs.Operands.{target_of};
ghost use Rattle.cord_syntax.specs.declared.statements.Statement.{Statement};
ghost use Rattle.cord_plan.specs.Planned as plan;
ghost use Rattle.cord_plan.specs.Liveness.{IsLater};
ghost use Rattle.cord_plan.specs.Views.{operation_view};

use self::expressions::planned_operations;
pub(crate) use self::interning::Interner;
pub(crate) use self::joining::defining_expression;
pub(crate) use self::lines::operation_of;
use crate::flow::Later;
use crate::{Made, Operation, Plan};
use cord_io::CordError;
use cord_script::Script;
use core::mem::replace_with;
use std::alloc::Global;

// Whether a line has a target, whose number this is, that isn't read later.
fn is_dead(target: Option<usize>, place: usize, later: &Later) -> bool
    ensures { (l : Statement) → IsNumberIn later.now.numbering (target_of l) target → IsReported later.now l place →
        result ≡ plan.is_dead (reports later.now) place (target_of l) }
{
    match target {
        None => false,
        Some(_) => !later.is_target_later(target, place),
    }
}

// The operation that computes the length alone where this one builds what an expression makes.
#[inline(always)]
fn measured(operation: Operation) -> Operation
    ensures { operation_view result ≡ measured (operation_view operation) }
{
    match operation {
        Operation::Build { line, target, made } => match made {
            Made::Joined(expression) => {
                let made = Made::Joined(expression);
                Operation::Measure { line, target, made }
            }
            made => Operation::Build { line, target, made },
        },
        other => other,
    }
}

// Lets an operation compute the length alone, where a later line takes its expression.
#[inline(always)]
fn measure_if(operation: &mut Operation, is_taken: bool)
    ensures { operation_view operation.new
        ≡ (if is_taken then measured (operation_view operation.old) else operation_view operation.old) }
{
    if !is_taken {
        return;
    }
    replace_with(operation, (), |made, unit| (measured(made), unit));
}

// Lets the operations of the lines whose expressions later lines take compute the length alone.
fn measure_taken(operations: &mut [Operation], taken: &[bool])
    requires { length operations.old ≡ length taken.now }
    ensures { (s : List Statement) (later : List ℕ → ℕ → Bool) → AreUnpaired s later (map operation_view operations.old)
        taken.now → map operation_view operations.new ≡ plan.planned s later }
{
    for (place, is_taken) in taken.iter().enumerate() {
        measure_if(&mut operations[place], *is_taken);
    }
}

/// The plan of a script: a name that nobody reads gets a length alone, and what is read once, in the expression of a
/// later line, is made there.
///
/// Refused only with `NoMemory`.
pub fn plan(alloc: Global, script: &Script) -> Result<Plan, CordError>
    // Given exactly what is read later, these are the planned operations.
    ensures made { IfOk result (λ p. (later : List ℕ → ℕ → Bool) × IsLater script.now later ×
        (map operation_view p ≡ plan.planned script.now later)) }
    // Over all files it does what the script does.
    ensures means { IfOk result (λ p. IsPlanOf script.now (map operation_view p)) }
    ensures refused { IsOkUnless result CordError.NoMemory }
{
    let statements = script.statements();
    let later = Later::of(alloc, statements)?;
    let (operations, extending) = planned_operations(alloc, statements, &later)?;
    Ok(Plan::of(operations, extending, later.numbering.into_names()))
}
