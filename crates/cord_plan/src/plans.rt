// Plans.
ghost use Rattle.std.specs.Prelude.{◌≡◌, All, ◌+◌, ◌<◌, ℕ, Some, IfErr, IfOk, IsOkUnless};
ghost use Rattle.std.specs.Prelude.{false, length, map, slice_get, true};
ghost use Rattle.std.specs.List.{IsDistinct};
ghost use Rattle.std.specs.Str.{bytes_eq};
ghost use Rattle.cord_meaning.specs.Blocks.{jump};
ghost use Rattle.cord_iter.specs.Output.{Writes};
ghost use Rattle.cord_plan.specs.Extending.{Extends};
ghost use Rattle.cord_plan.specs.inner.Views.{AreExtending};
ghost use Rattle.cord_plan.specs.Verbatim.{KeepsNoOther};
ghost use Rattle.cord_plan.specs.Meaning.{IsPlanOf, operation_shape};
ghost use Rattle.cord_plan.specs.Planned as plan;
ghost use Rattle.cord_plan.specs.PlanText.{text_of_plan};
ghost use Rattle.cord_plan.specs.Views.{operation_view};

use crate::Operation;
use crate::flow::Numbering;
use crate::jumps::{have_control, jumps};
use crate::plan_text::put_operations;
use crate::planner::{Interner, defining_expression, operation_of};
use cord_io::{CordError, Sink};
use cord_script::{Name, Script, Statement};
use std::alloc::{AllocError, Global};
use std::marker::Model;

/// The operations of a script, in the order of its lines, and its names.
#[derive(Drop)]
pub struct Plan {
    operations: Vec<Operation>,
    extending: Vec<bool>,
    names: Vec<Name>,
}

impl Model for Plan {
    ghost use Rattle.std.specs.Prelude.{List};
    ghost use Rattle.cord_plan.specs.declared.operations.Operation.{Operation};

    ghost Value = { List Operation };

    ghost use Rattle.std.specs.Coded.{codes};
    ghost use Rattle.cord_plan.specs.contracts.expressions.Expr as expression;

    ghost coded = { Prim.hlevel (codes, expression.the_row.coded) };

    ghost view = { λ p. p.operations.items };

    ghost use Rattle.std.specs.Prelude.{map};
    ghost use Rattle.cord_plan.specs.inner.Views.{HasPlanFacts};
    ghost use Rattle.cord_plan.specs.Views.{operation_view};

    ghost invariant = { λ p. HasPlanFacts p.extending.items (map operation_view p.operations.items) p.names.items };
}

// The operations of the trivial plan.
fn trivial_operations(alloc: Global, statements: &[Statement]) -> Result<Vec<Operation>, AllocError>
    ensures made { IfOk result (λ os. map operation_view os.items ≡ plan.trivial statements.now) }
{
    let mut operations = Vec::with_capacity(alloc, statements.len())?;
    let mut interner = Interner::of(alloc);
    'lines: for statement in statements {
        let mut expression = defining_expression(alloc, &mut interner, statement)?;
        let operation = operation_of(statement, &mut expression, false)?;
        operations.push_reserved(operation);
    }
    Ok(operations)
}

impl Plan {
    // The plan of these operations, of which some are reported to extend the one before, over these names, without
    // taking memory.
    pub(crate) fn of(operations: Vec<Operation>, extending: Vec<bool>, names: Vec<Name>) -> Plan
        requires kept { All KeepsNoOther (map operation_view operations.items) }
        requires extending { AreExtending extending.items (map operation_view operations.items) }
        requires distinct { IsDistinct bytes_eq names.items }
        ensures { result ≡ operations.items }
    {
        Plan {
            operations,
            extending,
            names,
        }
    }

    /// The plan that makes every line's defining expression. Refused only with `NoMemory`.
    pub fn trivial(alloc: Global, script: &Script) -> Result<Plan, CordError>
        ensures made { IfOk result (λ p. map operation_view p ≡ plan.trivial script.now) }
        ensures means { IfOk result (λ p. IsPlanOf script.now (map operation_view p)) }
        ensures refused { IsOkUnless result CordError.NoMemory }
    {
        let statements = script.statements();
        let operations = trivial_operations(alloc, statements)?;
        let numbering = Numbering::of(alloc, statements)?;
        Ok(Plan::of(operations, Vec::new(alloc), numbering.into_names()))
    }

    /// The operations in order. Those that are kept make no cord and put nothing.
    pub fn operations(&self) -> &[Operation]
        ensures listed { result.now ≡ self.now }
        ensures kept { All KeepsNoOther (map operation_view self.now) }
    {
        &self.operations
    }

    /// The names of the script's lines, in the order of their first assignment, each once.
    pub fn names(&self) -> &[Name]
        ensures distinct { IsDistinct bytes_eq result.now }
    {
        &self.names
    }

    /// Whether the operation at a place joins what the one before it joins, and one member more; the one before it
    /// doesn't name what it makes. Not said of each that does. O(1).
    #[inline(always)]
    pub fn extends(&self, place: usize) -> bool
        ensures { result ≡ true → Extends (map operation_view self.now) place }
    {
        match self.extending.get(place) {
            Some(reported) => *reported,
            None => false,
        }
    }

    /// Whether an operation is control: a `repeat`, an `if`, an `else` or an `end`. Where none is, each operation leads
    /// to the next one. O(operations), and no memory.
    pub fn has_control(&self) -> bool
        ensures { result ≡ false → (p : ℕ) →
            jump (map operation_shape (map operation_view self.now)) p ≡ p + 1 }
    {
        have_control(&self.operations)
    }

    /// For each operation the place that it leads to where it passes others over: a `repeat` after its `end`, an `if`
    /// after its `else` or, where it has none, to its `end`, an `else` to its `end`, and any other to the next one.
    /// Refused only with `NoMemory`.
    pub fn jumps(&self, alloc: Global) -> Result<Vec<usize>, CordError>
        ensures size { IfOk result (λ v. length v.items ≡ length self.now) }
        ensures reported { IfOk result (λ v. (p : ℕ) → p < length self.now →
            slice_get v.items p ≡ Some (jump (map operation_shape (map operation_view self.now)) p)) }
        ensures refused { IsOkUnless result CordError.NoMemory }
    {
        Ok(jumps(alloc, &self.operations)?)
    }

    /// Hands a sink the text of the plan: one line an operation, ended by byte 10. Refused with `WriteFailed` where the
    /// sink failed: then it took a prefix of the text.
    pub fn show<W: Sink>(&self, sink: &mut W) -> Result<(), CordError>
        ensures writes { Writes ⟦<W as Sink>⟧ (text_of_plan (map operation_view self.now)) sink.old sink.new result }
        ensures refused { IfErr result (λ e. e ≡ CordError.WriteFailed) }
    {
        Ok(put_operations(&self.operations, sink)?)
    }
}
