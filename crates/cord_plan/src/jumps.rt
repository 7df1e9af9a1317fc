// Where the operations of a plan lead that pass others over.
ghost use Rattle.std.specs.Prelude.{◌≡◌, ◌+◌, ◌<◌, ℕ, false, Some, IfOk, length, map, slice_get};
ghost use Rattle.cord_meaning.specs.Blocks.{jump};
ghost use Rattle.cord_plan.specs.inner.Liveness.{shape_view};
ghost use Rattle.cord_plan.specs.Meaning.{operation_shape};
ghost use Rattle.cord_plan.specs.Views.{operation_view};

use crate::Operation;
use crate::flow::{Shape, is_block, jump, shape_of};
use std::alloc::{AllocError, Global};

// What an operation is to control.
fn operation_shape(operation: &Operation) -> Shape
    ensures { shape_view result ≡ operation_shape (operation_view operation.now) }
{
    match operation {
        Operation::Keep(statement) => shape_of(statement),
        _ => Shape::Straight,
    }
}

/// Whether one of these operations is control. Where none is, each leads to the next one.
pub(crate) fn have_control(operations: &[Operation]) -> bool
    ensures { result ≡ false → (p : ℕ) → jump (map operation_shape (map operation_view operations.now)) p ≡ p + 1 }
{
    for operation in operations {
        if is_block(operation_shape(operation)) {
            return true;
        }
    }
    false
}

fn shapes_of(alloc: Global, operations: &[Operation]) -> Result<Vec<Shape>, AllocError>
    ensures { IfOk result (λ v. map shape_view v.items ≡ map operation_shape (map operation_view operations.now)) }
{
    let mut shapes = Vec::new(alloc);
    for operation in operations {
        shapes.push(operation_shape(operation))?;
    }
    Ok(shapes)
}

/// The place that each operation leads to where it passes others over.
pub(crate) fn jumps(alloc: Global, operations: &[Operation]) -> Result<Vec<usize>, AllocError>
    ensures size { IfOk result (λ v. length v.items ≡ length operations.now) }
    ensures reported { IfOk result (λ v. (p : ℕ) → p < length operations.now →
        slice_get v.items p ≡ Some (jump (map operation_shape (map operation_view operations.now)) p)) }
{
    let shapes = shapes_of(alloc, operations)?;
    let mut places = Vec::new(alloc);
    for place in 0..shapes.len() {
        places.push(jump(&shapes, place))?;
    }
    Ok(places)
}
