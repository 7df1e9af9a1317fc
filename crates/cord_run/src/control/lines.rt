// The operations of a plan, and their lines.
ghost use Rattle.std.specs.Prelude.{◌≡◌, ◌<◌, Some, length, map, slice_get};
ghost use Rattle.cord_run.specs.inner.{operation_line, operation_view};

use cord_plan::Operation;

/// The line of an operation.
#[inline(always)]
pub(crate) fn operation_line(operation: &Operation) -> u32
    ensures { result ≡ operation_line (operation_view operation.now) }
{
    match operation {
        Operation::Build { line, .. }
        | Operation::Measure { line, .. }
        | Operation::Write { line, .. } => *line,
        Operation::Keep(statement) => statement.line(),
    }
}

/// The operation at a place.
#[inline(always)]
pub(crate) fn operation_at(operations: &[Operation], place: usize) -> &Operation
    requires { place < length operations.now }
    ensures { slice_get (map operation_view operations.now) place ≡ Some (operation_view result.now) }
{
    &operations[place]
}
