// Copies of the statements that plans keep.
ghost use Rattle.std.specs.Prelude.{◌≡◌, IfOk, Ok};
ghost use Rattle.cord_syntax.specs.Families.{statement_of};
ghost use Rattle.cord_syntax.specs.declared.families.Family.{Family};

use crate::{Computation, Control, Growth, Look, Search, Statement};
use std::alloc::AllocError;

// Copies of two values.
fn two_copies<A: Clone, B: Clone>(first: &A, second: &B) -> Result<(A, B), AllocError>
    ensures first { IfOk result (λ copies. A.is_clone first.now copies.0) }
    ensures second { IfOk result (λ copies. B.is_clone second.now copies.1) }
{
    let first = first.clone()?;
    Ok((first, second.clone()?))
}

// Copies of three values.
fn three_copies<A: Clone, B: Clone, C: Clone>(
    first: &A,
    second: &B,
    third: &C,
) -> Result<((A, B), C), AllocError>
    ensures first { IfOk result (λ copies. A.is_clone first.now copies.0.0) }
    ensures second { IfOk result (λ copies. B.is_clone second.now copies.0.1) }
    ensures third { IfOk result (λ copies. C.is_clone third.now copies.1) }
{
    let copies = two_copies(first, second)?;
    Ok((copies, third.clone()?))
}

// Both copies, unless one of them is refused.
fn both<A: Drop, B: Drop>(
    left: Result<A, AllocError>,
    right: Result<B, AllocError>,
) -> Result<(A, B), AllocError>
    ensures left { IfOk result (λ copies. left ≡ Ok copies.0) }
    ensures right { IfOk result (λ copies. right ≡ Ok copies.1) }
{
    let left = left?;
    Ok((left, right?))
}

// The statement that has a line and copies of a member's fields.
macro_rules! statement {
    ($line:ident, $name:ident; $a:ident) => {
        Ok(Statement::$name { line: $line, $a: $a.clone()? })
    };
    ($line:ident, $name:ident; $a:ident $b:ident) => {{
        let ($a, $b) = two_copies($a, $b)?;
        Ok(Statement::$name { line: $line, $a, $b })
    }};
    ($line:ident, $name:ident; $a:ident $b:ident $c:ident) => {{
        let (($a, $b), $c) = three_copies($a, $b, $c)?;
        Ok(Statement::$name { line: $line, $a, $b, $c })
    }};
    ($line:ident, $name:ident; $a:ident $b:ident $c:ident $d:ident) => {{
        let (($a, $b), ($c, $d)) = both(two_copies($a, $b), two_copies($c, $d))?;
        Ok(Statement::$name { line: $line, $a, $b, $c, $d })
    }};
    ($line:ident, $name:ident; $a:ident $b:ident $c:ident $d:ident $e:ident $f:ident) => {{
        let ((($a, $b), $c), (($d, $e), $f)) = both(three_copies($a, $b, $c), three_copies($d, $e, $f))?;
        Ok(Statement::$name { line: $line, $a, $b, $c, $d, $e, $f })
    }};
}

// The statement that has a line and copies of the fields of whichever member this is.
macro_rules! copied {
    ($family:ident, $member:ident, $line:ident; $($name:ident($($field:ident),+)),*) => {
        match $member {
            $($family::$name { $($field),+ } => statement!($line, $name; $($field)+),)*
        }
    };
}

impl Computation<'_> {
    /// The statement of a line that computes this, with copies of the fields.
    pub fn copied(self, line: u32) -> Result<Statement, AllocError>
        ensures { IfOk result (λ copy. copy ≡ statement_of line (Family.Computation self.entry)) }
    {
        copied!(Computation, self, line;
            Len(target, operand),
            Assign(target, value),
            Add(target, left, right),
            Sub(target, left, right)
        )
    }
}

impl Look<'_> {
    /// The statement of a line that finds this, with copies of the fields.
    pub fn copied(self, line: u32) -> Result<Statement, AllocError>
        ensures { IfOk result (λ copy. copy ≡ statement_of line (Family.Look self.entry)) }
    {
        copied!(Look, self, line;
            Fetch(target, operand, index),
            Cmp(target, left, right),
            Ncmp(target, left, left_start, right, right_start, count)
        )
    }
}

impl Search<'_> {
    /// The statement of a line that finds this place, with copies of the fields.
    pub fn copied(self, line: u32) -> Result<Statement, AllocError>
        ensures { IfOk result (λ copy. copy ≡ statement_of line (Family.Search self.entry)) }
    {
        copied!(Search, self, line;
            Str(target, operand, start, pattern),
            Chr(target, operand, start, byte),
            Rchr(target, operand, start, byte)
        )
    }
}

impl Growth<'_> {
    /// The statement of a line that lets an extensible cord grow so, with copies of the fields.
    pub fn copied(self, line: u32) -> Result<Statement, AllocError>
        ensures { IfOk result (λ copy. copy ≡ statement_of line (Family.Growth self.entry)) }
    {
        copied!(Growth, self, line;
            EcInit(target),
            EcPut(extensible, byte),
            EcCat(extensible, operand),
            EcStr(extensible, text)
        )
    }
}

impl Control<'_> {
    /// The statement of a line that leads the run so, with copies of the fields.
    pub fn copied(self, line: u32) -> Result<Statement, AllocError>
        ensures { IfOk result (λ copy. copy ≡ statement_of line (Family.Control self.entry)) }
    {
        match self {
            Control::Repeat { count } => statement!(line, Repeat; count),
            Control::If {
                left,
                relation,
                right,
            } => {
                let (left, right) = two_copies(left, right)?;
                Ok(Statement::If {
                    line,
                    left,
                    relation,
                    right,
                })
            }
            Control::Else => Ok(Statement::Else { line }),
            Control::End => Ok(Statement::End { line }),
        }
    }
}
