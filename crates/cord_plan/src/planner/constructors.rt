// Expressions made of copies.
ghost use Rattle.std.specs.Prelude.{◌≡◌, pos, IfOk};
ghost use Rattle.cord_operands.specs.declared.operands.Number.TheVariants.{Numeral};
ghost use Rattle.cord_plan.specs.Exprs as plain;
ghost use Rattle.cord_plan.specs.Views.{expr_view, shared_view};

use crate::Expr;
use cord_script::{Name, Number};
use std::alloc::{AllocError, Global};
use std::rc::Rc;

/// One copy of a byte, to be shared.
pub(crate) fn shared_byte(alloc: Global, byte: &Number) -> Result<Rc<Expr>, AllocError>
    ensures made { IfOk result (λ e. shared_view e ≡ plain.run byte.now (Numeral (pos 1))) }
{
    let byte = byte.clone()?;
    Ok(Rc::new(alloc, run(byte, Number::Numeral(1)))?)
}

/// `run(byte count)`.
pub(crate) fn run(byte: Number, count: Number) -> Expr
    ensures { expr_view result ≡ plain.run byte count }
{
    Expr::Run { byte, count }
}

/// `run(byte count)` of copies of these.
pub(crate) fn run_of(byte: &Number, count: &Number) -> Result<Expr, AllocError>
    ensures made { IfOk result (λ e. expr_view e ≡ plain.run byte.now count.now) }
{
    Ok(run(byte.clone()?, count.clone()?))
}

/// `sub(expression start count)`.
pub(crate) fn sub_of(
    expression: Rc<Expr>,
    start: &Number,
    count: &Number,
) -> Result<Expr, AllocError>
    ensures made { IfOk result (λ e. expr_view e ≡ plain.sub (shared_view expression) start.now count.now) }
{
    let (start, count) = (start.clone()?, count.clone()?);
    Ok(Expr::Sub {
        expression,
        start,
        count,
    })
}

/// A name as an expression.
pub(crate) fn named(name: &Name) -> Result<Expr, AllocError>
    ensures made { IfOk result (λ e. expr_view e ≡ plain.name name.now) }
{
    Ok(Expr::Name(name.clone()?))
}
