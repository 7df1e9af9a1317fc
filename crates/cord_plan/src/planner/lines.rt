// The operation of a line.
ghost use Rattle.std.specs.Prelude.{◌≡◌, Bool, false, IfOk, option_map};
ghost use Rattle.cord_syntax.specs.Families.{statement_of};
ghost use Rattle.cord_plan.specs.Exprs as plain;
ghost use Rattle.cord_plan.specs.Planned as plan;
ghost use Rattle.cord_plan.specs.Views.{expr_view, made_view, operation_view};

use crate::{Expr, Made, Members, Operation};
use cord_printf::Format;
use cord_script::{Arguments, Name, Shared, Statement, Text};
use cord_syntax::{Composition, Derivation, Family, Origin};
use std::alloc::AllocError;

/// The operation of a line whose expression is this one, which it takes, as if no later line took it. A line whose
/// target is dead computes the length alone.
pub(crate) fn operation_of(
    statement: &Statement,
    expression: &mut Option<Expr>,
    dead: bool,
) -> Result<Operation, AllocError>
    ensures made { IfOk result (λ o. operation_view o ≡ plan.operation statement.now
        (plan.or_nothing (option_map expr_view expression.old)) dead false) }
{
    let line = statement.line();
    match statement.family() {
        Family::Composition(composition) => of_composition(line, composition, expression, dead),
        Family::Put { .. } => Ok(Operation::Write {
            line,
            expression: or_nothing(expression.take()),
        }),
        Family::Origin(origin) => of_origin(line, origin, dead),
        Family::Derivation(derivation) => of_derivation(line, derivation, dead),
        Family::Computation(computation) => Ok(Operation::Keep(computation.copied(line)?)),
        Family::Look(look) => Ok(Operation::Keep(look.copied(line)?)),
        Family::Search(sought) => Ok(Operation::Keep(sought.copied(line)?)),
        Family::Growth(growth) => Ok(Operation::Keep(growth.copied(line)?)),
        Family::Control(control) => Ok(Operation::Keep(control.copied(line)?)),
    }
}

// The operation of a line that makes a cord for which an expression stands.
fn of_composition(
    line: u32,
    composition: Composition,
    expression: &mut Option<Expr>,
    dead: bool,
) -> Result<Operation, AllocError>
    ensures made { IfOk result (λ o. operation_view o
        ≡ plan.operation (statement_of line (Family.Composition composition.entry))
        (plan.or_nothing (option_map expr_view expression.old)) dead false) }
{
    match composition {
        Composition::Chars { target, .. }
        | Composition::Nul { target, .. }
        | Composition::Cat { target, .. }
        | Composition::Catn { target, .. }
        | Composition::Catc { target, .. }
        | Composition::Substr { target, .. } => {
            let made = Made::Joined(or_nothing(expression.take()));
            assign(dead, line, target, made)
        }
    }
}

// The operation of a line that makes a cord of none.
fn of_origin(line: u32, origin: Origin, dead: bool) -> Result<Operation, AllocError>
    ensures made { IfOk result (λ o. (e : plain.Expr) (paired : Bool) →
        operation_view o ≡ plan.operation (statement_of line (Family.Origin origin.entry)) e dead paired) }
{
    match origin {
        Origin::Let { target, text } => assign(dead, line, target, Made::Literal(text.clone()?)),
        Origin::File { target, path } => assign(dead, line, target, Made::OfFile(path.clone()?)),
        Origin::Eager { target, path } => assign(dead, line, target, Made::OfEager(path.clone()?)),
        Origin::Lazy { target, path } => assign(dead, line, target, Made::OfLazy(path.clone()?)),
        Origin::FromFn {
            target,
            function,
            count,
        } => {
            let made = Made::OfFunction(function, count.clone()?);
            assign(dead, line, target, made)
        }
    }
}

// The operation of a line that makes a cord anew of one cord, an extensible cord or a print.
fn of_derivation(line: u32, derivation: Derivation, dead: bool) -> Result<Operation, AllocError>
    ensures made { IfOk result (λ o. (e : plain.Expr) (paired : Bool) →
        operation_view o ≡ plan.operation (statement_of line (Family.Derivation derivation.entry)) e dead paired) }
{
    match derivation {
        Derivation::Balance { target, operand } => {
            assign(dead, line, target, Made::Balanced(operand.clone()?))
        }
        Derivation::EcToCord { target, extensible } => {
            assign(dead, line, target, Made::OfExtensible(extensible.clone()?))
        }
        Derivation::Sprintf {
            target,
            text,
            format,
            arguments,
        } => assign(dead, line, target, printed(text, format, arguments)?),
    }
}

// The text of a print.
fn printed(
    text: &Shared<Text>,
    format: &Shared<Format>,
    arguments: &Shared<Arguments>,
) -> Result<Made, AllocError>
    ensures made { IfOk result (λ m. made_view m ≡ plan.Printed text.now format.now arguments.now) }
{
    let (text, arguments) = (text.clone()?, arguments.clone()?);
    Ok(Made::Printed(text, format.clone()?, arguments))
}

// The operation that gives a copy of a name what it is made of, or computes the length of that alone.
fn assign(measures: bool, line: u32, target: &Name, made: Made) -> Result<Operation, AllocError>
    ensures made { IfOk result (λ o. operation_view o ≡ plan.gives measures line target.now (made_view made)) }
{
    match target.clone() {
        Ok(target) if measures => Ok(Operation::Measure { line, target, made }),
        Ok(target) => Ok(Operation::Build { line, target, made }),
        Err(error) => {
            drop(made);
            Err(error)
        }
    }
}

// The expression, or where there is none a `cat` of no members.
fn or_nothing(expression: Option<Expr>) -> Expr
    ensures { expr_view result ≡ plan.or_nothing (option_map expr_view expression) }
{
    match expression {
        Some(expression) => expression,
        None => Expr::Cat(Members::nothing()),
    }
}
