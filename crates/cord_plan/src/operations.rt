// Operations of plans.
use crate::Expr;
use cord_printf::Format;
use cord_script::{Arguments, Function, Name, Number, Path, Shared, Statement, Text};

/// What a name is made of: an expression, or what its statement says.
#[derive(Drop)]
pub enum Made {
    /// An expression.
    Joined(Expr),
    /// The text of a `let`.
    Literal(Text),
    /// A file that is read at once where it is short.
    OfFile(Path),
    /// A file that is read at once.
    OfEager(Path),
    /// A file that is read where it is looked at.
    OfLazy(Path),
    /// The first bytes of a function.
    OfFunction(Function, Number),
    /// A cord, balanced.
    Balanced(Name),
    /// The text of an extensible cord.
    OfExtensible(Name),
    /// The text of a print: its format's text, its pieces and its arguments.
    Printed(Shared<Text>, Shared<Format>, Shared<Arguments>),
}

/// An operation of a plan, with the number of its line, counted from 1.
#[derive(Drop)]
pub enum Operation {
    /// `build z E`: z gets its cord.
    Build { line: u32, target: Name, made: Made },
    /// `measure z E`: z gets a length alone.
    Measure { line: u32, target: Name, made: Made },
    /// `write E`: the bytes of E are put.
    Write { line: u32, expression: Expr },
    /// Any other statement, as it is.
    Keep(Statement),
}
