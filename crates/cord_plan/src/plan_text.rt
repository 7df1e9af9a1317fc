// The text of plans.
mod expressions;
mod fragments;
mod statements;

ghost use Rattle.std.specs.Prelude.{◌≡◌, [], ◌∷◌, ◌++◌, map};
ghost use Rattle.cord_iter.specs.Output.{Writes};
ghost use Rattle.cord_plan.specs.PlanText.{decimal, spaced, made as made_text};
ghost use Rattle.cord_script.specs.Tests.{function_word};
ghost use Rattle.cord_plan.specs.PlanText.{operation as operation_text, text_of_plan};
ghost use Rattle.cord_plan.specs.inner.Views.{fragment_text};
ghost use Rattle.cord_plan.specs.Views.{made_view, operation_view};

use self::expressions::put_expression;
use self::fragments::Fragment::{Arguments, Count, Name, Number, Path, Plain};
use self::fragments::{Fragment, put_fragments};
use self::statements::put_statement;
use crate::{Expr, Made, Operation};
use cord_io::{Sink, WriteFault};
use cord_iter::put_all;
use cord_script::Function;

/// Hands a sink the text of operations: one line each, ended by byte 10. Where the sink failed, it took a prefix of it.
pub(crate) fn put_operations<W: Sink>(
    operations: &[Operation],
    sink: &mut W,
) -> Result<(), WriteFault>
    ensures { Writes ⟦<W as Sink>⟧ (text_of_plan (map operation_view operations.now)) sink.old sink.new result }
{
    for operation in operations {
        put_operation(operation, sink)?;
        put_all(b"\n", sink)?;
    }
    Ok(())
}

// A line of the text, without its end.
fn put_operation<W: Sink>(operation: &Operation, sink: &mut W) -> Result<(), WriteFault>
    ensures { Writes ⟦<W as Sink>⟧ (operation_text (operation_view operation.now)) sink.old sink.new result }
{
    match operation {
        Operation::Build { line, target, made } => put_assignment(
            *line, b"build", target, made, sink,
        ),
        Operation::Measure { line, target, made } => put_assignment(
            *line, b"measure", target, made, sink,
        ),
        Operation::Write { line, expression } => {
            put_fragments(&[Count(*line as u64), Plain(b" write ")], sink)?;
            put_expression(expression, sink)
        }
        Operation::Keep(statement) => {
            put_fragments(&[Count(statement.line() as u64), Plain(b" ")], sink)?;
            put_statement(statement, sink)
        }
    }
}

// The line of an operation that gives a name its cord or its length.
fn put_assignment<'a, W: Sink>(
    line: u32,
    verb: &'a [u8],
    target: &'a cord_script::Name,
    made: &Made,
    sink: &mut W,
) -> Result<(), WriteFault>
    ensures { Writes ⟦<W as Sink>⟧ (spaced (decimal line ∷ verb.now ∷ target.now ∷ made_text (made_view made.now) ∷ []))
        sink.old sink.new result }
{
    let head = [
        Count(line as u64),
        Plain(b" "),
        Plain(verb),
        Plain(b" "),
        Name(target),
        Plain(b" "),
    ];
    put_fragments(&head, sink)?;
    put_made(made, sink)
}

// What a name is made of.
fn put_made<W: Sink>(made: &Made, sink: &mut W) -> Result<(), WriteFault>
    ensures { Writes ⟦<W as Sink>⟧ (made_text (made_view made.now)) sink.old sink.new result }
{
    match made {
        Made::Joined(expression) => put_expression(expression, sink),
        Made::Literal(text) => put_called(b"literal(", Count(text.as_slice().len() as u64), sink),
        Made::OfFile(path) => put_called(b"file(", Path(path), sink),
        Made::OfEager(path) => put_called(b"eager(", Path(path), sink),
        Made::OfLazy(path) => put_called(b"lazy(", Path(path), sink),
        Made::OfFunction(function, count) => {
            put_fragments(
                &[
                    Plain(b"fn("),
                    Plain(function_word(*function)),
                    Plain(b" "),
                    Number(count),
                    Plain(b")"),
                ],
                sink,
            )
        }
        Made::Balanced(name) => put_called(b"balance(", Name(name), sink),
        Made::OfExtensible(name) => put_called(b"ectocord(", Name(name), sink),
        Made::Printed(text, _, arguments) => {
            put_fragments(
                &[
                    Plain(b"sprintf("),
                    Count(text.as_ref().as_slice().len() as u64),
                    Arguments(arguments.as_ref()),
                    Plain(b")"),
                ],
                sink,
            )
        }
    }
}

// A fragment between a word with its bracket and the other bracket.
fn put_called<'a, W: Sink>(
    opened: &'a [u8],
    inside: Fragment<'a>,
    sink: &mut W,
) -> Result<(), WriteFault>
    ensures { Writes ⟦<W as Sink>⟧ (opened.now ++ fragment_text inside.entry ++ 41 ∷ []) sink.old sink.new result }
{
    put_fragments(&[Plain(opened), inside, Plain(b")")], sink)
}

// The word for a function.
fn function_word(named: Function) -> &'static [u8]
    ensures { result.now ≡ function_word named }
{
    match named {
        Function::Digits => b"digits",
        Function::Bytes => b"bytes",
    }
}
