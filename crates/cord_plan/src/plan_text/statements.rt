// The text of statements that are kept.
ghost use Rattle.std.specs.Prelude.{◌≡◌, ℕ, map};
ghost use Rattle.cord_iter.specs.Output.{Writes};
ghost use Rattle.cord_syntax.specs.Families.{statement_of};
ghost use Rattle.cord_plan.specs.PlanText.{called, counted, grows, statement};
ghost use Rattle.cord_script.specs.Tests.{relation_word};
ghost use Rattle.cord_plan.specs.inner.Views.{fragment_text};

use super::fragments::Fragment::{Count, Name, Number, Plain};
use super::fragments::{Fragment, put_fragments, put_words};
use cord_io::{Sink, WriteFault};
use cord_iter::put_all;
use cord_script::{Relation, Statement};
use cord_syntax::{Computation, Control, Family, Growth, Look, Search};

// Hands a sink the text of a statement that is kept; of any other, nothing.
pub(crate) fn put_statement<W: Sink>(kept: &Statement, sink: &mut W) -> Result<(), WriteFault>
    ensures { Writes ⟦<W as Sink>⟧ (statement kept.now) sink.old sink.new result }
{
    match kept.family() {
        Family::Computation(computation) => put_computation(computation, sink),
        Family::Look(look) => put_look(look, sink),
        Family::Search(sought) => put_search(sought, sink),
        Family::Growth(growth) => put_growth(growth, sink),
        Family::Control(control) => put_control(control, sink),
        Family::Origin(_) | Family::Composition(_) | Family::Derivation(_) | Family::Put { .. } =>
            Ok(()),
    }
}

// The text of a statement that finds a byte or an order of cords.
fn put_look<W: Sink>(look: Look, sink: &mut W) -> Result<(), WriteFault>
    ensures { (line : ℕ) → Writes ⟦<W as Sink>⟧ (statement (statement_of line (Family.Look look.entry))) sink.old
        sink.new result }
{
    match look {
        Look::Fetch {
            target,
            operand,
            index,
        } => put_given(target, b"fetch", &[Name(operand), Number(index)], sink),
        Look::Cmp {
            target,
            left,
            right,
        } => put_given(target, b"cmp", &[Name(left), Name(right)], sink),
        Look::Ncmp {
            target,
            left,
            left_start,
            right,
            right_start,
            count,
        } => {
            let operands = [
                Name(left),
                Number(left_start.as_ref()),
                Name(right),
                Number(right_start.as_ref()),
                Number(count.as_ref()),
            ];
            put_given(target, b"ncmp", &operands, sink)
        }
    }
}

// The text of a statement that searches a cord.
fn put_search<W: Sink>(sought: Search, sink: &mut W) -> Result<(), WriteFault>
    ensures { (line : ℕ) → Writes ⟦<W as Sink>⟧ (statement (statement_of line (Family.Search sought.entry))) sink.old
        sink.new result }
{
    match sought {
        Search::Str {
            target,
            operand,
            start,
            pattern,
        } => put_given(
            target,
            b"str",
            &[Name(operand), Number(start), Name(pattern)],
            sink,
        ),
        Search::Chr {
            target,
            operand,
            start,
            byte,
        } => put_given(
            target,
            b"chr",
            &[Name(operand), Number(start), Number(byte)],
            sink,
        ),
        Search::Rchr {
            target,
            operand,
            start,
            byte,
        } => put_given(
            target,
            b"rchr",
            &[Name(operand), Number(start), Number(byte)],
            sink,
        ),
    }
}

// The text of a statement that computes a number and reads no byte.
fn put_computation<W: Sink>(computation: Computation, sink: &mut W) -> Result<(), WriteFault>
    ensures { (line : ℕ) → Writes ⟦<W as Sink>⟧ (statement (statement_of line (Family.Computation computation.entry)))
        sink.old sink.new result }
{
    match computation {
        Computation::Len { target, operand } => put_given(target, b"len", &[Name(operand)], sink),
        Computation::Assign { target, value } => put_given(target, b"set", &[Number(value)], sink),
        Computation::Add {
            target,
            left,
            right,
        } => put_given(target, b"add", &[Number(left), Number(right)], sink),
        Computation::Sub {
            target,
            left,
            right,
        } => put_given(target, b"sub", &[Number(left), Number(right)], sink),
    }
}

// The text of a statement that begins an extensible cord or lets it grow.
fn put_growth<W: Sink>(growth: Growth, sink: &mut W) -> Result<(), WriteFault>
    ensures { (line : ℕ) → Writes ⟦<W as Sink>⟧ (statement (statement_of line (Family.Growth growth.entry))) sink.old
        sink.new result }
{
    match growth {
        Growth::EcInit { target } => put_words(&[Plain(b"ec"), Name(target), Plain(b"init")], sink),
        Growth::EcPut { extensible, byte } => put_grown(extensible, b"byte", Number(byte), sink),
        Growth::EcStr { extensible, text } => put_grown(
            extensible,
            b"bytes",
            Count(text.as_slice().len() as u64),
            sink,
        ),
        Growth::EcCat {
            extensible,
            operand,
        } => put_grown(extensible, b"cord", Name(operand), sink),
    }
}

// What an extensible cord grows by: `ec e what(operand)`.
fn put_grown<'a, W: Sink>(
    extensible: &'a cord_script::Name,
    what: &'a [u8],
    operand: Fragment<'a>,
    sink: &mut W,
) -> Result<(), WriteFault>
    ensures { Writes ⟦<W as Sink>⟧ (grows extensible.now (called what.now (fragment_text operand.entry))) sink.old
        sink.new result }
{
    put_fragments(
        &[
            Plain(b"ec "),
            Name(extensible),
            Plain(b" "),
            Plain(what),
            Plain(b"("),
            operand,
            Plain(b")"),
        ],
        sink,
    )
}

// The text of a statement that leads the run.
fn put_control<W: Sink>(control: Control, sink: &mut W) -> Result<(), WriteFault>
    ensures { (line : ℕ) → Writes ⟦<W as Sink>⟧ (statement (statement_of line (Family.Control control.entry))) sink.old
        sink.new result }
{
    match control {
        Control::Repeat { count } => put_words(&[Plain(b"repeat"), Number(count)], sink),
        Control::If {
            left,
            relation,
            right,
        } => {
            let words = [
                Plain(b"if"),
                Number(left),
                Plain(relation_word(relation)),
                Number(right),
            ];
            put_words(&words, sink)
        }
        Control::Else => put_all(b"else", sink),
        Control::End => put_all(b"end", sink),
    }
}

// Hands a sink the text of a statement that gives a number its value: `number N word(operands)`.
fn put_given<'a, W: Sink>(
    target: &'a cord_script::Name,
    word: &'a [u8],
    operands: &[Fragment],
    sink: &mut W,
) -> Result<(), WriteFault>
    ensures { Writes ⟦<W as Sink>⟧ (counted target.now word.now (map fragment_text operands.now)) sink.old sink.new
        result }
{
    put_fragments(
        &[
            Plain(b"number "),
            Name(target),
            Plain(b" "),
            Plain(word),
            Plain(b"("),
        ],
        sink,
    )?;
    put_words(operands, sink)?;
    put_all(b")", sink)
}

// The word for a relation.
fn relation_word(compared: Relation) -> &'static [u8]
    ensures { result.now ≡ relation_word compared }
{
    match compared {
        Relation::Less => b"lt",
        Relation::Equal => b"eq",
        Relation::Greater => b"gt",
    }
}
