// The statements of lines, family by family, of the words that follow their verbs.
ghost use Rattle.std.specs.Prelude.{◌≡◌, IfSome};
ghost use Rattle.cord_script.specs.declared.verbs.Verb.{Verb};
ghost use Rattle.cord_script.specs.inner.LineReading.{IsFresh, IsStatementBuilt};

use crate::Statement;
use crate::following::{
    Applied, Compared, Fields, Literal, Operand, SharedValue, Value, target_and_path, with_target,
};
use crate::kinds::Kind::{Cord, Extensible, Number};
use crate::remaining_words::LineWords;
use crate::verbs::{Composition, Computation, Control, FixedVerb, Growth, Look, Origin, Verb};

// The fields of a variant, as they are nested where one was asked for before the others.
macro_rules! nested {
    ($last:ident) => {
        $last
    };
    ($first:ident $($more:ident)+) => {
        ($first, nested!($($more)+))
    };
}

// The statement of a variant, of fields that were asked for.
macro_rules! statement {
    ($line:ident, $variant:ident, ($($field:ident),+) = $fields:expr) => {{
        let nested!($($field)+) = $fields?;
        Some(Statement::$variant { line: $line, $($field),+ })
    }};
}

// The statement of a verb of a family, of the fields that its variant asks for.
macro_rules! family {
    ($family:ident, $verb:ident, $line:ident; $($variant:ident($($field:ident),+) = $fields:expr,)*) => {
        match $verb {
            $($family::$variant => statement!($line, $variant, ($($field),+) = $fields),)*
        }
    };
}

// A statement that makes a cord of no other name's value.
#[inline(always)]
fn origin_of(verb: Origin, line: u32, words: &mut LineWords) -> Option<Statement>
    requires { IsFresh words.old }
    ensures { IfSome result (IsStatementBuilt (Verb.Fixed (FixedVerb.Origin verb)) line words.old words.new) }
{
    family!(Origin, verb, line;
        Let(target, text) = with_target(Cord, Literal, words),
        File(target, path) = target_and_path(words),
        Eager(target, path) = target_and_path(words),
        Lazy(target, path) = target_and_path(words),
        FromFn(target, function, count) = with_target(Cord, (Applied, Value), words),
    )
}

// A statement that makes a cord of numbers, cords or an extensible cord.
#[inline(always)]
fn composition_of(verb: Composition, line: u32, words: &mut LineWords) -> Option<Statement>
    requires { IsFresh words.old }
    ensures { IfSome result (IsStatementBuilt (Verb.Fixed (FixedVerb.Composition verb)) line words.old words.new) }
{
    family!(Composition, verb, line;
        Chars(target, byte, count) = with_target(Cord, (Value, Value), words),
        Nul(target, count) = with_target(Cord, Value, words),
        Cat(target, left, right) = with_target(Cord, (Operand(Cord), Operand(Cord)), words),
        Catc(target, operand, byte) = with_target(Cord, (Operand(Cord), Value), words),
        Substr(target, operand, start, count) = with_target(Cord, (Operand(Cord), (Value, Value)), words),
        Balance(target, operand) = with_target(Cord, Operand(Cord), words),
        EcToCord(target, extensible) = with_target(Cord, Operand(Extensible), words),
    )
}

// A statement that computes a number, which needs no byte.
#[inline(always)]
fn computation_of(verb: Computation, line: u32, words: &mut LineWords) -> Option<Statement>
    requires { IsFresh words.old }
    ensures { IfSome result (IsStatementBuilt (Verb.Fixed (FixedVerb.Computation verb)) line words.old words.new) }
{
    family!(Computation, verb, line;
        Assign(target, value) = with_target(Number, Value, words),
        Len(target, operand) = with_target(Number, Operand(Cord), words),
        Add(target, left, right) = with_target(Number, (Value, Value), words),
        Sub(target, left, right) = with_target(Number, (Value, Value), words),
    )
}

// A statement that looks at bytes or searches a cord.
#[inline(always)]
fn look_of(verb: Look, line: u32, words: &mut LineWords) -> Option<Statement>
    requires { IsFresh words.old }
    ensures { IfSome result (IsStatementBuilt (Verb.Fixed (FixedVerb.Look verb)) line words.old words.new) }
{
    family!(Look, verb, line;
        Fetch(target, operand, index) = with_target(Number, (Operand(Cord), Value), words),
        Cmp(target, left, right) = with_target(Number, (Operand(Cord), Operand(Cord)), words),
        Ncmp(target, left, left_start, right, right_start, count) = with_target(
            Number,
            (Operand(Cord), (SharedValue, (Operand(Cord), (SharedValue, SharedValue)))),
            words
        ),
        Str(target, operand, start, pattern) = with_target(Number, (Operand(Cord), (Value, Operand(Cord))), words),
        Chr(target, operand, start, byte) = with_target(Number, (Operand(Cord), (Value, Value)), words),
        Rchr(target, operand, start, byte) = with_target(Number, (Operand(Cord), (Value, Value)), words),
    )
}

// A statement that makes an extensible cord, or one that grows.
#[inline(always)]
fn growth_of(verb: Growth, line: u32, words: &mut LineWords) -> Option<Statement>
    requires { IsFresh words.old }
    ensures { IfSome result (IsStatementBuilt (Verb.Fixed (FixedVerb.Growth verb)) line words.old words.new) }
{
    family!(Growth, verb, line;
        EcInit(target) = words.target(Extensible),
        EcPut(extensible, byte) = (Operand(Extensible), Value).read(words),
        EcCat(extensible, operand) = (Operand(Extensible), Operand(Cord)).read(words),
        EcStr(extensible, text) = (Operand(Extensible), Literal).read(words),
    )
}

// A statement that says which lines run next.
#[inline(always)]
fn control_of(verb: Control, line: u32, words: &mut LineWords) -> Option<Statement>
    requires { IsFresh words.old }
    ensures { IfSome result (IsStatementBuilt (Verb.Fixed (FixedVerb.Control verb)) line words.old words.new) }
{
    match verb {
        Control::Repeat => statement!(line, Repeat, (count) = Value.read(words)),
        Control::If => statement!(
            line,
            If,
            (left, relation, right) = (Value, (Compared, Value)).read(words)
        ),
        Control::Else => Some(Statement::Else { line }),
        Control::End => Some(Statement::End { line }),
    }
}

// A `catn`.
fn catn_of(line: u32, words: &mut LineWords) -> Option<Statement>
    requires { IsFresh words.old }
    ensures { IfSome result (IsStatementBuilt Verb.Catn line words.old words.new) }
{
    let target = words.target(Cord)?;
    let parts = words.cords()?;
    Some(Statement::Catn {
        line,
        target,
        parts,
    })
}

// A `sprintf`.
#[cold]
#[inline(never)]
fn sprintf_of(line: u32, words: &mut LineWords) -> Option<Statement>
    requires { IsFresh words.old }
    ensures { IfSome result (IsStatementBuilt Verb.Sprintf line words.old words.new) }
{
    let target = words.target(Cord)?;
    let (text, format) = words.format()?;
    let arguments = words.arguments(format.as_ref())?;
    Some(Statement::Sprintf {
        line,
        target,
        text,
        format,
        arguments,
    })
}

/// The statement of a verb, of the words that are left in its line.
#[inline(always)]
pub fn statement_of(verb: Verb, line: u32, words: &mut LineWords) -> Option<Statement>
    requires { IsFresh words.old }
    ensures { IfSome result (IsStatementBuilt verb line words.old words.new) }
{
    match verb {
        Verb::Fixed(fixed) => match fixed {
            FixedVerb::Origin(origin) => origin_of(origin, line, words),
            FixedVerb::Composition(composition) => composition_of(composition, line, words),
            FixedVerb::Put => statement!(line, Put, (operand) = Operand(Cord).read(words)),
            FixedVerb::Computation(computation) => computation_of(computation, line, words),
            FixedVerb::Look(look) => look_of(look, line, words),
            FixedVerb::Growth(growth) => growth_of(growth, line, words),
            FixedVerb::Control(control) => control_of(control, line, words),
        },
        Verb::Catn => catn_of(line, words),
        Verb::Sprintf => sprintf_of(line, words),
    }
}
