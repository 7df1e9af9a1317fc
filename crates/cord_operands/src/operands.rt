// Operands that aren't names of cords: numbers, relations, functions, arguments of formats.

use crate::{Name, Sequence};

/// A number operand: a numeral or the name of a number.
#[derive(Clone, Drop)]
pub enum Number {
    Numeral(i64),
    Named(Name),
}

/// The relation of an `if`: `lt`, `eq` or `gt`.
#[derive(Clone, Copy, Debug, PartialEq, Eq)]
pub enum Relation {
    Less,
    Equal,
    Greater,
}

/// The function of an `fn`: `digits` has the byte `48 + i mod 10` at place i, `bytes` has `i mod 256`.
#[derive(Clone, Copy, Debug, PartialEq, Eq)]
pub enum Function {
    Digits,
    Bytes,
}

/// An argument of a format, as its conversion wants it: a number operand or the name of a cord.
#[derive(Clone, Drop)]
pub enum Argument {
    Number(Number),
    Cord(Name),
}

/// The arguments of a format, in order.
pub type Arguments = Sequence<Argument>;
