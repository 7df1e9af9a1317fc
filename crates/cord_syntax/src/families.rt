// Families of statements: what each one is about.
ghost use Rattle.std.specs.Prelude.{◌≡◌};
ghost use Rattle.cord_syntax.specs.Families.{statement_of};
ghost use Rattle.cord_syntax.specs.Lines.{line_of};

use crate::{Arguments, Function, Name, Names, Number, Path, Relation, Shared, Statement, Text};
use cord_printf::Format;

/// A statement without its line, by what it is about. Its fields are lent.
#[derive(Clone, Copy)]
pub enum Family<'a> {
    /// It makes a cord of none.
    Origin(Origin<'a>),
    /// It makes a cord that an expression over cords stands for.
    Composition(Composition<'a>),
    /// It makes a cord anew of a cord, an extensible cord or the arguments of a format.
    Derivation(Derivation<'a>),
    /// It puts a cord.
    Put { operand: &'a Name },
    /// It computes a number and reads no byte.
    Computation(Computation<'a>),
    /// It finds a byte or an order of cords.
    Look(Look<'a>),
    /// It finds a place in a cord.
    Search(Search<'a>),
    /// It begins an extensible cord or lets it grow.
    Growth(Growth<'a>),
    /// It leads the run.
    Control(Control<'a>),
}

/// A statement that makes a cord of none: of a text, a file or a function.
#[derive(Clone, Copy)]
pub enum Origin<'a> {
    Let {
        target: &'a Name,
        text: &'a Text,
    },
    File {
        target: &'a Name,
        path: &'a Path,
    },
    Eager {
        target: &'a Name,
        path: &'a Path,
    },
    Lazy {
        target: &'a Name,
        path: &'a Path,
    },
    FromFn {
        target: &'a Name,
        function: Function,
        count: &'a Number,
    },
}

/// A statement that makes a cord for which an expression over cords stands.
#[derive(Clone, Copy)]
pub enum Composition<'a> {
    Chars {
        target: &'a Name,
        byte: &'a Number,
        count: &'a Number,
    },
    Nul {
        target: &'a Name,
        count: &'a Number,
    },
    Cat {
        target: &'a Name,
        left: &'a Name,
        right: &'a Name,
    },
    Catn {
        target: &'a Name,
        parts: &'a Names,
    },
    Catc {
        target: &'a Name,
        operand: &'a Name,
        byte: &'a Number,
    },
    Substr {
        target: &'a Name,
        operand: &'a Name,
        start: &'a Number,
        count: &'a Number,
    },
}

/// A statement that makes a cord anew of a cord, an extensible cord or the arguments of a format.
#[derive(Clone, Copy)]
pub enum Derivation<'a> {
    Balance {
        target: &'a Name,
        operand: &'a Name,
    },
    EcToCord {
        target: &'a Name,
        extensible: &'a Name,
    },
    Sprintf {
        target: &'a Name,
        text: &'a Shared<Text>,
        format: &'a Shared<Format>,
        arguments: &'a Shared<Arguments>,
    },
}

/// A statement that computes a number and reads no byte.
#[derive(Clone, Copy)]
pub enum Computation<'a> {
    Len {
        target: &'a Name,
        operand: &'a Name,
    },
    Assign {
        target: &'a Name,
        value: &'a Number,
    },
    Add {
        target: &'a Name,
        left: &'a Number,
        right: &'a Number,
    },
    Sub {
        target: &'a Name,
        left: &'a Number,
        right: &'a Number,
    },
}

/// A statement that finds a byte or an order of cords.
#[derive(Clone, Copy)]
pub enum Look<'a> {
    Fetch {
        target: &'a Name,
        operand: &'a Name,
        index: &'a Number,
    },
    Cmp {
        target: &'a Name,
        left: &'a Name,
        right: &'a Name,
    },
    Ncmp {
        target: &'a Name,
        left: &'a Name,
        left_start: &'a Shared<Number>,
        right: &'a Name,
        right_start: &'a Shared<Number>,
        count: &'a Shared<Number>,
    },
}

/// A statement that finds a place in a cord, or -1.
#[derive(Clone, Copy)]
pub enum Search<'a> {
    Str {
        target: &'a Name,
        operand: &'a Name,
        start: &'a Number,
        pattern: &'a Name,
    },
    Chr {
        target: &'a Name,
        operand: &'a Name,
        start: &'a Number,
        byte: &'a Number,
    },
    Rchr {
        target: &'a Name,
        operand: &'a Name,
        start: &'a Number,
        byte: &'a Number,
    },
}

/// A statement that begins an extensible cord or lets it grow.
#[derive(Clone, Copy)]
pub enum Growth<'a> {
    EcInit {
        target: &'a Name,
    },
    EcPut {
        extensible: &'a Name,
        byte: &'a Number,
    },
    EcCat {
        extensible: &'a Name,
        operand: &'a Name,
    },
    EcStr {
        extensible: &'a Name,
        text: &'a Text,
    },
}

/// A statement that leads the run.
#[derive(Clone, Copy)]
pub enum Control<'a> {
    Repeat {
        count: &'a Number,
    },
    If {
        left: &'a Number,
        relation: Relation,
        right: &'a Number,
    },
    Else,
    End,
}

// The family of a statement, whose members are listed here, each with its fields after the line.
macro_rules! family {
    ($statement:ident; $($family:ident { $($member:ident($($field:ident $(: $value:expr)?),*)),* })*) => {
        match $statement {
            $($(Statement::$member { $($field,)* .. } => Family::$family($family::$member {
                $($field $(: $value)?),*
            }),)*)*
            Statement::Put { operand, .. } => Family::Put { operand },
        }
    };
}

impl Statement {
    /// What the statement is about, with its fields lent.
    #[inline(always)]
    pub fn family(&self) -> Family<'_>
        ensures { statement_of (line_of self.now) result ≡ self.now }
    {
        family!(self;
            Origin {
                Let(target, text), File(target, path), Eager(target, path), Lazy(target, path),
                FromFn(target, function: *function, count)
            }
            Composition {
                Chars(target, byte, count), Nul(target, count),
                Cat(target, left, right), Catn(target, parts), Catc(target, operand, byte),
                Substr(target, operand, start, count)
            }
            Derivation {
                Balance(target, operand), EcToCord(target, extensible),
                Sprintf(target, text, format, arguments)
            }
            Computation {
                Len(target, operand), Assign(target, value), Add(target, left, right), Sub(target, left, right)
            }
            Look {
                Fetch(target, operand, index),
                Cmp(target, left, right),
                Ncmp(target, left, left_start, right, right_start, count)
            }
            Search {
                Str(target, operand, start, pattern),
                Chr(target, operand, start, byte),
                Rchr(target, operand, start, byte)
            }
            Growth { EcInit(target), EcPut(extensible, byte), EcCat(extensible, operand), EcStr(extensible, text) }
            Control { Repeat(count), If(left, relation: *relation, right), Else(), End() }
        )
    }
}
