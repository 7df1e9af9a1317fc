// What a script says.
ghost use Rattle.std.specs.Prelude.{◌≡◌, option_map};
ghost use Rattle.cord_syntax.specs.Lines.{line_of};
ghost use Rattle.cord_syntax.specs.Targets.{target_of};

use crate::{Arguments, Function, Name, Names, Number, Path, Relation, Shared, Text};
use cord_printf::Format;
use std::marker::Model;

/// A statement, with the number of its line, counted from 1.
///
/// The first name after the statement's word is its `target`, the name that the line assigns;
/// `extensible` is the name of an extensible cord that the line changes.
#[derive(Drop)]
pub enum Statement {
    /// `let x "t"`: x is the text t.
    Let {
        line: u32,
        target: Name,
        text: Text,
    },
    /// `file x "p"`: x is the file p, read at once where it is short.
    File {
        line: u32,
        target: Name,
        path: Path,
    },
    /// `eager x "p"`: x is the file p, read at once.
    Eager {
        line: u32,
        target: Name,
        path: Path,
    },
    /// `lazy x "p"`: x is the file p, read where it is looked at.
    Lazy {
        line: u32,
        target: Name,
        path: Path,
    },
    /// `chars x c n`: x is n copies of the byte c.
    Chars {
        line: u32,
        target: Name,
        byte: Number,
        count: Number,
    },
    /// `nul x n`: x is n copies of the byte 0.
    Nul {
        line: u32,
        target: Name,
        count: Number,
    },
    /// `fn x f n`: x is the first n bytes of the function f.
    FromFn {
        line: u32,
        target: Name,
        function: Function,
        count: Number,
    },
    /// `cat z x y`: z is x, then y.
    Cat {
        line: u32,
        target: Name,
        left: Name,
        right: Name,
    },
    /// `catn z x1 .. xk`: z is 2 to 16 cords in order.
    Catn {
        line: u32,
        target: Name,
        parts: Names,
    },
    /// `catc z x c`: z is x, then the byte c.
    Catc {
        line: u32,
        target: Name,
        operand: Name,
        byte: Number,
    },
    /// `substr z x i n`: z is at most n bytes of x from i on.
    Substr {
        line: u32,
        target: Name,
        operand: Name,
        start: Number,
        count: Number,
    },
    /// `balance z x`: z is x, balanced.
    Balance {
        line: u32,
        target: Name,
        operand: Name,
    },
    /// `ectocord z e`: z is the bytes of the extensible cord e.
    EcToCord {
        line: u32,
        target: Name,
        extensible: Name,
    },
    /// `sprintf z "f" a1 ..`: z is the text of the format f with its arguments.
    Sprintf {
        line: u32,
        target: Name,
        text: Shared<Text>,
        format: Shared<Format>,
        arguments: Shared<Arguments>,
    },
    /// `len n x`: n is the length of x.
    Len {
        line: u32,
        target: Name,
        operand: Name,
    },
    /// `fetch n x i`: n is the byte i of x.
    Fetch {
        line: u32,
        target: Name,
        operand: Name,
        index: Number,
    },
    /// `cmp n x y`: n is -1, 0 or 1, as x stands to y.
    Cmp {
        line: u32,
        target: Name,
        left: Name,
        right: Name,
    },
    /// `ncmp n x i y j k`: n is -1, 0 or 1, as at most k bytes of x from i on stand to those of y from j on.
    Ncmp {
        line: u32,
        target: Name,
        left: Name,
        left_start: Shared<Number>,
        right: Name,
        right_start: Shared<Number>,
        count: Shared<Number>,
    },
    /// `str n x i y`: n is the first place of y in x from i on, or -1.
    Str {
        line: u32,
        target: Name,
        operand: Name,
        start: Number,
        pattern: Name,
    },
    /// `chr n x i c`: n is the first place of the byte c in x from i on, or -1.
    Chr {
        line: u32,
        target: Name,
        operand: Name,
        start: Number,
        byte: Number,
    },
    /// `rchr n x i c`: n is the last place of the byte c in x up to i, or -1.
    Rchr {
        line: u32,
        target: Name,
        operand: Name,
        start: Number,
        byte: Number,
    },
    /// `set n a`: n is a.
    Assign {
        line: u32,
        target: Name,
        value: Number,
    },
    /// `add n a b`: n is a + b.
    Add {
        line: u32,
        target: Name,
        left: Number,
        right: Number,
    },
    /// `sub n a b`: n is a - b.
    Sub {
        line: u32,
        target: Name,
        left: Number,
        right: Number,
    },
    /// `ecinit e`: e is the empty extensible cord.
    EcInit {
        line: u32,
        target: Name,
    },
    /// `ecput e c`: e grows by the byte c.
    EcPut {
        line: u32,
        extensible: Name,
        byte: Number,
    },
    /// `eccat e x`: e grows by the cord x.
    EcCat {
        line: u32,
        extensible: Name,
        operand: Name,
    },
    /// `ecstr e "t"`: e grows by the text t.
    EcStr {
        line: u32,
        extensible: Name,
        text: Text,
    },
    /// `put x`: x goes to the output.
    Put {
        line: u32,
        operand: Name,
    },
    /// `repeat a`: the lines up to its `end` are run a times.
    Repeat {
        line: u32,
        count: Number,
    },
    /// `if a r b`: where a r b holds the lines up to its `else` or `end` are run, else those between its `else` and its
    /// `end`.
    If {
        line: u32,
        left: Number,
        relation: Relation,
        right: Number,
    },
    /// `else`: ends the lines that the innermost open `if` runs where its relation holds.
    Else {
        line: u32,
    },
    /// `end`: closes the innermost open `repeat` or `if`.
    End {
        line: u32,
    },
}

// The statements that assign a name, with one of the fields that they share.
macro_rules! assignment {
    ($field:ident) => {
        Statement::Let { $field, .. }
        | Statement::File { $field, .. }
        | Statement::Eager { $field, .. }
        | Statement::Lazy { $field, .. }
        | Statement::Chars { $field, .. }
        | Statement::Nul { $field, .. }
        | Statement::FromFn { $field, .. }
        | Statement::Cat { $field, .. }
        | Statement::Catn { $field, .. }
        | Statement::Catc { $field, .. }
        | Statement::Substr { $field, .. }
        | Statement::Balance { $field, .. }
        | Statement::EcToCord { $field, .. }
        | Statement::Sprintf { $field, .. }
        | Statement::Len { $field, .. }
        | Statement::Fetch { $field, .. }
        | Statement::Cmp { $field, .. }
        | Statement::Ncmp { $field, .. }
        | Statement::Str { $field, .. }
        | Statement::Chr { $field, .. }
        | Statement::Rchr { $field, .. }
        | Statement::Assign { $field, .. }
        | Statement::Add { $field, .. }
        | Statement::Sub { $field, .. }
        | Statement::EcInit { $field, .. }
    };
}

impl Statement {
    /// The number of its line, counted from 1.
    pub fn line(&self) -> u32
        ensures { result ≡ line_of self.now }
    {
        match self {
            assignment!(line)
            | Statement::EcPut { line, .. }
            | Statement::EcCat { line, .. }
            | Statement::EcStr { line, .. }
            | Statement::Put { line, .. }
            | Statement::Repeat { line, .. }
            | Statement::If { line, .. }
            | Statement::Else { line, .. }
            | Statement::End { line, .. } => *line,
        }
    }

    /// The name that the statement assigns, where it assigns one.
    pub fn target(&self) -> Option<&Name>
        ensures { option_map (λ n. n.now) result ≡ target_of self.now }
    {
        match self {
            assignment!(target) => Some(target),
            _ => None,
        }
    }
}

/// The statements of a script, in the order of its lines.
#[derive(Drop)]
pub struct Script {
    statements: Vec<Statement>,
}

impl Model for Script {
    ghost use Rattle.std.specs.Prelude.{List};
    ghost use Rattle.cord_syntax.specs.declared.statements.Statement.{Statement};

    ghost Value = { List Statement };

    ghost view = { λ s. s.statements.items };
}

impl Script {
    /// The script of these statements, without taking memory.
    pub fn of(statements: Vec<Statement>) -> Self
        ensures { result ≡ statements.items }
    {
        Script { statements }
    }

    /// The statements in the order of their lines.
    pub fn statements(&self) -> &[Statement]
        ensures { result.now ≡ self.now }
    {
        &self.statements
    }
}
