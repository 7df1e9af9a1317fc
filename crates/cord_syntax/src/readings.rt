// The cords whose bytes each statement reads.
ghost use Rattle.std.specs.Prelude.{◌≡◌, ℕ};
ghost use Rattle.cord_syntax.specs.Families.{statement_of};
ghost use Rattle.cord_syntax.specs.Readings.{operand_names, read_by, read_names};
ghost use Rattle.cord_syntax.specs.declared.families.Family.{Family};

use crate::{Argument, Composition, Name, Statement};

/// Cords that a statement names, from left to right.
#[derive(Clone, Copy)]
pub enum Operands<'a> {
    Nothing,
    One(&'a Name),
    Two(&'a Name, &'a Name),
    Listed(&'a [Name]),
}

/// The cords whose bytes a statement reads.
#[derive(Clone, Copy)]
pub enum Reading<'a> {
    /// Its operands.
    Operands(Operands<'a>),
    /// Those among the arguments of its format.
    Printed(&'a [Argument]),
}

impl<'a> Composition<'a> {
    /// The cords that its expression names, from left to right.
    #[inline(always)]
    pub fn operands(self) -> Operands<'a>
        ensures { (line : ℕ) → operand_names result ≡ read_by (statement_of line (Family.Composition self.entry)) }
    {
        match self {
            Composition::Chars { .. } | Composition::Nul { .. } => Operands::Nothing,
            Composition::Cat { left, right, .. } => Operands::Two(left, right),
            Composition::Catn { parts, .. } => Operands::Listed(parts.as_slice()),
            Composition::Catc { operand, .. } | Composition::Substr { operand, .. } =>
                Operands::One(operand),
        }
    }
}

impl Statement {
    /// The cords whose bytes the statement reads. Inlined, it isn't made where the caller looks at it at once.
    #[inline(always)]
    pub fn reading(&self) -> Reading<'_>
        ensures { read_names result ≡ read_by self.now }
    {
        match self {
            Statement::Cat { left, right, .. }
            | Statement::Cmp { left, right, .. }
            | Statement::Ncmp { left, right, .. } => Reading::Operands(Operands::Two(left, right)),
            Statement::Str {
                operand,
                pattern,
                ..
            } => Reading::Operands(Operands::Two(operand, pattern)),
            Statement::Catn { parts, .. } => Reading::Operands(Operands::Listed(parts.as_slice())),
            Statement::Catc { operand, .. }
            | Statement::Substr { operand, .. }
            | Statement::Balance { operand, .. }
            | Statement::Fetch { operand, .. }
            | Statement::Chr { operand, .. }
            | Statement::Rchr { operand, .. }
            | Statement::EcCat { operand, .. } => Reading::Operands(Operands::One(operand)),
            Statement::Put { operand, .. } => Reading::Operands(Operands::One(operand)),
            Statement::Sprintf { arguments, .. } => Reading::Printed(arguments.as_ref().as_slice()),
            _ => Reading::Operands(Operands::Nothing),
        }
    }
}
