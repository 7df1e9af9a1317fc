// The operands of a line, whether it reads a name, and whether it assigns it.
ghost use Rattle.std.specs.Prelude.{◌≡◌, [], ◌∷◌, option_map, MatchOption};
ghost use Rattle.cord_syntax.specs.Readings.{operand_names, read_names};
ghost use Rattle.cord_plan.specs.Operands.{cord_arguments, reads, assigns};
ghost use Rattle.cord_plan.specs.inner.Liveness.{simple_operands};

use cord_script::{Argument, Name, Statement};
use cord_syntax::Operands::{self, Listed, Nothing, One, Two};
use cord_syntax::{Family, Reading};

/// The cord operands of a line for which an expression stands; of other lines there are none.
#[inline(always)]
pub(crate) fn operands_of(statement: &Statement) -> Option<Operands<'_>>
    ensures { option_map operand_names result ≡ simple_operands statement.now }
{
    match statement.family() {
        Family::Composition(composition) => Some(composition.operands()),
        Family::Put { operand } => Some(One(operand)),
        Family::Origin(_)
        | Family::Derivation(_)
        | Family::Computation(_)
        | Family::Look(_)
        | Family::Search(_)
        | Family::Growth(_)
        | Family::Control(_) => None,
    }
}

// The first cord among the arguments of a format, and the arguments after it.
fn first_cord(arguments: &[Argument]) -> Option<(&Name, &[Argument])>
    ensures { MatchOption result (cord_arguments arguments.now ≡ []) (λ r.
        cord_arguments arguments.now ≡ r.0.now ∷ cord_arguments r.1.now) }
{
    for (index, argument) in arguments.iter().enumerate() {
        match argument {
            Argument::Number(_) => {}
            Argument::Cord(name) => return Some((name, &arguments[index + 1..])),
        }
    }
    None
}

/// The first of the cords that are read, and those after it.
#[inline(always)]
pub(crate) fn first_read(reading: Reading<'_>) -> Option<(&Name, Reading<'_>)>
    ensures { MatchOption result (read_names reading.entry ≡ []) (λ r.
        read_names reading.entry ≡ r.0.now ∷ read_names r.1) }
{
    match reading {
        Reading::Operands(Nothing) => None,
        Reading::Operands(One(name)) => Some((name, Reading::Operands(Nothing))),
        Reading::Operands(Two(left, right)) => Some((left, Reading::Operands(One(right)))),
        Reading::Operands(Listed(names)) => match names {
            [] => None,
            [first, rest @ ..] => Some((first, Reading::Operands(Listed(rest)))),
        },
        Reading::Printed(arguments) => {
            let (name, rest) = first_cord(arguments)?;
            Some((name, Reading::Printed(rest)))
        }
    }
}

/// Whether a line reads the bytes of a name.
pub(crate) fn reads(statement: &Statement, name: &Name) -> bool
    ensures { result ≡ reads statement.now name.now }
{
    let mut left = statement.reading();
    'names: while let Some((operand, rest)) = first_read(left) {
        if name.is(operand) {
            return true;
        }
        left = rest;
    }
    false
}

/// Whether a line assigns a name.
pub(crate) fn assigns(statement: &Statement, name: &Name) -> bool
    ensures { result ≡ assigns statement.now name.now }
{
    match statement.target() {
        None => false,
        Some(target) => name.is(target),
    }
}
