// Where `repeat`, `if`, `else` and `end` lead.
ghost use Rattle.std.specs.Prelude.{get_or, ◌≡◌, ◌+◌, ◌-◌, ◌^◌, ◌<◌, IfNone, IfSome};
ghost use Rattle.cord_meaning.specs.Statements.{compares, shape_of};
ghost use Rattle.cord_run.specs.inner.{Straight, Goes, statement_at, where_of, IsRefusedAt, goal_of};

use crate::control::{Control, ControlStop, exit_at};
use crate::store::Store;
use cord_script::{Relation, Statement};
use cord_syntax::{Control as ControlStatement, Family};

/// A statement that leads the run, with the number of its line.
#[derive(Clone, Copy)]
pub(crate) struct ControlLine<'a> {
    pub(crate) line: u32,
    pub(crate) statement: ControlStatement<'a>,
}

/// What leads the run, where a statement does.
#[inline(always)]
pub(crate) fn control_of(statement: &Statement) -> Option<ControlLine<'_>>
    ensures control { IfSome result (λ at. statement.now ≡ statement_at at) }
    ensures straight { IfNone result (shape_of statement.now ≡ Straight) }
{
    match statement.family() {
        Family::Control(control) => Some(ControlLine {
            line: statement.line(),
            statement: control,
        }),
        Family::Origin(_)
        | Family::Composition(_)
        | Family::Derivation(_)
        | Family::Put { .. }
        | Family::Computation(_)
        | Family::Look(_)
        | Family::Search(_)
        | Family::Growth(_) => None,
    }
}

/// Goes where a `repeat`, an `if`, an `else` or an `end` leads; `jumps` are the places after what they may pass over.
#[inline(always)]
pub(crate) fn steer(
    at: ControlLine,
    jumps: &[usize],
    store: &Store,
    control: &mut Control,
) -> Result<(), ControlStop>
    requires place { (where_of control.old).place < 2 ^ 64 - 1 }
    ensures { Goes (goal_of (statement_at at.entry) store.now.entries.items
        (get_or jumps.now (where_of control.old).place ((where_of control.old).place + 1)) (where_of control.old))
        (IsRefusedAt (statement_at at.entry) (where_of control.old)) (where_of control.new) result }
{
    match at.statement {
        ControlStatement::Repeat { count } => {
            let exit = exit_at(jumps, control.place);
            control.repeat(at.line, exit, store.value_of(count))
        }
        ControlStatement::If {
            left,
            relation,
            right,
        } => {
            let holds = compares(relation, store.value_of(left), store.value_of(right));
            control.choose(at.line, exit_at(jumps, control.place), holds)
        }
        ControlStatement::Else => {
            control.go_to(exit_at(jumps, control.place));
            Ok(())
        }
        ControlStatement::End => control.close(),
    }
}

/// Whether a relation holds of two numbers.
#[inline(always)]
pub(crate) fn compares(relation: Relation, left: i64, right: i64) -> bool
    ensures { result ≡ compares relation left right }
{
    match relation {
        Relation::Less => left < right,
        Relation::Equal => left == right,
        Relation::Greater => right < left,
    }
}
