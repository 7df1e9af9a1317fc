// Statements that give a name a number.
ghost use Rattle.std.specs.Prelude.{◌≡◌, ◌≤◌, ◌+ℤ◌, ◌-ℤ◌, ℕ, List, IfErr, IfOk, IfSome, IsSome, None, Some, pos};
ghost use Rattle.cord_syntax.specs.Lines.{line_of};
ghost use Rattle.cord_syntax.specs.Targets.{target_of};
ghost use Rattle.cord_syntax.specs.declared.families.Family.TheVariants as families;
ghost use Rattle.cord_syntax.specs.declared.statements.Statement.TheVariants as statements;
ghost use Rattle.cord_run.specs.inner.{FileSystem, Table, MAX_LEN, lengths_of, statement_of, Statement, CountsFinding};
ghost use Rattle.cord_run.specs.inner.{FindsOver, HasReadForNumber, in_i64, or_stop, content_in, cord_in};
ghost use Rattle.cord_run.specs.inner.{HasNumber, IsOver, length_in, MeansOver, StaysOver};
ghost use Rattle.cord_run.specs.inner.{CountsReadStop};

use crate::statements::searches::{
    Direction, byte_found, compared, fetched, ranges_compared, text_found,
};
use crate::stops::Stop;
use crate::store::Store;
use cord_core::Cord;
use cord_io::Source;
use cord_meaning::FaultKind;
use cord_script::{Name, Number, Statement};
use cord_syntax::{Computation, Family, Look, Search};

/// Gives the name that a statement assigns the number that was found for it.
pub(crate) fn assign_found(
    store: &mut Store,
    statement: &Statement,
    number: Result<i64, Stop>,
) -> Result<(), Stop>
    ensures over { StaysOver store.old.entries.items store.new.entries.items result }
    ensures means { (t : Table) → FindsOver t statement.now store.old.entries.items number →
        IsSome (target_of statement.now) →
        MeansOver t statement.now store.old.entries.items store.new.entries.items result }
    ensures counts { (before after : ℕ) → CountsFinding before after number → CountsReadStop before after result }
{
    let number = number?;
    match statement.target() {
        None => Ok(()),
        Some(target) => give_number(store, target, number),
    }
}

/// The computation of a number that a statement is: it looks at no text.
#[inline(always)]
pub(crate) fn computation_of(statement: &Statement) -> Option<Computation<'_>>
    ensures { IfSome result (λ computation. statement_of (line_of statement.now) (families.Computation computation)
        ≡ statement.now) }
{
    match statement.family() {
        Family::Computation(computation) => Some(computation),
        _ => None,
    }
}

/// Gives a name the number that is computed for it.
#[inline(always)]
pub(crate) fn serve_computation(store: &mut Store, computation: Computation<'_>) -> Result<(), Stop>
    requires short { (x : List ℕ) → length_in store.old.entries.items x ≤ MAX_LEN }
    ensures over { StaysOver store.old.entries.items store.new.entries.items result }
    ensures means { (t : Table) → IsOver (lengths_of t) store.old.entries.items → (line : ℕ) →
        MeansOver t (statement_of line (families.Computation computation.entry)) store.old.entries.items
        store.new.entries.items result }
    ensures counts { (n : ℕ) → CountsReadStop n n result }
{
    match computation {
        Computation::Len { target, operand } => {
            let len = reported_length(store, operand);
            give_computed(store, target, Ok(len))
        }
        Computation::Assign { target, value } => {
            let value = store.value_of(value);
            give_computed(store, target, Ok(value))
        }
        Computation::Add {
            target,
            left,
            right,
        } => {
            let sum = sum(store.value_of(left), store.value_of(right));
            give_computed(store, target, sum)
        }
        Computation::Sub {
            target,
            left,
            right,
        } => {
            let difference = difference(store.value_of(left), store.value_of(right));
            give_computed(store, target, difference)
        }
    }
}

// Gives a name the number that was computed for it, unless it is a fault.
#[inline(always)]
fn give_computed(
    store: &mut Store,
    target: &Name,
    number: Result<i64, FaultKind>,
) -> Result<(), Stop>
    ensures over { StaysOver store.old.entries.items store.new.entries.items result }
    ensures means { (t : Table) (l : Statement) →
        FindsOver t l store.old.entries.items (or_stop number) → target_of l ≡ Some target.now →
        MeansOver t l store.old.entries.items store.new.entries.items result }
    ensures counts { (n : ℕ) → CountsReadStop n n result }
{
    match number {
        Ok(number) => give_number(store, target, number),
        Err(kind) => Err(Stop::Fault(kind)),
    }
}

// The length known of a name.
#[inline(always)]
fn reported_length(store: &Store, name: &Name) -> i64
    requires { length_in store.now.entries.items name.now ≤ MAX_LEN }
    ensures { result ≡ pos (length_in store.now.entries.items name.now) }
{
    store.length_of(name) as i64
}

/// The byte or the order that a look at cords finds.
pub(crate) fn look_number<R: Source>(
    store: &Store,
    source: &mut R,
    look: Look<'_>,
) -> Result<i64, Stop>
    requires over { IsOver (R.lengths source.old) store.now.entries.items }
    ensures found { (file_system : FileSystem) → R.consistent source.new file_system → (line : ℕ) →
        FindsOver (R.table source.old file_system) (statement_of line (families.Look look.entry))
        store.now.entries.items result }
    ensures read { HasReadForNumber ⟦<R as Source>⟧ source.old source.new result }
{
    let empty = Cord::empty();
    match look {
        Look::Fetch { operand, index, .. } => {
            let cord = cord_or(store, operand, &empty);
            fetched(cord, store.value_of(index), source)
        }
        Look::Cmp { left, right, .. } => {
            let left = cord_or(store, left, &empty);
            compared(left, cord_or(store, right, &empty), source)
        }
        Look::Ncmp {
            left,
            left_start,
            right,
            right_start,
            count,
            ..
        } => ranges_number(
            store,
            source,
            left,
            left_start.as_ref(),
            right,
            right_start.as_ref(),
            count.as_ref(),
        ),
    }
}

// The order of ranges of two cords.
fn ranges_number<R: Source>(
    store: &Store,
    source: &mut R,
    left: &Name,
    left_start: &Number,
    right: &Name,
    right_start: &Number,
    count: &Number,
) -> Result<i64, Stop>
    requires over { IsOver (R.lengths source.old) store.now.entries.items }
    ensures found { (file_system : FileSystem) → R.consistent source.new file_system → (line : ℕ) (target : List ℕ) →
        FindsOver (R.table source.old file_system) (statements.Ncmp line target left.now left_start.now right.now
        right_start.now count.now) store.now.entries.items result }
    ensures read { HasReadForNumber ⟦<R as Source>⟧ source.old source.new result }
{
    let empty = Cord::empty();
    ranges_compared(
        cord_or(store, left, &empty),
        store.value_of(left_start),
        cord_or(store, right, &empty),
        store.value_of(right_start),
        store.value_of(count),
        source,
    )
}

/// The place that a search finds, or -1.
pub(crate) fn search_number<R: Source>(
    store: &Store,
    source: &mut R,
    search: Search<'_>,
) -> Result<i64, Stop>
    requires over { IsOver (R.lengths source.old) store.now.entries.items }
    ensures found { (file_system : FileSystem) → R.consistent source.new file_system → (line : ℕ) →
        FindsOver (R.table source.old file_system) (statement_of line (families.Search search.entry))
        store.now.entries.items result }
    ensures read { HasReadForNumber ⟦<R as Source>⟧ source.old source.new result }
{
    let empty = Cord::empty();
    match search {
        Search::Str {
            operand,
            start,
            pattern,
            ..
        } => text_found(
            cord_or(store, operand, &empty),
            store.value_of(start),
            cord_or(store, pattern, &empty),
            source,
        ),
        Search::Chr {
            operand,
            start,
            byte,
            ..
        } => {
            let cord = cord_or(store, operand, &empty);
            let start = store.value_of(start);
            let byte = store.value_of(byte);
            byte_found(cord, start, byte, Direction::Forward, source)
        }
        Search::Rchr {
            operand,
            start,
            byte,
            ..
        } => {
            let cord = cord_or(store, operand, &empty);
            let start = store.value_of(start);
            let byte = store.value_of(byte);
            byte_found(cord, start, byte, Direction::Backward, source)
        }
    }
}

/// The cord of a name, or this empty one where it has none.
#[inline(always)]
pub(crate) fn cord_or<'a>(store: &'a Store, name: &Name, empty: &'a Cord) -> &'a Cord
    requires { empty.now ≡ None }
    ensures { result.now ≡ cord_in (content_in store.now.entries.items name.now) }
{
    store.cord_of(name).unwrap_or(empty)
}

/// A sum that an i64 can be.
#[inline(always)]
pub(crate) fn sum(left: i64, right: i64) -> Result<i64, FaultKind>
    ensures { result ≡ in_i64 (left +ℤ right) }
{
    left.checked_add(right).ok_or(FaultKind::Overflow)
}

/// A difference that an i64 can be.
#[inline(always)]
pub(crate) fn difference(left: i64, right: i64) -> Result<i64, FaultKind>
    ensures { result ≡ in_i64 (left -ℤ right) }
{
    left.checked_sub(right).ok_or(FaultKind::Overflow)
}

// Gives a name of a number its number.
#[inline(always)]
fn give_number(store: &mut Store, target: &Name, number: i64) -> Result<(), Stop>
    ensures has { IfOk result (λ _. HasNumber target.now number store.old.entries.items store.new.entries.items) }
    ensures refused { IfErr result (λ stop. stop ≡ Stop.NoMemory) }
{
    store.assign_number(target, number)?;
    Ok(())
}
