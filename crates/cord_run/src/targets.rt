//! Names that get what a plan makes for them: a cord, or a length alone.
pub(crate) mod edits;
mod files;
mod literals;
mod prints;

ghost use Rattle.std.specs.Prelude.{◌≡◌, ◌≢◌, ℕ, Err, IfErr, IfOk, IfSome, OnErr};
ghost use Rattle.std.specs.Result.{MatchResult};
ghost use Rattle.cord_plan.specs.Planned as plan;
ghost use Rattle.cord_run.specs.inner.{lengths_in, device_in, opened_in, expr_view, made_view, Asks, IsLength};
ghost use Rattle.cord_run.specs.inner.{IsLengthOfNames, IsMade, IsMadeOfNames, IsUnmade, IsUnmadeOfNames, IsUnmeasured};
ghost use Rattle.cord_run.specs.inner.{IsUnmeasuredOfNames, TakesNoMemory, or_stop, IsFileMade, FailsBy, HasContent};
ghost use Rattle.cord_run.specs.inner.{IsOver, SameEntries, extent_in, IsExtent, IsKnownLength, Serves, StaysKnown};
ghost use Rattle.cord_run.specs.inner.{world_of};

use crate::checks::as_length;
use crate::expressions::build;
use crate::expressions::lengths::measured;
use crate::stops::Stop;
use crate::store::cords::balanced;
use crate::store::{Content, Store};
use crate::targets::edits::{edit_in_place, edit_of};
use crate::targets::files::{file_cord, file_of, opened_length};
use crate::targets::literals::{literal, start, start_length};
use crate::targets::prints::{print, print_length};
use cord_core::Cord;
use cord_file::Sources;
use cord_io::Files;
use cord_meaning::FaultKind;
use cord_plan::{Expr, Made};
use cord_script::Name;
use std::alloc::Global;

/// Gives a name the cord of what it is made of. Refused with the fault that this means, with `ReadFailed` where the
/// files failed, or with `NoMemory`.
pub(crate) fn give_cord<F: Files>(
    alloc: Global,
    store: &mut Store,
    sources: &mut Sources<F>,
    target: &Name,
    made: &Made,
) -> Result<(), Stop>
    requires over { IsOver (lengths_in (opened_in sources.old)) store.old.entries.items }
    ensures { (line : ℕ) → Serves ⟦<F as Files>⟧ (plan.Build line target.now (made_view made.now))
        (world_of (device_in sources.old) (opened_in sources.old) store.old.entries.items)
        (world_of (device_in sources.new) (opened_in sources.new) store.new.entries.items) result }
{
    match edit_of(target, made, store) {
        Some(edit) => edit_in_place(alloc, store, target, made, edit),
        None => {
            let cord = make(alloc, store, sources, made)?;
            give(store, target, Content::Whole(cord))
        }
    }
}

/// Gives a name the length alone of what it is made of; a length that is known isn't computed. Refused so too.
#[inline(always)]
pub(crate) fn give_length<F: Files>(
    alloc: Global,
    store: &mut Store,
    sources: &mut Sources<F>,
    target: &Name,
    made: &Made,
    known: Option<u64>,
) -> Result<(), Stop>
    requires over { IsOver (lengths_in (opened_in sources.old)) store.old.entries.items }
    requires known { IfSome known (IsKnownLength store.old.entries.items (made_view made.now)) }
    ensures stays { IfOk result (λ _. StaysKnown store.new.entries.items
        (plan.Measure 0 target.now (made_view made.now))) }
    ensures serves { (line : ℕ) → Serves ⟦<F as Files>⟧ (plan.Measure line target.now (made_view made.now))
        (world_of (device_in sources.old) (opened_in sources.old) store.old.entries.items)
        (world_of (device_in sources.new) (opened_in sources.new) store.new.entries.items) result }
{
    let len = measure(alloc, store, sources, made, known)?;
    give_long(store, target, len)
}

// Gives a name what was made for it.
fn give(store: &mut Store, target: &Name, content: Content) -> Result<(), Stop>
    ensures { MatchResult result (λ _. HasContent target.now content store.old.entries.items store.new.entries.items)
        (λ stop. stop ≡ Stop.NoMemory) }
{
    store.assign(target, content)?;
    Ok(())
}

// Gives a name a length alone.
#[inline(always)]
fn give_long(store: &mut Store, target: &Name, len: u64) -> Result<(), Stop>
    ensures { MatchResult result (λ _. HasContent target.now (Content.Long len) store.old.entries.items
        store.new.entries.items) (λ stop. stop ≡ Stop.NoMemory) }
{
    store.assign_length(target, len)?;
    Ok(())
}

// Makes the cord for a name. All names hold what they held.
fn make<F: Files>(
    alloc: Global,
    store: &mut Store,
    sources: &mut Sources<F>,
    made: &Made,
) -> Result<Cord, Stop>
    requires over { IsOver (lengths_in (opened_in sources.old)) store.old.entries.items }
    ensures asked { Asks ⟦<F as Files>⟧ (device_in sources.old) (device_in sources.new) (opened_in sources.old)
        (opened_in sources.new) (IsMade (F.consistent (device_in sources.new)) (opened_in sources.old)
        (opened_in sources.new) store.old.entries.items (made_view made.now))
        (IsUnmade (F.consistent (device_in sources.new)) (opened_in sources.old) store.old.entries.items
        (made_view made.now)) result }
    ensures same { IfOk result (λ _. SameEntries store.old.entries.items store.new.entries.items) }
    ensures fails { IfErr result (FailsBy (IsFileMade (made_view made.now)) ⊥) }
{
    match file_of(made) {
        Some((path, reading)) => file_cord(alloc, sources, path, reading),
        None => make_of_names(alloc, store, made),
    }
}

// The same of what needs no file.
fn make_of_names(alloc: Global, store: &mut Store, made: &Made) -> Result<Cord, Stop>
    requires { IsFileMade (made_view made.now) → ⊥ }
    ensures built { IfOk result (IsMadeOfNames store.old.entries.items (made_view made.now)) }
    ensures refused { IfErr result (IsUnmadeOfNames store.old.entries.items (made_view made.now)) }
    ensures same { IfOk result (λ _. SameEntries store.old.entries.items store.new.entries.items) }
{
    match made {
        Made::Joined(expression) => build(alloc, expression, store),
        Made::Literal(text) => Ok(literal(alloc, text.as_slice())?),
        Made::OfFunction(function, count) => start(alloc, *function, store.value_of(count)),
        Made::Balanced(name) => Ok(balanced(alloc, store, name)?),
        Made::OfExtensible(name) => Ok(store.extended(alloc, name)?),
        Made::Printed(_, format, arguments) => {
            print(alloc, store, format.as_ref(), arguments.as_ref().as_slice())
        }
        Made::OfFile(_) | Made::OfEager(_) | Made::OfLazy(_) => unreachable!(),
    }
}

// Tells the length for a name. No cord is made: memory is wanted for what is printed alone. A file is opened and not
// read: after a refusal no file more is open.
#[inline(always)]
fn measure<F: Files>(
    alloc: Global,
    store: &Store,
    sources: &mut Sources<F>,
    made: &Made,
    known: Option<u64>,
) -> Result<u64, Stop>
    requires over { IsOver (lengths_in (opened_in sources.old)) store.now.entries.items }
    requires known { IfSome known (IsKnownLength store.now.entries.items (made_view made.now)) }
    ensures extent { IfOk result (IsExtent store.now.entries.items (made_view made.now)) }
    ensures asked { Asks ⟦<F as Files>⟧ (device_in sources.old) (device_in sources.new) (opened_in sources.old)
        (opened_in sources.new) (IsLength (F.consistent (device_in sources.new)) (opened_in sources.old)
        store.now.entries.items (made_view made.now))
        (IsUnmeasured (F.consistent (device_in sources.new)) (opened_in sources.old) store.now.entries.items
        (made_view made.now)) result }
    ensures fails { IfErr result (FailsBy (IsFileMade (made_view made.now)) ⊥) }
    ensures unopened { OnErr result (opened_in sources.new ≡ opened_in sources.old) }
    ensures unbuilt { TakesNoMemory (made_view made.now) → result ≢ Err Stop.NoMemory }
{
    match file_of(made) {
        Some(file) => opened_length(alloc, sources, file.0),
        None => measure_of_names(alloc, store, made, known),
    }
}

// The same of what needs no file.
#[inline(always)]
fn measure_of_names(
    alloc: Global,
    store: &Store,
    made: &Made,
    known: Option<u64>,
) -> Result<u64, Stop>
    requires fileless { IsFileMade (made_view made.now) → ⊥ }
    requires known { IfSome known (IsKnownLength store.now.entries.items (made_view made.now)) }
    ensures extent { IfOk result (IsExtent store.now.entries.items (made_view made.now)) }
    ensures reported { IfOk result (IsLengthOfNames store.now.entries.items (made_view made.now)) }
    ensures refused { IfErr result (IsUnmeasuredOfNames store.now.entries.items (made_view made.now)) }
    ensures unbuilt { TakesNoMemory (made_view made.now) → result ≢ Err Stop.NoMemory }
{
    match made {
        Made::Joined(expression) => length_or_stop(joined_length(expression, known, store)),
        Made::Literal(text) => length_or_stop(as_length(text.as_slice().len() as u64)),
        Made::OfFunction(_, count) => length_or_stop(start_length(store.value_of(count))),
        Made::Balanced(name) => length_or_stop(as_length(store.length_of(name))),
        Made::OfExtensible(name) => length_or_stop(as_length(store.extended_length(name))),
        Made::Printed(_, format, arguments) => {
            print_length(alloc, store, format.as_ref(), arguments.as_ref().as_slice())
        }
        Made::OfFile(_) | Made::OfEager(_) | Made::OfLazy(_) => unreachable!(),
    }
}

// The length of an expression, or its fault. It is computed where it isn't known.
#[inline(always)]
fn joined_length(expression: &Expr, known: Option<u64>, store: &Store) -> Result<u64, FaultKind>
    requires { IfSome known (IsKnownLength store.now.entries.items (plan.Joined (expr_view expression.now))) }
    ensures { result ≡ extent_in store.now.entries.items (expr_view expression.now) }
{
    match known {
        Some(len) => as_length(len),
        None => measured(expression, store),
    }
}

// A length or a fault, as a run has it.
#[inline(always)]
fn length_or_stop(length: Result<u64, FaultKind>) -> Result<u64, Stop>
    ensures stops { result ≡ or_stop length }
    ensures unbuilt { result ≢ Err Stop.NoMemory }
{
    match length {
        Ok(len) => Ok(len),
        Err(kind) => Err(Stop::Fault(kind)),
    }
}
