// Edits: a name that gets its own text again, with another one in the place of a range of it. Its cord is changed where
// it is held.
ghost use Rattle.std.specs.Prelude.{◌≡◌, IfErr, IfOk, IfSome, IsErr};
ghost use Rattle.cord_run.specs.inner.{made_view, IsUnmadeOfNames, Edited, IsEdit, IsMiddle, IsNoMiddle, IsReplaced};
ghost use Rattle.cord_run.specs.inner.{operand_in};
ghost use Rattle.cord_plan.specs.Edits.{edit_view};
ghost use Rattle.cord_plan.specs.Planned as plan;
ghost use Rattle.cord_plan.specs.declared.edits.Edit.TheVariants as edits;

use crate::expressions::parts::build_part;
use crate::stops::Stop;
use crate::store::Store;
use cord_core::Cord;
use cord_plan::{Expr, Made, Replacement};
use cord_script::Name;
use std::alloc::Global;

/// Bytes of a text: so many from a place on.
#[derive(Clone, Copy)]
pub(crate) struct Replaced {
    pub(crate) start: u64,
    pub(crate) count: u64,
}

/// An edit of the cord in the entry at a place: what is put in the place of these bytes.
#[derive(Clone, Copy)]
pub(crate) struct Edit<'a> {
    place: usize,
    replaced: Replaced,
    middle: Option<&'a Expr>,
}

/// The edit by which a name gets what it is made of, where all before and after the bytes that are replaced stays.
pub(crate) fn edit_of<'a>(target: &Name, made: &'a Made, store: &Store) -> Option<Edit<'a>>
    ensures { IfSome result (IsEdit store.now.entries.items target.now (made_view made.now)) }
{
    let form = form_of(target, made)?;
    let place = store.place(target)?;
    let cord = store.cord_at(place)?;
    let replaced = replaced_by(cord.len(), form, store)?;
    Some(Edit {
        place,
        replaced,
        middle: form.middle,
    })
}

// What is joined, where it has the form of an edit in the middle.
fn form_of<'a>(target: &Name, made: &'a Made) -> Option<Replacement<'a>>
    ensures { IfSome result (λ form. made_view made.now ≡ plan.Joined (edit_view target.now (edits.Replace form))) }
{
    match made.edit_of(target) {
        Some(cord_plan::Edit::Replace(form)) => Some(form),
        _ => None,
    }
}

/// The bytes of a text of this length in whose place an edit puts something, where all before and after them stays.
#[inline(always)]
pub(crate) fn replaced_by(len: u64, form: Replacement<'_>, store: &Store) -> Option<Replaced>
    ensures { IfSome result (IsReplaced len (operand_in store.now.entries.items form.entry.prefix.start.now)
        (operand_in store.now.entries.items form.entry.prefix.count.now)
        (operand_in store.now.entries.items form.entry.suffix.start.now)
        (operand_in store.now.entries.items form.entry.suffix.count.now)) }
{
    replaced_of(
        len,
        store.value_of(form.prefix.start),
        store.value_of(form.prefix.count),
        store.value_of(form.suffix.start),
        store.value_of(form.suffix.count),
    )
}

// The bytes of a text of this length that stand in neither of two ranges, where the first range begins the text, the
// second one ends it, and they have no byte in common.
fn replaced_of(
    len: u64,
    first_start: i64,
    first_count: i64,
    last_start: i64,
    last_count: i64,
) -> Option<Replaced>
    ensures { IfSome result (IsReplaced len first_start first_count last_start last_count) }
{
    if first_start != 0 || first_count < 0 || last_start < 0 || last_count < 0 {
        return None;
    }
    let start = (first_count as u64).min(len);
    let end = (last_start as u64).min(len);
    if end < start || (last_count as u64) < len - end {
        return None;
    }
    Some(Replaced {
        start,
        count: end - start,
    })
}

/// Edits the cord of a name. Refused with the fault of what is put there, with `TooLong`, or with `NoMemory`: then all
/// names hold what they held.
pub(crate) fn edit_in_place(
    alloc: Global,
    store: &mut Store,
    target: &Name,
    made: &Made,
    edit: Edit<'_>,
) -> Result<(), Stop>
    requires { IsEdit store.old.entries.items target.now (made_view made.now) edit }
    ensures edited { IfOk result (λ _. Edited target.now (made_view made.now) edit.entry.middle
        store.old.entries.items store.new.entries.items) }
    ensures refused { IfErr result (IsUnmadeOfNames store.old.entries.items (made_view made.now)) }
    ensures unchanged { IsErr result → store.new.entries.items ≡ store.old.entries.items }
{
    let middle = middle_of(alloc, edit.middle, store)?;
    store.splice_at(
        alloc,
        edit.place,
        edit.replaced.start,
        edit.replaced.count,
        &middle,
    )?;
    Ok(())
}

// The cord of what is put there: none where the bytes are left out.
fn middle_of(alloc: Global, middle: Option<&Expr>, store: &Store) -> Result<Cord, Stop>
    ensures made { IfOk result (IsMiddle store.now.entries.items middle.entry) }
    ensures refused { IfErr result (IsNoMiddle store.now.entries.items middle.entry) }
{
    match middle {
        None => Ok(Cord::empty()),
        Some(expression) => build_part(alloc, expression, store),
    }
}
