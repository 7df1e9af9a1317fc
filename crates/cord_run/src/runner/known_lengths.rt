// Lengths that follow from those of the operations before.
ghost use Rattle.std.specs.Prelude.{◌≡◌, ◌+◌, ◌-◌, ◌^◌, ◌<◌, ℕ, List, IfSome, Some, map, slice_get};
ghost use Rattle.cord_run.specs.inner.{append, cat, member, members_view, name, nothing, operation_view, Exprs};
ghost use Rattle.cord_run.specs.inner.{IsKnownAt, Joined, Measure, StaysKnown};

use crate::store::Store;
use cord_plan::{Expr, Made, Members, Operation, Plan};
use cord_script::Name;

/// The length that the operation at the next place is to compute, where the one at this place was done last, and the
/// next one joins a name more: the length of this one's target, and that of the name.
pub(crate) fn known_after(
    plan: &Plan,
    operation: &Operation,
    place: usize,
    store: &Store,
) -> Option<u64>
    requires place { place < 2 ^ 64 - 1 }
    requires here { slice_get (map operation_view plan.now) place ≡ Some (operation_view operation.now) }
    requires stays { StaysKnown store.now.entries.items (operation_view operation.now) }
    ensures { IfSome result (IsKnownAt store.now.entries.items (map operation_view plan.now) (place + 1)) }
{
    let next = place + 1;
    if !plan.extends(next) {
        return None;
    }
    let Operation::Measure { target, .. } = operation else {
        return None;
    };
    let members = measured_members(plan.operations().get(next)?)?;
    let name = last_name(members)?;
    let len = store.length_of(target);
    Some(len.saturating_add(store.length_of(name)))
}

// The members whose length an operation computes together.
fn measured_members(operation: &Operation) -> Option<&Members>
    ensures { IfSome result (λ members. (line : ℕ) × (x : List ℕ) ×
        (operation_view operation.now ≡ Measure line x (Joined (cat (members_view members.now))))) }
{
    match operation {
        Operation::Measure {
            made: Made::Joined(Expr::Cat(members)),
            ..
        } => Some(members),
        _ => None,
    }
}

// The last of these members, where it is a name.
fn last_name(members: &Members) -> Option<&Name>
    ensures { IfSome result (λ last. (others : Exprs) ×
        (members_view members.now ≡ append others (member (name last.now) nothing))) }
{
    let (_, rest) = members.halves();
    match rest.last()?.as_ref() {
        Expr::Name(name) => Some(name),
        _ => None,
    }
}
