// Statements that begin extensible cords, and let them grow.
ghost use Rattle.std.specs.Prelude.{◌≡◌, ◌∷◌, ℕ, [], Err, None, Some};
ghost use Rattle.std.specs.Result.{MatchResult};
ghost use Rattle.cord_meaning.specs.State as meant;
ghost use Rattle.cord_syntax.specs.declared.families.Family.TheVariants as families;
ghost use Rattle.cord_run.specs.inner.{Table, lengths_of, statement_of, Becomes, cells_or_none, extensible_in};
ghost use Rattle.cord_run.specs.inner.{longer_text, refusal_of, text_over, HasExtensible, IsOver, MeansOver, StaysOver};
ghost use Rattle.cord_run.specs.inner.{CountsReadStop};

use crate::checks::as_byte;
use crate::statements::numbers::cord_or;
use crate::stops::Stop;
use crate::store::Store;
use cord_core::Cord;
use cord_ec::ExtCord;
use cord_io::CordError;
use cord_meaning::FaultKind;
use cord_script::Name;
use cord_syntax::Growth;
use std::alloc::Global;

/// Does what a statement means that begins an extensible cord or lets it grow.
#[inline(always)]
pub(crate) fn serve_growth(alloc: Global, store: &mut Store, growth: Growth<'_>) -> Result<(), Stop>
    ensures over { StaysOver store.old.entries.items store.new.entries.items result }
    ensures means { (t : Table) → IsOver (lengths_of t) store.old.entries.items → (line : ℕ) →
        MeansOver t (statement_of line (families.Growth growth.entry)) store.old.entries.items
        store.new.entries.items result }
    ensures counts { (n : ℕ) → CountsReadStop n n result }
{
    match growth {
        Growth::EcInit { target } => begin(alloc, store, target),
        Growth::EcPut { extensible, byte } => {
            let byte = store.value_of(byte);
            grow_by_number(alloc, store, extensible, byte)
        }
        Growth::EcCat {
            extensible,
            operand,
        } => grow_by_cord(alloc, store, extensible, operand),
        Growth::EcStr { extensible, text } => {
            grow_by_bytes(alloc, store, extensible, text.as_slice())
        }
    }
}

// Lets the extensible cord of a name grow by a number in the place of a byte.
#[inline(always)]
fn grow_by_number(alloc: Global, store: &mut Store, name: &Name, byte: i64) -> Result<(), Stop>
    ensures over { StaysOver store.old.entries.items store.new.entries.items result }
    ensures becomes { MatchResult (meant.as_byte byte) (λ b. Becomes name.now
        (longer_text store.old.entries.items name.now (b ∷ [])) store.old.entries.items store.new.entries.items result)
        (λ kind. result ≡ Err (Stop.Fault kind)) }
{
    match as_byte(byte) {
        Ok(byte) => grow_by_bytes(alloc, store, name, &[byte]),
        Err(kind) => Err(Stop::Fault(kind)),
    }
}

// Begins the extensible cord of a name, with no byte.
fn begin(alloc: Global, store: &mut Store, name: &Name) -> Result<(), Stop>
    ensures over { StaysOver store.old.entries.items store.new.entries.items result }
    ensures becomes { Becomes name.now (λ t. []) store.old.entries.items store.new.entries.items result }
{
    let extensible = ExtCord::new(alloc)?;
    give(store, name, extensible)
}

// Lets the extensible cord of a name grow by bytes.
#[inline(always)]
fn grow_by_bytes(alloc: Global, store: &mut Store, name: &Name, bytes: &[u8]) -> Result<(), Stop>
    ensures over { StaysOver store.old.entries.items store.new.entries.items result }
    ensures becomes { Becomes name.now (longer_text store.old.entries.items name.now bytes.now) store.old.entries.items
        store.new.entries.items result }
{
    match store.append(alloc, name, bytes) {
        Ok(()) => Ok(()),
        Err(error) => Err(refusal(error)),
    }
}

// Lets it grow by the cord of another name.
fn grow_by_cord(alloc: Global, store: &mut Store, name: &Name, operand: &Name) -> Result<(), Stop>
    ensures over { StaysOver store.old.entries.items store.new.entries.items result }
    ensures becomes { Becomes name.now (λ t. longer_text store.old.entries.items name.now
        (text_over t store.old.entries.items operand.now) t) store.old.entries.items store.new.entries.items result }
{
    let empty = Cord::empty();
    let mut extensible = taken(alloc, store, name)?;
    match extensible.append_cord(alloc, cord_or(store, operand, &empty)) {
        Ok(()) => give(store, name, extensible),
        Err(error) => Err(refusal(error)),
    }
}

// What a refused growth is to a run.
fn refusal(error: CordError) -> Stop
    ensures { result ≡ refusal_of error }
{
    match error {
        CordError::TooLong => Stop::Fault(FaultKind::TooLong),
        _ => Stop::NoMemory,
    }
}

// The extensible cord of a name, taken out of its entry: an empty one where it was not begun.
fn taken(alloc: Global, store: &mut Store, name: &Name) -> Result<ExtCord, Stop>
    ensures { MatchResult result (λ e. (e.text ≡ cells_or_none (extensible_in store.old.entries.items name.now)) ×
        HasExtensible name.now None store.old.entries.items store.new.entries.items) (λ stop. stop ≡ Stop.NoMemory) }
{
    match store.take_extensible(name) {
        Some(extensible) => Ok(extensible),
        None => Ok(ExtCord::new(alloc)?),
    }
}

// Gives a name its extensible cord.
fn give(store: &mut Store, name: &Name, extensible: ExtCord) -> Result<(), Stop>
    ensures { MatchResult result (λ _. HasExtensible name.now (Some extensible.text) store.old.entries.items
        store.new.entries.items) (λ stop. stop ≡ Stop.NoMemory) }
{
    store.assign_extensible(name, extensible)?;
    Ok(())
}
