// The growth of the extensible cord of an entry.
ghost use Rattle.std.specs.Prelude.{◌<◌, [], length};
ghost use Rattle.cord_run.specs.inner.{IsGrownBy, cells_or_none, Appends, Grew, GrewTo, cells_in, extensible_in};
ghost use Rattle.cord_run.specs.inner.{IsSetAt};

use crate::store::Entry;
use cord_ec::ExtCord;
use cord_io::CordError;
use std::alloc::Global;

/// Lets the extensible cord in the entry at a place grow by bytes.
#[inline(always)]
pub(crate) fn append_at(
    alloc: Global,
    entries: &mut [Entry],
    place: usize,
    bytes: &[u8],
) -> Result<(), CordError>
    requires { place < length entries.old }
    ensures { IsSetAt place (λ name. Appends (cells_or_none (extensible_in entries.old name)) bytes.now
        (λ _. Grew name bytes.now entries.old entries.new) result) entries.old entries.new }
{
    let entry = &mut entries[place];
    append_to(alloc, &mut entry.extensible, bytes)
}

// Lets an extensible cord grow by bytes; where there is none, one is begun.
#[inline(always)]
fn append_to(alloc: Global, extensible: &mut Option<ExtCord>, bytes: &[u8]) -> Result<(), CordError>
    ensures { Appends (cells_or_none (cells_in extensible.old)) bytes.now
        (λ _. GrewTo bytes.now extensible.old extensible.new) result }
{
    match extensible {
        Some(grown) => append(alloc, grown, bytes),
        None => {
            let begun = begun_with(alloc, bytes)?;
            *extensible = Some(begun);
            Ok(())
        }
    }
}

// An extensible cord of bytes.
#[cold]
#[inline(never)]
fn begun_with(alloc: Global, bytes: &[u8]) -> Result<ExtCord, CordError>
    ensures { Appends [] bytes.now (λ begun. IsGrownBy [] begun.text bytes.now) result }
{
    let mut begun = ExtCord::new(alloc)?;
    append(alloc, &mut begun, bytes)?;
    Ok(begun)
}

// Appends bytes: one alone costs less.
#[inline(always)]
fn append(alloc: Global, grown: &mut ExtCord, bytes: &[u8]) -> Result<(), CordError>
    ensures { Appends grown.old.text bytes.now (λ _. IsGrownBy grown.old.text grown.new.text bytes.now) result }
{
    match bytes {
        [byte] => grown.append(alloc, *byte),
        _ => grown.append_bytes(alloc, bytes),
    }
}
