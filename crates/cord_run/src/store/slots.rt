// The slots of names among the entries.
ghost use Rattle.std.specs.Prelude.{◌≡◌, ℕ, List, [], true, IfSome, MatchOption};
ghost use Rattle.cord_operands.specs.Keys.{key_of};
ghost use Rattle.cord_run.specs.inner.{are_distinct, names_in, Entry, AreKeys, HasNoEntry, HasSlot, IsSlotOf};

use crate::store::{Content, Entry};
use cord_core::Cord;
use cord_script::Name;
use std::alloc::AllocError;

/// The keys of the names of so many entries are kept.
pub(crate) const KEYS: usize = 256;

// No name has this key: that of no bytes is 0.
const NO_KEY: u64 = 8;

// Keys from this one on are hashes. A smaller one is of one name alone.
const FIRST_HASH: u64 = 1 << 63;

/// No name's key is kept.
pub(crate) fn no_keys() -> [u64; KEYS]
    ensures { AreKeys result [] }
{
    [NO_KEY; KEYS]
}

/// A slot, where this key stands there: that of a name of these bytes.
#[inline(always)]
pub(crate) fn keyed(keys: &[u64; KEYS], slot: usize, key: u64, bytes: &[u8]) -> Option<usize>
    requires { key ≡ key_of bytes.now }
    ensures { IfSome result (λ slot. (entries : List Entry) → are_distinct (names_in entries) ≡ true →
        AreKeys keys.now (names_in entries) → IsSlotOf entries bytes.now slot) }
{
    match keys.get(slot) {
        Some(known) if *known == key => Some(slot),
        _ => None,
    }
}

/// Keeps the key of a name of these bytes at its slot, where it is of that name alone.
pub(crate) fn note_key(keys: &mut [u64; KEYS], slot: usize, key: u64, bytes: &[u8])
    requires { key ≡ key_of bytes.now }
    ensures { (entries : List Entry) → AreKeys keys.old (names_in entries) → IsSlotOf entries bytes.now slot →
        AreKeys keys.new (names_in entries) }
{
    if slot < KEYS && key < FIRST_HASH {
        keys[slot] = key;
    }
}

/// The slot of the hint of a name, where the name stands there.
#[inline(always)]
pub(crate) fn hinted(entries: &[Entry], name: &Name) -> Option<usize>
    requires { are_distinct (names_in entries.now) ≡ true }
    ensures { IfSome result (IsSlotOf entries.now name.now) }
{
    let place = name.hint();
    if place >= entries.len() {
        return None;
    }
    let entry = &entries[place];
    if name.is(&entry.name) {
        Some(place)
    } else {
        None
    }
}

// The slot of a name, which is looked for.
#[cold]
#[inline(never)]
pub(crate) fn find_slot(entries: &[Entry], name: &Name) -> Option<usize>
    ensures { MatchOption result (HasNoEntry entries.now name.now) (IsSlotOf entries.now name.now) }
{
    for (place, entry) in entries.iter().enumerate() {
        if name.is(&entry.name) {
            return Some(place);
        }
    }
    None
}

// The slot of a new entry, of nothing yet, for a name that has none.
pub(crate) fn new_slot(entries: &mut Vec<Entry>, name: &Name) -> Result<usize, AllocError>
    requires absent { HasNoEntry entries.old.items name.now }
    requires distinct { are_distinct (names_in entries.old.items) ≡ true }
    ensures { HasSlot name.now entries.old.items entries.new.items result }
{
    let name = name.clone()?;
    let place = entries.len();
    entries.push(Entry {
        name,
        content: Content::Whole(Cord::empty()),
        number: 0,
        extensible: None,
    })?;
    Ok(place)
}
