// The names that the lines before assign.
ghost use Rattle.std.specs.Prelude.{◌≡◌, ◌<◌, [], ◌∷◌, ◌++◌, true, Some, None, length, IfSome};
ghost use Rattle.std.specs.Prelude.{MatchOption, OnOk};
ghost use Rattle.cord_script.specs.Tests.{is_name};
ghost use Rattle.cord_script.specs.Script.{kind_of, with_name};
ghost use Rattle.cord_operands.specs.Keys.{key_of};

use crate::kinds::Kind;
use crate::names::{is_name, is_same};
use crate::{MAX_NAMES, Name, bucket_of, key_of};
use std::alloc::{AllocError, Global};
use std::marker::Model;

/// The number of slots that guess the place of a name: few, since they are cleared for the shortest script too.
const SLOTS: usize = 1_024;

/// How many slots are looked at, from the name's own on.
const PROBES: usize = 8;

/// A guess that is none: no table has so many names.
const FREE: u16 = 65_535;

/// A name with its kind.
#[derive(Drop)]
pub struct Known {
    pub name: Name,
    pub kind: Kind,
}

/// A name that a line assigns first.
#[derive(Drop)]
pub struct NewName {
    pub known: Known,
    ghost named: { is_name known.name ≡ true },
}

/// Names with their kinds, in the order of their first assignment.
#[derive(Drop)]
pub struct Table {
    known: Vec<Known>,
    // The place of a name of the slot, or of one before it; a name that no guess leads to is searched for.
    guesses: [u16; SLOTS],
}

impl Model for Table {
    ghost use Rattle.std.specs.Prelude.{List};
    ghost use Rattle.cord_script.specs.declared.table.Known.{Known};
    ghost use Rattle.cord_script.specs.inner.Reading.{IsTable};

    ghost Value = { List Known };

    ghost view = { λ t. t.known.items };

    ghost invariant = { λ t. IsTable t.known.items };
}

// The first of these with the name, which has this key.
#[cold]
#[inline(never)]
fn search<'a>(known: &'a [Known], key: u64, name: &[u8]) -> Option<&'a Known>
    requires { key ≡ key_of name.now }
    ensures { MatchOption result (kind_of known.now name.now ≡ None) (λ found. (found.now.name ≡ name.now) ×
        (kind_of known.now name.now ≡ Some found.now.kind)) }
{
    for entry in known {
        if entry.name.is_spelled(key, name) {
            return Some(entry);
        }
    }
    None
}

impl Table {
    /// A table without names.
    pub fn nothing(alloc: Global) -> Self
        ensures { result ≡ [] }
    {
        Table {
            known: Vec::new(alloc),
            guesses: [FREE; SLOTS],
        }
    }

    /// How many names there are.
    pub fn len(&self) -> usize
        ensures { result ≡ length self.now }
    {
        self.known.len()
    }

    // The entry at a place, if it has the name, which has this key.
    fn at(&self, place: usize, key: u64, name: &[u8]) -> Option<&Known>
        requires { key ≡ key_of name.now }
        ensures { IfSome result (λ found. (found.now.name ≡ name.now) ×
            (kind_of self.now name.now ≡ Some found.now.kind)) }
    {
        match self.known.get(place) {
            Some(entry) if entry.name.is_spelled(key, name) => Some(entry),
            _ => None,
        }
    }

    // The entry that a guess leads to.
    fn guessed(&self, key: u64, name: &[u8]) -> Option<&Known>
        requires { key ≡ key_of name.now }
        ensures { IfSome result (λ found. (found.now.name ≡ name.now) ×
            (kind_of self.now name.now ≡ Some found.now.kind)) }
    {
        let slot = bucket_of(key);
        for probe in 0..PROBES {
            let place = self.guesses[(slot + probe) % SLOTS];
            if place == FREE {
                return None;
            }
            if let Some(entry) = self.at(usize::from(place), key, name) {
                return Some(entry);
            }
        }
        None
    }

    // The first entry with the name, which has this key. What is known is a name.
    fn find(&self, key: u64, name: &[u8]) -> Option<&Known>
        requires { key ≡ key_of name.now }
        ensures entry { MatchOption result (kind_of self.now name.now ≡ None) (λ found. (found.now.name ≡ name.now) ×
            (kind_of self.now name.now ≡ Some found.now.kind)) }
        ensures is_name { IfSome result (λ found. is_name name.now ≡ true) }
    {
        let known = self.known.as_slice();
        match self.guessed(key, name) {
            Some(entry) => Some(entry),
            None => search(known, key, name),
        }
    }

    /// The kind of a name, from the first line that assigns it.
    pub fn kind_of(&self, name: &[u8]) -> Option<Kind>
        ensures { result ≡ kind_of self.now name.now }
    {
        Some(self.find(key_of(name), name)?.kind)
    }

    /// The name of these bytes, where they are a name that isn't known, and one more may be.
    pub fn new_name(&self, alloc: Global, bytes: &[u8]) -> Option<Name>
        ensures name { IfSome result (λ name. name ≡ bytes.now) }
        ensures is_name { IfSome result (λ name. is_name name ≡ true) }
        ensures new { IfSome result (λ name. kind_of self.now name ≡ None) }
        ensures room { IfSome result (λ _. length self.now < MAX_NAMES) }
    {
        if self.known.len() >= MAX_NAMES || !is_name(bytes) || self.kind_of(bytes).is_some() {
            return None;
        }
        // Of 256 names the last has the greatest hint.
        let hint = u8::try_from(self.known.len()).unwrap_or(u8::MAX);
        Name::of(alloc, bytes, hint).ok()
    }

    /// The name of these bytes, which it shares with the table, where it is known and of this kind.
    #[inline(always)]
    pub fn known_name(&self, bytes: &[u8], kind: Kind) -> Option<Name>
        ensures name { IfSome result (λ name. name ≡ bytes.now) }
        ensures is_name { IfSome result (λ name. is_name name ≡ true) }
        ensures kind { IfSome result (λ name. kind_of self.now name ≡ Some kind) }
    {
        let entry = self.find(key_of(bytes), bytes)?;
        if !is_same(entry.kind, kind) {
            return None;
        }
        entry.name.clone().ok()
    }

    // Leads the key's slot, or the first free one after it, to a place.
    fn guess(&mut self, key: u64, place: usize)
        ensures { self.new ≡ self.old }
    {
        let Ok(place) = u16::try_from(place) else {
            return;
        };
        let slot = bucket_of(key);
        for probe in 0..PROBES {
            let probed = (slot + probe) % SLOTS;
            if self.guesses[probed] == FREE {
                self.guesses[probed] = place;
                return;
            }
        }
    }

    /// Adds a name with its kind, if it is new.
    pub fn assign(&mut self, known: Known) -> Result<(), AllocError>
        requires { is_name known.name ≡ true }
        ensures names { OnOk result (self.new ≡ with_name self.old known.name known.kind) }
    {
        if self.kind_of(known.name.as_slice()).is_some() {
            return Ok(());
        }
        self.push(known)
    }

    // Adds a name that is new.
    fn push(&mut self, known: Known) -> Result<(), AllocError>
        requires new { kind_of self.old known.name ≡ None }
        requires is_name { is_name known.name ≡ true }
        ensures names { OnOk result (self.new ≡ self.old ++ known ∷ []) }
    {
        let place = self.known.len();
        let key = known.name.key();
        self.known.push(known)?;
        self.guess(key, place);
        Ok(())
    }
}
