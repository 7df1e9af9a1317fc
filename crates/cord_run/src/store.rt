//! What the names of a run of a plan hold.
mod appends;
mod contents;
pub(crate) mod cords;
mod slots;

ghost use Rattle.std.specs.Prelude.{◌≡◌, ◌<◌, ℕ, List, true, [], length, IfOk, IfSome, MatchOption, None, Some};
ghost use Rattle.cord_core.specs.Cord.{text_len};
ghost use Rattle.cord_run.specs.inner.Contents.{HasSplice, IsWholeAt, Splices, spliced_len};
ghost use Rattle.cord_run.specs.inner.Contents.Entries.{AreKeys, are_distinct, cells_in, cells_or_none, content_in};
ghost use Rattle.cord_run.specs.inner.Contents.Entries.{content_length, cord_in, extensible_in, length_in, names_in};
ghost use Rattle.cord_run.specs.inner.Contents.Entries.{number_in, operand_in, Appends, Grew, HasContent};
ghost use Rattle.cord_run.specs.inner.Contents.Entries.{HasExtensible};
ghost use Rattle.cord_run.specs.inner.Contents.Entries.{HasNoEntry, HasNumber, HasSlot, IsEntryAt, IsFirstEntry, IsSlotOf};

use crate::store::appends::append_at;
use crate::store::contents::{set_content, set_extensible, set_length, set_number, splice_content};
use crate::store::slots::{KEYS, find_slot, hinted, keyed, new_slot, no_keys, note_key};
use cord_core::Cord;
use cord_ec::ExtCord;
use cord_io::CordError;
use cord_script::{Name, Number};
use std::alloc::{AllocError, Global};

/// What the name of a cord holds: its cord, or a length alone.
#[derive(Drop)]
pub(crate) enum Content {
    Whole(Cord),
    Long(u64),
}

impl Content {
    /// The cord, where there is no length alone.
    #[inline(always)]
    pub(crate) fn cord(&self) -> Option<&Cord>
        ensures { MatchOption result (cord_in self.now ≡ None) (λ cord. self.now ≡ Content.Whole cord.now) }
    {
        match self {
            Content::Whole(cord) => Some(cord),
            Content::Long(_) => None,
        }
    }

    /// The length known of it.
    #[inline(always)]
    fn len(&self) -> u64
        ensures { result ≡ content_length self.now }
    {
        match self {
            Content::Whole(cord) => cord.len(),
            Content::Long(len) => *len,
        }
    }
}

/// A name, and what it holds as the name of a cord, of a number and of an extensible cord.
#[derive(Drop)]
pub(crate) struct Entry {
    pub(crate) name: Name,
    pub(crate) content: Content,
    pub(crate) number: i64,
    pub(crate) extensible: Option<ExtCord>,
}

/// What the names hold: a name that was not assigned is empty or 0. No two entries have one name.
#[derive(Drop)]
pub(crate) struct Store {
    pub(crate) entries: Vec<Entry>,
    // The keys of the names in the first slots, where each is of one name alone.
    keys: [u64; KEYS],
    ghost distinct: { are_distinct (names_in entries.items) ≡ true },
    ghost keyed: { AreKeys keys (names_in entries.items) },
}

impl Store {
    /// No name has been assigned.
    pub(crate) fn empty(alloc: Global) -> Self
        ensures { result.entries.items ≡ [] }
    {
        Store {
            entries: Vec::new(alloc),
            keys: no_keys(),
        }
    }

    /// The place of a name.
    #[inline(always)]
    pub(crate) fn place(&self, name: &Name) -> Option<usize>
        ensures { MatchOption result (HasNoEntry self.now.entries.items name.now)
            (IsSlotOf self.now.entries.items name.now) }
    {
        match self.hinted(name) {
            Some(place) => Some(place),
            None => find_slot(&self.entries, name),
        }
    }

    // The slot of the hint of a name, where the name stands there: most names show by their keys that they do.
    #[inline(always)]
    fn hinted(&self, name: &Name) -> Option<usize>
        ensures { IfSome result (IsSlotOf self.now.entries.items name.now) }
    {
        match keyed(&self.keys, name.hint(), name.key(), name.as_slice()) {
            Some(place) => Some(place),
            None => hinted(&self.entries, name),
        }
    }

    // The entry of a name.
    #[inline(always)]
    fn entry(&self, name: &Name) -> Option<&Entry>
        ensures { MatchOption result (HasNoEntry self.now.entries.items name.now)
            (λ entry. IsFirstEntry self.now.entries.items name.now entry.now) }
    {
        let place = self.place(name)?;
        Some(&self.entries[place])
    }

    // The slot of a name, which gets an entry where it has none.
    #[inline(always)]
    fn slot_for(&mut self, name: &Name) -> Result<usize, AllocError>
        ensures { HasSlot name.now self.old.entries.items self.new.entries.items result }
    {
        match self.place(name) {
            Some(place) => Ok(place),
            None => self.new_slot(name),
        }
    }

    // The slot of a new entry, of nothing yet, for a name that has none.
    #[cold]
    #[inline(never)]
    fn new_slot(&mut self, name: &Name) -> Result<usize, AllocError>
        requires { HasNoEntry self.old.entries.items name.now }
        ensures { HasSlot name.now self.old.entries.items self.new.entries.items result }
    {
        let place = new_slot(&mut self.entries, name)?;
        note_key(&mut self.keys, place, name.key(), name.as_slice());
        Ok(place)
    }

    /// The cord of a name, where it has one that isn't empty.
    #[inline(always)]
    pub(crate) fn cord_of(&self, name: &Name) -> Option<&Cord>
        ensures { MatchOption result (cord_in (content_in self.now.entries.items name.now) ≡ None)
            (λ cord. content_in self.now.entries.items name.now ≡ Content.Whole cord.now) }
    {
        match self.entry(name) {
            None => None,
            Some(entry) => entry.content.cord(),
        }
    }

    /// The cord of the entry at a place, where there is no length alone.
    #[inline(always)]
    pub(crate) fn cord_at(&self, place: usize) -> Option<&Cord>
        requires { place < length self.now.entries.items }
        ensures some { IfSome result (λ cord. (name : List ℕ) → IsEntryAt self.now.entries.items name place →
            content_in self.now.entries.items name ≡ Content.Whole cord.now) }
        ensures whole { IfSome result (λ _. IsWholeAt place self.now.entries.items) }
    {
        self.entries[place].content.cord()
    }

    /// The length known of the name of a cord.
    #[inline(always)]
    pub(crate) fn length_of(&self, name: &Name) -> u64
        ensures { result ≡ length_in self.now.entries.items name.now }
    {
        match self.entry(name) {
            None => 0,
            Some(entry) => entry.content.len(),
        }
    }

    /// The value of a number operand.
    #[inline(always)]
    pub(crate) fn value_of(&self, operand: &Number) -> i64
        ensures { result ≡ operand_in self.now.entries.items operand.now }
    {
        match operand {
            Number::Numeral(value) => *value,
            Number::Named(name) => self.number_of(name),
        }
    }

    // The number of a name.
    #[inline(always)]
    fn number_of(&self, name: &Name) -> i64
        ensures { result ≡ number_in self.now.entries.items name.now }
    {
        match self.entry(name) {
            None => 0,
            Some(entry) => entry.number,
        }
    }

    /// Puts a cord in the place of so many bytes from a start on of the cord of the entry at a place. Refused with
    /// `TooLong` or with `NoMemory`: then nothing has changed.
    pub(crate) fn splice_at(
        &mut self,
        alloc: Global,
        place: usize,
        start: u64,
        count: u64,
        middle: &Cord,
    ) -> Result<(), CordError>
        requires within { place < length self.old.entries.items }
        requires whole { IsWholeAt place self.old.entries.items }
        ensures { (name : List ℕ) → IsEntryAt self.old.entries.items name place → Splices
            (HasSplice name start count middle.now self.old.entries.items self.new.entries.items)
            (spliced_len start count middle.now (text_len (cord_in (content_in self.old.entries.items name))))
            self.old.entries.items self.new.entries.items result }
    {
        splice_content(alloc, &mut self.entries, place, start, count, middle)
    }

    /// Gives a name of a cord its cord, or a length alone.
    pub(crate) fn assign(&mut self, name: &Name, content: Content) -> Result<(), AllocError>
        ensures { IfOk result (λ _. HasContent name.now content self.old.entries.items self.new.entries.items) }
    {
        let place = self.slot_for(name)?;
        set_content(&mut self.entries, place, content);
        Ok(())
    }

    /// Gives a name of a cord a length alone.
    #[inline(always)]
    pub(crate) fn assign_length(&mut self, name: &Name, len: u64) -> Result<(), AllocError>
        ensures { IfOk result (λ _. HasContent name.now (Content.Long len) self.old.entries.items
            self.new.entries.items) }
    {
        let place = self.slot_for(name)?;
        set_length(&mut self.entries, place, len);
        Ok(())
    }

    /// Gives a name of a number its number.
    #[inline(always)]
    pub(crate) fn assign_number(&mut self, name: &Name, number: i64) -> Result<(), AllocError>
        ensures { IfOk result (λ _. HasNumber name.now number self.old.entries.items self.new.entries.items) }
    {
        match self.hinted(name) {
            Some(place) => {
                set_number(&mut self.entries, place, number);
                Ok(())
            }
            None => self.assign_number_apart(name, number),
        }
    }

    // The same of a name that isn't where its hint says.
    #[cold]
    #[inline(never)]
    fn assign_number_apart(&mut self, name: &Name, number: i64) -> Result<(), AllocError>
        ensures { IfOk result (λ _. HasNumber name.now number self.old.entries.items self.new.entries.items) }
    {
        let place = self.slot_for(name)?;
        set_number(&mut self.entries, place, number);
        Ok(())
    }

    /// Gives a name its extensible cord.
    pub(crate) fn assign_extensible(
        &mut self,
        name: &Name,
        extensible: ExtCord,
    ) -> Result<(), AllocError>
        ensures { IfOk result (λ _. HasExtensible name.now (Some extensible.text) self.old.entries.items
            self.new.entries.items) }
    {
        let place = self.slot_for(name)?;
        let _ = set_extensible(&mut self.entries, place, Some(extensible));
        Ok(())
    }

    /// Lets the extensible cord of a name grow by bytes; one that was not begun is begun.
    #[inline(always)]
    pub(crate) fn append(
        &mut self,
        alloc: Global,
        name: &Name,
        bytes: &[u8],
    ) -> Result<(), CordError>
        ensures { Appends (cells_or_none (extensible_in self.old.entries.items name.now)) bytes.now
            (λ _. Grew name.now bytes.now self.old.entries.items self.new.entries.items) result }
    {
        let place = self.slot_for(name)?;
        append_at(alloc, &mut self.entries, place, bytes)
    }

    /// Takes the extensible cord of a name out, which then has none.
    pub(crate) fn take_extensible(&mut self, name: &Name) -> Option<ExtCord>
        ensures taken { cells_in result ≡ extensible_in self.old.entries.items name.now }
        ensures left { HasExtensible name.now None self.old.entries.items self.new.entries.items }
    {
        match self.place(name) {
            None => None,
            Some(place) => set_extensible(&mut self.entries, place, None),
        }
    }
}
