// Positions, and steps from byte to byte.
ghost use Rattle.std.specs.Prelude.{◌≡◌, ◌⊎◌, ◌-◌, ◌<◌, ◌≤◌, [], Some, None};
ghost use Rattle.cord_c.specs.Answers.{place_or_none};
ghost use Rattle.cord_c.specs.Codes.{MayLackMemory};
ghost use Rattle.cord_c.specs.declared.position.TheConstants.{WINDOW};
ghost use Rattle.cord_c.specs.Positions.{index_in, next_in, bytes_of, index_of, byte_of};
ghost use Rattle.cord_pos.specs.Position.{prev_index};
ghost use denote.RawPtr.{Testable};
ghost use Rattle.core.specs.Ptr.{as_mut_ptr};

use crate::code::{NO_MEMORY, NOT_FOUND, NULL_POINTER, OK, PAST_END};
use crate::pointer::{either_missing, missing};
use crate::position::WINDOW;
use crate::referent::Referent;
use crate::{Handle, Position};
use std::alloc::Global;

/// Sets a position to the byte `index` of `x`, or nowhere where `x` has no such byte.
#[unsafe(no_mangle)]
pub extern "C" fn zc_pos_set(
    alloc: Global,
    x: &mut Handle,
    index: u64,
    position: &mut Position,
) -> i32
    requires places { Testable (as_mut_ptr x) × Testable (as_mut_ptr position) }
    ensures bytes { result ≡ OK → bytes_of position.new ≡ x.old.text }
    ensures index { result ≡ OK → index_of position.new ≡ index_in x.old.text index }
    ensures bytes_kept { (result ≡ OK) ⊎ (bytes_of position.new ≡ bytes_of position.old) }
    ensures index_kept { (result ≡ OK) ⊎ (index_of position.new ≡ index_of position.old) }
    ensures code { MayLackMemory result }
    ensures x { x.new.text ≡ x.old.text }
{
    if either_missing(x, position) {
        return NULL_POINTER;
    }
    let Ok(text) = x.read(alloc) else {
        return NO_MEMORY;
    };
    let len = text.len();
    if position.text.keep(alloc, Referent::Text(text)) != OK {
        return NO_MEMORY;
    }
    position.len = len;
    position.start = len;
    position.count = 0;
    position.look(index, index);
    OK
}

/// The index where a position stands.
#[unsafe(no_mangle)]
pub extern "C" fn zc_pos_index(position: &mut Position) -> u64
    requires places { Testable (as_mut_ptr position) }
    ensures index { result ≡ place_or_none (index_of position.old) }
    ensures bytes { bytes_of position.new ≡ bytes_of position.old }
    ensures kept { index_of position.new ≡ index_of position.old }
{
    if missing(position) {
        return NOT_FOUND;
    }
    position.index().unwrap_or(NOT_FOUND)
}

/// Writes the byte where a position stands to `byte`: `PAST_END` where it stands nowhere, and `byte` stays.
#[unsafe(no_mangle)]
pub extern "C" fn zc_pos_fetch(position: &mut Position, byte: &mut u8) -> i32
    requires places { Testable (as_mut_ptr position) × Testable (as_mut_ptr byte) }
    ensures byte { result ≡ OK → byte_of position.old ≡ Some byte.new }
    ensures nowhere { result ≡ PAST_END → index_of position.old ≡ None }
    ensures kept { (result ≡ OK) ⊎ (byte.new ≡ byte.old) }
    ensures code { (result ≡ OK) ⊎ (result ≡ PAST_END) }
    ensures bytes { bytes_of position.new ≡ bytes_of position.old }
    ensures index { index_of position.new ≡ index_of position.old }
{
    if either_missing(position, byte) {
        return NULL_POINTER;
    }
    if position.at >= position.count {
        return PAST_END;
    }
    *byte = position.bytes[position.at];
    OK
}

/// Goes to the next byte, from the last one nowhere.
#[unsafe(no_mangle)]
pub extern "C" fn zc_pos_next(position: &mut Position)
    requires places { Testable (as_mut_ptr position) }
    ensures index { index_of position.new ≡ next_in (bytes_of position.old) (index_of position.old) }
    ensures bytes { bytes_of position.new ≡ bytes_of position.old }
{
    if missing(position) || position.at >= position.count {
        return;
    }
    position.at += 1;
    if position.at == position.count {
        let next = position.start + position.at as u64;
        position.look(next, next);
    }
}

/// Goes to the previous byte, from the first one nowhere.
#[unsafe(no_mangle)]
pub extern "C" fn zc_pos_prev(position: &mut Position)
    requires places { Testable (as_mut_ptr position) }
    ensures index { index_of position.new ≡ prev_index (index_of position.old) }
    ensures bytes { bytes_of position.new ≡ bytes_of position.old }
{
    if missing(position) || position.at >= position.count {
        return;
    }
    if position.at > 0 {
        position.at -= 1;
    } else if position.start > 0 {
        let end = position.start;
        position.look(end.saturating_sub(WINDOW as u64), end - 1);
    } else {
        position.at = position.count;
    }
}

/// Frees what a position owns, which then stands nowhere in the text of no bytes.
#[unsafe(no_mangle)]
pub extern "C" fn zc_pos_free(alloc: Global, position: &mut Position)
    requires places { Testable (as_mut_ptr position) }
    ensures bytes { bytes_of position.new ≡ [] }
    ensures index { index_of position.new ≡ None }
{
    if missing(position) {
        return;
    }
    position.clear(alloc);
}

impl Position {
    // The index where it stands.
    fn index(&self) -> Option<u64>
        ensures { result ≡ index_of self.now }
    {
        if self.at < self.count {
            Some(self.start + self.at as u64)
        } else {
            None
        }
    }

    // Copies the bytes from `start` on, and stands at the byte `index`, or nowhere where the text has no such byte.
    fn look(&mut self, start: u64, index: u64)
        requires near { (start ≤ index) × (index - start < WINDOW) }
        ensures bytes { bytes_of self.new ≡ bytes_of self.old }
        ensures index { index_of self.new ≡ index_in (bytes_of self.old) index }
    {
        self.count = self.text.copy_to(start, &mut self.bytes);
        self.start = start;
        self.at = (index - start) as usize;
    }

    // Frees the text.
    fn clear(&mut self, alloc: Global)
        ensures bytes { bytes_of self.new ≡ [] }
        ensures index { index_of self.new ≡ None }
    {
        self.text = Handle::empty(alloc);
        self.len = 0;
        self.count = 0;
    }
}
