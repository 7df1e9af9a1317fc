// Lines of texts by number.
ghost use Rattle.std.specs.Prelude.{◌≡◌, ◌⊎◌, ◌↔◌, ◌≤◌, List, ℕ, None, Some, length, take, drop, slice_get};
ghost use denote.RawPtr.{Testable};
ghost use Rattle.core.specs.Ptr.{as_mut_ptr};
ghost use Rattle.cord.specs.Lines.{lines, bare_lines};
ghost use Rattle.cord_lines.specs.Counts.{chars_in, ends_in};
ghost use Rattle.cord_lines.specs.Index.{FollowsEdit, IsIndexOf, of_no_bytes};
ghost use Rattle.cord_lines.specs.Lines.{after_ends, IsEditOf};
ghost use Rattle.cord_c.specs.Codes.{MayLackMemory};
ghost use Rattle.cord_c.specs.LineIndexes.{index_in};

use crate::code::{NO_MEMORY, NULL_POINTER, OK, PAST_END};
use crate::pointer::{any_missing, either_missing, missing};
use crate::referent::Referent;
use crate::{Handle, Lines};
use cord::Text;
use cord_lines::LineIndex;
use std::alloc::Global;

/// `index` is that of `x` from now on, in place of what it was.
#[unsafe(no_mangle)]
pub extern "C" fn zc_lines_set(alloc: Global, x: &mut Handle, index: &mut Lines) -> i32
    requires places { Testable (as_mut_ptr x) × Testable (as_mut_ptr index) }
    ensures index { result ≡ OK → IsIndexOf (index_in index.new) x.old.text }
    ensures kept { (result ≡ OK) ⊎ (index_in index.new ≡ index_in index.old) }
    ensures code { MayLackMemory result }
    ensures x { x.new.text ≡ x.old.text }
{
    if either_missing(x, index) {
        return NULL_POINTER;
    }
    match LineIndex::of(alloc, x.text(&Text::empty())) {
        Ok(made) => index.hold(alloc, made),
        Err(_) => NO_MEMORY,
    }
}

/// The number of lines.
#[unsafe(no_mangle)]
pub extern "C" fn zc_lines_count(alloc: Global, index: &mut Lines) -> u64
    requires places { Testable (as_mut_ptr index) }
    ensures count { (x : List ℕ) → IsIndexOf (index_in index.old) x → result ≡ length (lines x) }
    ensures index { index_in index.new ≡ index_in index.old }
{
    if missing(index) {
        return 0;
    }
    index.index(&LineIndex::empty(alloc)).lines()
}

/// Writes the place where line `number` of `x` begins, from 0, to `place`: `PAST_END` where it has no more lines than
/// that, and `place` stays.
#[unsafe(no_mangle)]
pub extern "C" fn zc_lines_start(
    alloc: Global,
    index: &mut Lines,
    x: &mut Handle,
    number: u64,
    place: &mut u64,
) -> i32
    requires places { Testable (as_mut_ptr index) × Testable (as_mut_ptr x) × Testable (as_mut_ptr place) }
    ensures start { result ≡ OK → IsIndexOf (index_in index.old) x.old.text →
        place.new ≡ after_ends number x.old.text }
    ensures past { IsIndexOf (index_in index.old) x.old.text →
        ((result ≡ PAST_END) ↔ (length (lines x.old.text) ≤ number)) }
    ensures kept { (result ≡ OK) ⊎ (place.new ≡ place.old) }
    ensures code { (result ≡ OK) ⊎ (result ≡ PAST_END) }
    ensures index { index_in index.new ≡ index_in index.old }
    ensures x { x.new.text ≡ x.old.text }
{
    if any_missing(index, x, place) {
        return NULL_POINTER;
    }
    let none = LineIndex::empty(alloc);
    let found = index.index(&none);
    if found.lines() <= number {
        return PAST_END;
    }
    *place = found.line_start(x.text(&Text::empty()), number);
    OK
}

/// Writes the number of the line of `x` that holds the byte at `place` to `number`: at or past the end how many lines
/// end.
#[unsafe(no_mangle)]
pub extern "C" fn zc_lines_of(
    alloc: Global,
    index: &mut Lines,
    x: &mut Handle,
    place: u64,
    number: &mut u64,
) -> i32
    requires places { Testable (as_mut_ptr index) × Testable (as_mut_ptr x) × Testable (as_mut_ptr number) }
    ensures number { result ≡ OK → IsIndexOf (index_in index.old) x.old.text →
        number.new ≡ ends_in (take place x.old.text) }
    ensures code { result ≡ OK }
    ensures index { index_in index.new ≡ index_in index.old }
    ensures x { x.new.text ≡ x.old.text }
{
    if any_missing(index, x, number) {
        return NULL_POINTER;
    }
    let none = LineIndex::empty(alloc);
    *number = index.index(&none).line_of(x.text(&Text::empty()), place);
    OK
}

/// Writes how many characters of UTF-8 begin in at most `count` bytes of `x` from `start` on to `chars`.
#[unsafe(no_mangle)]
pub extern "C" fn zc_lines_utf8(
    alloc: Global,
    index: &mut Lines,
    x: &mut Handle,
    start: u64,
    count: u64,
    chars: &mut u64,
) -> i32
    requires places { Testable (as_mut_ptr index) × Testable (as_mut_ptr x) × Testable (as_mut_ptr chars) }
    ensures chars { result ≡ OK → IsIndexOf (index_in index.old) x.old.text →
        chars.new ≡ chars_in (take count (drop start x.old.text)) }
    ensures code { result ≡ OK }
    ensures index { index_in index.new ≡ index_in index.old }
    ensures x { x.new.text ≡ x.old.text }
{
    if any_missing(index, x, chars) {
        return NULL_POINTER;
    }
    let none = LineIndex::empty(alloc);
    *chars = index
        .index(&none)
        .utf8_len(x.text(&Text::empty()), start, count);
    OK
}

/// Line `number` of `x`, from 0, without its end: `PAST_END` where it has no more lines than that.
#[unsafe(no_mangle)]
pub extern "C" fn zc_lines_line(
    alloc: Global,
    index: &mut Lines,
    x: &mut Handle,
    number: u64,
    out: &mut Handle,
) -> i32
    requires places { Testable (as_mut_ptr index) × Testable (as_mut_ptr x) × Testable (as_mut_ptr out) }
    ensures line { result ≡ OK → IsIndexOf (index_in index.old) x.old.text →
        slice_get (bare_lines x.old.text) number ≡ Some out.new.text }
    ensures past { result ≡ PAST_END → IsIndexOf (index_in index.old) x.old.text →
        slice_get (bare_lines x.old.text) number ≡ None }
    ensures kept { (result ≡ OK) ⊎ (out.new.text ≡ out.old.text) }
    ensures code { (result ≡ OK) ⊎ (result ≡ NO_MEMORY) ⊎ (result ≡ PAST_END) }
    ensures index { index_in index.new ≡ index_in index.old }
    ensures x { x.new.text ≡ x.old.text }
{
    if any_missing(index, x, out) {
        return NULL_POINTER;
    }
    let none = LineIndex::empty(alloc);
    match index
        .index(&none)
        .line(alloc, x.text(&Text::empty()), number)
    {
        Ok(Some(line)) => out.hold_within(alloc, Ok(line)),
        Ok(None) => PAST_END,
        Err(_) => NO_MEMORY,
    }
}

/// `index` is that of `after` from now on, where it was that of a text in which `inserted` bytes of `after` stand from
/// `start` on in the place of `removed` others.
#[unsafe(no_mangle)]
pub extern "C" fn zc_lines_edited(
    alloc: Global,
    index: &mut Lines,
    after: &mut Handle,
    start: u64,
    removed: u64,
    inserted: u64,
) -> i32
    requires places { Testable (as_mut_ptr index) × Testable (as_mut_ptr after) }
    ensures index { result ≡ OK →
        FollowsEdit (index_in index.old) (index_in index.new) after.old.text start removed inserted }
    ensures kept { (result ≡ OK) ⊎ (index_in index.new ≡ index_in index.old) }
    ensures code { MayLackMemory result }
    ensures after { after.new.text ≡ after.old.text }
{
    if either_missing(index, after) {
        return NULL_POINTER;
    }
    if index.ready(alloc) != OK {
        return NO_MEMORY;
    }
    let Some(referent) = index.handle.lent() else {
        return NO_MEMORY;
    };
    let Referent::Lines(lines) = referent else {
        return NO_MEMORY;
    };
    match lines.edited(alloc, after.text(&Text::empty()), start, removed, inserted) {
        Ok(()) => OK,
        Err(_) => NO_MEMORY,
    }
}

/// `index` is that of `after` from now on, where it was that of `before`, in which `removed` others stand from `start`
/// on in the place of `inserted` bytes of `after`.
#[unsafe(no_mangle)]
pub extern "C" fn zc_lines_edited_from(
    alloc: Global,
    index: &mut Lines,
    before: &mut Handle,
    after: &mut Handle,
    start: u64,
    removed: u64,
    inserted: u64,
) -> i32
    requires places { Testable (as_mut_ptr index) × Testable (as_mut_ptr before) × Testable (as_mut_ptr after) }
    ensures index { result ≡ OK → IsIndexOf (index_in index.old) before.old.text →
        IsEditOf before.old.text after.old.text start removed inserted → IsIndexOf (index_in index.new) after.old.text }
    ensures kept { (result ≡ OK) ⊎ (index_in index.new ≡ index_in index.old) }
    ensures code { MayLackMemory result }
    ensures before { before.new.text ≡ before.old.text }
    ensures after { after.new.text ≡ after.old.text }
{
    if any_missing(index, before, after) {
        return NULL_POINTER;
    }
    if index.ready(alloc) != OK {
        return NO_MEMORY;
    }
    let Some(referent) = index.handle.lent() else {
        return NO_MEMORY;
    };
    let Referent::Lines(lines) = referent else {
        return NO_MEMORY;
    };
    match lines.edited_from(
        alloc,
        before.text(&Text::empty()),
        after.text(&Text::empty()),
        start,
        removed,
        inserted,
    ) {
        Ok(()) => OK,
        Err(_) => NO_MEMORY,
    }
}

/// Frees what `index` owns, which is then that of no bytes.
#[unsafe(no_mangle)]
pub extern "C" fn zc_lines_free(alloc: Global, index: &mut Lines)
    requires places { Testable (as_mut_ptr index) }
    ensures index { index_in index.new ≡ of_no_bytes }
{
    if missing(index) {
        return;
    }
    index.handle = Handle::empty(alloc);
}
