// Texts that are edited in place, most edits beside the one before.
ghost use Rattle.std.specs.Prelude.{◌≡◌, ◌⊎◌, ◌+◌, ◌<◌, ◌≤◌, [], ◌++◌, length, take, drop};
ghost use Rattle.cord_c.specs.Codes.{MayBeTooLong, MayLackMemory};
ghost use Rattle.cord_c.specs.Editors.{edited_of};
ghost use denote.RawPtr.{Testable};
ghost use Rattle.core.specs.Ptr.{as_mut_ptr};

use crate::code::{NO_MEMORY, NULL_POINTER, OK, TOO_LONG, code_of};
use crate::pointer::{either_missing, missing};
use crate::referent::Referent;
use crate::{Editor, Handle};
use cord::{MAX_LEN, Text, TextEditor};
use std::alloc::Global;

/// The bytes of `x` are edited from now on, in place of what was. Its tree is shared.
#[unsafe(no_mangle)]
pub extern "C" fn zc_edit_set(alloc: Global, x: &mut Handle, edit: &mut Editor) -> i32
    requires places { Testable (as_mut_ptr x) × Testable (as_mut_ptr edit) }
    ensures text { result ≡ OK → edited_of edit.new ≡ x.old.text }
    ensures kept { (result ≡ OK) ⊎ (edited_of edit.new ≡ edited_of edit.old) }
    ensures code { MayLackMemory result }
    ensures x { x.new.text ≡ x.old.text }
{
    if either_missing(x, edit) {
        return NULL_POINTER;
    }
    match TextEditor::of(alloc, x.text(&Text::empty())) {
        Ok(text) => edit.hold(alloc, text),
        Err(_) => NO_MEMORY,
    }
}

/// The number of bytes.
#[unsafe(no_mangle)]
pub extern "C" fn zc_edit_len(edit: &mut Editor) -> u64
    requires places { Testable (as_mut_ptr edit) }
    ensures len { result ≡ length (edited_of edit.old) }
    ensures edit { edited_of edit.new ≡ edited_of edit.old }
{
    if missing(edit) {
        return 0;
    }
    match edit.handle.lent() {
        Some(referent) => referent.edited_len(),
        None => 0,
    }
}

/// Puts these bytes, of which it takes a copy, in front of the byte `at`: at the end where there is no such byte.
#[unsafe(no_mangle)]
pub extern "C" fn zc_edit_bytes(alloc: Global, edit: &mut Editor, at: u64, bytes: &[u8]) -> i32
    requires places { Testable (as_mut_ptr edit) }
    ensures text { result ≡ OK →
        edited_of edit.new ≡ take at (edited_of edit.old) ++ bytes.now ++ drop at (edited_of edit.old) }
    ensures kept { (result ≡ OK) ⊎ (edited_of edit.new ≡ edited_of edit.old) }
    ensures too_long { result ≡ TOO_LONG → MAX_LEN < length (edited_of edit.old) + length bytes.now }
    ensures within_limit { result ≡ OK → length (edited_of edit.old) + length bytes.now ≤ MAX_LEN }
    ensures code { MayBeTooLong result }
{
    if missing(edit) {
        return NULL_POINTER;
    }
    if edit.ready(alloc) != OK {
        return NO_MEMORY;
    }
    let Some(referent) = edit.handle.lent() else {
        return NO_MEMORY;
    };
    let Referent::Editor(text) = referent else {
        return NO_MEMORY;
    };
    match text.insert_bytes(alloc, at, bytes) {
        Ok(()) => OK,
        Err(refusal) => code_of(refusal),
    }
}

/// Takes out at most `count` of the bytes from `start` on.
#[unsafe(no_mangle)]
pub extern "C" fn zc_edit_remove(alloc: Global, edit: &mut Editor, start: u64, count: u64) -> i32
    requires places { Testable (as_mut_ptr edit) }
    ensures text { result ≡ OK →
        edited_of edit.new ≡ take start (edited_of edit.old) ++ drop (start + count) (edited_of edit.old) }
    ensures kept { (result ≡ OK) ⊎ (edited_of edit.new ≡ edited_of edit.old) }
    ensures code { MayLackMemory result }
{
    if missing(edit) {
        return NULL_POINTER;
    }
    if edit.ready(alloc) != OK {
        return NO_MEMORY;
    }
    let Some(referent) = edit.handle.lent() else {
        return NO_MEMORY;
    };
    let Referent::Editor(text) = referent else {
        return NO_MEMORY;
    };
    match text.remove(alloc, start, count) {
        Ok(()) => OK,
        Err(_) => NO_MEMORY,
    }
}

/// Puts the bytes of `y`, whose tree is shared, in place of at most `count` of the bytes from `start` on.
#[unsafe(no_mangle)]
pub extern "C" fn zc_edit_cord(
    alloc: Global,
    edit: &mut Editor,
    start: u64,
    count: u64,
    y: &mut Handle,
) -> i32
    requires places { Testable (as_mut_ptr edit) × Testable (as_mut_ptr y) }
    ensures text { result ≡ OK →
        edited_of edit.new ≡ take start (edited_of edit.old) ++ y.old.text ++ drop (start + count)
        (edited_of edit.old) }
    ensures kept { (result ≡ OK) ⊎ (edited_of edit.new ≡ edited_of edit.old) }
    ensures too_long { result ≡ TOO_LONG → MAX_LEN
        < length (take start (edited_of edit.old) ++ y.old.text ++ drop (start + count) (edited_of edit.old)) }
    ensures within_limit { result ≡ OK →
        length (take start (edited_of edit.old) ++ y.old.text ++ drop (start + count) (edited_of edit.old)) ≤ MAX_LEN }
    ensures code { MayBeTooLong result }
    ensures y { y.new.text ≡ y.old.text }
{
    if either_missing(edit, y) {
        return NULL_POINTER;
    }
    if edit.ready(alloc) != OK {
        return NO_MEMORY;
    }
    let Some(referent) = edit.handle.lent() else {
        return NO_MEMORY;
    };
    let Referent::Editor(text) = referent else {
        return NO_MEMORY;
    };
    match text.replace_range(alloc, start, count, y.text(&Text::empty())) {
        Ok(()) => OK,
        Err(refusal) => code_of(refusal),
    }
}

/// The bytes as a cord, whose tree is shared. They can be edited further.
#[unsafe(no_mangle)]
pub extern "C" fn zc_edit_to_cord(alloc: Global, edit: &mut Editor, out: &mut Handle) -> i32
    requires places { Testable (as_mut_ptr edit) × Testable (as_mut_ptr out) }
    ensures text { result ≡ OK → out.new.text ≡ edited_of edit.old }
    ensures kept { (result ≡ OK) ⊎ (out.new.text ≡ out.old.text) }
    ensures code { MayLackMemory result }
    ensures edit { edited_of edit.new ≡ edited_of edit.old }
{
    if either_missing(edit, out) {
        return NULL_POINTER;
    }
    let made = match edit.handle.lent() {
        Some(referent) => referent.edited_text(alloc),
        None => Ok(Text::empty()),
    };
    out.hold_within(alloc, made)
}

/// Frees what `edit` owns, which then has no bytes.
#[unsafe(no_mangle)]
pub extern "C" fn zc_edit_free(alloc: Global, edit: &mut Editor)
    requires places { Testable (as_mut_ptr edit) }
    ensures text { edited_of edit.new ≡ [] }
{
    if missing(edit) {
        return;
    }
    edit.handle = Handle::empty(alloc);
}
