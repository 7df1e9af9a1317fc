// What a text has.
ghost use Rattle.std.specs.Prelude.{◌≡◌, ◌≢◌, ◌⊎◌, ◌-◌, ◌<◌, ◌≤◌, ◌==◌, [], ◌∷◌, length, take, drop, min, Some};
ghost use Rattle.std.specs.Prelude.{None, slice_get, IsTrue, pos, ◌↔◌};
ghost use Rattle.std.specs.List.{count_by};
ghost use Rattle.std.specs.Ordering.{nat_cmp};
ghost use Rattle.std.specs.Cmp.Lexicographic.{slice_cmp};
ghost use Rattle.cord_core.specs.Texts.{first};
ghost use Rattle.cord.specs.Places.{last_before, BeginsWith, EndsWith};
ghost use Rattle.cord_c.specs.Codes.{MayLackMemory};
ghost use Rattle.cord_c.specs.Answers.{place_or_none, sign_of};
ghost use denote.RawPtr.{Testable};
ghost use Rattle.core.specs.Ptr.{as_mut_ptr};

use crate::Handle;
use crate::code::{NO_MEMORY, NOT_FOUND, NULL_POINTER, OK, PAST_END};
use crate::copy::copy_from;
use crate::pointer::{any_missing, either_missing, missing};
use cord::{MAX_DEPTH, MOST_BYTES, Text};
use std::alloc::Global;
use std::cmp::Ordering;

/// The number of bytes.
#[unsafe(no_mangle)]
pub extern "C" fn zc_len(x: &mut Handle) -> u64
    requires places { Testable (as_mut_ptr x) }
    ensures len { result ≡ length x.old.text }
    ensures x { x.new.text ≡ x.old.text }
{
    if missing(x) {
        return 0;
    }
    x.text(&Text::empty()).len()
}

/// The depth of the tree: 0 for one part and for no bytes.
#[unsafe(no_mangle)]
pub extern "C" fn zc_depth(x: &mut Handle) -> u32
    requires places { Testable (as_mut_ptr x) }
    ensures limit { result ≤ MAX_DEPTH }
    ensures x { x.new.text ≡ x.old.text }
{
    if missing(x) {
        return 0;
    }
    x.text(&Text::empty()).as_cord().depth()
}

/// Writes the byte of `x` at `place` to `byte`: `PAST_END` at or past the end, and `byte` stays.
#[unsafe(no_mangle)]
pub extern "C" fn zc_fetch(x: &mut Handle, place: u64, byte: &mut u8) -> i32
    requires places { Testable (as_mut_ptr x) × Testable (as_mut_ptr byte) }
    ensures byte { result ≡ OK → slice_get x.old.text place ≡ Some byte.new }
    ensures past { result ≡ PAST_END → slice_get x.old.text place ≡ None }
    ensures kept { (result ≡ OK) ⊎ (byte.new ≡ byte.old) }
    ensures code { (result ≡ OK) ⊎ (result ≡ PAST_END) }
    ensures x { x.new.text ≡ x.old.text }
{
    if either_missing(x, byte) {
        return NULL_POINTER;
    }
    let Some(found) = x.text(&Text::empty()).get(place) else {
        return PAST_END;
    };
    *byte = found;
    OK
}

/// Writes the first place of `x` from `start` on that has this byte to `place`.
#[unsafe(no_mangle)]
pub extern "C" fn zc_chr(x: &mut Handle, start: u64, byte: u8, place: &mut u64) -> i32
    requires places { Testable (as_mut_ptr x) × Testable (as_mut_ptr place) }
    ensures first { result ≡ OK → place.new ≡ place_or_none (first x.old.text start (byte ∷ [])) }
    ensures code { result ≡ OK }
    ensures x { x.new.text ≡ x.old.text }
{
    if either_missing(x, place) {
        return NULL_POINTER;
    }
    *place = x
        .text(&Text::empty())
        .find_byte(byte, start)
        .unwrap_or(NOT_FOUND);
    OK
}

/// Writes the last place of `x` before `end` that has this byte to `place`.
#[unsafe(no_mangle)]
pub extern "C" fn zc_rchr(x: &mut Handle, end: u64, byte: u8, place: &mut u64) -> i32
    requires places { Testable (as_mut_ptr x) × Testable (as_mut_ptr place) }
    ensures last { result ≡ OK → place.new ≡ place_or_none (last_before x.old.text end byte) }
    ensures code { result ≡ OK }
    ensures x { x.new.text ≡ x.old.text }
{
    if either_missing(x, place) {
        return NULL_POINTER;
    }
    *place = x
        .text(&Text::empty())
        .rfind_byte(byte, end)
        .unwrap_or(NOT_FOUND);
    OK
}

/// Writes the first place of `x` from `start` on where the bytes of `y` stand to `place`. No bytes stand at each place
/// up to the end.
#[unsafe(no_mangle)]
pub extern "C" fn zc_str(x: &mut Handle, start: u64, y: &mut Handle, place: &mut u64) -> i32
    requires places { Testable (as_mut_ptr x) × Testable (as_mut_ptr y) × Testable (as_mut_ptr place) }
    ensures first { result ≡ OK → place.new ≡ place_or_none (first x.old.text start y.old.text) }
    ensures code { result ≡ OK }
    ensures x { x.new.text ≡ x.old.text }
    ensures y { y.new.text ≡ y.old.text }
{
    if any_missing(x, y, place) {
        return NULL_POINTER;
    }
    let found = x
        .text(&Text::empty())
        .find_text(y.text(&Text::empty()), start);
    *place = found.unwrap_or(NOT_FOUND);
    OK
}

/// Writes the first place of `x` from `start` on where these bytes stand to `place`. No bytes stand at each place up to
/// the end. Up to `MOST_BYTES` of them take no memory.
#[unsafe(no_mangle)]
pub extern "C" fn zc_find(
    alloc: Global,
    x: &mut Handle,
    start: u64,
    bytes: &[u8],
    place: &mut u64,
) -> i32
    requires places { Testable (as_mut_ptr x) × Testable (as_mut_ptr place) }
    ensures first { result ≡ OK → place.new ≡ place_or_none (first x.old.text start bytes.now) }
    ensures kept { (result ≡ OK) ⊎ (place.new ≡ place.old) }
    ensures code { MayLackMemory result }
    ensures short { length bytes.now ≤ MOST_BYTES → result ≢ NO_MEMORY }
    ensures x { x.new.text ≡ x.old.text }
{
    if either_missing(x, place) {
        return NULL_POINTER;
    }
    let Ok(found) = x.text(&Text::empty()).find(alloc, bytes, start) else {
        return NO_MEMORY;
    };
    *place = found.unwrap_or(NOT_FOUND);
    OK
}

/// Whether `x` begins with these bytes: 1, else 0.
#[unsafe(no_mangle)]
pub extern "C" fn zc_starts_with(x: &mut Handle, bytes: &[u8]) -> i32
    requires places { Testable (as_mut_ptr x) }
    ensures answer { (result ≡ pos 1) ↔ BeginsWith x.old.text bytes.now }
    ensures number { (result ≡ pos 0) ⊎ (result ≡ pos 1) }
    ensures x { x.new.text ≡ x.old.text }
{
    if missing(x) {
        return 0;
    }
    truth(x.text(&Text::empty()).starts_with(bytes))
}

/// Whether `x` ends with these bytes: 1, else 0.
#[unsafe(no_mangle)]
pub extern "C" fn zc_ends_with(x: &mut Handle, bytes: &[u8]) -> i32
    requires places { Testable (as_mut_ptr x) }
    ensures answer { (result ≡ pos 1) ↔ EndsWith x.old.text bytes.now }
    ensures number { (result ≡ pos 0) ⊎ (result ≡ pos 1) }
    ensures x { x.new.text ≡ x.old.text }
{
    if missing(x) {
        return 0;
    }
    truth(x.text(&Text::empty()).ends_with(bytes))
}

// An answer as C gets it.
fn truth(answer: bool) -> i32
    ensures answer { (result ≡ pos 1) ↔ IsTrue answer }
    ensures number { (result ≡ pos 0) ⊎ (result ≡ pos 1) }
{
    if answer { 1 } else { 0 }
}

/// Writes 1 to `equal` where both have the same bytes, else 0.
#[unsafe(no_mangle)]
pub extern "C" fn zc_equal(x: &mut Handle, y: &mut Handle, equal: &mut i32) -> i32
    requires places { Testable (as_mut_ptr x) × Testable (as_mut_ptr y) × Testable (as_mut_ptr equal) }
    ensures equal { result ≡ OK → (equal.new ≡ pos 1) ↔ (x.old.text ≡ y.old.text) }
    ensures number { result ≡ OK → (equal.new ≡ pos 0) ⊎ (equal.new ≡ pos 1) }
    ensures code { result ≡ OK }
    ensures x { x.new.text ≡ x.old.text }
    ensures y { y.new.text ≡ y.old.text }
{
    if any_missing(x, y, equal) {
        return NULL_POINTER;
    }
    *equal = truth(x.text(&Text::empty()) == y.text(&Text::empty()));
    OK
}

/// Writes the order of the two lists of bytes to `order`: -1 where `x` comes first, 0 where they are equal, 1 where `y`
/// comes first.
#[unsafe(no_mangle)]
pub extern "C" fn zc_cmp(x: &mut Handle, y: &mut Handle, order: &mut i32) -> i32
    requires places { Testable (as_mut_ptr x) × Testable (as_mut_ptr y) × Testable (as_mut_ptr order) }
    ensures order { result ≡ OK → order.new ≡ sign_of (slice_cmp nat_cmp x.old.text y.old.text) }
    ensures code { result ≡ OK }
    ensures x { x.new.text ≡ x.old.text }
    ensures y { y.new.text ≡ y.old.text }
{
    if any_missing(x, y, order) {
        return NULL_POINTER;
    }
    *order = sign(x.text(&Text::empty()).compare(y.text(&Text::empty())));
    OK
}

/// As `zc_cmp`, of at most `count` bytes of `x` from `i` on and of `y` from `j` on.
#[unsafe(no_mangle)]
pub extern "C" fn zc_ncmp(
    alloc: Global,
    x: &mut Handle,
    i: u64,
    y: &mut Handle,
    j: u64,
    count: u64,
    order: &mut i32,
) -> i32
    requires places { Testable (as_mut_ptr x) × Testable (as_mut_ptr y) × Testable (as_mut_ptr order) }
    ensures order { result ≡ OK →
        order.new ≡ sign_of (slice_cmp nat_cmp (take count (drop i x.old.text)) (take count (drop j y.old.text))) }
    ensures kept { (result ≡ OK) ⊎ (order.new ≡ order.old) }
    ensures code { MayLackMemory result }
    ensures x { x.new.text ≡ x.old.text }
    ensures y { y.new.text ≡ y.old.text }
{
    if any_missing(x, y, order) {
        return NULL_POINTER;
    }
    let Ok(left) = x.text(&Text::empty()).substr(alloc, i, count) else {
        return NO_MEMORY;
    };
    let Ok(right) = y.text(&Text::empty()).substr(alloc, j, count) else {
        return NO_MEMORY;
    };
    *order = sign(left.compare(&right));
    OK
}

// An order as C gets it.
fn sign(ordering: Ordering) -> i32
    ensures { result ≡ sign_of ordering }
{
    match ordering {
        Ordering::Less => -1,
        Ordering::Equal => 0,
        Ordering::Greater => 1,
    }
}

/// How many bytes of `x` are this one.
#[unsafe(no_mangle)]
pub extern "C" fn zc_count(x: &mut Handle, byte: u8) -> u64
    requires places { Testable (as_mut_ptr x) }
    ensures count { result ≡ count_by (λ own. own == byte) x.old.text }
    ensures x { x.new.text ≡ x.old.text }
{
    if missing(x) {
        return 0;
    }
    x.text(&Text::empty()).count_of(byte)
}

/// Copies as many bytes of `x` from `start` on as `bytes` has: `PAST_END` where there are fewer, and then `bytes`
/// stays.
#[unsafe(no_mangle)]
pub extern "C" fn zc_to_bytes(x: &mut Handle, start: u64, bytes: &mut [u8]) -> i32
    requires places { Testable (as_mut_ptr x) }
    ensures bytes { result ≡ OK → bytes.new ≡ take (length bytes.old) (drop start x.old.text) }
    ensures few { result ≡ PAST_END → length x.old.text - start < length bytes.old }
    ensures kept { (result ≡ OK) ⊎ (bytes.new ≡ bytes.old) }
    ensures code { (result ≡ OK) ⊎ (result ≡ PAST_END) }
    ensures x { x.new.text ≡ x.old.text }
{
    if missing(x) {
        return NULL_POINTER;
    }
    let none = Text::empty();
    let text = x.text(&none);
    if text.len().saturating_sub(start) < bytes.len() as u64 {
        return PAST_END;
    }
    copy_from(text, start, bytes);
    OK
}

/// Copies bytes of `x` from `start` on, as many as there are and `bytes` has room for, and writes how many to `got`.
#[unsafe(no_mangle)]
pub extern "C" fn zc_read(x: &mut Handle, start: u64, bytes: &mut [u8], got: &mut usize) -> i32
    requires places { Testable (as_mut_ptr x) × Testable (as_mut_ptr got) }
    ensures got { result ≡ OK → got.new ≡ min (length bytes.old) (length x.old.text - start) }
    ensures bytes { result ≡ OK → take got.new bytes.new ≡ take (length bytes.old) (drop start x.old.text) }
    ensures rest { result ≡ OK → drop got.new bytes.new ≡ drop got.new bytes.old }
    ensures kept { (result ≡ OK) ⊎ ((got.new ≡ got.old) × (bytes.new ≡ bytes.old)) }
    ensures code { result ≡ OK }
    ensures x { x.new.text ≡ x.old.text }
{
    if either_missing(x, got) {
        return NULL_POINTER;
    }
    *got = copy_from(x.text(&Text::empty()), start, bytes);
    OK
}
