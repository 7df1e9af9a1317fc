// Searches that end before a place, and searches from the back.
ghost use Rattle.std.specs.Prelude.{◌≡◌, ◌≢◌, ◌⊎◌, ◌≤◌, length, take};
ghost use Rattle.cord_core.specs.Texts.{first};
ghost use Rattle.cord_search.specs.LastTexts.{last_text};
ghost use Rattle.cord_c.specs.Answers.{place_or_none};
ghost use Rattle.cord_c.specs.Codes.{MayLackMemory};
ghost use denote.RawPtr.{Testable};
ghost use Rattle.core.specs.Ptr.{as_mut_ptr};

use crate::Handle;
use crate::code::{NO_MEMORY, NOT_FOUND, NULL_POINTER, OK};
use crate::pointer::{any_missing, either_missing};
use cord::{MOST_BYTES, Text};
use std::alloc::Global;

/// Writes the first place of `x` from `start` on where the bytes of `y` stand and end at `end` or before to `place`.
#[unsafe(no_mangle)]
pub extern "C" fn zc_str_in(
    x: &mut Handle,
    start: u64,
    end: u64,
    y: &mut Handle,
    place: &mut u64,
) -> i32
    requires places { Testable (as_mut_ptr x) × Testable (as_mut_ptr y) × Testable (as_mut_ptr place) }
    ensures first { result ≡ OK → place.new ≡ place_or_none (first (take end x.old.text) start y.old.text) }
    ensures code { result ≡ OK }
    ensures x { x.new.text ≡ x.old.text }
    ensures y { y.new.text ≡ y.old.text }
{
    if any_missing(x, y, place) {
        return NULL_POINTER;
    }
    let found = x
        .text(&Text::empty())
        .find_text_in(y.text(&Text::empty()), start, end);
    *place = found.unwrap_or(NOT_FOUND);
    OK
}

/// As `zc_find`, in the first `end` bytes of `x`.
#[unsafe(no_mangle)]
pub extern "C" fn zc_find_in(
    alloc: Global,
    x: &mut Handle,
    start: u64,
    end: u64,
    bytes: &[u8],
    place: &mut u64,
) -> i32
    requires places { Testable (as_mut_ptr x) × Testable (as_mut_ptr place) }
    ensures first { result ≡ OK → place.new ≡ place_or_none (first (take end x.old.text) start bytes.now) }
    ensures kept { (result ≡ OK) ⊎ (place.new ≡ place.old) }
    ensures code { MayLackMemory result }
    ensures short { length bytes.now ≤ MOST_BYTES → result ≢ NO_MEMORY }
    ensures x { x.new.text ≡ x.old.text }
{
    if either_missing(x, place) {
        return NULL_POINTER;
    }
    let Ok(found) = x.text(&Text::empty()).find_in(alloc, bytes, start, end) else {
        return NO_MEMORY;
    };
    *place = found.unwrap_or(NOT_FOUND);
    OK
}

/// Writes the last place of `x` where the bytes of `y` stand and end at `end` or before to `place`. No bytes stand last
/// at `end`, or at the end of `x`.
#[unsafe(no_mangle)]
pub extern "C" fn zc_rstr(x: &mut Handle, end: u64, y: &mut Handle, place: &mut u64) -> i32
    requires places { Testable (as_mut_ptr x) × Testable (as_mut_ptr y) × Testable (as_mut_ptr place) }
    ensures last { result ≡ OK → place.new ≡ place_or_none (last_text x.old.text end y.old.text) }
    ensures code { result ≡ OK }
    ensures x { x.new.text ≡ x.old.text }
    ensures y { y.new.text ≡ y.old.text }
{
    if any_missing(x, y, place) {
        return NULL_POINTER;
    }
    let found = x
        .text(&Text::empty())
        .rfind_text(y.text(&Text::empty()), end);
    *place = found.unwrap_or(NOT_FOUND);
    OK
}

/// As `zc_rstr`, of these bytes, which are copied.
#[unsafe(no_mangle)]
pub extern "C" fn zc_rfind(
    alloc: Global,
    x: &mut Handle,
    end: u64,
    bytes: &[u8],
    place: &mut u64,
) -> i32
    requires places { Testable (as_mut_ptr x) × Testable (as_mut_ptr place) }
    ensures last { result ≡ OK → place.new ≡ place_or_none (last_text x.old.text end bytes.now) }
    ensures kept { (result ≡ OK) ⊎ (place.new ≡ place.old) }
    ensures code { MayLackMemory result }
    ensures x { x.new.text ≡ x.old.text }
{
    if either_missing(x, place) {
        return NULL_POINTER;
    }
    let Ok(found) = x.text(&Text::empty()).rfind(alloc, bytes, end) else {
        return NO_MEMORY;
    };
    *place = found.unwrap_or(NOT_FOUND);
    OK
}
