// Parts of a text, and texts with a part put in or taken out.
ghost use Rattle.std.specs.Prelude.{◌≡◌, ◌⊎◌, ◌+◌, ◌<◌, ◌≤◌, ◌++◌, length, take, drop, slice_get, Some, None};
ghost use Rattle.cord.specs.Lines.{bare_lines};
ghost use Rattle.cord_c.specs.Codes.{MayBeTooLong, MayLackMemory};
ghost use denote.RawPtr.{Testable};
ghost use Rattle.core.specs.Ptr.{as_mut_ptr};

use crate::Handle;
use crate::code::{NO_MEMORY, NULL_POINTER, OK, PAST_END, TOO_LONG};
use crate::pointer::{any_missing, either_missing};
use cord::{MAX_LEN, Text};
use std::alloc::Global;

/// The bytes of `x` from `start` on, at most `count` of them.
#[unsafe(no_mangle)]
pub extern "C" fn zc_substr(
    alloc: Global,
    x: &mut Handle,
    start: u64,
    count: u64,
    out: &mut Handle,
) -> i32
    requires places { Testable (as_mut_ptr x) × Testable (as_mut_ptr out) }
    ensures text { result ≡ OK → out.new.text ≡ take count (drop start x.old.text) }
    ensures kept { (result ≡ OK) ⊎ (out.new.text ≡ out.old.text) }
    ensures code { MayLackMemory result }
    ensures x { x.new.text ≡ x.old.text }
{
    if either_missing(x, out) {
        return NULL_POINTER;
    }
    let made = x.text(&Text::empty()).substr(alloc, start, count);
    out.hold_within(alloc, made)
}

/// The bytes of `x` in a tree that is not deep.
#[unsafe(no_mangle)]
pub extern "C" fn zc_balance(alloc: Global, x: &mut Handle, out: &mut Handle) -> i32
    requires places { Testable (as_mut_ptr x) × Testable (as_mut_ptr out) }
    ensures text { result ≡ OK → out.new.text ≡ x.old.text }
    ensures kept { (result ≡ OK) ⊎ (out.new.text ≡ out.old.text) }
    ensures code { MayLackMemory result }
    ensures x { x.new.text ≡ x.old.text }
{
    if either_missing(x, out) {
        return NULL_POINTER;
    }
    let made = x.text(&Text::empty()).balance(alloc);
    out.hold_within(alloc, made)
}

/// `x` with the bytes of `y` in front of its byte `start`: at its end where it has no such byte.
#[unsafe(no_mangle)]
pub extern "C" fn zc_insert(
    alloc: Global,
    x: &mut Handle,
    start: u64,
    y: &mut Handle,
    out: &mut Handle,
) -> i32
    requires places { Testable (as_mut_ptr x) × Testable (as_mut_ptr y) × Testable (as_mut_ptr out) }
    ensures text { result ≡ OK → out.new.text ≡ take start x.old.text ++ y.old.text ++ drop start x.old.text }
    ensures kept { (result ≡ OK) ⊎ (out.new.text ≡ out.old.text) }
    ensures too_long { result ≡ TOO_LONG → MAX_LEN < length x.old.text + length y.old.text }
    ensures within_limit { result ≡ OK → length x.old.text + length y.old.text ≤ MAX_LEN }
    ensures code { MayBeTooLong result }
    ensures x { x.new.text ≡ x.old.text }
    ensures y { y.new.text ≡ y.old.text }
{
    if any_missing(x, y, out) {
        return NULL_POINTER;
    }
    let inserted = x
        .text(&Text::empty())
        .insert(alloc, start, y.text(&Text::empty()));
    out.hold(alloc, inserted)
}

/// `x` without at most `count` of its bytes from `start` on.
#[unsafe(no_mangle)]
pub extern "C" fn zc_remove(
    alloc: Global,
    x: &mut Handle,
    start: u64,
    count: u64,
    out: &mut Handle,
) -> i32
    requires places { Testable (as_mut_ptr x) × Testable (as_mut_ptr out) }
    ensures text { result ≡ OK → out.new.text ≡ take start x.old.text ++ drop (start + count) x.old.text }
    ensures kept { (result ≡ OK) ⊎ (out.new.text ≡ out.old.text) }
    ensures code { MayLackMemory result }
    ensures x { x.new.text ≡ x.old.text }
{
    if either_missing(x, out) {
        return NULL_POINTER;
    }
    let made = x.text(&Text::empty()).remove(alloc, start, count);
    out.hold_within(alloc, made)
}

/// `x` with the bytes of `y` in place of at most `count` of its bytes from `start` on.
#[unsafe(no_mangle)]
pub extern "C" fn zc_replace(
    alloc: Global,
    x: &mut Handle,
    start: u64,
    count: u64,
    y: &mut Handle,
    out: &mut Handle,
) -> i32
    requires places { Testable (as_mut_ptr x) × Testable (as_mut_ptr y) × Testable (as_mut_ptr out) }
    ensures text { result ≡ OK →
        out.new.text ≡ take start x.old.text ++ y.old.text ++ drop (start + count) x.old.text }
    ensures kept { (result ≡ OK) ⊎ (out.new.text ≡ out.old.text) }
    ensures too_long { result ≡ TOO_LONG →
        MAX_LEN < length (take start x.old.text ++ y.old.text ++ drop (start + count) x.old.text) }
    ensures within_limit { result ≡ OK →
        length (take start x.old.text ++ y.old.text ++ drop (start + count) x.old.text) ≤ MAX_LEN }
    ensures code { MayBeTooLong result }
    ensures x { x.new.text ≡ x.old.text }
    ensures y { y.new.text ≡ y.old.text }
{
    if any_missing(x, y, out) {
        return NULL_POINTER;
    }
    let replaced = x
        .text(&Text::empty())
        .replace_range(alloc, start, count, y.text(&Text::empty()));
    out.hold(alloc, replaced)
}

/// Puts the bytes of `y` in place of at most `count` of the bytes of `x` from `start` on.
#[unsafe(no_mangle)]
pub extern "C" fn zc_splice(
    alloc: Global,
    x: &mut Handle,
    start: u64,
    count: u64,
    y: &mut Handle,
) -> i32
    requires places { Testable (as_mut_ptr x) × Testable (as_mut_ptr y) }
    ensures text { result ≡ OK →
        x.new.text ≡ take start x.old.text ++ y.old.text ++ drop (start + count) x.old.text }
    ensures kept { (result ≡ OK) ⊎ (x.new.text ≡ x.old.text) }
    ensures too_long { result ≡ TOO_LONG →
        MAX_LEN < length (take start x.old.text ++ y.old.text ++ drop (start + count) x.old.text) }
    ensures within_limit { result ≡ OK →
        length (take start x.old.text ++ y.old.text ++ drop (start + count) x.old.text) ≤ MAX_LEN }
    ensures code { MayBeTooLong result }
    ensures y { y.new.text ≡ y.old.text }
{
    if either_missing(x, y) {
        return NULL_POINTER;
    }
    let edited = x
        .text(&Text::empty())
        .replace_range(alloc, start, count, y.text(&Text::empty()));
    x.hold(alloc, edited)
}

/// Line `number` of `x`, from 0, without its end: `PAST_END` where it has no more lines than that. A line ends with
/// the byte 10, which the last one may lack.
#[unsafe(no_mangle)]
pub extern "C" fn zc_nth_line(alloc: Global, x: &mut Handle, number: u64, out: &mut Handle) -> i32
    requires places { Testable (as_mut_ptr x) × Testable (as_mut_ptr out) }
    ensures line { result ≡ OK → slice_get (bare_lines x.old.text) number ≡ Some out.new.text }
    ensures past { result ≡ PAST_END → slice_get (bare_lines x.old.text) number ≡ None }
    ensures kept { (result ≡ OK) ⊎ (out.new.text ≡ out.old.text) }
    ensures code { (result ≡ OK) ⊎ (result ≡ NO_MEMORY) ⊎ (result ≡ PAST_END) }
    ensures x { x.new.text ≡ x.old.text }
{
    if either_missing(x, out) {
        return NULL_POINTER;
    }
    match x.text(&Text::empty()).nth_line(alloc, number) {
        Ok(Some(line)) => out.hold_within(alloc, Ok(line)),
        Ok(None) => PAST_END,
        Err(_) => NO_MEMORY,
    }
}
