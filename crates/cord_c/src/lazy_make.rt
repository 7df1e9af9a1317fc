// Cords that may have parts in files: made, joined, cut and shared. None of these calls reads a file.
ghost use Rattle.std.specs.Prelude.{◌≡◌, ◌⊎◌, ◌+◌, ◌<◌, ◌≤◌, None, Err, IfOk, OnOk, IfErr, length};
ghost use Rattle.cord_io.specs.Table.{Table};
ghost use Rattle.cord_core.specs.Cord.{text_len, depth, bytes_of, CordFits};
ghost use Rattle.cord_core.specs.Depths.{IsInSlot};
ghost use Rattle.cord_core.specs.Equations.{HasText, IsCatOf, IsSubstring, IsSpliced, IsSameText};
ghost use Rattle.cord_core.specs.Refusals.{IsRefusal};
ghost use Rattle.cord_c.specs.Codes.{MayBeTooLong, MayLackMemory};
ghost use Rattle.cord_c.specs.Lazy.{cord_of, spliced_len};
ghost use denote.RawPtr.{Testable};
ghost use Rattle.core.specs.Ptr.{as_mut_ptr};

use crate::code::{NULL_POINTER, OK, TOO_LONG};
use crate::pointer::{any_missing, either_missing, missing};
use crate::{Handle, LazyHandle};
use cord::{CordError, MAX_DEPTH, MAX_LEN, Text};
use cord_core::Cord;
use std::alloc::Global;

/// The number of bytes.
#[unsafe(no_mangle)]
pub extern "C" fn zc_lazy_len(x: &mut LazyHandle) -> u64
    requires places { Testable (as_mut_ptr x) }
    ensures stored { result ≡ text_len (cord_of x.old) }
    ensures over { (t : Table) → CordFits t (cord_of x.old) → result ≡ length (bytes_of t (cord_of x.old)) }
    ensures x { cord_of x.new ≡ cord_of x.old }
{
    if missing(x) {
        return 0;
    }
    x.cord(&Cord::empty()).len()
}

/// The depth of the tree: 0 for one part and for no bytes.
#[unsafe(no_mangle)]
pub extern "C" fn zc_lazy_depth(x: &mut LazyHandle) -> u32
    requires places { Testable (as_mut_ptr x) }
    ensures stored { result ≡ depth (cord_of x.old) }
    ensures limit { result ≤ MAX_DEPTH }
    ensures x { cord_of x.new ≡ cord_of x.old }
{
    if missing(x) {
        return 0;
    }
    x.cord(&Cord::empty()).depth()
}

/// The bytes of a cord in memory, whose tree it shares.
#[unsafe(no_mangle)]
pub extern "C" fn zc_lazy_from_cord(alloc: Global, x: &mut Handle, out: &mut LazyHandle) -> i32
    requires places { Testable (as_mut_ptr x) × Testable (as_mut_ptr out) }
    ensures text { result ≡ OK → HasText x.old.text (cord_of out.new) }
    ensures kept { (result ≡ OK) ⊎ (cord_of out.new ≡ cord_of out.old) }
    ensures code { MayLackMemory result }
    ensures x { x.new.text ≡ x.old.text }
{
    if either_missing(x, out) {
        return NULL_POINTER;
    }
    let made = x.text(&Text::empty()).as_cord().share(alloc);
    out.hold_within(alloc, made)
}

/// The bytes of `x` and then those of `y`.
#[unsafe(no_mangle)]
pub extern "C" fn zc_lazy_cat(
    alloc: Global,
    x: &mut LazyHandle,
    y: &mut LazyHandle,
    out: &mut LazyHandle,
) -> i32
    requires places { Testable (as_mut_ptr x) × Testable (as_mut_ptr y) × Testable (as_mut_ptr out) }
    ensures text { result ≡ OK → IsCatOf (cord_of x.old) (cord_of y.old) (cord_of out.new) }
    ensures kept { (result ≡ OK) ⊎ (cord_of out.new ≡ cord_of out.old) }
    ensures too_long { result ≡ TOO_LONG → MAX_LEN < text_len (cord_of x.old) + text_len (cord_of y.old) }
    ensures within_limit { result ≡ OK → text_len (cord_of x.old) + text_len (cord_of y.old) ≤ MAX_LEN }
    ensures code { MayBeTooLong result }
    ensures x { cord_of x.new ≡ cord_of x.old }
    ensures y { cord_of y.new ≡ cord_of y.old }
{
    if any_missing(x, y, out) {
        return NULL_POINTER;
    }
    let made = Cord::cat(alloc, x.cord(&Cord::empty()), y.cord(&Cord::empty()));
    out.hold(alloc, made)
}

/// The bytes of `x` from `start` on, at most `count` of them.
#[unsafe(no_mangle)]
pub extern "C" fn zc_lazy_substr(
    alloc: Global,
    x: &mut LazyHandle,
    start: u64,
    count: u64,
    out: &mut LazyHandle,
) -> i32
    requires places { Testable (as_mut_ptr x) × Testable (as_mut_ptr out) }
    ensures text { result ≡ OK → IsSubstring start count (cord_of x.old) (cord_of out.new) }
    ensures kept { (result ≡ OK) ⊎ (cord_of out.new ≡ cord_of out.old) }
    ensures code { MayLackMemory result }
    ensures x { cord_of x.new ≡ cord_of x.old }
{
    if either_missing(x, out) {
        return NULL_POINTER;
    }
    let made = x.cord(&Cord::empty()).substr(alloc, start, count);
    out.hold_within(alloc, made)
}

/// `x` with the bytes of `y` in front of its byte `start`: at its end where it has no such byte.
#[unsafe(no_mangle)]
pub extern "C" fn zc_lazy_insert(
    alloc: Global,
    x: &mut LazyHandle,
    start: u64,
    y: &mut LazyHandle,
    out: &mut LazyHandle,
) -> i32
    requires places { Testable (as_mut_ptr x) × Testable (as_mut_ptr y) × Testable (as_mut_ptr out) }
    ensures text { result ≡ OK → IsSpliced start 0 (cord_of x.old) (cord_of y.old) (cord_of out.new) }
    ensures kept { (result ≡ OK) ⊎ (cord_of out.new ≡ cord_of out.old) }
    ensures too_long { result ≡ TOO_LONG → MAX_LEN < spliced_len start 0 (cord_of x.old) (cord_of y.old) }
    ensures within_limit { result ≡ OK → spliced_len start 0 (cord_of x.old) (cord_of y.old) ≤ MAX_LEN }
    ensures code { MayBeTooLong result }
    ensures x { cord_of x.new ≡ cord_of x.old }
    ensures y { cord_of y.new ≡ cord_of y.old }
{
    zc_lazy_replace(alloc, x, start, 0, y, out)
}

/// `x` without at most `count` of its bytes from `start` on.
#[unsafe(no_mangle)]
pub extern "C" fn zc_lazy_remove(
    alloc: Global,
    x: &mut LazyHandle,
    start: u64,
    count: u64,
    out: &mut LazyHandle,
) -> i32
    requires places { Testable (as_mut_ptr x) × Testable (as_mut_ptr out) }
    ensures text { result ≡ OK → IsSpliced start count (cord_of x.old) None (cord_of out.new) }
    ensures kept { (result ≡ OK) ⊎ (cord_of out.new ≡ cord_of out.old) }
    ensures code { MayLackMemory result }
    ensures x { cord_of x.new ≡ cord_of x.old }
{
    if either_missing(x, out) {
        return NULL_POINTER;
    }
    let shorter = spliced(alloc, x.cord(&Cord::empty()), start, count, &Cord::empty());
    out.hold_within(alloc, shorter)
}

/// `x` with the bytes of `y` in place of at most `count` of its bytes from `start` on.
#[unsafe(no_mangle)]
pub extern "C" fn zc_lazy_replace(
    alloc: Global,
    x: &mut LazyHandle,
    start: u64,
    count: u64,
    y: &mut LazyHandle,
    out: &mut LazyHandle,
) -> i32
    requires places { Testable (as_mut_ptr x) × Testable (as_mut_ptr y) × Testable (as_mut_ptr out) }
    ensures text { result ≡ OK → IsSpliced start count (cord_of x.old) (cord_of y.old) (cord_of out.new) }
    ensures kept { (result ≡ OK) ⊎ (cord_of out.new ≡ cord_of out.old) }
    ensures too_long { result ≡ TOO_LONG → MAX_LEN < spliced_len start count (cord_of x.old) (cord_of y.old) }
    ensures within_limit { result ≡ OK → spliced_len start count (cord_of x.old) (cord_of y.old) ≤ MAX_LEN }
    ensures code { MayBeTooLong result }
    ensures x { cord_of x.new ≡ cord_of x.old }
    ensures y { cord_of y.new ≡ cord_of y.old }
{
    if any_missing(x, y, out) {
        return NULL_POINTER;
    }
    let edited = spliced(
        alloc,
        x.cord(&Cord::empty()),
        start,
        count,
        y.cord(&Cord::empty()),
    );
    out.hold(alloc, edited)
}

// `x` with the bytes of `y` in place of at most `count` of its bytes from `start` on.
fn spliced(alloc: Global, x: &Cord, start: u64, count: u64, y: &Cord) -> Result<Cord, CordError>
    ensures text { IfOk result (IsSpliced start count x.now y.now) }
    ensures too_long { result ≡ Err CordError.TooLong → MAX_LEN < spliced_len start count x.now y.now }
    ensures within_limit { OnOk result (spliced_len start count x.now y.now ≤ MAX_LEN) }
    ensures refused { IfErr result IsRefusal }
{
    let mut cord = x.share(alloc)?;
    cord.splice(alloc, start, count, y)?;
    Ok(cord)
}

/// The bytes of `x` in a tree that is not deep.
#[unsafe(no_mangle)]
pub extern "C" fn zc_lazy_balance(alloc: Global, x: &mut LazyHandle, out: &mut LazyHandle) -> i32
    requires places { Testable (as_mut_ptr x) × Testable (as_mut_ptr out) }
    ensures text { result ≡ OK → IsSameText (cord_of x.old) (cord_of out.new) }
    ensures slot { result ≡ OK → IsInSlot (cord_of out.new) }
    ensures kept { (result ≡ OK) ⊎ (cord_of out.new ≡ cord_of out.old) }
    ensures code { MayLackMemory result }
    ensures x { cord_of x.new ≡ cord_of x.old }
{
    if either_missing(x, out) {
        return NULL_POINTER;
    }
    let made = x.cord(&Cord::empty()).balance(alloc);
    out.hold_within(alloc, made)
}

/// The same cord once more, which shares its tree.
#[unsafe(no_mangle)]
pub extern "C" fn zc_lazy_share(alloc: Global, x: &mut LazyHandle, out: &mut LazyHandle) -> i32
    requires places { Testable (as_mut_ptr x) × Testable (as_mut_ptr out) }
    ensures cord { result ≡ OK → cord_of out.new ≡ cord_of x.old }
    ensures kept { (result ≡ OK) ⊎ (cord_of out.new ≡ cord_of out.old) }
    ensures code { MayLackMemory result }
    ensures x { cord_of x.new ≡ cord_of x.old }
{
    if either_missing(x, out) {
        return NULL_POINTER;
    }
    let made = x.cord(&Cord::empty()).share(alloc);
    out.hold_within(alloc, made)
}

/// Frees the cord of `x`, which then has no bytes.
#[unsafe(no_mangle)]
pub extern "C" fn zc_lazy_free(alloc: Global, x: &mut LazyHandle)
    requires places { Testable (as_mut_ptr x) }
    ensures cord { cord_of x.new ≡ None }
{
    if missing(x) {
        return;
    }
    x.handle = Handle::empty(alloc);
}
