// Texts made and freed.
ghost use Rattle.std.specs.Prelude.{◌≡◌, ◌⊎◌, ◌+◌, ◌*◌, ◌<◌, ◌≤◌, [], ◌∷◌, ◌++◌, length, replicate};
ghost use Rattle.std.specs.List.{repeat};
ghost use Rattle.cord_c.specs.Codes.{MayBeTooLong, MayLackMemory};
ghost use denote.RawPtr.{Testable};
ghost use Rattle.core.specs.Ptr.{as_mut_ptr};

use crate::Handle;
use crate::code::{NULL_POINTER, OK, TOO_LONG};
use crate::pointer::{any_missing, either_missing, missing};
use cord::{MAX_LEN, Text};
use std::alloc::Global;

/// These bytes, of which it takes a copy.
#[unsafe(no_mangle)]
pub extern "C" fn zc_from_bytes(alloc: Global, bytes: &[u8], out: &mut Handle) -> i32
    requires places { Testable (as_mut_ptr out) }
    ensures text { result ≡ OK → out.new.text ≡ bytes.now }
    ensures kept { (result ≡ OK) ⊎ (out.new.text ≡ out.old.text) }
    ensures too_long { result ≡ TOO_LONG → MAX_LEN < length bytes.now }
    ensures within_limit { result ≡ OK → length bytes.now ≤ MAX_LEN }
    ensures code { MayBeTooLong result }
{
    if missing(out) {
        return NULL_POINTER;
    }
    out.hold(alloc, Text::from_bytes(alloc, bytes))
}

/// `count` times the byte `byte`.
#[unsafe(no_mangle)]
pub extern "C" fn zc_chars(alloc: Global, byte: u8, count: u64, out: &mut Handle) -> i32
    requires places { Testable (as_mut_ptr out) }
    ensures text { result ≡ OK → out.new.text ≡ replicate count byte }
    ensures kept { (result ≡ OK) ⊎ (out.new.text ≡ out.old.text) }
    ensures too_long { result ≡ TOO_LONG → MAX_LEN < count }
    ensures within_limit { result ≡ OK → count ≤ MAX_LEN }
    ensures code { MayBeTooLong result }
{
    if missing(out) {
        return NULL_POINTER;
    }
    out.hold(alloc, Text::repeat(alloc, byte, count))
}

/// The bytes of `x` and then those of `y`.
#[unsafe(no_mangle)]
pub extern "C" fn zc_cat(alloc: Global, x: &mut Handle, y: &mut Handle, out: &mut Handle) -> i32
    requires places { Testable (as_mut_ptr x) × Testable (as_mut_ptr y) × Testable (as_mut_ptr out) }
    ensures text { result ≡ OK → out.new.text ≡ x.old.text ++ y.old.text }
    ensures kept { (result ≡ OK) ⊎ (out.new.text ≡ out.old.text) }
    ensures too_long { result ≡ TOO_LONG → MAX_LEN < length x.old.text + length y.old.text }
    ensures within_limit { result ≡ OK → length x.old.text + length y.old.text ≤ MAX_LEN }
    ensures code { MayBeTooLong result }
    ensures x { x.new.text ≡ x.old.text }
    ensures y { y.new.text ≡ y.old.text }
{
    if any_missing(x, y, out) {
        return NULL_POINTER;
    }
    let made = Text::cat(alloc, x.text(&Text::empty()), y.text(&Text::empty()));
    out.hold(alloc, made)
}

/// The bytes of `x` and then these, of which it takes a copy.
#[unsafe(no_mangle)]
pub extern "C" fn zc_cat_bytes(alloc: Global, x: &mut Handle, bytes: &[u8], out: &mut Handle) -> i32
    requires places { Testable (as_mut_ptr x) × Testable (as_mut_ptr out) }
    ensures text { result ≡ OK → out.new.text ≡ x.old.text ++ bytes.now }
    ensures kept { (result ≡ OK) ⊎ (out.new.text ≡ out.old.text) }
    ensures too_long { result ≡ TOO_LONG → MAX_LEN < length x.old.text + length bytes.now }
    ensures within_limit { result ≡ OK → length x.old.text + length bytes.now ≤ MAX_LEN }
    ensures code { MayBeTooLong result }
    ensures x { x.new.text ≡ x.old.text }
{
    if either_missing(x, out) {
        return NULL_POINTER;
    }
    let made = x.text(&Text::empty()).append_bytes(alloc, bytes);
    out.hold(alloc, made)
}

/// The bytes of `x` and then the byte `byte`.
#[unsafe(no_mangle)]
pub extern "C" fn zc_cat_char(alloc: Global, x: &mut Handle, byte: u8, out: &mut Handle) -> i32
    requires places { Testable (as_mut_ptr x) × Testable (as_mut_ptr out) }
    ensures text { result ≡ OK → out.new.text ≡ x.old.text ++ byte ∷ [] }
    ensures kept { (result ≡ OK) ⊎ (out.new.text ≡ out.old.text) }
    ensures too_long { result ≡ TOO_LONG → MAX_LEN < length x.old.text + 1 }
    ensures within_limit { result ≡ OK → length x.old.text + 1 ≤ MAX_LEN }
    ensures code { MayBeTooLong result }
    ensures x { x.new.text ≡ x.old.text }
{
    zc_cat_bytes(alloc, x, &[byte], out)
}

/// Adds the bytes of `y` at the end of `x`.
#[unsafe(no_mangle)]
pub extern "C" fn zc_append(alloc: Global, x: &mut Handle, y: &mut Handle) -> i32
    requires places { Testable (as_mut_ptr x) × Testable (as_mut_ptr y) }
    ensures text { result ≡ OK → x.new.text ≡ x.old.text ++ y.old.text }
    ensures kept { (result ≡ OK) ⊎ (x.new.text ≡ x.old.text) }
    ensures too_long { result ≡ TOO_LONG → MAX_LEN < length x.old.text + length y.old.text }
    ensures within_limit { result ≡ OK → length x.old.text + length y.old.text ≤ MAX_LEN }
    ensures code { MayBeTooLong result }
    ensures y { y.new.text ≡ y.old.text }
{
    if either_missing(x, y) {
        return NULL_POINTER;
    }
    let longer = Text::cat(alloc, x.text(&Text::empty()), y.text(&Text::empty()));
    x.hold(alloc, longer)
}

/// The bytes of `x`, `times` times.
#[unsafe(no_mangle)]
pub extern "C" fn zc_repeat(alloc: Global, x: &mut Handle, times: u64, out: &mut Handle) -> i32
    requires places { Testable (as_mut_ptr x) × Testable (as_mut_ptr out) }
    ensures text { result ≡ OK → out.new.text ≡ repeat times x.old.text }
    ensures kept { (result ≡ OK) ⊎ (out.new.text ≡ out.old.text) }
    ensures too_long { result ≡ TOO_LONG → MAX_LEN < times * length x.old.text }
    ensures within_limit { result ≡ OK → times * length x.old.text ≤ MAX_LEN }
    ensures code { MayBeTooLong result }
    ensures x { x.new.text ≡ x.old.text }
{
    if either_missing(x, out) {
        return NULL_POINTER;
    }
    let made = x.text(&Text::empty()).repeated(alloc, times);
    out.hold(alloc, made)
}

/// The same text once more, which shares its tree.
#[unsafe(no_mangle)]
pub extern "C" fn zc_share(alloc: Global, x: &mut Handle, out: &mut Handle) -> i32
    requires places { Testable (as_mut_ptr x) × Testable (as_mut_ptr out) }
    ensures text { result ≡ OK → out.new.text ≡ x.old.text }
    ensures kept { (result ≡ OK) ⊎ (out.new.text ≡ out.old.text) }
    ensures code { MayLackMemory result }
    ensures x { x.new.text ≡ x.old.text }
{
    if either_missing(x, out) {
        return NULL_POINTER;
    }
    let made = x.text(&Text::empty()).share(alloc);
    out.hold_within(alloc, made)
}

/// Frees the text of `x`, which then has no bytes.
#[unsafe(no_mangle)]
pub extern "C" fn zc_free(alloc: Global, x: &mut Handle)
    requires places { Testable (as_mut_ptr x) }
    ensures text { x.new.text ≡ [] }
{
    if missing(x) {
        return;
    }
    *x = Handle::empty(alloc);
}
