// The order of texts.
ghost use Rattle.std.specs.Prelude.{◌≡◌, ◌+◌, ◌<◌, ◌≤◌, take, drop, is_err, IfOk, IfErr};
ghost use Rattle.cord_io.specs.Device.{FileSystem, count_after};
ghost use Rattle.cord_io.specs.Frames.{LeavesSource};
ghost use Rattle.cord_core.specs.Cord.{text_len, bytes_of, CordFitsIn};
ghost use Rattle.cord_core.specs.Texts.{order};
ghost use Rattle.cord_search.specs.inner.Pieces.{IsReadable, IsOrderOf, sign_of};
ghost use Rattle.cord_search.specs.inner.Searches.{IsRead};

use crate::shared_parts::{Ahead, Way, look_ahead};
use crate::span_order::order_of_spans;
use cord_core::Cord;
use cord_io::{CordError, ReadFault, Source};
use std::cmp::Ordering;

/// The order of two texts, after `CORD_cmp` of `cord.h`: -1, 0 or 1 by the bytes, as unsigned numbers, at the first
/// place of difference; a proper prefix is less. Each function part lies inside a source of `src`. Refused with
/// `ReadFailed` where a read failed.
pub fn cmp<S: Source>(x: &Cord, y: &Cord, src: &mut S) -> Result<i8, CordError>
    requires left_fits { CordFitsIn (S.lengths src.old) x.now }
    requires right_fits { CordFitsIn (S.lengths src.old) y.now }
    ensures order { (file_system : FileSystem) → S.consistent src.new file_system → IfOk result (λ sign.
        sign ≡ order (bytes_of (S.table src.old file_system) x.now) (bytes_of (S.table src.old file_system) y.now)) }
    ensures refused { IfErr result (λ e. e ≡ CordError.ReadFailed) }
    ensures count { S.failures src.new ≡ count_after (is_err result) (S.failures src.old) }
    ensures source { LeavesSource ⟦<S as Source>⟧ src.old src.new }
{
    let ordering = compare(x, 0, x.len(), y, 0, y.len(), src)?;
    Ok(sign(ordering))
}

/// The order of at most `k` bytes of `x` from `i` on and at most `k` bytes of `y` from `j` on, after `CORD_ncmp` of
/// `cord.h`: as `cmp` of the two substrings. Refused with `ReadFailed` where a read failed.
pub fn ncmp<S: Source>(
    x: &Cord,
    i: u64,
    y: &Cord,
    j: u64,
    k: u64,
    src: &mut S,
) -> Result<i8, CordError>
    requires left_fits { CordFitsIn (S.lengths src.old) x.now }
    requires right_fits { CordFitsIn (S.lengths src.old) y.now }
    ensures order { (file_system : FileSystem) → S.consistent src.new file_system → IfOk result (λ sign.
        sign ≡ order (take k (drop i (bytes_of (S.table src.old file_system) x.now)))
        (take k (drop j (bytes_of (S.table src.old file_system) y.now)))) }
    ensures refused { IfErr result (λ e. e ≡ CordError.ReadFailed) }
    ensures count { S.failures src.new ≡ count_after (is_err result) (S.failures src.old) }
    ensures source { LeavesSource ⟦<S as Source>⟧ src.old src.new }
{
    let left = k.min(x.len().saturating_sub(i));
    let right = k.min(y.len().saturating_sub(j));
    let ordering = compare(x, i, left, y, j, right, src)?;
    Ok(sign(ordering))
}

// The order of `left` bytes of `x` from `i` on and `right` bytes of `y` from `j` on: what both share at once, and else
// span against span.
pub(crate) fn compare<'a, S: Source>(
    x: &'a Cord,
    i: u64,
    left: u64,
    y: &'a Cord,
    j: u64,
    right: u64,
    src: &mut S,
) -> Result<Ordering, ReadFault>
    requires left { IsReadable (S.lengths src.old) x.now }
    requires right { IsReadable (S.lengths src.old) y.now }
    requires left_inside { 0 < left → i + left ≤ text_len x.now }
    requires right_inside { 0 < right → j + right ≤ text_len y.now }
    ensures { IsRead ⟦<S as Source>⟧ src.old src.new result (λ t. IsOrderOf t x.now i left y.now j right) }
{
    let (mut way, mut other_way) = (Way::new(), Way::new());
    let both = left.min(right);
    let mut done = 0;
    while done < both {
        match look_ahead(
            x,
            i + done,
            &mut way,
            y,
            j + done,
            &mut other_way,
            both - done,
        ) {
            Ahead::Same(count) => done += count,
            Ahead::Apart(span, other) => match order_of_spans(span, other, src)? {
                Ordering::Equal => done += span.len(),
                ordering => return Ok(ordering),
            },
        }
    }
    Ok(left.cmp(&right))
}

// -1, 0 or 1.
fn sign(ordering: Ordering) -> i8
    ensures { result ≡ sign_of ordering }
{
    match ordering {
        Ordering::Less => -1,
        Ordering::Equal => 0,
        Ordering::Greater => 1,
    }
}
