// Slices of bytes, many bytes at a time.
ghost use Rattle.std.specs.Prelude.{◌≡◌, ◌+◌, ◌≤◌, true, length, take, drop};
ghost use Rattle.std.specs.Ordering.{nat_cmp};
ghost use Rattle.std.specs.Cmp.Lexicographic.{slice_cmp};

use std::cmp::Ordering;
use std::simd::prelude::*;

// How many bytes are compared at once.
const LANES: usize = 64;

/// The order of two slices, as `cmp` of them: what both begin with is passed over many bytes at a time.
pub(crate) fn order_of(left: &[u8], right: &[u8]) -> Ordering
    ensures { result ≡ slice_cmp nat_cmp left.now right.now }
{
    let same = common_prefix(left, right);
    left[same..].cmp(&right[same..])
}

// A number of bytes with which both slices begin: the last ones that they have in common may be missing.
fn common_prefix(left: &[u8], right: &[u8]) -> usize
    ensures left { result ≤ length left.now }
    ensures right { result ≤ length right.now }
    ensures same { take result left.now ≡ take result right.now }
{
    let both = left.len().min(right.len());
    let mut done = 0;
    while LANES <= both - done && are_same(left, right, done) {
        done += LANES;
    }
    done
}

// Whether the next bytes of two slices are the same from a place on.
#[inline(always)]
fn are_same(left: &[u8], right: &[u8], place: usize) -> bool
    requires left { place + LANES ≤ length left.now }
    requires right { place + LANES ≤ length right.now }
    ensures { result ≡ true → take LANES (drop place left.now) ≡ take LANES (drop place right.now) }
{
    let bytes = u8x64::from_slice(&left[place..]);
    let others = u8x64::from_slice(&right[place..]);
    !bytes.simd_ne(others).any()
}
