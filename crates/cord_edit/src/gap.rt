// The bytes in a gap.
ghost use Rattle.std.specs.Prelude.{◌≡◌, ◌+◌, ◌≤◌, [], ◌++◌, length, take, true, IfOk};
ghost use Rattle.cord_edit.specs.declared.gap.TheConstants.{MOST, ROOM};
ghost use borrow.Rule.Slice.PartMut.{put_mid};

use cord_raw::RawBuf;
use std::alloc::{AllocError, Global};

// The most bytes that a gap holds: they become one leaf.
pub(crate) const MOST: usize = RawBuf::CAP as usize;

// The room for them, in the middle of which they begin.
pub(crate) const ROOM: usize = 2 * MOST;

// A list of at most `MOST` bytes that grows at both of its ends. No byte moves while it grows.
#[derive(Drop)]
pub(crate) struct Gap {
    room: Vec<u8>,
    start: usize,
    end: usize,
    ghost ordered: { start ≤ end },
    ghost most: { end ≤ start + MOST },
    ghost inside: { end ≤ ROOM },
    ghost sized: { length room.items ≡ ROOM },
}

impl Gap {
    ghost use Rattle.cord_edit.specs.inner.Gaps.{gap_bytes, FitsAfter, FitsBefore, IsCleared};

    // A gap of no bytes.
    pub(crate) fn new(alloc: Global) -> Result<Gap, AllocError>
        ensures { IfOk result (λ made. gap_bytes made ≡ []) }
    {
        let room = Vec::from_elem(alloc, 0, ROOM)?;
        Ok(Gap {
            room,
            start: MOST,
            end: MOST,
        })
    }

    #[inline(always)]
    pub(crate) fn len(&self) -> usize
        ensures value { result ≡ length (gap_bytes self.now) }
        ensures limit { result ≤ MOST }
    {
        self.end - self.start
    }

    pub(crate) fn bytes(&self) -> &[u8]
        ensures { result.now ≡ gap_bytes self.now }
    {
        &self.room[self.start..self.end]
    }

    // Whether so many bytes may come after those that are there.
    #[inline(always)]
    pub(crate) fn fits_after(&self, count: usize) -> bool
        ensures room { result ≡ true → FitsAfter self.now count }
        ensures most { result ≡ true → length (gap_bytes self.now) + count ≤ MOST }
    {
        count <= MOST - self.len() && count <= ROOM - self.end
    }

    // Whether so many bytes may come in front of those that are there.
    #[inline(always)]
    pub(crate) fn fits_before(&self, count: usize) -> bool
        ensures room { result ≡ true → FitsBefore self.now count }
        ensures most { result ≡ true → length (gap_bytes self.now) + count ≤ MOST }
    {
        count <= MOST - self.len() && count <= self.start
    }

    // Adds bytes at the end.
    #[inline(always)]
    pub(crate) fn append(&mut self, bytes: &[u8])
        requires { FitsAfter self.old (length bytes.now) }
        ensures { gap_bytes self.new ≡ gap_bytes self.old ++ bytes.now }
    {
        copy_to(&mut self.room, self.end, bytes);
        self.end += bytes.len();
    }

    // Adds bytes in front.
    #[inline(always)]
    pub(crate) fn prepend(&mut self, bytes: &[u8])
        requires { FitsBefore self.old (length bytes.now) }
        ensures { gap_bytes self.new ≡ bytes.now ++ gap_bytes self.old }
    {
        let start = self.start - bytes.len();
        copy_to(&mut self.room, start, bytes);
        self.start = start;
    }

    // Leaves the first bytes.
    pub(crate) fn truncate(&mut self, count: usize)
        requires { count ≤ length (gap_bytes self.old) }
        ensures { gap_bytes self.new ≡ take count (gap_bytes self.old) }
    {
        self.end = self.start + count;
    }

    // Leaves no bytes, and all the room.
    pub(crate) fn clear(&mut self)
        ensures { IsCleared self.new }
    {
        self.start = MOST;
        self.end = MOST;
    }
}

// Copies bytes to a place of others, all of which has to lie inside.
#[inline(always)]
fn copy_to(all: &mut [u8], place: usize, bytes: &[u8])
    requires { place + length bytes.now ≤ length all.old }
    ensures copied { all.new ≡ put_mid place (length bytes.now) all.old bytes.now }
    ensures len { length all.new ≡ length all.old }
{
    all[place..place + bytes.len()].copy_from_slice(bytes);
}
