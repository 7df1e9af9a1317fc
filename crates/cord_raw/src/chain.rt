//! The chain of blocks in raw memory. Only the functions of this file follow its pointers.
ghost use Rattle.std.specs.Prelude.{◌≡◌, ◌+◌, ◌<◌, ◌≤◌, List, [], ◌∷◌, ◌++◌, length, slice_range};
ghost use Rattle.cord_raw.specs.declared.block.Block.{Block};
ghost use Rattle.cord_raw.specs.declared.block.TheConstants.{MOST_BLOCKS, ROOM};
ghost use Rattle.cord_raw.specs.inner.Blocks.{place_after, pointing};
ghost use Rattle.cord_raw.specs.inner.Ownership.{chain_owns, chain_lent};

use crate::block::{Block, MOST_BLOCKS};
use crate::raw::Raw;
use std::alloc::Global;
use std::marker::Model;

/// A chain of one block or more, oldest first: each but the newest holds the pointer to the next one. It can't be
/// dropped: `free` ends it.
pub(crate) struct Chain {
    first: *mut Block,
    last: *mut Block,
    count: usize,
    pub(crate) ghost older: { List Block },
    pub(crate) ghost newest: { Block },
    ghost leads: { last ≡ place_after first older },
    ghost counted: { count ≡ length older + 1 },
    ghost few: { count ≤ MOST_BLOCKS },
}

impl Model for Chain {
    ghost also_owns = { λ c. chain_owns c.first c.older c.last c.newest };

    ghost also_shares = { λ c _ κ. chain_lent c.first c.older c.last c.newest κ };
}

/// The pointer to a block of a chain, and how many blocks stand before that one.
#[derive(Clone, Copy)]
pub(crate) struct Place {
    at: *mut Block,
    index: usize,
}

impl Chain {
    ghost use types.Logic.{sem};
    ghost use Rattle.cord_raw.specs.inner.Loans.{newest_follows};
    ghost use Rattle.cord_raw.specs.inner.Places.{IsPlaceOf, block_at};
    ghost use Rattle.cord_raw.specs.Texts.{text_of};

    /// Takes over one block.
    pub(crate) fn of(block: Raw<Block, Global>) -> Chain
        ensures { (result.older ≡ []) × (result.newest ≡ block.value) }
    {
        let Raw { at, alloc: _ } = block;
        Chain {
            first: at,
            last: at,
            count: 1,
        }
    }

    /// Frees every block, oldest first. The pointer of a block is read before the block is freed; that of the newest
    /// is not followed.
    pub(crate) fn free(self, alloc: Global) {
        let Chain {
            first,
            last: _,
            count,
        } = self;
        let mut at = first;
        let mut unfreed = count;
        while unfreed > 0 {
            let next = unsafe { (*at).next };
            drop(unsafe { Box::from_raw(alloc, at) });
            at = next;
            unfreed -= 1;
        }
    }

    /// How many blocks it has.
    pub(crate) fn count(&self) -> usize
        ensures { result ≡ length self.now.older + 1 }
    {
        self.count
    }

    /// Writes a byte after the text of the newest block.
    pub(crate) fn put(&mut self, byte: u8)
        requires { self.old.newest.len < ROOM }
        ensures { (self.new.older ≡ self.old.older) × (self.new.newest.len ≡ self.old.newest.len + 1) ×
            (text_of self.new.newest ≡ text_of self.old.newest ++ byte ∷ []) }
    {
        unsafe {
            let place = (*self.last).len;
            (*self.last).bytes[place] = byte;
            (*self.last).len = place + 1;
        }
    }

    /// Copies a run of bytes after the text of the newest block.
    pub(crate) fn put_run(&mut self, run: &[u8])
        requires { self.old.newest.len + length run.now ≤ ROOM }
        ensures { (self.new.older ≡ self.old.older) × (self.new.newest.len ≡ self.old.newest.len + length run.now) ×
            (text_of self.new.newest ≡ text_of self.old.newest ++ run.now) }
    {
        unsafe {
            let start = (*self.last).len;
            let end = start + run.len();
            (*self.last).bytes[start..end].copy_from_slice(run);
            (*self.last).len = end;
        }
    }

    /// Links the blocks of another chain after the newest.
    pub(crate) fn link(&mut self, other: Chain)
        requires few { length self.old.older + length other.older + 2 ≤ MOST_BLOCKS }
        ensures { (self.new.older ≡ self.old.older ++ pointing self.old.newest other.first ∷ other.older) ×
            (self.new.newest ≡ other.newest) }
    {
        let Chain { first, last, count } = other;
        unsafe { (*self.last).next = first };
        self.last = last;
        self.count += count;
    }

    /// Unlinks all blocks but the first.
    pub(crate) fn unlink(&mut self) -> Chain
        requires { 0 < length self.old.older }
        ensures { (self.old.older ≡ self.new.newest ∷ result.older) × (self.new.older ≡ []) ×
            (result.newest ≡ self.old.newest) }
    {
        let rest = Chain {
            first: unsafe { (*self.first).next },
            last: self.last,
            count: self.count - 1,
        };
        self.last = self.first;
        self.count = 1;
        rest
    }

    /// The place of the first block.
    pub(crate) fn first(&self) -> Place
        ensures { IsPlaceOf self.now result × (result.index ≡ 0) }
    {
        Place {
            at: self.first,
            index: 0,
        }
    }

    /// The place of the block that the one at `place` leads to.
    pub(crate) fn next(&self, place: Place) -> Place
        requires { IsPlaceOf self.now place × (place.index < length self.now.older) }
        ensures { IsPlaceOf self.now result × (result.index ≡ place.index + 1) }
    {
        Place {
            at: unsafe { (*place.at).next },
            index: place.index + 1,
        }
    }

    /// Copies a run of bytes from `start` on out of the text of the block at `place`.
    pub(crate) fn get_run(&self, place: Place, start: usize, out: &mut [u8])
        requires { IsPlaceOf self.now place ×
            (start + length out.old ≤ length (text_of (block_at self.now place.index))) }
        ensures { out.new ≡ slice_range (text_of (block_at self.now place.index)) start (start + length out.old) }
    {
        let end = start + out.len();
        unsafe { out.copy_from_slice(&(*place.at).bytes[start..end]) }
    }

    /// The newest block, to be read and written.
    pub(crate) fn newest(&mut self) -> &mut Block
        ensures* given_back { sem 𝓛 (newest_follows self.entry result) }
        ensures value { result.now ≡ self.old.newest }
    {
        unsafe { &mut *self.last }
    }
}
