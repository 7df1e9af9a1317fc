//! A chain as a text: it is made, filled and read by safe code over its pointer functions.
ghost use Rattle.std.specs.Prelude.{◌≡◌, ◌+◌, ◌*◌, ◌≤◌, ◌<◌, [], ◌∷◌, ◌++◌, length, drop, slice_range, IfOk};
ghost use Rattle.cord_raw.specs.inner.Places.{IsPlaceOf};
ghost use Rattle.cord_raw.specs.Texts.{text, AreFull, IsFilled, chain_text, chain_len};
ghost use Rattle.cord_raw.specs.inner.Texts.{blocks_of};

use crate::block::{Block, MOST_BLOCKS, ROOM};
use crate::chain::{Chain, Place};
use crate::raw::Raw;
use std::alloc::{AllocError, Global};

impl Chain {
    /// Makes a chain of one empty block: one allocation.
    ///
    /// `AllocError`: there is no memory for it.
    pub(crate) fn make(alloc: Global) -> Result<Chain, AllocError>
        ensures { IfOk result (λ made. (made.older ≡ []) × (made.newest.len ≡ 0)) }
    {
        match Box::new(alloc, Block::empty()) {
            Ok(made) => Ok(Chain::of(Raw::of(made))),
            Err(refused) => Err(AllocError::from(refused)),
        }
    }

    /// Writes a byte after the text; the newest block has room for it.
    pub(crate) fn write(&mut self, byte: u8)
        requires filled { IsFilled self.old }
        requires room { self.old.newest.len < ROOM }
        ensures text { chain_text self.new ≡ chain_text self.old ++ byte ∷ [] }
        ensures filled { IsFilled self.new }
        ensures len { chain_len self.new ≡ chain_len self.old + 1 }
    {
        self.put(byte);
    }

    /// Copies a run of bytes after the text; the newest block has room for it.
    pub(crate) fn copy_in(&mut self, run: &[u8])
        requires filled { IsFilled self.old }
        requires room { self.old.newest.len + length run.now ≤ ROOM }
        ensures text { chain_text self.new ≡ chain_text self.old ++ run.now }
        ensures filled { IsFilled self.new }
        ensures len { chain_len self.new ≡ chain_len self.old + length run.now }
        ensures newest { self.new.newest.len ≡ self.old.newest.len + length run.now }
    {
        self.put_run(run);
    }

    /// Adds the blocks of another chain after the newest block, which is full.
    pub(crate) fn append(&mut self, other: Chain)
        requires filled { IsFilled self.old }
        requires full { self.old.newest.len ≡ ROOM }
        requires other { IsFilled other }
        requires few { length self.old.older + length other.older + 2 ≤ MOST_BLOCKS }
        ensures text { chain_text self.new ≡ chain_text self.old ++ chain_text other }
        ensures filled { IsFilled self.new }
        ensures len { chain_len self.new ≡ chain_len self.old + chain_len other }
        ensures newest { self.new.newest.len ≡ other.newest.len }
    {
        self.link(other);
    }

    /// Makes a chain with these bytes, in as few blocks as hold them.
    ///
    /// `AllocError`: there is no memory for a block; those that were made are freed.
    pub(crate) fn holding(alloc: Global, bytes: &[u8]) -> Result<Chain, AllocError>
        requires filled { 0 < length bytes.now }
        requires fits { length bytes.now ≤ ROOM * MOST_BLOCKS }
        ensures text { IfOk result (λ made. chain_text made ≡ bytes.now) }
        ensures filled { IfOk result IsFilled }
        ensures len { IfOk result (λ made. chain_len made ≡ length bytes.now) }
        ensures some { IfOk result (λ made. 0 < made.newest.len) }
    {
        let mut chain = Chain::make(alloc)?;
        let mut rest = bytes;
        while rest.len() > ROOM {
            let (run, after) = rest.split_at(ROOM);
            chain.copy_in(run);
            match Chain::make(alloc) {
                Ok(fresh) => chain.append(fresh),
                Err(refused) => {
                    chain.free(alloc);
                    return Err(refused);
                }
            }
            rest = after;
        }
        chain.copy_in(rest);
        Ok(chain)
    }

    /// Copies bytes out of the blocks from the one at `place` on: those from `start` on, run by run.
    pub(crate) fn copy_out(&self, place: Place, start: usize, out: &mut [u8])
        requires place { IsPlaceOf self.now place }
        requires filled { IsFilled self.now }
        requires within { start + length out.old ≤ length (text (drop place.index (blocks_of self.now))) }
        ensures { out.new ≡ slice_range (text (drop place.index (blocks_of self.now))) start (start + length out.old) }
    {
        let wanted = out.len();
        if wanted == 0 {
            return;
        }
        if start >= ROOM {
            self.copy_out(self.next(place), start - ROOM, out);
            return;
        }
        let run = wanted.min(ROOM - start);
        let (prefix, back) = out.split_at_mut(run);
        self.get_run(place, start, prefix);
        if run < wanted {
            self.copy_out(self.next(place), 0, back);
        }
    }
}
