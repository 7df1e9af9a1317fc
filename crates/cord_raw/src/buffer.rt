// The buffer over the chain of blocks.
ghost use Rattle.std.specs.Prelude.{◌≡◌, ◌+◌, ◌≤◌, ◌<◌, List, [], ◌∷◌, ◌++◌, length, slice_range, IfOk, IsErr};
ghost use Rattle.std.specs.Rc.{rc_slice_items};

use crate::block::ROOM;
use crate::chain::Chain;
use std::alloc::{AllocError, Global};
use std::marker::Model;
use std::rc::RcSlice;

/// A list of at most `RawBuf::CAP` bytes that grows at its end.
///
/// Its memory is a chain of at most 32 blocks of 128 bytes, of which all but the newest are full. It is freed once,
/// when the buffer is dropped.
pub struct RawBuf {
    chain: Chain,
    len: usize,
    alloc: Global,
}

impl Model for RawBuf {
    ghost use Rattle.std.specs.Prelude.{◌≡◌, ◌+◌, ◌≤◌, ◌*◌, List, ℕ, length};
    ghost use Rattle.cord_raw.specs.Texts.{chain_text, chain_len, IsFilled};
    ghost use Rattle.cord_raw.specs.declared.block.TheConstants.{ROOM, MOST_BLOCKS};

    ghost Value = { List ℕ };

    ghost view = { λ b. chain_text b.chain };

    ghost invariant = { λ b. IsFilled b.chain × (b.len ≡ chain_len b.chain) × (b.len ≡ length (chain_text b.chain))
        × (b.len ≤ ROOM * MOST_BLOCKS) };
}

impl Drop for RawBuf {
    fn drop(self) {
        let RawBuf {
            chain,
            len: _,
            alloc,
        } = self;
        chain.free(alloc);
    }
}

impl RawBuf {
    /// The most bytes that a buffer holds: 32 blocks of 128.
    pub const CAP: u64 = 4_096;

    /// An empty buffer. It makes its first block.
    ///
    /// `AllocError`: there is no memory for it.
    pub fn new(alloc: Global) -> Result<RawBuf, AllocError>
        ensures { IfOk result (λ made. made ≡ []) }
    {
        let chain = Chain::make(alloc)?;
        Ok(RawBuf {
            chain,
            len: 0,
            alloc,
        })
    }

    /// How many bytes it holds, at most `RawBuf::CAP`.
    pub fn len(&self) -> u64
        ensures value { result ≡ length self.now }
        ensures within { result ≤ Self.CAP }
    {
        self.len as u64
    }

    /// Adds a byte at the end, for which there has to be room. It takes constant time.
    ///
    /// `AllocError`: there is no memory for the block that it wants; the list is as before.
    pub fn push(&mut self, alloc: Global, byte: u8) -> Result<(), AllocError>
        requires fits { length self.old < Self.CAP }
        ensures added { IfOk result (λ _. self.new ≡ self.old ++ byte ∷ []) }
        ensures unchanged { IsErr result → self.new ≡ self.old }
    {
        if self.len == ROOM * self.chain.count() {
            let block = Chain::make(alloc)?;
            self.chain.append(block);
        }
        self.chain.write(byte);
        self.len += 1;
        Ok(())
    }

    /// Adds bytes at the end, for which there has to be room. It makes all the blocks that it wants before it links
    /// one, and copies whole runs.
    ///
    /// `AllocError`: there is no memory for a block; the list is as before.
    pub fn extend(&mut self, alloc: Global, bytes: &[u8]) -> Result<(), AllocError>
        requires fits { length self.old + length bytes.now ≤ Self.CAP }
        ensures added { IfOk result (λ _. self.new ≡ self.old ++ bytes.now) }
        ensures unchanged { IsErr result → self.new ≡ self.old }
    {
        let room = ROOM * self.chain.count() - self.len;
        if bytes.len() <= room {
            self.chain.copy_in(bytes);
        } else {
            let (first, rest) = bytes.split_at(room);
            let fresh = Chain::holding(alloc, rest)?;
            self.chain.copy_in(first);
            self.chain.append(fresh);
        }
        self.len += bytes.len();
        Ok(())
    }

    /// Copies the bytes from the place `start` on into `out`, all of which has to lie inside.
    pub fn copy_to(&self, start: u64, out: &mut [u8])
        requires within { start + length out.old ≤ length self.now }
        ensures { out.new ≡ slice_range self.now start (start + length out.old) }
    {
        self.chain.copy_out(self.chain.first(), start as usize, out);
    }

    /// Empties the list. It frees all blocks but the first.
    pub fn clear(&mut self)
        ensures { self.new ≡ [] }
    {
        if self.chain.count() > 1 {
            self.chain.unlink().free(self.alloc);
        }
        self.chain.newest().clear();
        self.len = 0;
    }

    /// The list as one shared slice. The buffer keeps it; it has to hold a byte.
    ///
    /// `AllocError`: there is no memory for the slice.
    pub fn to_shared(&self, alloc: Global) -> Result<RcSlice<u8>, AllocError>
        requires filled { 0 < length self.now }
        ensures text { IfOk result (λ shared. rc_slice_items shared ≡ self.now) }
        ensures within { length self.now ≤ Self.CAP }
    {
        let mut bytes = Vec::from_elem(alloc, 0, self.len)?;
        self.copy_to(0, &mut bytes);
        RcSlice::from_vec(bytes)
    }
}
