//! One block: the pointer to the next one, its length, and room for its bytes.
ghost use Rattle.std.specs.Prelude.{◌≡◌};

use std::ptr;

/// The bytes that one block has room for.
pub(crate) const ROOM: usize = 128;

/// The most blocks of one buffer.
pub(crate) const MOST_BLOCKS: usize = 32;

/// A block, of whose bytes the first `len` are its text. In the newest block of a chain `next` means nothing.
#[derive(Drop)]
pub(crate) struct Block {
    pub(crate) next: *mut Block,
    pub(crate) len: usize,
    pub(crate) bytes: [u8; ROOM],
}

impl Block {
    /// A block with no bytes.
    pub(crate) fn empty() -> Block
        ensures { result.len ≡ 0 }
    {
        Block {
            next: ptr::null_mut(),
            len: 0,
            bytes: [0; ROOM],
        }
    }

    /// Forgets the bytes.
    pub(crate) fn clear(&mut self)
        ensures { self.new.len ≡ 0 }
    {
        self.len = 0;
    }
}
