// Where the kept blocks lie.

use crate::blocks::{BlockKey, MAX_BLOCKS};

// Which block was put into which slot, and the slot that was found or filled last. It only says where to look: a block
// knows its key itself.
#[derive(Drop)]
pub(crate) struct Slots {
    keys: [BlockKey; MAX_BLOCKS],
    last: usize,
}

impl Slots {
    // No slot is filled: no file has this place.
    pub(crate) fn new() -> Slots {
        let none = BlockKey {
            place: usize::MAX,
            number: 0,
        };
        Slots {
            keys: [none; MAX_BLOCKS],
            last: 0,
        }
    }

    // Where a block lies. Blocks that were read in order lie in order, so the slot after the last one is looked at
    // first.
    pub(crate) fn find(&mut self, key: BlockKey) -> Option<usize> {
        let next = self.last.wrapping_add(1) % MAX_BLOCKS;
        let slot = if self.keys[next] == key {
            next
        } else {
            self.keys.iter().position(|it| *it == key)?
        };
        self.last = slot;
        Some(slot)
    }

    // A block is put into a slot.
    pub(crate) fn fill(&mut self, slot: usize, key: BlockKey) {
        if slot < MAX_BLOCKS {
            self.keys[slot] = key;
            self.last = slot;
        }
    }

    // From which block of a file on none lies in any slot, up to the last one: the first one, or one after it.
    pub(crate) fn new_from(&self, place: usize, first: u64, last: u64) -> u64 {
        let mut from = first;
        for key in &self.keys {
            if key.place == place && from <= key.number && key.number <= last {
                from = key.number.saturating_add(1);
            }
        }
        from
    }
}
