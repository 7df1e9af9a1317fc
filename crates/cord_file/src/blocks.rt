// Blocks of files, and those that are kept.
ghost use Rattle.std.specs.Prelude.{◌≡◌, ◌+◌, ◌*◌, ◌<◌, ◌≤◌, ℕ, List, length, take, drop, true, is_err, Contains, OnOk};
ghost use Rattle.std.specs.Prelude.{IsSomeAnd, IfSome, ◌⊎◌};
ghost use Rattle.cord_io.specs.Device.{FileSystem, bytes_at};
ghost use Rattle.cord_file.specs.Blocks.{HeapBlock, Slotted, IsBlock};
ghost use Rattle.cord_file.specs.inner.Reading.{LeavesDevice};

use crate::reading::read_range;
use crate::slots::Slots;
use cord_io::{FileNo, Files, MAX_LEN, ReadFault};
use lru::LruCache;
use std::alloc::{AllocFailed, Global};

// The length of a block in bytes, but for the last one of a file, which may be shorter.
pub(crate) const BLOCK: usize = 512;

// The greatest number of blocks that are kept.
pub(crate) const MAX_BLOCKS: usize = 32;

// Which block of which file: the place of the file among those opened, and the number of the block in it.
#[derive(Clone, Copy, PartialEq, Eq, Hash)]
pub(crate) struct BlockKey {
    pub(crate) place: usize,
    pub(crate) number: u64,
}

// A block on the heap, so that it isn't copied where the cache moves it.
pub(crate) type Block = Box<[u8; BLOCK]>;

// A kept block and its key.
type KeptBlock = (BlockKey, Block);

// The number of a slot, and the block in it.
type SlottedBlock = (usize, KeptBlock);

// Kept blocks, each under the number of its slot. A new one takes the slot of the one used least recently, so that no
// slot is taken out or put in once all are used.
pub(crate) type Blocks = LruCache<usize, KeptBlock>;

// Reads one block of an opened file into the room for one, whose bytes after the last one are left as they are.
pub(crate) fn read_block<F: Files>(
    files: &mut F,
    no: FileNo,
    len: u64,
    number: u64,
    block: &mut [u8; BLOCK],
) -> Result<(), ReadFault>
    requires reported { IsSomeAnd (F.opened files.old no.0) (λ reported. len ≡ reported.1) }
    requires inside { number * BLOCK < len }
    requires limit { len ≤ MAX_LEN }
    ensures device { LeavesDevice ⟦<F as Files>⟧ (is_err result) files.old files.new }
    ensures block { (file_system : FileSystem) → F.consistent files.new file_system → OnOk result
        (IsSomeAnd (F.opened files.old no.0) (λ reported. IsBlock len (bytes_at file_system reported.0) number
        block.new)) }
{
    let start = number * BLOCK as u64;
    let size = (len - start).min(BLOCK as u64) as usize;
    read_range(files, no, start, &mut block[..size])
}

// Room for one more block: that of the one that is spare, and else a new one. None where no memory is found for it.
pub(crate) fn room_for(spare: &mut Option<Block>, alloc: Global) -> Option<Block> {
    match spare.take() {
        Some(block) => Some(block),
        None => Box::new(alloc, [0; BLOCK]).ok(),
    }
}

// The block used last.
fn newest(cache: &Blocks) -> Option<&KeptBlock>
    ensures { IfSome result (λ kept. (slot : ℕ) × Contains cache.now.entries (slot, kept.now)) }
{
    match cache.peek_mru() {
        Some((_, kept)) => Some(kept),
        None => None,
    }
}

// Copies a part of a kept block into `out`, where it has this key, and answers whether it does.
fn copy_of(kept: &KeptBlock, key: BlockKey, from: usize, out: &mut [u8]) -> bool
    requires { from + length out.old ≤ BLOCK }
    ensures { result ≡ true → (kept.now.0 ≡ key) × (out.new ≡ take (length out.new) (drop from kept.now.1.value)) }
{
    let (own, block) = kept;
    if *own != key {
        return false;
    }
    out.copy_from_slice(&block[from..from + out.len()]);
    true
}

// Copies a part of a block into `out`, where it is the one used last, and answers whether it is.
fn copy_newest(cache: &Blocks, key: BlockKey, from: usize, out: &mut [u8]) -> bool
    requires { from + length out.old ≤ BLOCK }
    ensures { result ≡ true → (slot : ℕ) × (block : HeapBlock) × Contains cache.now.entries (slot, (key, block))
        × (out.new ≡ take (length out.new) (drop from block.value)) }
{
    match newest(cache) {
        Some(kept) => copy_of(kept, key, from, out),
        None => false,
    }
}

// Copies a part of a block into `out`, where it lies in a slot, and answers whether it does.
fn copy_slot(cache: &mut Blocks, slot: usize, key: BlockKey, from: usize, out: &mut [u8]) -> bool
    requires { from + length out.old ≤ BLOCK }
    ensures kept { (e : Slotted) → Contains cache.new.entries e → Contains cache.old.entries e }
    ensures copied { result ≡ true → (slot : ℕ) × (block : HeapBlock)
        × Contains cache.old.entries (slot, (key, block)) × (out.new ≡ take (length out.new) (drop from block.value)) }
{
    match cache.get(&slot) {
        Some(kept) => copy_of(kept, key, from, out),
        None => false,
    }
}

// Copies a part of a block into `out`, where the block is kept, and answers whether it is. Reading mostly goes on in
// the block used last, which is found without a look-up.
pub(crate) fn copy_kept(
    cache: &mut Blocks,
    slots: &mut Slots,
    key: BlockKey,
    from: usize,
    out: &mut [u8],
) -> bool
    requires { from + length out.old ≤ BLOCK }
    ensures kept { (e : Slotted) → Contains cache.new.entries e → Contains cache.old.entries e }
    ensures copied { result ≡ true → (slot : ℕ) × (block : HeapBlock)
        × Contains cache.old.entries (slot, (key, block)) × (out.new ≡ take (length out.new) (drop from block.value)) }
{
    if copy_newest(cache, key, from, out) {
        return true;
    }
    match slots.find(key) {
        Some(slot) => copy_slot(cache, slot, key, from, out),
        None => false,
    }
}

// The slot for one more block: one that isn't used yet, or that of the block used least recently.
fn next_slot(cache: &Blocks) -> usize {
    let len = cache.len();
    match cache.peek_lru() {
        Some((slot, _)) if len == MAX_BLOCKS => *slot,
        _ => len,
    }
}

// Which block isn't kept after one was put among them: the one that it took the place of, or itself.
fn spare_after(put: Result<Option<SlottedBlock>, AllocFailed<SlottedBlock>>) -> Option<Block> {
    match put {
        Ok(None) => None,
        Ok(Some((_, (_, block)))) => Some(block),
        Err(refused) => {
            let (_, (_, block)) = refused.value;
            Some(block)
        }
    }
}

// Keeps a block, where memory is found for it, and gives back the one that isn't kept any more.
pub(crate) fn keep(
    cache: &mut Blocks,
    slots: &mut Slots,
    key: BlockKey,
    block: Block,
) -> Option<Block>
    ensures { (e : Slotted) → Contains cache.new.entries e →
        Contains cache.old.entries e ⊎ (e.1 ≡ (key, block)) }
{
    let slot = next_slot(cache);
    slots.fill(slot, key);
    spare_after(cache.push(slot, (key, block)))
}
