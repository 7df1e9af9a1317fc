// Ranges of a text that are cut into blocks.
ghost use Rattle.std.specs.Prelude.{◌-◌, ◌<◌, ◌≤◌, IfOk, length, take, drop};
ghost use Rattle.cord_lines.specs.inner.Cuts.{AreBlocksOf, IsNextBlock, IsSize};
ghost use Rattle.cord_lines.specs.inner.Reading.{IsRange};

use crate::blocks::Block;
use crate::counting::Counts;
use crate::reading::{NOTHING, count_parts, count_range};
use cord::Text;
use std::alloc::{AllocError, Global};

/// The most bytes of a block of a new index, where it isn't the last one.
pub(crate) const BLOCK: u64 = 8_192;

/// Blocks have less than twice as many bytes.
pub(crate) const LARGEST: u64 = 32_767;

/// The blocks of what a text has from one place up to another, of so many bytes each or up to a fifth fewer, if a part
/// of the text ends there: the last one of less than twice as many.
pub(crate) fn cut(
    alloc: Global,
    text: &Text,
    from: u64,
    to: u64,
    size: u64,
) -> Result<Vec<Block>, AllocError>
    requires range { IsRange text.now from to }
    requires size { IsSize size LARGEST }
    ensures cut { IfOk result (λ blocks. AreBlocksOf blocks.items (take (to - from) (drop from text.now))) }
{
    let mut blocks = Vec::with_capacity(alloc, ((to - from) / least_of(size)).max(1) as usize)?;
    let mut place = from;
    while place < to {
        let counts = next_block(text, place, to, size);
        blocks.push(Block::of(counts))?;
        place += counts.bytes;
    }
    Ok(blocks)
}

// The counts of the next block.
fn next_block(text: &Text, place: u64, to: u64, size: u64) -> Counts
    requires more { place < to }
    requires inside { to ≤ length text.now }
    requires size { IsSize size LARGEST }
    ensures { IsNextBlock text.now place to result }
{
    if to - place < 2 * size {
        return count_range(text, place, to);
    }
    count_parts(text, place, least_of(size), size, NOTHING).0
}

// The fewest bytes of a block but the last one.
fn least_of(size: u64) -> u64
    requires { 0 < size }
    ensures { IsSize result size }
{
    size - size / 5
}
