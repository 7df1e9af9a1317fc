// Output of plain bytes and of runs.
ghost use Rattle.std.specs.Prelude.{◌<◌, ◌≤◌, replicate};
ghost use Rattle.cord_iter.specs.Output.{Writes};

use crate::{BLOCK_LEN, PIECE_LEN};
use cord_io::{Sink, WriteFault};

/// Offers the bytes until the sink has taken them all: after a short `put` the rest. After a fault the sink has taken a
/// prefix.
pub fn put_all<W: Sink>(bytes: &[u8], sink: &mut W) -> Result<(), WriteFault>
    ensures { Writes ⟦<W as Sink>⟧ bytes.now sink.old sink.new result }
{
    let mut done = 0;
    while done < bytes.len() {
        done += sink.put(&bytes[done..])?;
    }
    Ok(())
}

// Puts `len` times the byte: a long run in blocks, so that a sink with a buffer need not keep them.
pub(crate) fn put_run<W: Sink>(byte: u8, len: u64, sink: &mut W) -> Result<(), WriteFault>
    ensures { Writes ⟦<W as Sink>⟧ (replicate len byte) sink.old sink.new result }
{
    if len < BLOCK_LEN as u64 {
        put_repeated::<PIECE_LEN, W>(byte, len, sink)
    } else {
        put_repeated::<BLOCK_LEN, W>(byte, len, sink)
    }
}

// Puts `len` times the byte, at most `N` at once. It stands apart, so that only who calls it has room for them on the
// stack.
#[inline(never)]
fn put_repeated<const N: usize, W: Sink>(byte: u8, len: u64, sink: &mut W) -> Result<(), WriteFault>
    requires some { 0 < N }
    requires few { N ≤ BLOCK_LEN }
    ensures { Writes ⟦<W as Sink>⟧ (replicate len byte) sink.old sink.new result }
{
    let block = [byte; N];
    let mut done = 0;
    while done < len {
        let count = piece_len(len - done, N);
        put_all(&block[..count], sink)?;
        done += count as u64;
    }
    Ok(())
}

// How many bytes of those that are left make the next piece, which has at most `most`.
pub(crate) fn piece_len(left: u64, most: usize) -> usize
    requires room { 0 < most }
    ensures most { result ≤ most }
    ensures inside { result ≤ left }
    ensures some { 0 < left → 0 < result }
{
    left.min(most as u64) as usize
}
