// Texts as `{}` and `{:?}` show them.
ghost use Rattle.std.specs.Prelude.{◌+◌, ◌<◌, ◌≤◌, IfOk, length};
ghost use Rattle.cord.specs.Chunks.{chunk_bytes};

use crate::{Chunk, Text};
use std::fmt;

/// How many bytes of a text `{:?}` shows at most.
const PREFIX_LEN: u64 = 32;

/// How many bytes of a run are written at once.
const PIECE_LEN: usize = 64;

/// The most bytes that a character has.
const CHAR_LEN: usize = 4;

/// `{:?}` is its length and its first 32 bytes, as `Text(11, b"hello world")`: two dots follow them where there are
/// more.
/// `{:#?}` is its length, and below it its tree in at most 100 lines: the form and the length of each node, of a join
/// its depth too, and its two sides below it.
impl fmt::Debug for Text {
    fn fmt<W: fmt::Write>(&self, f: &mut fmt::Formatter<W>) -> fmt::Result {
        if f.alternate() {
            return self.write_tree(f);
        }
        let len = self.len();
        write!(f, "Text({len}, b\"")?;
        for place in 0..len.min(PREFIX_LEN) {
            if let Some(byte) = self.get(place) {
                f.write(byte.escape_ascii())?;
            }
        }
        let end = if len <= PREFIX_LEN { "\")" } else { "\"..)" };
        f.write_str(end)
    }
}

/// Its bytes as UTF-8, where U+FFFD stands for what is none, as in `String::from_utf8_lossy`.
impl fmt::Display for Text {
    fn fmt<W: fmt::Write>(&self, f: &mut fmt::Formatter<W>) -> fmt::Result {
        let mut place = 0;
        let mut chunks = self.chunks();
        while let Some(chunk) = chunks.ahead() {
            let mut count = write_chunk(chunk, f)?;
            if count == 0 {
                count = self.write_char_at(place, f)?;
            }
            place += count;
            chunks.pass(count);
        }
        Ok(())
    }
}

impl Text {
    // Writes the character at a place, which may go on in another chunk, or U+FFFD: how many bytes it stands for.
    fn write_char_at<W: fmt::Write>(
        &self,
        place: u64,
        f: &mut fmt::Formatter<W>,
    ) -> Result<u64, fmt::Error>
        requires { place < length self.now }
        ensures some { IfOk result (λ count. 0 < count) }
        ensures inside { IfOk result (λ count. place + count ≤ length self.now) }
    {
        let mut bytes = [0; CHAR_LEN];
        let count = (self.len() - place).min(CHAR_LEN as u64) as usize;
        for offset in 0..count {
            bytes[offset] = self.get(place + offset as u64).unwrap_or(0);
        }
        let Some(first) = bytes[..count].utf8_chunks().next() else {
            unreachable!()
        };
        if first.valid().is_empty() {
            f.write_char(char::REPLACEMENT_CHARACTER)?;
            return Ok(first.invalid().len() as u64);
        }
        f.write_str(first.valid())?;
        Ok(first.valid().len() as u64)
    }
}

// Writes the UTF-8 that a chunk begins with: how many bytes they are, of a run at most `PIECE_LEN`.
fn write_chunk<W: fmt::Write>(
    chunk: Chunk<'_>,
    f: &mut fmt::Formatter<W>,
) -> Result<u64, fmt::Error>
    ensures { IfOk result (λ count. count ≤ length (chunk_bytes chunk.entry)) }
{
    let count = match chunk {
        Chunk::Bytes(bytes) => write_prefix(bytes, f)?,
        Chunk::Run { byte, count } => {
            let piece = [byte; PIECE_LEN];
            write_prefix(&piece[..count.min(PIECE_LEN as u64) as usize], f)?
        }
    };
    Ok(count as u64)
}

// Writes the UTF-8 that bytes begin with: how many they are.
fn write_prefix<W: fmt::Write>(bytes: &[u8], f: &mut fmt::Formatter<W>) -> Result<usize, fmt::Error>
    ensures { IfOk result (λ count. count ≤ length bytes.now) }
{
    let Some(first) = bytes.utf8_chunks().next() else {
        return Ok(0);
    };
    f.write_str(first.valid())?;
    Ok(first.valid().len())
}
