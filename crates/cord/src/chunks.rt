// The chunks of a text.
ghost use Rattle.std.specs.Prelude.{◌≡◌, ◌<◌, ◌≤◌, length, min, take, drop};
ghost use Rattle.cord_pos.specs.Spans.{span_len, span_bytes, SpanFitsIn};
ghost use Rattle.cord.specs.Chunks.{chunk_bytes, IsNextChunk, JoinBackTo, JoinTo};
ghost use Rattle.cord.specs.Plain.{no_lengths, no_table};

use crate::{ChunksBack, Text};
use cord_pos::{Position, Span};
use cord_search::cord_span_at;
use std::io;
use std::io::Read;
use std::marker::Model;

/// Some bytes of a text, at least one, that lie in one part of its tree.
#[derive(Clone, Copy, Debug)]
pub enum Chunk<'a> {
    /// Bytes of a leaf, lent by the text.
    Bytes(&'a [u8]),
    /// One byte, `count` times.
    Run { byte: u8, count: u64 },
}

impl<'a> Chunk<'a> {
    /// The number of bytes.
    pub fn len(self) -> u64
        ensures { result ≡ length (chunk_bytes self.entry) }
    {
        match self {
            Chunk::Bytes(bytes) => bytes.len() as u64,
            Chunk::Run { count, .. } => count,
        }
    }

    // That of a span of a text over no files.
    pub(crate) fn of(span: Span<'a>) -> Chunk<'a>
        requires some { 0 < span_len span }
        requires plain { SpanFitsIn no_lengths span }
        ensures bytes { chunk_bytes result ≡ span_bytes no_table span.entry }
        ensures len { length (chunk_bytes result) ≡ span_len span.entry }
    {
        match span {
            Span::Bytes(bytes) => Chunk::Bytes(bytes),
            Span::Run { byte, len } => Chunk::Run { byte, count: len },
            Span::Func { .. } => unreachable!(),
        }
    }
}

/// The bytes of a text that are left: an iterator over their chunks, and a reader.
#[derive(Drop)]
pub struct Chunks<'a> {
    position: Position<'a>,
}

impl<'a> Model for Chunks<'a> {
    ghost use Rattle.std.specs.Prelude.{List, ℕ};
    ghost use Rattle.cord.specs.Plain.{IsPlain};
    ghost use Rattle.cord.specs.inner.Chunks.{left_from};

    ghost Value = { List ℕ };

    ghost view = { λ c. left_from c.position.cord c.position.index };

    ghost invariant = { λ c. IsPlain c.position.cord };
}

impl Text {
    /// Its chunks in order: together they are the text. None is copied, and from one to the next takes constant time,
    /// taken over all of them.
    pub fn chunks(&self) -> Chunks<'_>
        ensures text { result ≡ self.now }
        ensures joined { JoinTo result self.now }
    {
        Chunks {
            position: Position::set(&self.cord, 0),
        }
    }

    /// The chunk that holds the byte at `place`, from there on: none at or past the end. It costs the steps down to one
    /// part, so a walk over many chunks is for `chunks`.
    pub fn chunk_at(&self, place: u64) -> Option<Chunk<'_>>
        ensures { IsNextChunk (drop place self.now) result }
    {
        if place >= self.len() {
            return None;
        }
        Some(Chunk::of(cord_span_at(&self.cord, place)))
    }

    /// Its chunks from the last to the first: put together from the last that came to the first, they are the text.
    /// None is copied, and from one to the next takes constant time, taken over all of them.
    pub fn chunks_back(&self) -> ChunksBack<'_>
        ensures text { result ≡ self.now }
        ensures joined { JoinBackTo result self.now }
    {
        ChunksBack {
            position: Position::set(&self.cord, self.len().saturating_sub(1)),
        }
    }
}

impl<'a> Chunks<'a> {
    // The chunk with which the bytes that are left begin.
    pub(crate) fn ahead(&self) -> Option<Chunk<'a>>
        ensures { IsNextChunk self.now result }
    {
        let span = self.position.ahead()?;
        Some(Chunk::of(span))
    }

    // Leaves out the first bytes of those that are left.
    pub(crate) fn pass(&mut self, count: u64)
        requires { count ≤ length self.old }
        ensures { self.new ≡ drop count self.old }
    {
        if let Some(index) = self.position.index() {
            self.position.move_to(index + count);
        }
    }
}

impl<'a> Iterator for Chunks<'a> {
    ghost use Rattle.std.specs.Iterator.{item_count};
    ghost use Rattle.cord.specs.Chunks.{GivesChunk};

    type Item = Chunk<'a>;

    ghost next_gives = { GivesChunk };

    ghost remaining = { item_count (λ left. left) };

    fn next(&mut self) -> Option<Chunk<'a>> {
        let chunk = self.ahead()?;
        self.pass(chunk.len());
        Some(chunk)
    }
}

/// No read fails, and one gives bytes of one chunk.
impl<'a> Read for Chunks<'a> {
    ghost use Rattle.std.specs.Prelude.{IsOk, Some};
    ghost use Rattle.std.specs.Io.{ReadsAtMost};
    ghost use Rattle.std.specs.Io.KnownBytes.{ReadConsumes};

    ghost remaining = { λ left. Some left };

    fn read(&mut self, buf: &mut [u8]) -> io::Result<usize>
        ensures bound { ReadsAtMost result buf.new }
        ensures bytes { ReadConsumes (Some self.old) (Some self.new) result buf.new }

        // Memory answers each time.
        ensures reads { IsOk result }
    {
        let Some(chunk) = self.ahead() else {
            return Ok(0);
        };
        let count = copy_prefix(chunk, buf);
        self.pass(count as u64);
        Ok(count)
    }
}

// Copies what a chunk begins with into a buffer, as many bytes as there are in both.
fn copy_prefix(chunk: Chunk<'_>, buf: &mut [u8]) -> usize
    ensures count { result ≡ min (length (chunk_bytes chunk.entry)) (length buf.old) }
    ensures len { length buf.new ≡ length buf.old }
    ensures copied { take result buf.new ≡ take result (chunk_bytes chunk.entry) }
{
    match chunk {
        Chunk::Bytes(bytes) => {
            let count = bytes.len().min(buf.len());
            buf[..count].copy_from_slice(&bytes[..count]);
            count
        }
        Chunk::Run { byte, count } => {
            let count = count.min(buf.len() as u64) as usize;
            buf[..count].fill(byte);
            count
        }
    }
}
