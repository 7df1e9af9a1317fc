// How often a byte stands in a text.
ghost use Rattle.std.specs.Prelude.{◌≡◌, ◌==◌, ◌<◌, length};
ghost use Rattle.std.specs.List.{count_by};
ghost use Rattle.cord.specs.Chunks.{chunk_bytes};
ghost use Rattle.cord.specs.inner.Counts.{IsNth};

use crate::{Chunk, Text};
use memchr::memchr_iter;

// The most bytes of a run whose number is a byte.
const FEW: usize = 192;

impl Text {
    /// How many of its bytes are this one.
    pub fn count_of(&self, byte: u8) -> u64
        ensures { result ≡ count_by (λ own. own == byte) self.now }
    {
        let mut count = 0;
        let mut chunks = self.chunks();
        while let Some(chunk) = chunks.next() {
            count += count_in(chunk, byte);
        }
        count
    }
}

/// How many bytes of a chunk are this one.
pub(crate) fn count_in(chunk: Chunk<'_>, byte: u8) -> u64
    ensures { result ≡ count_by (λ own. own == byte) (chunk_bytes chunk.entry) }
{
    match chunk {
        Chunk::Bytes(bytes) => count_bytes(bytes, byte),
        Chunk::Run { byte: own, count } if own == byte => count,
        Chunk::Run { .. } => 0,
    }
}

// How many of some bytes are this one, in runs of so few that the number of a run is a byte.
fn count_bytes(bytes: &[u8], byte: u8) -> u64
    ensures { result ≡ count_by (λ own. own == byte) bytes.now }
{
    let mut count = 0;
    let mut rest = bytes;
    while !rest.is_empty() {
        let (prefix, back) = rest.split_at(rest.len().min(FEW));
        count += u64::from(count_few(prefix, byte));
        rest = back;
    }
    count
}

// How many of so few bytes are this one.
fn count_few(bytes: &[u8], byte: u8) -> u8
    requires { length bytes.now < 256 }
    ensures { result ≡ count_by (λ own. own == byte) bytes.now }
{
    let mut count = 0;
    for own in bytes {
        if *own == byte {
            count += 1;
        }
    }
    count
}

/// Where the byte of a chunk stands that is this one and has `n` of them before it.
pub(crate) fn nth_in(chunk: Chunk<'_>, byte: u8, n: u64) -> u64
    requires { n < count_by (λ own. own == byte) (chunk_bytes chunk) }
    ensures { IsNth (chunk_bytes chunk.entry) byte n result }
{
    match chunk {
        Chunk::Bytes(bytes) => nth_of(bytes, byte, n as usize) as u64,
        Chunk::Run { .. } => n,
    }
}

// The same of some bytes.
fn nth_of(bytes: &[u8], byte: u8, n: usize) -> usize
    requires { n < count_by (λ own. own == byte) bytes.now }
    ensures { IsNth bytes.now byte n result }
{
    let Some(place) = memchr_iter(byte, bytes).nth(n) else {
        unreachable!()
    };
    place
}
