// What is counted in some bytes.
ghost use Rattle.std.specs.Prelude.{◌≡◌, ◌↔◌, ◌+◌, ◌<◌, ◌≤◌, ◌^◌, IsTrue, length, true, if◌then◌else◌, ◌||◌, nat_lt};
ghost use Rattle.std.specs.Prelude.{nat_le};
ghost use Rattle.cord.specs.Chunks.{chunk_bytes};
ghost use Rattle.cord_lines.specs.Counts.{begins_char, chars_in, counts_of, ends_in, plus, AreFew};
ghost use Rattle.cord_lines.specs.inner.Blocks.{exchanged, without, AreWithin, CanExchange};
ghost use Rattle.cord_lines.specs.inner.Cuts.{IsMark, IsMarkWhere};

use cord::{Chunk, MAX_LEN};

/// How many bytes, ends of lines and first bytes of characters some bytes have.
#[derive(Clone, Copy)]
pub(crate) struct Counts {
    pub(crate) bytes: u64,
    pub(crate) ends: u64,
    pub(crate) chars: u64,
}

/// The most bytes that are counted in numbers of one byte.
const FEW: usize = 224;

/// A place is near others where at most so many bytes lie between them.
const NEAR: u64 = 512;

impl Counts {
    /// The counts of no bytes.
    pub(crate) const NONE: Counts = Counts {
        bytes: 0,
        ends: 0,
        chars: 0,
    };

    /// The counts of bytes that follow others.
    pub(crate) fn plus(self, other: Counts) -> Counts
        requires { AreFew (plus self other) }
        ensures { result ≡ plus self other }
    {
        Counts {
            bytes: self.bytes + other.bytes,
            ends: self.ends + other.ends,
            chars: self.chars + other.chars,
        }
    }

    /// The counts of what is left without the last bytes, which have these counts.
    pub(crate) fn without(self, last: Counts) -> Counts
        ensures { result ≡ without self last }
    {
        Counts {
            bytes: self.bytes.saturating_sub(last.bytes),
            ends: self.ends.saturating_sub(last.ends),
            chars: self.chars.saturating_sub(last.chars),
        }
    }

    /// Whether they are a part of others.
    pub(crate) fn are_within(self, all: Counts) -> bool
        ensures { IsTrue result ↔ AreWithin self all }
    {
        self.bytes <= all.bytes && self.ends <= all.ends && self.chars <= all.chars
    }

    /// Whether a place is few bytes after bytes with these counts.
    pub(crate) fn are_near(self, place: u64) -> bool
        ensures { IsTrue result → self.bytes ≤ place }
    {
        self.bytes <= place && place - self.bytes <= NEAR
    }

    /// These counts, where they are of no more than `most` bytes and a text can have them: else those of no bytes.
    pub(crate) fn up_to(self, most: u64) -> Counts
        ensures { IsMarkWhere (λ x. IsMark x self) most result }
    {
        if self.bytes <= most.min(MAX_LEN) && self.ends <= MAX_LEN && self.chars <= MAX_LEN {
            self
        } else {
            Counts::NONE
        }
    }

    /// These counts with others in the place of a part of them.
    pub(crate) fn exchanged(self, old: Counts, new: Counts) -> Counts
        requires { CanExchange self old new }
        ensures { result ≡ exchanged self old new }
    {
        Counts {
            bytes: self.bytes - old.bytes + new.bytes,
            ends: self.ends - old.ends + new.ends,
            chars: self.chars - old.chars + new.chars,
        }
    }
}

/// Whether a byte is the first one of a character of UTF-8.
#[inline(always)]
pub(crate) fn is_first_of_char(byte: u8) -> bool
    ensures { result ≡ begins_char byte }
{
    byte < 0x80 || 0xC0 <= byte
}

/// The counts of a chunk.
pub(crate) fn count_chunk(chunk: Chunk<'_>) -> Counts
    requires { length (chunk_bytes chunk) < 2 ^ 62 }
    ensures { result ≡ counts_of (chunk_bytes chunk.entry) }
{
    match chunk {
        Chunk::Bytes(bytes) => count_bytes(bytes),
        Chunk::Run { byte, count } => Counts {
            bytes: count,
            ends: if byte == b'\n' { count } else { 0 },
            chars: if is_first_of_char(byte) { count } else { 0 },
        },
    }
}

// The counts of some bytes, in runs of so few that the numbers of a run are bytes.
fn count_bytes(bytes: &[u8]) -> Counts
    ensures { result ≡ counts_of bytes.now }
{
    let mut ends = 0;
    let mut chars = 0;
    let mut rest = bytes;
    while !rest.is_empty() {
        let (prefix, back) = rest.split_at(rest.len().min(FEW));
        let few = count_few(prefix);
        ends += u64::from(few.0);
        chars += u64::from(few.1);
        rest = back;
    }
    Counts {
        bytes: bytes.len() as u64,
        ends,
        chars,
    }
}

// How many ends of lines and first bytes of characters there are in so few bytes.
pub(crate) fn count_few(bytes: &[u8]) -> (u8, u8)
    requires { length bytes.now < 256 }
    ensures ends { result.0 ≡ ends_in bytes.now }
    ensures chars { result.1 ≡ chars_in bytes.now }
{
    let mut ends = 0;
    let mut chars = 0;
    for byte in bytes {
        if *byte == b'\n' {
            ends += 1;
        }
        if is_first_of_char(*byte) {
            chars += 1;
        }
    }
    (ends, chars)
}
