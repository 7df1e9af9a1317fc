// A text from a place on.
ghost use Rattle.std.specs.Prelude.{◌≡◌, ◌+◌, ◌-◌, ◌<◌, ◌≤◌, ◌^◌, length, take, drop};
ghost use Rattle.cord.specs.Chunks.{chunk_bytes};
ghost use Rattle.cord_lines.specs.Counts.{counts_of, ends_in};
ghost use Rattle.cord_lines.specs.Lines.{after_ends};
ghost use Rattle.cord_lines.specs.inner.Reading.{CanCount, GivesCut, IsAhead, IsCounted, IsInTwo, IsRange, IsSearch};

use crate::counting::{Counts, count_chunk, count_few};
use cord::{Chunk, Text};

/// The most bytes that are looked at one by one for the end of a line.
const PIECE: usize = 192;

/// What was found of the `n`th end of a line in some bytes.
#[derive(Clone, Copy)]
enum Search {
    /// The place after it.
    Found(u64),
    /// So many ends more are wanted.
    Missing(u64),
}

/// A chunk in two.
#[derive(Clone, Copy)]
struct Cut<'a> {
    prefix: Chunk<'a>,
    back: Chunk<'a>,
}

/// A chunk of no bytes.
pub(crate) const NOTHING: Chunk<'static> = Chunk::Run { byte: 0, count: 0 };

/// The counts of the bytes from one place of a text up to another.
pub(crate) fn count_range(text: &Text, from: u64, to: u64) -> Counts
    requires { IsRange text.now from to }
    ensures { result ≡ counts_of (take (to - from) (drop from text.now)) }
{
    count_next(text, from, to - from, NOTHING).0
}

/// The counts of the next bytes from a place of a text on, some of which may be at hand, and what then is at hand: so
/// ranges beside each other in one part of the text are counted with one way down to it.
pub(crate) fn count_next<'a>(
    text: &'a Text,
    from: u64,
    count: u64,
    held: Chunk<'a>,
) -> (Counts, Chunk<'a>)
    requires { CanCount text.now from count count held }
    ensures { IsCounted text.now from count count result.0 result.1 }
{
    count_parts(text, from, count, count, held)
}

/// As `count_next`, but of at least `least` bytes: up to the end of a part, or of `most` bytes.
pub(crate) fn count_parts<'a>(
    text: &'a Text,
    from: u64,
    least: u64,
    most: u64,
    held: Chunk<'a>,
) -> (Counts, Chunk<'a>)
    requires { CanCount text.now from least most held }
    ensures { IsCounted text.now from least most result.0 result.1 }
{
    let _len = text.len();
    let mut counts = Counts::NONE;
    let mut ahead = held;
    while counts.bytes < least {
        let Some(cut) = cut_at(text, from + counts.bytes, most - counts.bytes, ahead) else {
            unreachable!()
        };
        counts = counts.plus(count_chunk(cut.prefix));
        ahead = cut.back;
    }
    (counts, ahead)
}

// At most so many bytes that a text has at a place in one part, and what is at hand after them.
fn cut_at<'a>(text: &'a Text, place: u64, most: u64, held: Chunk<'a>) -> Option<Cut<'a>>
    requires some { 0 < most }
    requires held { IsAhead (drop place text.now) held }
    ensures { GivesCut (drop place text.now) most result }
{
    if held.len() > 0 {
        return Some(cut_chunk(held, most));
    }
    match text.chunk_at(place) {
        Some(chunk) => Some(cut_chunk(chunk, most)),
        None => None,
    }
}

// At most so many bytes of a chunk, and the others.
fn cut_chunk(chunk: Chunk<'_>, most: u64) -> Cut<'_>
    requires more { 0 < most }
    requires some { 0 < length (chunk_bytes chunk) }
    ensures { IsInTwo chunk.entry most result }
{
    let len = chunk.len().min(most);
    match chunk {
        Chunk::Bytes(bytes) => {
            let (prefix, back) = bytes.split_at(len as usize);
            Cut {
                prefix: Chunk::Bytes(prefix),
                back: Chunk::Bytes(back),
            }
        }
        Chunk::Run { byte, count } => Cut {
            prefix: Chunk::Run { byte, count: len },
            back: Chunk::Run {
                byte,
                count: count - len,
            },
        },
    }
}

/// The place after the `n`th end of a line from a place of a text on: the end of the text where there are fewer.
pub(crate) fn end_from(text: &Text, from: u64, n: u64) -> u64
    requires { from ≤ length text.now }
    ensures { result ≡ from + after_ends n (drop from text.now) }
{
    let mut place = from;
    let mut left = n;
    while place < text.len() {
        let Some(chunk) = text.chunk_at(place) else {
            unreachable!()
        };
        match end_in(chunk, left) {
            Search::Found(end) => return place + end,
            Search::Missing(more) => left = more,
        }
        place += chunk.len();
    }
    place
}

/// The place after the last end of a line before a place of a text: 0 where there is none.
pub(crate) fn after_last_end(text: &Text, place: u64) -> u64
    requires { place ≤ length text.now }
    ensures { result ≡ after_ends (ends_in (take place text.now)) text.now }
{
    match text.rfind_byte(b'\n', place) {
        Some(end) => end + 1,
        None => 0,
    }
}

// Looks for the `n`th end of a line in a chunk.
fn end_in(chunk: Chunk<'_>, n: u64) -> Search
    requires { length (chunk_bytes chunk) < 2 ^ 62 }
    ensures { IsSearch (chunk_bytes chunk.entry) n result }
{
    match chunk {
        Chunk::Bytes(bytes) => end_in_bytes(bytes, n),
        Chunk::Run { .. } => {
            let ends = count_chunk(chunk).ends;
            if n <= ends {
                Search::Found(n)
            } else {
                Search::Missing(n - ends)
            }
        }
    }
}

// Looks for it in some bytes, of which pieces with too few ends are passed at once.
fn end_in_bytes(bytes: &[u8], n: u64) -> Search
    ensures { IsSearch bytes.now n result }
{
    let mut rest = bytes;
    let mut left = n;
    while !rest.is_empty() {
        let (piece, back) = rest.split_at(rest.len().min(PIECE));
        let ends = u64::from(count_few(piece).0);
        if left <= ends {
            return Search::Found((bytes.len() - rest.len()) as u64 + end_in_piece(piece, left));
        }
        left -= ends;
        rest = back;
    }
    Search::Missing(left)
}

// The place after the `n`th end of a line in few bytes: their number where there are fewer.
fn end_in_piece(bytes: &[u8], n: u64) -> u64
    ensures { result ≡ after_ends n bytes.now }
{
    let mut left = n;
    for (place, byte) in bytes.iter().enumerate() {
        if left == 0 {
            return place as u64;
        }
        if *byte == b'\n' {
            left -= 1;
        }
    }
    bytes.len() as u64
}
