// Texts that repeat themselves, and the places that a search passes over by that.
ghost use Rattle.std.specs.Prelude.{◌≡◌, ◌≢◌, ◌+◌, ◌<◌, ◌≤◌, length, take, slice_index, IfSome};
ghost use Rattle.cord_core.specs.Cord.{text_len, bytes_of};
ghost use Rattle.cord_search.specs.inner.Pieces.{IsReadable, StandsNot};
ghost use Rattle.cord_search.specs.inner.Periods.{IsCommon, HasPeriods};
ghost use Rattle.cord_search.specs.inner.Searches.{Shows, IsAnswer};

use crate::PIECE_LEN;
use crate::pieces::first_piece;
use crate::shared_parts::{Ahead, Way, look_ahead};
use cord_core::Cord;
use cord_io::{ReadFault, Source};
use memchr::memmem;

/// How far a text repeats itself: its first `count` bytes are those that stand `period` places later.
#[derive(Clone, Copy)]
pub(crate) struct Repeats {
    period: u64,
    count: u64,
}

/// How far a text repeats itself that begins with these bytes: nothing where their first half stands in them only
/// once, so that they stand nowhere twice within half their length.
pub(crate) fn repeats_of<S: Source>(
    s: &Cord,
    prefix: &[u8],
    src: &mut S,
) -> Result<Option<Repeats>, ReadFault>
    requires text { IsReadable (S.lengths src.old) s.now }
    requires some { 0 < length prefix.now }
    requires inside { length prefix.now ≤ text_len s.now }
    ensures { IsAnswer ⟦<S as Source>⟧ src.old src.new result (λ found.
        IfSome found (λ repeats. repeats.period ≤ text_len s.now)) (λ t found. IfSome found (HasPeriods t s.now)) }
{
    let Some(found) = memmem::find(&prefix[1..], &prefix[..prefix.len() / 2]) else {
        return Ok(None);
    };
    let period = found as u64 + 1;
    let count = common_len(s, 0, s, period, s.len() - period, src)?;
    Ok(Some(Repeats { period, count }))
}

/// How many places a search passes over from one on at which a text doesn't stand. Where the other text repeats
/// itself there longer than this one does, this one's end of that can't stand before the other one's; and where not
/// that long, it can't stand over the other one's end.
pub(crate) fn passed<S: Source>(
    x: &Cord,
    place: u64,
    s: &Cord,
    repeats: Option<Repeats>,
    src: &mut S,
) -> Result<u64, ReadFault>
    requires text { IsReadable (S.lengths src.old) x.now }
    requires pattern { IsReadable (S.lengths src.old) s.now }
    requires inside { place + text_len s.now ≤ text_len x.now }
    requires period { IfSome repeats (λ r. r.period ≤ text_len s.now) }
    requires repeats { Shows ⟦<S as Source>⟧ src.old src.old (λ t. IfSome repeats (HasPeriods t s.now)) }
    ensures { IsAnswer ⟦<S as Source>⟧ src.old src.new result (λ n. (0 < n) × (n ≤ text_len x.now + 1)) (λ t n.
        StandsNot t x.now (bytes_of t s.now) (place + 1) (place + n)) }
{
    let (len, pattern_len) = (x.len(), s.len());
    let Some(repeated) = repeats else {
        return Ok(1);
    };
    let (period, count) = (repeated.period, repeated.count);
    let next = place + period;
    let run = common_len(x, place, x, next, len - next, src)?;
    if run <= count {
        return Ok(run + 1);
    }
    let most = pattern_len - period;
    if count < most {
        return Ok(run - count);
    }
    // It repeats itself to its end, and so stands there.
    Ok(1)
}

// How many bytes two texts have in common from two places on, of the first `most`.
fn common_len<'a, S: Source>(
    x: &'a Cord,
    i: u64,
    y: &'a Cord,
    j: u64,
    most: u64,
    src: &mut S,
) -> Result<u64, ReadFault>
    requires left { IsReadable (S.lengths src.old) x.now }
    requires right { IsReadable (S.lengths src.old) y.now }
    requires left_inside { i + most ≤ text_len x.now }
    requires right_inside { j + most ≤ text_len y.now }
    ensures { IsAnswer ⟦<S as Source>⟧ src.old src.new result (λ n. n ≤ most)
        (λ t. IsCommon t x.now i y.now j most) }
{
    let (mut buffer, mut other_buffer) = ([0; PIECE_LEN], [0; PIECE_LEN]);
    let (mut way, mut other_way) = (Way::new(), Way::new());
    let mut done = 0;
    while done < most {
        match look_ahead(
            x,
            i + done,
            &mut way,
            y,
            j + done,
            &mut other_way,
            most - done,
        ) {
            Ahead::Same(count) => done += count,
            Ahead::Apart(span, other) => {
                let piece = first_piece(span, &mut buffer, src)?;
                let other = first_piece(other, &mut other_buffer, src)?;
                let both = piece.len().min(other.len());
                let count = agreeing(piece, other);
                if count < both {
                    return Ok(done + count as u64);
                }
                done += count as u64;
            }
        }
    }
    Ok(done)
}

// At how many places, from the first one on, two slices have the same bytes.
fn agreeing(left: &[u8], right: &[u8]) -> usize
    ensures left { result ≤ length left.now }
    ensures right { result ≤ length right.now }
    ensures same { take result left.now ≡ take result right.now }
    ensures differ { result < length left.now → result < length right.now →
        slice_index left.now result ≢ slice_index right.now result }
{
    let both = left.len().min(right.len());
    for place in 0..both {
        if left[place] != right[place] {
            return place;
        }
    }
    both
}
