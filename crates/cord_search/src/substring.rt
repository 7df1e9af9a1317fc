// The places of a text in another.
ghost use Rattle.std.specs.Prelude.{◌≡◌, ◌+◌, ◌<◌, ◌≤◌, length, take, true, false, is_err, IfOk, IfErr, IfSome};
ghost use Rattle.cord_io.specs.Device.{FileSystem, count_after};
ghost use Rattle.cord_io.specs.Frames.{LeavesSource};
ghost use Rattle.cord_core.specs.Cord.{text_len, bytes_of, CordFitsIn};
ghost use Rattle.cord_core.specs.Texts.{first};
ghost use Rattle.cord_search.specs.inner.Pieces.{IsReadable, IsStanding, StandsNot};
ghost use Rattle.cord_search.specs.inner.Periods.{IsKnown};
ghost use Rattle.cord_search.specs.inner.Searches.{Shows, IsRead, FindsBytesIn, FindsText};

use crate::PIECE_LEN;
use crate::order::compare;
use crate::periods::{Repeats, passed, repeats_of};
use crate::pieces::{gather, window_at};
use crate::spans::{cord_span_at, misfits, span_from};
use cord_core::Cord;
use cord_io::{CordError, ReadFault, Source};
use cord_pos::{Position, Span};
use memchr::memmem::Finder;

// Room for the windows in which a text of at most `PIECE_LEN` bytes is looked for.
const ROOM_LEN: usize = 4 * PIECE_LEN;

// A longer text is looked for by at most so many bytes, its first ones, in windows of `WINDOW_LEN`.
const PREFIX_LEN: usize = 16_384;

const WINDOW_LEN: usize = 4 * PREFIX_LEN;

/// The first place of `x` at `start` or later where `s` stands, after `CORD_str` of `cord.h`. An empty `s` stands at
/// each place up to the length of `x`. Refused with `ReadFailed` where a read failed.
///
/// Each function part lies inside a source of `src`: so it is with every cord over no files, with those that `src` made
/// where it is a `Sources`, and with what `cat`, `substr` and the others make of them.
///
/// Where `s` is found, all of it lies inside `x`, whatever `src` answers. So a sum as here is at most the length of
/// `x`:
///
/// ```rust second_place
/// use cord_core::Cord;
/// use cord_io::{CordError, Source};
/// use cord_search::str;
///
/// /// Where `word` stands once more, after the first place at which it stands.
/// pub fn second_place<S: Source>(
///     text: &Cord,
///     word: &Cord,
///     src: &mut S,
/// ) -> Result<Option<u64>, CordError> {
///     let Some(place) = str(text, 0, word, src)? else {
///         return Ok(None);
///     };
///     str(text, place + word.len(), word, src)
/// }
/// ```
pub fn str<S: Source>(x: &Cord, start: u64, s: &Cord, src: &mut S) -> Result<Option<u64>, CordError>
    requires fits { CordFitsIn (S.lengths src.old) x.now }
    requires pattern_fits { CordFitsIn (S.lengths src.old) s.now }
    ensures first { (file_system : FileSystem) → S.consistent src.new file_system → IfOk result (λ place.
        place ≡ first (bytes_of (S.table src.old file_system) x.now) start
        (bytes_of (S.table src.old file_system) s.now)) }
    ensures from { IfOk result (λ found. IfSome found (λ place. start ≤ place)) }
    ensures within { IfOk result (λ found. IfSome found (λ place. place + text_len s.now ≤ text_len x.now)) }
    ensures refused { IfErr result (λ e. e ≡ CordError.ReadFailed) }
    ensures count { S.failures src.new ≡ count_after (is_err result) (S.failures src.old) }
    ensures source { LeavesSource ⟦<S as Source>⟧ src.old src.new }
{
    str_in(x, start, x.len(), s, src)
}

/// As `str`, in the first `end` bytes of `x`: the first place at `start` or later where `s` stands and ends at `end` or
/// before. What lies after `end` is not looked at, but to tell how far a text of more than `MOST_BYTES` repeats
/// itself.
pub fn str_in<S: Source>(
    x: &Cord,
    start: u64,
    end: u64,
    s: &Cord,
    src: &mut S,
) -> Result<Option<u64>, CordError>
    requires fits { CordFitsIn (S.lengths src.old) x.now }
    requires pattern_fits { CordFitsIn (S.lengths src.old) s.now }
    ensures first { (file_system : FileSystem) → S.consistent src.new file_system → IfOk result (λ place.
        place ≡ first (take end (bytes_of (S.table src.old file_system) x.now)) start
        (bytes_of (S.table src.old file_system) s.now)) }
    ensures from { IfOk result (λ found. IfSome found (λ place. start ≤ place)) }
    ensures before { IfOk result (λ found. IfSome found (λ place. place + text_len s.now ≤ end)) }
    ensures within { IfOk result (λ found. IfSome found (λ place. place + text_len s.now ≤ text_len x.now)) }
    ensures refused { IfErr result (λ e. e ≡ CordError.ReadFailed) }
    ensures count { S.failures src.new ≡ count_after (is_err result) (S.failures src.old) }
    ensures source { LeavesSource ⟦<S as Source>⟧ src.old src.new }
{
    let end = end.min(x.len());
    Ok(first_place(x, start, end, s, src)?)
}

/// The most bytes that `find_bytes` looks for.
pub const MOST_BYTES: usize = PREFIX_LEN;

/// The first place of `x` at `start` or later where these bytes stand, as `str` finds those of a cord: at least one
/// byte and at most `MOST_BYTES`. Refused with `ReadFailed` where a read failed.
pub fn find_bytes<S: Source>(
    x: &Cord,
    start: u64,
    bytes: &[u8],
    src: &mut S,
) -> Result<Option<u64>, CordError>
    requires some { 0 < length bytes.now }
    requires few { length bytes.now ≤ MOST_BYTES }
    requires fits { CordFitsIn (S.lengths src.old) x.now }
    ensures first { (file_system : FileSystem) → S.consistent src.new file_system → IfOk result (λ place.
        place ≡ first (bytes_of (S.table src.old file_system) x.now) start bytes.now) }
    ensures from { IfOk result (λ found. IfSome found (λ place. start ≤ place)) }
    ensures within { IfOk result (λ found. IfSome found (λ place. place + length bytes.now ≤ text_len x.now)) }
    ensures refused { IfErr result (λ e. e ≡ CordError.ReadFailed) }
    ensures count { S.failures src.new ≡ count_after (is_err result) (S.failures src.old) }
    ensures source { LeavesSource ⟦<S as Source>⟧ src.old src.new }
{
    find_bytes_in(x, start, x.len(), bytes, src)
}

/// As `find_bytes`, in the first `end` bytes of `x`.
pub fn find_bytes_in<S: Source>(
    x: &Cord,
    start: u64,
    end: u64,
    bytes: &[u8],
    src: &mut S,
) -> Result<Option<u64>, CordError>
    requires some { 0 < length bytes.now }
    requires few { length bytes.now ≤ MOST_BYTES }
    requires fits { CordFitsIn (S.lengths src.old) x.now }
    ensures first { (file_system : FileSystem) → S.consistent src.new file_system → IfOk result (λ place.
        place ≡ first (take end (bytes_of (S.table src.old file_system) x.now)) start bytes.now) }
    ensures from { IfOk result (λ found. IfSome found (λ place. start ≤ place)) }
    ensures before { IfOk result (λ found. IfSome found (λ place. place + length bytes.now ≤ end)) }
    ensures within { IfOk result (λ found. IfSome found (λ place. place + length bytes.now ≤ text_len x.now)) }
    ensures refused { IfErr result (λ e. e ≡ CordError.ReadFailed) }
    ensures count { S.failures src.new ≡ count_after (is_err result) (S.failures src.old) }
    ensures source { LeavesSource ⟦<S as Source>⟧ src.old src.new }
{
    let end = end.min(x.len());
    Ok(first_place_of_bytes(x, start, end, bytes, src)?)
}

// Whether a text has so many bytes from a place on.
fn lies_inside(start: u64, count: u64, len: u64) -> bool
    ensures inside { result ≡ true → start + count ≤ len }
    ensures outside { result ≡ false → len < start + count }
{
    start <= len && count <= len - start
}

// The first place of a text in the first `end` bytes of another, from a place on.
pub(crate) fn first_place<S: Source>(
    x: &Cord,
    start: u64,
    end: u64,
    s: &Cord,
    src: &mut S,
) -> Result<Option<u64>, ReadFault>
    requires text { IsReadable (S.lengths src.old) x.now }
    requires pattern_fits { CordFitsIn (S.lengths src.old) s.now }
    requires end { end ≤ text_len x.now }
    ensures { FindsText ⟦<S as Source>⟧ src.old src.new x.now start end s.now result }
{
    let count = s.len();
    if !lies_inside(start, count, end) {
        return Ok(None);
    }
    if count == 0 {
        return Ok(Some(start));
    }
    if count <= PIECE_LEN as u64 {
        place_of_short::<PIECE_LEN, ROOM_LEN, S>(x, start, end, s, src)
    } else if count <= PREFIX_LEN as u64 {
        place_of_short::<PREFIX_LEN, WINDOW_LEN, S>(x, start, end, s, src)
    } else {
        place_of_long(x, start, end, s, src)
    }
}

// The first place of some bytes in the first `end` bytes of a text, from a place on.
fn first_place_of_bytes<S: Source>(
    x: &Cord,
    start: u64,
    end: u64,
    bytes: &[u8],
    src: &mut S,
) -> Result<Option<u64>, ReadFault>
    requires text { IsReadable (S.lengths src.old) x.now }
    requires some { 0 < length bytes.now }
    requires few { length bytes.now ≤ MOST_BYTES }
    requires end { end ≤ text_len x.now }
    ensures { FindsBytesIn ⟦<S as Source>⟧ src.old src.new x.now start end bytes.now result }
{
    if bytes.len() <= PIECE_LEN {
        place_of_bytes::<ROOM_LEN, S>(x, start, end, bytes, src)
    } else {
        place_of_bytes::<WINDOW_LEN, S>(x, start, end, bytes, src)
    }
}

// The first place of a text where it has at most `N` bytes. It stands apart, so that only who calls it has
// room for them and for windows of `M` bytes on the stack.
#[inline(never)]
fn place_of_short<const N: usize, const M: usize, S: Source>(
    x: &Cord,
    start: u64,
    end: u64,
    s: &Cord,
    src: &mut S,
) -> Result<Option<u64>, ReadFault>
    requires text { IsReadable (S.lengths src.old) x.now }
    requires pattern { IsReadable (S.lengths src.old) s.now }
    requires some { 0 < text_len s.now }
    requires short { text_len s.now ≤ N }
    requires room { N ≤ M }
    requires few { M ≤ WINDOW_LEN }
    requires end { end ≤ text_len x.now }
    ensures { FindsText ⟦<S as Source>⟧ src.old src.new x.now start end s.now result }
{
    let mut prefix = [0; N];
    let pattern = &mut prefix[..s.len() as usize];
    gather(s, 0, pattern, src)?;
    let place = place_of_bytes::<M, S>(x, start, end, pattern, src)?;
    Ok(place)
}

// That of some bytes, which stands apart for the same reason.
#[inline(never)]
fn place_of_bytes<const M: usize, S: Source>(
    x: &Cord,
    start: u64,
    end: u64,
    bytes: &[u8],
    src: &mut S,
) -> Result<Option<u64>, ReadFault>
    requires text { IsReadable (S.lengths src.old) x.now }
    requires some { 0 < length bytes.now }
    requires room { length bytes.now ≤ M }
    requires few { M ≤ WINDOW_LEN }
    requires end { end ≤ text_len x.now }
    ensures { FindsBytesIn ⟦<S as Source>⟧ src.old src.new x.now start end bytes.now result }
{
    let finder = Finder::new(bytes);
    let mut room = [0; M];
    first_of(x, start, end, &finder, &mut room, src)
}

// The first place of a text of more than `PREFIX_LEN` bytes.
#[inline(never)]
fn place_of_long<S: Source>(
    x: &Cord,
    start: u64,
    end: u64,
    s: &Cord,
    src: &mut S,
) -> Result<Option<u64>, ReadFault>
    requires text { IsReadable (S.lengths src.old) x.now }
    requires pattern { IsReadable (S.lengths src.old) s.now }
    requires long { PREFIX_LEN ≤ text_len s.now }
    requires inside { start + text_len s.now ≤ end }
    requires end { end ≤ text_len x.now }
    ensures { FindsText ⟦<S as Source>⟧ src.old src.new x.now start end s.now result }
{
    let mut prefix = [0; PREFIX_LEN];
    gather(s, 0, &mut prefix, src)?;
    let repeats = repeats_of(s, &prefix, src)?;
    let finder = Finder::new(&prefix);
    let mut room = [0; WINDOW_LEN];
    let place = first_confirmed(x, start, end, s, &finder, repeats, &mut room, src)?;
    Ok(place)
}

// The same, by the places of the text's prefix. After one at which the text doesn't stand, the search goes on by how
// far the text repeats itself.
fn first_confirmed<S: Source>(
    x: &Cord,
    start: u64,
    end: u64,
    s: &Cord,
    prefix: &Finder,
    repeats: Option<Repeats>,
    room: &mut [u8],
    src: &mut S,
) -> Result<Option<u64>, ReadFault>
    requires text { IsReadable (S.lengths src.old) x.now }
    requires pattern { IsReadable (S.lengths src.old) s.now }
    requires inside { start + text_len s.now ≤ end }
    requires end { end ≤ text_len x.now }
    requires some { 0 < length prefix.now }
    requires room { length prefix.now ≤ length room.old }
    requires period { IfSome repeats (λ r. r.period ≤ text_len s.now) }
    requires known { Shows ⟦<S as Source>⟧ src.old src.old (λ t. IsKnown t s.now prefix.now repeats) }
    ensures { FindsText ⟦<S as Source>⟧ src.old src.new x.now start end s.now result }
{
    let last = end - s.len();
    let mut place = start;
    while place <= last {
        let Some(found) = first_of(x, place, end, prefix, room, src)? else {
            return Ok(None);
        };
        if last < found {
            return Ok(None);
        }
        if stands_at(x, found, s, src)? {
            return Ok(Some(found));
        }
        let count = passed(x, found, s, repeats, src)?;
        place = found + count;
    }
    Ok(None)
}

// The first place of some bytes in the first `end` bytes of a text, from a place on: in what is left of the leaf that
// holds it, or after that.
fn first_of<S: Source>(
    x: &Cord,
    start: u64,
    end: u64,
    finder: &Finder,
    room: &mut [u8],
    src: &mut S,
) -> Result<Option<u64>, ReadFault>
    requires text { IsReadable (S.lengths src.old) x.now }
    requires some { 0 < length finder.now }
    requires room { length finder.now ≤ length room.old }
    requires end { end ≤ text_len x.now }
    ensures { FindsBytesIn ⟦<S as Source>⟧ src.old src.new x.now start end finder.now result }
{
    let head = finder.needle();
    if !lies_inside(start, head.len() as u64, end) {
        return Ok(None);
    }
    let Span::Bytes(leaf) = cord_span_at(x, start) else {
        return first_at_or_after(x, start, end, start, finder, room, src);
    };
    if leaf.len() < head.len() {
        return first_at_or_after(x, start, end, start, finder, room, src);
    }
    let most = leaf.len().min((end - start) as usize);
    let prefix = &leaf[..most];
    match finder.find(prefix) {
        Some(found) => Ok(Some(start + found as u64)),
        None => {
            let after = start + (prefix.len() - head.len() + 1) as u64;
            first_at_or_after(x, start, end, after, finder, room, src)
        }
    }
}

// The same where they stand at no place before `after`. A leaf is searched where it lies, as far as it goes on for
// their length, and else a window of some times that length: so it takes linear time, whatever the parts are. The first
// window is small, since bytes are often found near. It stands apart, so that a search which ends in its first leaf
// keeps no path.
#[inline(never)]
fn first_at_or_after<S: Source>(
    x: &Cord,
    start: u64,
    end: u64,
    after: u64,
    finder: &Finder,
    room: &mut [u8],
    src: &mut S,
) -> Result<Option<u64>, ReadFault>
    requires some { 0 < length finder.now }
    requires room { length finder.now ≤ length room.old }
    requires low { start ≤ after }
    requires inside { start < text_len x.now }
    requires end { end ≤ text_len x.now }
    requires none { Shows ⟦<S as Source>⟧ src.old src.old (λ t. StandsNot t x.now finder.now start after) }
    requires fits { CordFitsIn (S.lengths src.old) x.now }
    ensures { FindsBytesIn ⟦<S as Source>⟧ src.old src.new x.now start end finder.now result }
{
    let head = finder.needle();
    let mut place = after;
    let mut position = Position::set(x, start);
    let mut least = PIECE_LEN;
    while lies_inside(place, head.len() as u64, end) {
        let span = span_from(&mut position, place);
        let skipped = misfits(span, head);
        if 0 < skipped {
            place += skipped;
            continue;
        }
        let window = window_at(
            &mut position,
            place,
            end,
            span,
            head.len(),
            least,
            room,
            src,
        )?;
        match finder.find(window) {
            Some(found) => return Ok(Some(place + found as u64)),
            None => place += (window.len() - head.len() + 1) as u64,
        }
        least = ROOM_LEN;
    }
    Ok(None)
}

// Whether a text stands in another at a place.
fn stands_at<S: Source>(x: &Cord, place: u64, s: &Cord, src: &mut S) -> Result<bool, ReadFault>
    requires text { IsReadable (S.lengths src.old) x.now }
    requires pattern { IsReadable (S.lengths src.old) s.now }
    requires inside { place + text_len s.now ≤ text_len x.now }
    ensures { IsRead ⟦<S as Source>⟧ src.old src.new result (λ t. IsStanding t x.now place s.now) }
{
    Ok(compare(x, place, s.len(), s, 0, s.len(), src)?.is_eq())
}
