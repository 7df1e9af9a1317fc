// The last place of a text in another.
ghost use Rattle.std.specs.Prelude.{◌≡◌, ◌+◌, ◌<◌, ◌≤◌, is_err, IfOk, IfErr, IfSome};
ghost use Rattle.cord_io.specs.Device.{FileSystem, count_after};
ghost use Rattle.cord_io.specs.Frames.{LeavesSource};
ghost use Rattle.cord_core.specs.Cord.{text_len, bytes_of, CordFitsIn};
ghost use Rattle.cord_search.specs.LastTexts.{last_text};
ghost use Rattle.cord_search.specs.inner.Pieces.{IsReadable};
ghost use Rattle.cord_search.specs.inner.Searches.{FindsLastText};

use crate::substring::first_place;
use cord_core::Cord;
use cord_io::{CordError, ReadFault, Source};

// At how many places, counted from the back, a text is looked for first.
const FIRST_WIDTH: u64 = 4_096;

/// The last place of `x` where `s` stands and ends at `end` or before, as `rchr` finds a byte. An empty `s` stands last
/// at `end`, or at the end of `x` where that is less. Each function part lies inside a source of `src`. Refused with
/// `ReadFailed` where a read failed.
///
/// It takes a time linear in the length of `s` and in how far the place lies before `end`, as far as `str` does.
pub fn rstr<S: Source>(x: &Cord, end: u64, s: &Cord, src: &mut S) -> Result<Option<u64>, CordError>
    requires fits { CordFitsIn (S.lengths src.old) x.now }
    requires pattern_fits { CordFitsIn (S.lengths src.old) s.now }
    ensures last { (file_system : FileSystem) → S.consistent src.new file_system → IfOk result (λ place.
        place ≡ last_text (bytes_of (S.table src.old file_system) x.now) end
        (bytes_of (S.table src.old file_system) s.now)) }
    ensures before { IfOk result (λ found. IfSome found (λ place. place + text_len s.now ≤ end)) }
    ensures within { IfOk result (λ found. IfSome found (λ place. place + text_len s.now ≤ text_len x.now)) }
    ensures refused { IfErr result (λ e. e ≡ CordError.ReadFailed) }
    ensures count { S.failures src.new ≡ count_after (is_err result) (S.failures src.old) }
    ensures source { LeavesSource ⟦<S as Source>⟧ src.old src.new }
{
    let count = s.len();
    let end = end.min(x.len());
    if end < count {
        return Ok(None);
    }
    if count == 0 {
        return Ok(Some(end));
    }
    Ok(last_place(x, end - count + 1, s, src)?)
}

// The last place below `limit` where a text stands that isn't empty. First the places before `limit` are searched, some
// of them and then twice as many each time, up to a place where it stands; and then, of those after it, the later half
// that is left each time. So each search is half as long as the one before, once the text was found.
fn last_place<S: Source>(
    x: &Cord,
    limit: u64,
    s: &Cord,
    src: &mut S,
) -> Result<Option<u64>, ReadFault>
    requires text { IsReadable (S.lengths src.old) x.now }
    requires pattern { IsReadable (S.lengths src.old) s.now }
    requires some { 0 < text_len s.now }
    requires inside { limit + text_len s.now ≤ text_len x.now + 1 }
    ensures { FindsLastText ⟦<S as Source>⟧ src.old src.new x.now limit s.now result }
{
    let count = s.len();
    let mut found = None;
    let (mut low, mut high) = (0, limit);
    let mut width = FIRST_WIDTH.max(count);
    while low < high {
        let middle = high - width.min(high - low);
        let Some(place) = first_place(x, middle, high - 1 + count, s, src)? else {
            high = middle;
            width = next_width(found, width, high - low);
            continue;
        };
        found = Some(place);
        low = place + 1;
        width = next_width(found, width, high - low);
    }
    Ok(found)
}

// How many places are searched next: twice as many as before, or half of those left where the text was found.
fn next_width(found: Option<u64>, width: u64, left: u64) -> u64
    requires { 0 < width }
    ensures { 0 < result }
{
    match found {
        Some(_) => left / 2 + 1,
        None => width.saturating_mul(2),
    }
}
