// The byte at a place, and the places of a byte.
ghost use Rattle.std.specs.Prelude.{◌≡◌, ◌+◌, ◌<◌, ◌≤◌, [], ◌∷◌, Some, slice_get, is_err, IfOk, IfErr, IfSome};
ghost use Rattle.cord_io.specs.Device.{FileSystem, count_after};
ghost use Rattle.cord_io.specs.Frames.{LeavesSource};
ghost use Rattle.cord_core.specs.Cord.{text_len, bytes_of, CordFitsIn};
ghost use Rattle.cord_core.specs.Texts.{first, last};
ghost use Rattle.cord_search.specs.inner.Pieces.{HasNot};
ghost use Rattle.cord_search.specs.inner.Searches.{Shows, FindsByte, FindsLast};

use crate::PIECE_LEN;
use crate::pieces::{copy_prefix, first_piece, last_piece};
use crate::spans::{cord_span_at, cord_span_to, in_block, run_without, span_from, span_up_to};
use cord_core::Cord;
use cord_io::{CordError, ReadFault, Source};
use cord_pos::Position;
use memchr::{memchr, memrchr};

/// The byte of a cord at place `i`, after `CORD_fetch` of `cord.h`. The place is below the length, and each function
/// part lies inside a source of `src`. Refused with `ReadFailed` where a read failed.
pub fn fetch<S: Source>(x: &Cord, i: u64, src: &mut S) -> Result<u8, CordError>
    requires inside { i < text_len x.now }
    requires fits { CordFitsIn (S.lengths src.old) x.now }
    ensures byte { (file_system : FileSystem) → S.consistent src.new file_system →
        IfOk result (λ b. slice_get (bytes_of (S.table src.old file_system) x.now) i ≡ Some b) }
    ensures refused { IfErr result (λ e. e ≡ CordError.ReadFailed) }
    ensures count { S.failures src.new ≡ count_after (is_err result) (S.failures src.old) }
    ensures source { LeavesSource ⟦<S as Source>⟧ src.old src.new }
{
    let mut byte = [0];
    copy_prefix(cord_span_at(x, i), &mut byte, src)?;
    Ok(byte[0])
}

/// The first place of the byte `c` at `i` or later, after `CORD_chr` of `cord.h`. The place `i` is below the length,
/// and each function part lies inside a source of `src`. A place that is found lies inside `x`, whatever `src` answers.
/// Refused with `ReadFailed` where a read failed.
pub fn chr<S: Source>(x: &Cord, i: u64, c: u8, src: &mut S) -> Result<Option<u64>, CordError>
    requires inside { i < text_len x.now }
    requires fits { CordFitsIn (S.lengths src.old) x.now }
    ensures first { (file_system : FileSystem) → S.consistent src.new file_system →
        IfOk result (λ place. place ≡ first (bytes_of (S.table src.old file_system) x.now) i (c ∷ [])) }
    ensures from { IfOk result (λ found. IfSome found (λ place. i ≤ place)) }
    ensures within { IfOk result (λ found. IfSome found (λ place. place < text_len x.now)) }
    ensures refused { IfErr result (λ e. e ≡ CordError.ReadFailed) }
    ensures count { S.failures src.new ≡ count_after (is_err result) (S.failures src.old) }
    ensures source { LeavesSource ⟦<S as Source>⟧ src.old src.new }
{
    Ok(first_byte(x, i, c, src)?)
}

/// The last place of the byte `c` at `i` or earlier, after `CORD_rchr` of `cord.h`. The place `i` is below the
/// length, and each function part lies inside a source of `src`. A place that is found lies inside `x`, whatever `src`
/// answers. Refused with `ReadFailed` where a read failed.
pub fn rchr<S: Source>(x: &Cord, i: u64, c: u8, src: &mut S) -> Result<Option<u64>, CordError>
    requires inside { i < text_len x.now }
    requires fits { CordFitsIn (S.lengths src.old) x.now }
    ensures last { (file_system : FileSystem) → S.consistent src.new file_system →
        IfOk result (λ place. place ≡ last (bytes_of (S.table src.old file_system) x.now) i c) }
    ensures up_to { IfOk result (λ found. IfSome found (λ place. place ≤ i)) }
    ensures within { IfOk result (λ found. IfSome found (λ place. place < text_len x.now)) }
    ensures refused { IfErr result (λ e. e ≡ CordError.ReadFailed) }
    ensures count { S.failures src.new ≡ count_after (is_err result) (S.failures src.old) }
    ensures source { LeavesSource ⟦<S as Source>⟧ src.old src.new }
{
    Ok(last_byte(x, i, c, src)?)
}

// The first place of a byte, from a place on: in the first bytes from there, or after them.
fn first_byte<S: Source>(
    x: &Cord,
    from: u64,
    byte: u8,
    src: &mut S,
) -> Result<Option<u64>, ReadFault>
    requires inside { from < text_len x.now }
    requires fits { CordFitsIn (S.lengths src.old) x.now }
    ensures { FindsByte ⟦<S as Source>⟧ src.old src.new x.now from byte result }
{
    let mut buffer = [0; PIECE_LEN];
    let len = x.len();
    let span = in_block(cord_span_at(x, from));
    let piece = first_piece(span, &mut buffer, src)?;
    match memchr(byte, piece) {
        Some(found) => Ok(Some(from + found as u64)),
        None => {
            let after = from + piece.len() as u64;
            if after < len {
                return first_after(x, from, after, byte, src);
            }
            Ok(None)
        }
    }
}

// The same where the byte stands nowhere before `after`: from there on part by part. It stands apart, so that a
// search which ends in its first bytes keeps no path.
#[inline(never)]
fn first_after<S: Source>(
    x: &Cord,
    from: u64,
    after: u64,
    byte: u8,
    src: &mut S,
) -> Result<Option<u64>, ReadFault>
    requires low { from ≤ after }
    requires start { from < text_len x.now }
    requires inside { after ≤ text_len x.now }
    requires none { Shows ⟦<S as Source>⟧ src.old src.old (λ t. HasNot t x.now byte from after) }
    requires fits { CordFitsIn (S.lengths src.old) x.now }
    ensures { FindsByte ⟦<S as Source>⟧ src.old src.new x.now from byte result }
{
    let mut buffer = [0; PIECE_LEN];
    let len = x.len();
    let mut place = after;
    let mut position = Position::set(x, from);
    while place < len {
        let span = span_from(&mut position, place);
        if let Some(count) = run_without(span, byte) {
            place += count;
            continue;
        }
        let block = in_block(span);
        let piece = first_piece(block, &mut buffer, src)?;
        match memchr(byte, piece) {
            Some(found) => return Ok(Some(place + found as u64)),
            None => place += piece.len() as u64,
        }
    }
    Ok(None)
}

// The last place of a byte, at a place or earlier: in the last bytes up to there, or before them.
fn last_byte<S: Source>(x: &Cord, at: u64, byte: u8, src: &mut S) -> Result<Option<u64>, ReadFault>
    requires inside { at < text_len x.now }
    requires fits { CordFitsIn (S.lengths src.old) x.now }
    ensures { FindsLast ⟦<S as Source>⟧ src.old src.new x.now at byte result }
{
    let mut buffer = [0; PIECE_LEN];
    let span = cord_span_to(x, at);
    let piece = last_piece(span, &mut buffer, src)?;
    let start = at - (piece.len() as u64 - 1);
    match memrchr(byte, piece) {
        Some(found) => Ok(Some(start + found as u64)),
        None => {
            if start == 0 {
                return Ok(None);
            }
            last_before(x, at, start, byte, src)
        }
    }
}

// The same where the byte stands nowhere from `before` on: before that part by part.
#[inline(never)]
fn last_before<S: Source>(
    x: &Cord,
    at: u64,
    before: u64,
    byte: u8,
    src: &mut S,
) -> Result<Option<u64>, ReadFault>
    requires inside { at < text_len x.now }
    requires high { before ≤ at + 1 }
    requires none { Shows ⟦<S as Source>⟧ src.old src.old (λ t. HasNot t x.now byte before (at + 1)) }
    requires fits { CordFitsIn (S.lengths src.old) x.now }
    ensures { FindsLast ⟦<S as Source>⟧ src.old src.new x.now at byte result }
{
    let mut buffer = [0; PIECE_LEN];
    let mut end = before;
    let mut position = Position::set(x, at);
    while 0 < end {
        let span = span_up_to(&mut position, end);
        if let Some(count) = run_without(span, byte) {
            end -= count;
            continue;
        }
        let piece = last_piece(span, &mut buffer, src)?;
        let start = end - piece.len() as u64;
        match memrchr(byte, piece) {
            Some(found) => return Ok(Some(start + found as u64)),
            None => end = start,
        }
    }
    Ok(None)
}
