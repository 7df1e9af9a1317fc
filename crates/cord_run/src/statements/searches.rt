// The numbers that statements find in cords. Each checks its numbers in order, before it reads.
ghost use Rattle.std.specs.Prelude.{◌≡◌, ◌<◌, ◌≤◌, IfOk, IfSome, Ok, drop, is_err, pos, take, ⊤};
ghost use Rattle.cord_core.specs.Texts.{first, order};
ghost use Rattle.cord_io.specs.Frames.{LeavesSource};
ghost use Rattle.cord_meaning.specs.State as meant;
ghost use Rattle.cord_meaning.specs.Statements as statements;
ghost use Rattle.cord_run.specs.inner.{and_then, bytes_of, text_len, CordFitsIn, MAX_LEN, byte_place};
ghost use Rattle.cord_run.specs.inner.{count_after, Finds, HasReadForNumber, nearest, FileSystem};

use crate::checks::{as_byte, as_index};
use crate::stops::Stop;
use cord_core::Cord;
use cord_io::{CordError, Source};
use cord_meaning::FaultKind;

/// Which way a byte is looked for from a place.
#[derive(Clone, Copy)]
pub(crate) enum Direction {
    /// From the place on.
    Forward,
    /// From the place back.
    Backward,
}

/// The byte of a cord at a place.
pub(crate) fn fetched<R: Source>(cord: &Cord, index: i64, source: &mut R) -> Result<i64, Stop>
    requires fits { CordFitsIn (R.lengths source.old) cord.now }
    ensures found { (file_system : FileSystem) → R.consistent source.new file_system →
        Finds ⊤ (and_then (meant.as_index index) (λ i. and_then
        (statements.byte_of_text (bytes_of (R.table source.old file_system) cord.now) i) (λ b. Ok (pos b)))) result }
    ensures read { HasReadForNumber ⟦<R as Source>⟧ source.old source.new result }
{
    let index = checked_index(index)?;
    if cord.len() <= index {
        return Err(Stop::Fault(FaultKind::OutOfRange));
    }
    match cord_search::fetch(cord, index, source) {
        Ok(byte) => Ok(i64::from(byte)),
        Err(_) => Err(Stop::ReadFailed),
    }
}

/// The order of two cords: -1, 0 or 1.
pub(crate) fn compared<R: Source>(left: &Cord, right: &Cord, source: &mut R) -> Result<i64, Stop>
    requires left_fits { CordFitsIn (R.lengths source.old) left.now }
    requires right_fits { CordFitsIn (R.lengths source.old) right.now }
    ensures found { (file_system : FileSystem) → R.consistent source.new file_system →
        Finds ⊤ (Ok (order (bytes_of (R.table source.old file_system) left.now)
        (bytes_of (R.table source.old file_system) right.now))) result }
    ensures read { HasReadForNumber ⟦<R as Source>⟧ source.old source.new result }
{
    match cord_search::cmp(left, right, source) {
        Ok(sign) => Ok(i64::from(sign)),
        Err(_) => Err(Stop::ReadFailed),
    }
}

/// The order of at most `count` bytes of a cord from one place on and of another cord from another place on: -1, 0 or
/// 1.
pub(crate) fn ranges_compared<R: Source>(
    left: &Cord,
    left_start: i64,
    right: &Cord,
    right_start: i64,
    count: i64,
    source: &mut R,
) -> Result<i64, Stop>
    requires left_fits { CordFitsIn (R.lengths source.old) left.now }
    requires right_fits { CordFitsIn (R.lengths source.old) right.now }
    ensures found { (file_system : FileSystem) → R.consistent source.new file_system →
        Finds ⊤ (and_then (meant.as_index left_start) (λ i. and_then (meant.as_index right_start) (λ j.
        and_then (meant.as_index count) (λ k. Ok (order
        (take k (drop i (bytes_of (R.table source.old file_system) left.now)))
        (take k (drop j (bytes_of (R.table source.old file_system) right.now)))))))) result }
    ensures read { HasReadForNumber ⟦<R as Source>⟧ source.old source.new result }
{
    let left_index = checked_index(left_start)?;
    let right_index = checked_index(right_start)?;
    let most = checked_index(count)?;
    match cord_search::ncmp(left, left_index, right, right_index, most, source) {
        Ok(sign) => Ok(i64::from(sign)),
        Err(_) => Err(Stop::ReadFailed),
    }
}

/// The first place of a cord's text in another, from a place on, or -1.
pub(crate) fn text_found<R: Source>(
    cord: &Cord,
    start: i64,
    pattern: &Cord,
    source: &mut R,
) -> Result<i64, Stop>
    requires fits { CordFitsIn (R.lengths source.old) cord.now }
    requires pattern_fits { CordFitsIn (R.lengths source.old) pattern.now }
    ensures found { (file_system : FileSystem) → R.consistent source.new file_system →
        Finds ⊤ (and_then (meant.as_index start) (λ i. Ok (statements.place_number (first
        (bytes_of (R.table source.old file_system) cord.now) i
        (bytes_of (R.table source.old file_system) pattern.now))))) result }
    ensures read { HasReadForNumber ⟦<R as Source>⟧ source.old source.new result }
{
    let index = checked_index(start)?;
    let len = cord.len();
    match cord_search::str(cord, index, pattern, source) {
        Ok(place) => Ok(place_number(place, len)),
        Err(_) => Err(Stop::ReadFailed),
    }
}

/// The nearest place of a byte in a cord, from a place that has one and in a direction, or -1.
pub(crate) fn byte_found<R: Source>(
    cord: &Cord,
    start: i64,
    byte: i64,
    direction: Direction,
    source: &mut R,
) -> Result<i64, Stop>
    requires fits { CordFitsIn (R.lengths source.old) cord.now }
    ensures found { (file_system : FileSystem) → R.consistent source.new file_system →
        Finds ⊤ (byte_place direction (bytes_of (R.table source.old file_system) cord.now) start byte) result }
    ensures read { HasReadForNumber ⟦<R as Source>⟧ source.old source.new result }
{
    let index = checked_index(start)?;
    let wanted = checked_byte(byte)?;
    let len = cord.len();
    if len <= index {
        return Err(Stop::Fault(FaultKind::OutOfRange));
    }
    match nearest(cord, index, wanted, direction, source) {
        Ok(place) => Ok(place_number(place, len)),
        Err(_) => Err(Stop::ReadFailed),
    }
}

// The nearest place of a byte, from a place of the cord and in a direction.
fn nearest<R: Source>(
    cord: &Cord,
    index: u64,
    byte: u8,
    direction: Direction,
    source: &mut R,
) -> Result<Option<u64>, CordError>
    requires inside { index < text_len cord.now }
    requires fits { CordFitsIn (R.lengths source.old) cord.now }
    ensures nearest { (file_system : FileSystem) → R.consistent source.new file_system →
        IfOk result (λ place. place ≡ nearest direction (bytes_of
        (R.table source.old file_system) cord.now) index byte) }
    ensures count { R.failures source.new ≡ count_after (is_err result) (R.failures source.old) }
    ensures same { LeavesSource ⟦<R as Source>⟧ source.old source.new }
{
    match direction {
        Direction::Forward => cord_search::chr(cord, index, byte, source),
        Direction::Backward => cord_search::rchr(cord, index, byte, source),
    }
}

// A place in a text of this length as the number that a statement gives: -1 where there is none.
fn place_number(place: Option<u64>, len: u64) -> i64
    requires { len ≤ MAX_LEN }
    ensures { IfSome place (λ p. p ≤ len) → result ≡ statements.place_number place }
{
    match place {
        Some(place) => place.min(len) as i64,
        None => -1,
    }
}

// A number in the place of a byte.
fn checked_byte(value: i64) -> Result<u8, Stop>
    ensures { Finds ⊥ (meant.as_byte value) result }
{
    Ok(as_byte(value)?)
}

// A number in the place of an index or a count.
fn checked_index(value: i64) -> Result<u64, Stop>
    ensures { Finds ⊥ (meant.as_index value) result }
{
    Ok(as_index(value)?)
}
