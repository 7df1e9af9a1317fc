// Walks from a place to the beginning.
ghost use Rattle.std.specs.Prelude.{◌≡◌, ◌+◌, ◌<◌, take, reverse, is_err, IfOk, IfErr, OnErr};
ghost use Rattle.cord_io.specs.Device.{FileSystem, count_after};
ghost use Rattle.cord_io.specs.Frames.{LeavesSource};
ghost use Rattle.cord_core.specs.Cord.{text_len, bytes_of, CordFitsIn};
ghost use Rattle.cord_iter.specs.Walk.{walk, WalkedPrefix};

use crate::Visitor;
use cord_core::Cord;
use cord_io::{CordError, Source};
use cord_pos::Position;

/// Hands a visitor the bytes of a cord from place `i` down to 0, one after another by `byte`, until it stops, after
/// `CORD_riter4` of `cord.h`. The place is below the length, and each function part lies inside a source of `src`. True
/// exactly where the visitor stopped. Refused with `ReadFailed` where a read failed: then the visitor has walked over a
/// prefix of those bytes without a stop.
pub fn riter4<S: Source, V: Visitor>(
    cord: &Cord,
    i: u64,
    src: &mut S,
    visitor: &mut V,
) -> Result<bool, CordError>
    requires inside { i < text_len cord.now }
    requires fits { CordFitsIn (S.lengths src.old) cord.now }
    ensures walked { (file_system : FileSystem) → S.consistent src.new file_system →
        IfOk result (λ stopped. walk V.step (V.state visitor.old)
        (reverse (take (i + 1) (bytes_of (S.table src.old file_system) cord.now))) ≡ (V.state visitor.new, stopped)) }
    ensures prefix { (file_system : FileSystem) → S.consistent src.new file_system →
        OnErr result (WalkedPrefix V.step (V.state visitor.old) (V.state visitor.new)
        (reverse (take (i + 1) (bytes_of (S.table src.old file_system) cord.now)))) }
    ensures refused { IfErr result (λ e. e ≡ CordError.ReadFailed) }
    ensures count { S.failures src.new ≡ count_after (is_err result) (S.failures src.old) }
    ensures source { LeavesSource ⟦<S as Source>⟧ src.old src.new }
{
    let mut position = Position::set(cord, i);
    while position.is_valid() {
        let byte = position.fetch(src)?;
        if visitor.byte(byte) {
            return Ok(true);
        }
        position.prev();
    }
    Ok(false)
}

/// Hands a visitor the bytes of a cord from the last one down to the first one until it stops, as `riter4` from its
/// last place: the empty cord answers false without a call.
pub fn riter<S: Source, V: Visitor>(
    cord: &Cord,
    src: &mut S,
    visitor: &mut V,
) -> Result<bool, CordError>
    requires fits { CordFitsIn (S.lengths src.old) cord.now }
    ensures walked { (file_system : FileSystem) → S.consistent src.new file_system →
        IfOk result (λ stopped. walk V.step (V.state visitor.old)
        (reverse (bytes_of (S.table src.old file_system) cord.now)) ≡ (V.state visitor.new, stopped)) }
    ensures prefix { (file_system : FileSystem) → S.consistent src.new file_system →
        OnErr result (WalkedPrefix V.step (V.state visitor.old) (V.state visitor.new)
        (reverse (bytes_of (S.table src.old file_system) cord.now))) }
    ensures refused { IfErr result (λ e. e ≡ CordError.ReadFailed) }
    ensures count { S.failures src.new ≡ count_after (is_err result) (S.failures src.old) }
    ensures source { LeavesSource ⟦<S as Source>⟧ src.old src.new }
{
    let len = cord.len();
    if len == 0 {
        return Ok(false);
    }
    let stopped = riter4(cord, len - 1, src, visitor)?;
    Ok(stopped)
}
