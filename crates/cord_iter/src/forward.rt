// Walks from a place to the end.
ghost use Rattle.std.specs.Prelude.{◌≡◌, ◌+◌, ◌<◌, ◌≤◌, length, take, drop, replicate, is_err, IfOk, IfErr};
ghost use Rattle.std.specs.Prelude.{OnErr};
ghost use Rattle.cord_io.specs.Device.{FileSystem, count_after};
ghost use Rattle.cord_io.specs.Frames.{LeavesSource};
ghost use Rattle.cord_io.specs.Table.{length_at};
ghost use Rattle.cord_node.specs.Tree.{len_of, IsSound};
ghost use Rattle.cord_node.specs.Tables.{bytes_over, FitsIn};
ghost use Rattle.cord_core.specs.Cord.{text_len, bytes_of, CordFitsIn};
ghost use Rattle.cord_iter.specs.Walk.{walk, WalkedPrefix};
ghost use Rattle.cord_iter.specs.inner.Walk.{Walks};

use crate::pieces::piece_len;
use crate::{PIECE_LEN, Visitor};
use cord_core::{Cord, Node};
use cord_io::{CordError, MAX_LEN, ReadFault, Source, SourceId};

/// Hands a visitor the bytes of a cord from place `i` on until it stops, after `CORD_iter5` of `cord.h`: whole slices
/// of leaves, and runs and function parts in pieces of at most 512 bytes. The place is below the length, and each
/// function part lies inside a source of `src`. True exactly where the visitor stopped. Refused with `ReadFailed` where
/// a read failed: then the visitor has walked over a prefix of those bytes without a stop.
pub fn iter5<S: Source, V: Visitor>(
    cord: &Cord,
    i: u64,
    src: &mut S,
    visitor: &mut V,
) -> Result<bool, CordError>
    requires inside { i < text_len cord.now }
    requires fits { CordFitsIn (S.lengths src.old) cord.now }
    ensures walked { (file_system : FileSystem) → S.consistent src.new file_system →
        IfOk result (λ stopped. walk V.step (V.state visitor.old)
        (drop i (bytes_of (S.table src.old file_system) cord.now))
        ≡ (V.state visitor.new, stopped)) }
    ensures prefix { (file_system : FileSystem) → S.consistent src.new file_system →
        OnErr result (WalkedPrefix V.step (V.state visitor.old) (V.state visitor.new)
        (drop i (bytes_of (S.table src.old file_system) cord.now))) }
    ensures refused { IfErr result (λ e. e ≡ CordError.ReadFailed) }
    ensures count { S.failures src.new ≡ count_after (is_err result) (S.failures src.old) }
    ensures source { LeavesSource ⟦<S as Source>⟧ src.old src.new }
{
    let Some(root) = cord.root() else {
        unreachable!()
    };
    Ok(walk_node(root.as_ref(), i, src, visitor)?)
}

/// Hands a visitor the bytes of a cord until it stops, as `iter5` from place 0 on: the empty cord answers false without
/// a call.
pub fn iter<S: Source, V: Visitor>(
    cord: &Cord,
    src: &mut S,
    visitor: &mut V,
) -> Result<bool, CordError>
    requires fits { CordFitsIn (S.lengths src.old) cord.now }
    ensures walked { (file_system : FileSystem) → S.consistent src.new file_system →
        IfOk result (λ stopped. walk V.step (V.state visitor.old) (bytes_of (S.table src.old file_system) cord.now)
        ≡ (V.state visitor.new, stopped)) }
    ensures prefix { (file_system : FileSystem) → S.consistent src.new file_system →
        OnErr result (WalkedPrefix V.step (V.state visitor.old) (V.state visitor.new)
        (bytes_of (S.table src.old file_system) cord.now)) }
    ensures refused { IfErr result (λ e. e ≡ CordError.ReadFailed) }
    ensures count { S.failures src.new ≡ count_after (is_err result) (S.failures src.old) }
    ensures source { LeavesSource ⟦<S as Source>⟧ src.old src.new }
{
    let Some(root) = cord.root() else {
        return Ok(false);
    };
    Ok(walk_node(root.as_ref(), 0, src, visitor)?)
}

// Walks over the text of a node from a place on.
fn walk_node<S: Source, V: Visitor>(
    node: &Node,
    from: u64,
    src: &mut S,
    visitor: &mut V,
) -> Result<bool, ReadFault>
    requires sound { IsSound node.now }
    requires inside { from ≤ len_of node.now }
    requires fits { FitsIn (S.lengths src.old) node.now }
    ensures { Walks ⟦<S as Source>⟧ V.step (λ t. drop from (bytes_over t node.now)) src.old src.new
        (V.state visitor.old) (V.state visitor.new) result }
{
    match node {
        Node::Leaf {
            bytes,
            start,
            len,
            ..
        } => {
            let slice = &bytes.as_slice()[(*start + from) as usize..(*start + *len) as usize];
            Ok(visitor.bytes(slice))
        }
        Node::Run { byte, len } => Ok(walk_run(*byte, *len - from, visitor)),
        Node::Func { id, start, len } => walk_func(*id, *start + from, *len - from, src, visitor),
        Node::Cat { left, right, .. } => {
            let seam = left.len();
            if seam <= from {
                walk_node(right.as_ref(), from - seam, src, visitor)
            } else if walk_node(left.as_ref(), from, src, visitor)? {
                Ok(true)
            } else {
                walk_node(right.as_ref(), 0, src, visitor)
            }
        }
    }
}

// Walks over `len` times the byte, in pieces.
fn walk_run<V: Visitor>(byte: u8, len: u64, visitor: &mut V) -> bool
    ensures { walk V.step (V.state visitor.old) (replicate len byte) ≡ (V.state visitor.new, result) }
{
    let buffer = [byte; PIECE_LEN];
    let mut done = 0;
    while done < len {
        let count = piece_len(len - done, PIECE_LEN);
        if visitor.bytes(&buffer[..count]) {
            return true;
        }
        done += count as u64;
    }
    false
}

// Walks over a range of a source, in pieces.
fn walk_func<S: Source, V: Visitor>(
    id: SourceId,
    start: u64,
    len: u64,
    src: &mut S,
    visitor: &mut V,
) -> Result<bool, ReadFault>
    requires fits { start + len ≤ length_at (S.lengths src.old) id.0 }
    requires limit { start + len ≤ MAX_LEN }
    ensures { Walks ⟦<S as Source>⟧ V.step (λ t. take len (drop start (t id.0))) src.old src.new
        (V.state visitor.old) (V.state visitor.new) result }
{
    let mut done = 0;
    while done < len {
        let count = piece_len(len - done, PIECE_LEN);
        if walk_piece(id, start + done, count, src, visitor)? {
            return Ok(true);
        }
        done += count as u64;
    }
    Ok(false)
}

// Walks over a range of a source that is one piece: where it can't be read the visitor stays.
fn walk_piece<S: Source, V: Visitor>(
    id: SourceId,
    start: u64,
    count: usize,
    src: &mut S,
    visitor: &mut V,
) -> Result<bool, ReadFault>
    requires some { 0 < count }
    requires piece { count ≤ PIECE_LEN }
    requires fits { start + count ≤ length_at (S.lengths src.old) id.0 }
    ensures { Walks ⟦<S as Source>⟧ V.step (λ t. take count (drop start (t id.0))) src.old src.new
        (V.state visitor.old) (V.state visitor.new) result }
{
    let mut buffer = [0; PIECE_LEN];
    let piece = &mut buffer[..count];
    src.read(id, start, piece)?;
    Ok(visitor.bytes(piece))
}
