// Output of cords.
ghost use Rattle.std.specs.Prelude.{◌≡◌, ◌+◌, ◌<◌, ◌≤◌, ◌++◌, OnOk, OnErr, length, take, drop};
ghost use Rattle.cord_io.specs.Device.{FileSystem};
ghost use Rattle.cord_io.specs.Frames.{LeavesSource};
ghost use Rattle.cord_io.specs.Table.{length_at};
ghost use Rattle.cord_node.specs.Tree.{len_of, IsSound};
ghost use Rattle.cord_node.specs.Tables.{bytes_over, FitsIn};
ghost use Rattle.cord_core.specs.Cord.{text_len, bytes_of, CordFitsIn};
ghost use Rattle.cord_iter.specs.Output.{IsPrefixOf, Takes, CountsFaults, failures_of};
ghost use Rattle.cord_iter.specs.inner.Output.{Puts};

use crate::pieces::{piece_len, put_all, put_run};
use crate::{BLOCK_LEN, PAGE_LEN, PIECE_LEN};
use cord_core::{Cord, Node};
use cord_io::{CordError, MAX_LEN, Sink, Source, SourceId};

/// Hands a sink the text of a cord over a source, after `CORD_put` of `cord.h`: each leaf's slice is offered whole,
/// after a short `put` the rest, a run in pieces of at most 512 bytes, a function part of more than 512 bytes in pieces
/// of at most 4,096, and either by 131,072 bytes where it is that long, a function part after its first 512. Refused
/// with `ReadFailed` where a read failed and with `WriteFailed` where a `put` failed: then the sink has taken a prefix
/// of the text. The text is that over the table of each file system that is consistent with `src` after the call, and
/// as many bytes are taken whatever it answers. It doesn't finish the sink.
///
/// Each function part lies inside a source of `src`: so it is with every cord over no files, with those that `src` made
/// where it is a `Sources`, and with what `cat`, `substr` and the others make of them.
///
/// ```rust put_line
/// use cord_core::Cord;
/// use cord_io::{CordError, Sink, Source};
/// use cord_iter::put;
/// use std::alloc::Global;
///
/// /// Writes a text and the end of a line, and nothing after it.
/// pub fn put_line<S: Source, W: Sink>(
///     alloc: Global,
///     text: &Cord,
///     src: &mut S,
///     sink: &mut W,
/// ) -> Result<(), CordError> {
///     let line = Cord::cat_char(alloc, text, b'\n')?;
///     put(&line, src, sink)?;
///     sink.finish()?;
///     Ok(())
/// }
/// ```
pub fn put<S: Source, W: Sink>(cord: &Cord, src: &mut S, sink: &mut W) -> Result<(), CordError>
    requires fits { CordFitsIn (S.lengths src.old) cord.now }
    ensures text { (file_system : FileSystem) → S.consistent src.new file_system →
        OnOk result (W.taken sink.new ≡ W.taken sink.old ++ bytes_of (S.table src.old file_system) cord.now) }
    ensures prefix { (file_system : FileSystem) → S.consistent src.new file_system →
        OnErr result (Takes (IsPrefixOf (bytes_of (S.table src.old file_system) cord.now)) (W.taken sink.old)
        (W.taken sink.new)) }
    ensures len { OnOk result (Takes (λ out. length out ≡ text_len cord.now) (W.taken sink.old) (W.taken sink.new)) }
    ensures most { OnErr result (Takes (λ out. length out ≤ text_len cord.now) (W.taken sink.old) (W.taken sink.new)) }
    ensures faults { CountsFaults (failures_of ⟦<S as Source>⟧ ⟦<W as Sink>⟧ src.old sink.old)
        (failures_of ⟦<S as Source>⟧ ⟦<W as Sink>⟧ src.new sink.new) result }
    ensures source { LeavesSource ⟦<S as Source>⟧ src.old src.new }
    ensures finished { W.finished sink.new ≡ W.finished sink.old }
{
    match cord.root() {
        Some(root) => put_node(root.as_ref(), src, sink),
        None => Ok(()),
    }
}

// Hands a sink the text of a node.
fn put_node<S: Source, W: Sink>(node: &Node, src: &mut S, sink: &mut W) -> Result<(), CordError>
    requires sound { IsSound node.now }
    requires fits { FitsIn (S.lengths src.old) node.now }
    ensures { Puts ⟦<S as Source>⟧ ⟦<W as Sink>⟧ (len_of node.now) (λ t. bytes_over t node.now) src.old src.new
        sink.old sink.new result }
{
    match node {
        Node::Leaf {
            bytes,
            start,
            len,
            ..
        } => {
            let slice = &bytes.as_slice()[*start as usize..(*start + *len) as usize];
            Ok(put_all(slice, sink)?)
        }
        Node::Run { byte, len } => Ok(put_run(*byte, *len, sink)?),
        Node::Func { id, start, len } => put_func(*id, *start, *len, src, sink),
        Node::Cat { left, right, .. } => {
            put_node(left.as_ref(), src, sink)?;
            put_node(right.as_ref(), src, sink)
        }
    }
}

// Hands a sink a range of a source: a long one in blocks, so that a sink with a buffer need not keep them.
fn put_func<S: Source, W: Sink>(
    id: SourceId,
    start: u64,
    len: u64,
    src: &mut S,
    sink: &mut W,
) -> Result<(), CordError>
    requires fits { start + len ≤ length_at (S.lengths src.old) id.0 }
    requires limit { start + len ≤ MAX_LEN }
    ensures { Puts ⟦<S as Source>⟧ ⟦<W as Sink>⟧ len (λ t. take len (drop start (t id.0))) src.old src.new
        sink.old sink.new result }
{
    if len <= PIECE_LEN as u64 {
        put_range::<PIECE_LEN, S, W>(id, start, len, src, sink)
    } else if len < BLOCK_LEN as u64 {
        put_range::<PAGE_LEN, S, W>(id, start, len, src, sink)
    } else {
        put_range::<BLOCK_LEN, S, W>(id, start, len, src, sink)
    }
}

// Hands a sink a range of a source, at most `N` bytes at once. It stands apart, so that only who calls it has room for
// them on the stack.
#[inline(never)]
fn put_range<const N: usize, S: Source, W: Sink>(
    id: SourceId,
    start: u64,
    len: u64,
    src: &mut S,
    sink: &mut W,
) -> Result<(), CordError>
    requires some { 0 < N }
    requires few { N ≤ BLOCK_LEN }
    requires fits { start + len ≤ length_at (S.lengths src.old) id.0 }
    requires limit { start + len ≤ MAX_LEN }
    ensures { Puts ⟦<S as Source>⟧ ⟦<W as Sink>⟧ len (λ t. take len (drop start (t id.0))) src.old src.new
        sink.old sink.new result }
{
    let mut buffer = [0; N];
    let mut done = 0;
    while done < len {
        let count = piece_len(len - done, most_of(start, done, N));
        put_piece(id, start + done, &mut buffer[..count], src, sink)?;
        done += count as u64;
    }
    Ok(())
}

// How many bytes the next of these pieces has at most, in a range from `start` on. The first one of a long range is
// short: it goes out before more are asked for, so that a device which fails after it has given it. It ends where a
// block of a file ends, so that those after it are whole blocks, which are read where they are put from.
fn most_of(start: u64, done: u64, most: usize) -> usize
    requires { 0 < most }
    ensures some { 0 < result }
    ensures inside { result ≤ most }
{
    if done == 0 && most == BLOCK_LEN {
        PIECE_LEN - (start % PIECE_LEN as u64) as usize
    } else {
        most
    }
}

// Hands a sink a range of a source that is one piece, which is read into a slice of its length.
fn put_piece<S: Source, W: Sink>(
    id: SourceId,
    start: u64,
    piece: &mut [u8],
    src: &mut S,
    sink: &mut W,
) -> Result<(), CordError>
    requires some { 0 < length piece.old }
    requires fits { start + length piece.old ≤ length_at (S.lengths src.old) id.0 }
    ensures { Puts ⟦<S as Source>⟧ ⟦<W as Sink>⟧ (length piece.old) (λ t. take (length piece.old) (drop start (t id.0)))
        src.old src.new sink.old sink.new result }
{
    src.read(id, start, piece)?;
    put_all(piece, sink)?;
    Ok(())
}
