//! Nodes: parts, joins, ranges, and the balance of several.
ghost use Rattle.std.specs.Prelude.{◌≡◌, ◌<◌, ◌≤◌, length, IfOk};
ghost use Rattle.cord_node.specs.Tree.{len_of, IsSound};

use super::super::cases::expect_equal;
use super::super::trees::{Shape, is_node, shared_of, spells};
use cord_balance::balance_parts;
use cord_core::Node;
use cord_io::{MAX_LEN, SourceId};
use cord_node::{func, join, leaf, run, sub_node};
use std::alloc::{AllocError, Global};
use std::process::Abort;
use std::rc::{Rc, RcSlice};

// The node that one of two equal calls made: at most one of them was refused memory.
fn made(
    rt: &impl Abort,
    first: Result<Rc<Node>, AllocError>,
    second: Result<Rc<Node>, AllocError>,
) -> Rc<Node>
    requires first_sound { IfOk first (λ node. IsSound node.value) }
    requires second_sound { IfOk second (λ node. IsSound node.value) }
    ensures { IsSound result.value }
{
    match first {
        Ok(node) => node,
        Err(_) => second.expect(rt, "memory"),
    }
}

// A leaf of a slice, which is shared on.
fn leaf_over(rt: &impl Abort, alloc: Global, shared: &RcSlice<u8>) -> Result<Rc<Node>, AllocError>
    ensures { IfOk result (λ node. IsSound node.value) }
{
    let bytes = again!(rt, shared.clone());
    assert!(rt; bytes.len() > 0 && bytes.len() <= 1_000);
    leaf(alloc, bytes)
}

/// A node by itself.
#[derive(Drop)]
pub enum Piece {
    Leaf(&'static [u8]),
    // So many times a byte, at least once.
    Run(u8, u64),
    // Of a function, from a place on, so many bytes, at least one.
    Func(u32, u64, u64),
}

use Piece::{Func, Leaf, Run};

// A leaf of these bytes, 1 to 1,000.
pub fn leaf_of(rt: &impl Abort, alloc: Global, bytes: &[u8]) -> Rc<Node>
    ensures sound { IsSound result.value }
    ensures short { len_of result.value ≤ 1000 }
{
    let shared = shared_of(rt, alloc, bytes);
    let first = leaf_over(rt, alloc, &shared);
    expect_equal(rt, shared.as_slice(), bytes);
    let node = made(rt, first, leaf_over(rt, alloc, &shared));
    assert!(rt; node.len() <= 1_000);
    node
}

/// A node of a piece.
pub fn node_of(rt: &impl Abort, alloc: Global, piece: &Piece) -> Rc<Node>
    ensures { IsSound result.value }
{
    match piece {
        Leaf(bytes) => leaf_of(rt, alloc, bytes),
        Run(byte, len) => {
            assert!(rt; *len > 0 && *len <= MAX_LEN);
            let first = run(alloc, *byte, *len);
            made(rt, first, run(alloc, *byte, *len))
        }
        Func(id, start, len) => {
            assert!(rt; *start <= 1_000 && *len > 0 && *len <= 1_000);
            let first = func(alloc, SourceId(*id), *start, *len);
            made(rt, first, func(alloc, SourceId(*id), *start, *len))
        }
    }
}

// Two nodes, one after the other, both shallow, where a cord can be so long.
pub fn joined(
    rt: &impl Abort,
    alloc: Global,
    left: &Rc<Node>,
    right: &Rc<Node>,
) -> Result<Rc<Node>, AllocError>
    requires left_sound { IsSound left.now.value }
    requires right_sound { IsSound right.now.value }
    ensures { IfOk result (λ node. IsSound node.value) }
{
    assert!(rt; left.len() <= MAX_LEN && right.len() <= MAX_LEN - left.len());
    assert!(rt; left.depth() <= 10 && right.depth() <= 10);
    join(alloc, left, right)
}

// So many bytes of a node from a place on, at least one, where it is so long.
pub fn range_of(
    rt: &impl Abort,
    alloc: Global,
    node: &Rc<Node>,
    from: u64,
    count: u64,
) -> Result<Rc<Node>, AllocError>
    requires { IsSound node.now.value }
    ensures { IfOk result (λ node. IsSound node.value) }
{
    assert!(rt; count > 0 && from <= node.len() && count <= node.len() - from);
    sub_node(alloc, node, from, count)
}

// That a node has this text.
fn expect_node(rt: &impl Abort, node: &Rc<Node>, text: &[u8])
    requires { IsSound node.now.value }
{
    assert!(rt; spells(node, text), "the text is not {text:?}");
}

// Pieces, and what each is by itself.
const PIECES: &[(Piece, Shape)] = &[
    (Leaf(b"ab"), Shape::Leaf(b"ab", 0, 2)),
    (Run(b'a', 3), Shape::Run(b'a', 3)),
    (Func(0, 8, 3), Shape::Func(0, 8, 3)),
];

#[test]
fn refused_leaf_run_and_func(rt: HostRuntime) {
    for (piece, shape) in PIECES {
        let node = node_of(&rt, rt.alloc(), piece);
        assert!(rt; is_node(&node, shape) && node.depth() == 0);
    }
}

// The join of two pieces, and its text.
fn join_of(rt: &impl Abort, alloc: Global, left: &Piece, right: &Piece, text: &[u8]) -> Rc<Node>
    ensures { IsSound result.value }
{
    let left = node_of(rt, alloc, left);
    let right = node_of(rt, alloc, right);
    let first = joined(rt, alloc, &left, &right);
    let Some((before, after)) = text.split_at_checked(left.len() as usize) else {
        panic!(rt; "too short");
    };
    expect_node(rt, &left, before);
    expect_node(rt, &right, after);
    let node = made(rt, first, joined(rt, alloc, &left, &right));
    expect_node(rt, &node, text);
    node
}

// Two pieces, the text and the depth of their join, and where a range of it begins, its text and its depth.
type Case = (Piece, Piece, &'static [u8], u32, u64, &'static [u8], u32);

// In the last one the two ends become one leaf.
const JOINS: &[Case] = &[
    (Leaf(b"ab"), Leaf(b"cd"), b"abcd", 0, 1, b"bc", 0),
    (Run(0, 1), Leaf(b"ab"), b"\0ab", 1, 1, b"ab", 0),
    (
        Leaf(b"abcdefgh"),
        Run(b'.', 3),
        b"abcdefgh...",
        1,
        6,
        b"gh..",
        1,
    ),
    (
        Leaf(b"aaaaaaaaaabbbbbbbbbbccccccccccdddddddddd"),
        Leaf(b"eeeeeeeeeeffffffffffgggggggggghhhhhhhhhh"),
        b"aaaaaaaaaabbbbbbbbbbccccccccccddddddddddeeeeeeeeeeffffffffffgggggggggghhhhhhhhhh",
        1,
        38,
        b"ddee",
        0,
    ),
];

#[test]
fn refused_joins_and_ranges(rt: HostRuntime) {
    let alloc = rt.alloc();
    for (left, right, text, depth, from, part, part_depth) in JOINS {
        let node = join_of(&rt, alloc, left, right, text);
        assert!(rt; node.len() == text.len() as u64 && node.depth() == *depth);
        let count = part.len() as u64;
        let first = range_of(&rt, alloc, &node, *from, count);
        expect_node(&rt, &node, text);
        let range = made(&rt, first, range_of(&rt, alloc, &node, *from, count));
        expect_node(&rt, &range, part);
        assert!(rt; range.depth() == *part_depth);
    }
}

// Three texts of a hundred bytes, one after the other.
const THREE: &[u8] = b"\
    aaaaaaaaaaaaaaaaaaaaaaaaaaaaaaaaaaaaaaaaaaaaaaaaaaaaaaaaaaaaaaaaaaaaaaaaaaaaaaaaaaaaaaaaaaaaaaaaaaaa\
    bbbbbbbbbbbbbbbbbbbbbbbbbbbbbbbbbbbbbbbbbbbbbbbbbbbbbbbbbbbbbbbbbbbbbbbbbbbbbbbbbbbbbbbbbbbbbbbbbbbb\
    cccccccccccccccccccccccccccccccccccccccccccccccccccccccccccccccccccccccccccccccccccccccccccccccccccc";

#[test]
fn refused_balance_parts(rt: HostRuntime) {
    let alloc = rt.alloc();
    let ropes = [
        leaf_of(&rt, alloc, &[b'a'; 100]),
        leaf_of(&rt, alloc, &[b'b'; 100]),
        leaf_of(&rt, alloc, &[b'c'; 100]),
    ];
    let first = balance_parts(alloc, &ropes);
    expect_node(&rt, &ropes[0], &[b'a'; 100]);
    expect_node(&rt, &ropes[1], &[b'b'; 100]);
    expect_node(&rt, &ropes[2], &[b'c'; 100]);
    let node = made(&rt, first, balance_parts(alloc, &ropes));
    expect_node(&rt, &node, THREE);
    assert!(rt; node.len() == 300 && node.depth() <= 13);
}
