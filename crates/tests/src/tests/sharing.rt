// No call copies a leaf of more than 64 bytes: what it makes of cords and nodes holds the very bytes of their leaves.
use super::calls::{Call, Growth, after};
use super::cases::expect_case;
use super::made::{Part, Parts};
use super::nodes::followed;
use super::refused::nodes::{Piece, range_of};
use super::trees::{joined, part_of, pattern, share_of, shared_of, splice};
use Growth::{Byte, It, ToCord};
use cord_balance::balance_parts;
use cord_core::Cord;
use cord_node::{Node, leaf};
use std::alloc::Global;
use std::process::Abort;
use std::rc::{Rc, RcSlice};

// The lengths of the leaves: the least that isn't copied, what the buffer of an extensible cord holds after a byte and
// without one, and a long one.
const LENGTHS: &[u64] = &[65, 4_095, 4_096, 1_000_000];

// Bytes, and a cord that is one leaf of them.
#[derive(Drop)]
struct Leaf {
    bytes: RcSlice<u8>,
    cord: Cord,
}

// A leaf of so many bytes.
fn leaf_of(rt: &impl Abort, alloc: Global, len: u64) -> Leaf {
    let text = pattern(rt, alloc, len as usize);
    let bytes = shared_of(rt, alloc, &text);
    let shared = bytes.clone().expect(rt, "no memory");
    let cord = Cord::from_shared(alloc, shared).expect(rt, "no memory");
    Leaf { bytes, cord }
}

// How many bytes of a node lie in a slice.
fn shared_in(node: &Rc<Node>, slice: &RcSlice<u8>) -> u64 {
    match node.as_ref() {
        Node::Leaf { bytes, len, .. } => if RcSlice::ptr_eq(bytes, slice) {
            *len
        } else {
            0
        },
        Node::Cat { left, right, .. } => shared_in(left, slice).saturating_add(shared_in(
            right, slice,
        )),
        _ => 0,
    }
}

// That so many bytes of a node are those of a leaf.
fn expect_in_node(rt: &impl Abort, name: &str, node: &Rc<Node>, leaf: &Leaf, count: u64) {
    expect_case(rt, shared_in(node, &leaf.bytes) == count, name, count);
}

// That so many bytes of a cord are those of a leaf.
fn expect_shared(rt: &impl Abort, name: &str, cord: &Cord, leaf: &Leaf, count: u64) {
    match cord.root() {
        None => expect_case(rt, count == 0, name, count),
        Some(node) => expect_in_node(rt, name, node, leaf, count),
    }
}

// Three points.
const POINTS: Parts = &[Part::Run(46, 3)];

// So many times the length of the leaf, and so many bytes more and less.
type Count = (u64, u64, u64);

// What is made of a cord that is one leaf, and how many bytes of it are those of the leaf.
const MADE: &[(&str, &[Call], Count)] = &[
    ("from_shared", &[], (1, 0, 0)),
    ("share", &[Call::Share], (1, 0, 0)),
    ("cat of two", &[Call::Twice], (2, 0, 0)),
    ("cat before", &[Call::CatTo(POINTS)], (1, 0, 0)),
    ("cat_char", &[Call::CatChar(46)], (1, 0, 0)),
    ("cat_bytes", &[Call::CatBytes(b"ab")], (1, 0, 0)),
    ("catn", &[Call::Cat(POINTS), Call::Catn(2)], (2, 0, 0)),
    ("catn of three", &[Call::Catn(3)], (3, 0, 0)),
    ("cat of forty", &[Call::Times(40)], (40, 0, 0)),
    ("balance", &[Call::Times(40), Call::Balance], (40, 0, 0)),
    ("substr of one", &[Call::Substr(32, 1)], (0, 1, 0)),
    ("substr of 64", &[Call::Substr(0, 64)], (0, 64, 0)),
    ("substr", &[Call::Between(1, 1)], (1, 0, 2)),
    (
        "substr over a seam",
        &[Call::Cat(POINTS), Call::FromEnd(12, 11)],
        (0, 9, 0),
    ),
    ("substr of all", &[Call::Between(0, 0)], (1, 0, 0)),
    (
        "substr, a whole leaf",
        &[Call::Cat(POINTS), Call::Between(0, 2)],
        (1, 0, 0),
    ),
    (
        "append_cord",
        &[Call::Grown(&[Byte(46), It, Byte(46), ToCord, It])],
        (2, 0, 0),
    ),
    ("to_cord", &[Call::Grown(&[It])], (1, 0, 0)),
    ("sprintf", &[Call::Printed(b"%s%r")], (2, 0, 0)),
    ("sprintf between", &[Call::Printed(b"a%sb%5sc")], (2, 0, 0)),
    (
        "sprintf of a part",
        &[Call::Printed(b"%.65s|%.65s")],
        (0, 130, 0),
    ),
];

// A cord of two leaves, and one with the second leaf in the place of five bytes of the first.
fn expect_two(rt: &impl Abort, alloc: Global, leaf: &Leaf, other: &Leaf, len: u64) {
    assert!(rt; len >= 65 && len <= 1_000_000);
    let both = joined(rt, alloc, &leaf.cord, &other.cord);
    let middle = part_of(rt, alloc, &both, 1, 2 * len - 2);
    expect_shared(rt, "substr, left", &middle, leaf, len - 1);
    expect_shared(rt, "substr, right", &middle, other, len - 1);
    let mut edited = share_of(rt, alloc, &leaf.cord);
    splice(rt, alloc, &mut edited, (10, 5), &other.cord);
    expect_shared(rt, "splice, around", &edited, leaf, len - 5);
    expect_shared(rt, "splice, inside", &edited, other, len);
    expect_shared(rt, "splice, before", &leaf.cord, leaf, len);
}

#[test]
fn cords_share_their_leaves(rt: HostRuntime) {
    for len in LENGTHS {
        let leaf = leaf_of(&rt, rt.alloc(), *len);
        let other = leaf_of(&rt, rt.alloc(), *len);
        for &(name, calls, (times, more, less)) in MADE {
            let cord = after(
                &rt,
                rt.alloc(),
                share_of(&rt, rt.alloc(), &leaf.cord),
                calls,
            );
            let whole = len.saturating_mul(times);
            let count = whole.saturating_add(more).saturating_sub(less);
            expect_shared(&rt, name, &cord, &leaf, count);
        }
        expect_two(&rt, rt.alloc(), &leaf, &other, *len);
    }
}

// What is made of nodes, the first of which is a leaf; the last is a node twice, balanced.

#[test]
fn nodes_share_their_leaves(rt: HostRuntime) {
    for len in LENGTHS {
        let alloc = rt.alloc();
        let of = leaf_of(&rt, alloc, *len);
        let bytes = of.bytes.clone().expect(&rt, "no memory");
        assert!(rt; *len >= 65 && bytes.len() as u64 == *len && *len <= 1_000_000);
        let node = leaf(alloc, bytes).expect(&rt, "no memory");
        let both = followed(&rt, alloc, &node, &Piece::Run(46, 3));
        expect_in_node(&rt, "join", &both, &of, *len);
        let part = range_of(&rt, alloc, &both, 1, 64).expect(&rt, "no memory");
        expect_in_node(&rt, "sub_node of 64", &part, &of, 64);
        let middle = range_of(&rt, alloc, &both, *len - 2, 4).expect(&rt, "no memory");
        expect_in_node(&rt, "sub_node over a seam", &middle, &of, 2);
        let more = both.clone().expect(&rt, "no memory");
        assert!(rt; both.len() <= 2_000_000 && more.len() <= 2_000_000);
        let twice = balance_parts(alloc, &[both, more]).expect(&rt, "no memory");
        expect_in_node(&rt, "balance_parts", &twice, &of, 2 * *len);
    }
}
