// What trees are made of, and bytes that differ from place to place.
ghost use Rattle.std.specs.Prelude.{◌≡◌, length};
ghost use Rattle.cord_node.specs.Tree.{IsSound};

use super::cases::expect_case;
use cord_core::Cord;
use cord_node::Node;
use std::alloc::Global;
use std::process::Abort;
use std::rc::{Rc, RcSlice};

// A shared slice of these bytes.
pub(super) fn shared_of(rt: &impl Abort, alloc: Global, bytes: &[u8]) -> RcSlice<u8> {
    again!(rt, RcSlice::from_slice(alloc, bytes))
}

// A cord of these bytes. Like what follows it promises nothing of the cord, so that tests have little to prove.
pub(super) fn cord_of(rt: &impl Abort, alloc: Global, bytes: &[u8]) -> Cord {
    again!(rt, Cord::from_bytes(alloc, bytes))
}

// A cord of so many times a byte.
pub(super) fn run_of(rt: &impl Abort, alloc: Global, byte: u8, len: u64) -> Cord {
    Cord::chars(alloc, byte, len).expect(rt, "no memory")
}

// Two cords, one after the other.
pub(super) fn joined(rt: &impl Abort, alloc: Global, left: &Cord, right: &Cord) -> Cord {
    Cord::cat(alloc, left, right).expect(rt, "no memory")
}

// So many bytes of a cord from a place on.
pub(super) fn part_of(rt: &impl Abort, alloc: Global, cord: &Cord, start: u64, count: u64) -> Cord {
    cord.substr(alloc, start, count).expect(rt, "no memory")
}

pub(super) fn share_of(rt: &impl Abort, alloc: Global, cord: &Cord) -> Cord {
    cord.share(alloc).expect(rt, "no memory")
}

pub(super) fn balanced(rt: &impl Abort, alloc: Global, cord: &Cord) -> Cord {
    cord.balance(alloc).expect(rt, "no memory")
}

// Puts a cord into the place of so many bytes of another one, from a place on.
pub(super) fn splice(
    rt: &impl Abort,
    alloc: Global,
    cord: &mut Cord,
    (start, count): (u64, u64),
    middle: &Cord,
) {
    cord.splice(alloc, start, count, middle)
        .expect(rt, "no memory");
}

// That a cord of leaves and runs has this text.
pub(super) fn expect_text(rt: &impl Abort, cord: &Cord, text: &[u8]) {
    assert!(rt; is(cord, text), "the text is not {text:?}");
}

// Whether a cord of leaves and runs has this text.
pub(super) fn is(cord: &Cord, text: &[u8]) -> bool {
    match cord.root() {
        None => text.is_empty(),
        Some(node) => spells(node, text),
    }
}

// Whether a node of leaves and runs has this text.
pub(super) fn spells(node: &Rc<Node>, text: &[u8]) -> bool
    requires { IsSound node.now.value }
{
    match after(node, text) {
        Some(rest) => rest.is_empty(),
        None => false,
    }
}

// What follows the bytes of a node in a text that begins with them.
fn after<'a>(node: &Rc<Node>, text: &'a [u8]) -> Option<&'a [u8]>
    requires { IsSound node.now.value }
{
    match node.as_ref() {
        Node::Leaf {
            bytes,
            start,
            len,
            ..
        } => { text.strip_prefix(&bytes.as_slice()[*start as usize..(*start + *len) as usize]) }
        Node::Run { byte, len } => {
            let (run, rest) = text.split_at_checked(*len as usize)?;
            for each in run {
                if each != byte {
                    return None;
                }
            }
            Some(rest)
        }
        Node::Func { .. } => None,
        Node::Cat { left, right, .. } => after(right, after(left, text)?),
    }
}

// What a node or a cord is.
#[derive(Clone, Copy)]
pub(super) enum Shape {
    // No byte and no node.
    Nothing,
    // One leaf of these bytes, its start and its length.
    Leaf(&'static [u8], u64, u64),
    // So many times a byte.
    Run(u8, u64),
    // Of a source, from a place on, so many bytes.
    Func(u32, u64, u64),
    // Leaves and runs of a text of this length.
    Text(&'static [u8]),
    // Leaves of so many bytes of the pattern.
    Pattern(usize),
    // So long and so deep.
    Size(u64, u32),
}

pub(super) fn is_node(node: &Node, shape: &Shape) -> bool {
    match (node, shape) {
        (
            Node::Leaf {
                bytes,
                start,
                len,
                ..
            },
            Shape::Leaf(text, from, count),
        ) => bytes.as_slice() == *text && *start == *from && *len == *count,
        (Node::Run { byte, len }, Shape::Run(of, count)) => *byte == *of && *len == *count,
        (Node::Func { id, start, len }, Shape::Func(source, from, count)) => {
            id.0 == *source && *start == *from && *len == *count
        }
        (_, Shape::Size(len, depth)) => node.len() == *len && node.depth() == *depth,
        _ => false,
    }
}

pub(super) fn is_cord(cord: &Cord, shape: &Shape) -> bool {
    match (cord.root(), shape) {
        (None, Shape::Nothing) => cord.len() == 0 && cord.depth() == 0,
        (_, Shape::Text(text)) => cord.len() == text.len() as u64,
        (_, Shape::Pattern(count)) => cord.len() == *count as u64,
        (_, Shape::Size(len, depth)) => cord.len() == *len && cord.depth() == *depth,
        (Some(node), _) => is_node(node, shape),
        _ => false,
    }
}

// That a cord has a shape.
pub(super) fn expect_shape(rt: &impl Abort, alloc: Global, name: &str, cord: &Cord, shape: &Shape) {
    expect_case(rt, is_cord(cord, shape), name, cord.len());
    match shape {
        Shape::Text(text) => expect_text(rt, cord, text),
        Shape::Pattern(count) => expect_text(rt, cord, &pattern(rt, alloc, *count)),
        _ => {}
    }
}

// Whether the roots of two cords are one node.
pub(super) fn is_one(a: &Cord, b: &Cord) -> bool {
    match (a.root(), b.root()) {
        (Some(a), Some(b)) => Rc::ptr_eq(a, b),
        _ => false,
    }
}

// So many bytes: at each place the place modulo 251, a prime that divides no length of a block or a leaf.
pub(super) fn pattern(rt: &impl Abort, alloc: Global, count: usize) -> Vec<u8>
    ensures { length result.items ≡ count }
{
    let mut text = again!(rt, Vec::from_elem(alloc, 0, count));
    for (place, byte) in text.iter_mut().enumerate() {
        *byte = (place % 251) as u8;
    }
    text
}
