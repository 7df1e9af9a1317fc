// Cases of worked examples.
ghost use Rattle.cord_node.specs.Tree.{IsSound};

use super::cases::expect_case;
use super::refused::nodes::{Piece, joined, node_of};
use super::trees::{Shape, is_node};
use Piece::{Func, Leaf, Run};
use Shape::Size;
use cord_node::Node;
use std::alloc::Global;
use std::process::Abort;
use std::rc::Rc;

// One piece or two, one after the other, and what that is.
const NODES: &[(&str, Piece, Option<Piece>, Shape)] = &[
    ("node_joins", Leaf(b"ab"), Some(Leaf(b"cd")), Size(4, 0)),
    (
        "node_joins",
        Leaf(b"ab"),
        Some(Leaf(b"cd")),
        Shape::Leaf(b"abcd", 0, 4),
    ),
    (
        "a_run_joins_a_leaf",
        Run(0, 1),
        Some(Leaf(b"ab")),
        Size(3, 1),
    ),
    ("a_function_part", Func(0, 8, 3), None, Size(3, 0)),
];

// A node and what follows it.
pub(super) fn followed(rt: &impl Abort, alloc: Global, left: &Rc<Node>, piece: &Piece) -> Rc<Node>
    requires { IsSound left.now.value }
    ensures { IsSound result.value }
{
    let right = node_of(rt, alloc, piece);
    joined(rt, alloc, left, &right).expect(rt, "no memory")
}

#[test]
fn node_joins(rt: HostRuntime) {
    for (name, first, second, shape) in NODES {
        let one = node_of(&rt, rt.alloc(), first);
        let whole = match second {
            None => one,
            Some(piece) => followed(&rt, rt.alloc(), &one, piece),
        };
        expect_case(&rt, is_node(&whole, shape), name, whole.len());
    }
}

// That a node is the same as its clone, and not the same as another one.
fn expect_same(rt: &impl Abort, node: &Rc<Node>, other: &Node)
    requires one { IsSound node.now.value }
    requires two { IsSound other.now }
{
    let again = node.clone().expect(rt, "no memory");
    assert!(rt; node.same(&again) && !node.same(other) && !other.same(node));
}

// The marks lie in bytes that a node had without them.
#[test]
fn one_node_is_the_same_and_two_are_not(rt: HostRuntime) {
    let alloc = rt.alloc();
    let part = node_of(&rt, alloc, &Leaf(b"ab"));
    for piece in [&Leaf(b"ab"), &Run(0, 1000), &Func(1, 2, 3)] {
        expect_same(&rt, &node_of(&rt, alloc, piece), &part);
        expect_same(&rt, &followed(&rt, alloc, &part, piece), &part);
    }
    assert!(rt; size_of::<Node>() == 40);
}
