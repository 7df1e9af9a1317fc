// Cases of worked examples, and what sharing shows.
use super::calls::{Call, after, answer_of};
use super::cases::expect_case;
use super::made::{Part, Parts, made};
use super::trees::{Shape, balanced, cord_of, expect_shape, is_one, joined, part_of, run_of};
use Call::{Balance, Cat, CatBytes, CatChar, CatTo, Catn, Share, Substr, Times};
use Part::{Leaf, Run};
use Shape::{Nothing, Size, Text};
use cord_core::{Cord, Node};
use cord_io::{CordError, MAX_LEN};
use std::rc::Rc;

// A leaf and a run.
const ABCC: Parts = &[Leaf(b"ab"), Run(99, 2)];

const ABCCDEF: Parts = &[Leaf(b"ab"), Run(99, 2), Leaf(b"def")];

// The calls that make of the first what the second is.
const D_AND_EF: [Call; 2] = [CatChar(100), CatBytes(b"ef")];

const LONGEST: Parts = &[Run(0, MAX_LEN)];

// Parts, the calls that are made one after another, and what the last one makes.
const MADE: &[(&str, Parts, &[Call], Shape)] = &[
    ("cord_calls", ABCC, &[], Text(b"abcc")),
    ("cord_calls", ABCC, &D_AND_EF, Text(b"abccdef")),
    ("cord_calls", ABCCDEF, &[Substr(1, 3)], Text(b"bcc")),
    ("cord_calls", ABCCDEF, &[Share], Text(b"abccdef")),
    ("cord_calls", ABCCDEF, &[Balance], Text(b"abccdef")),
    (
        "cords_in_a_row",
        ABCCDEF,
        &[Balance, Catn(2)],
        Text(b"abccdefabccdef"),
    ),
    (
        "a_part_of_a_leaf_shares_it",
        &[Leaf(&[7; 100])],
        &[Substr(10, 80)],
        Shape::Leaf(&[7; 100], 10, 80),
    ),
    (
        "a_part_of_a_run_is_a_run",
        LONGEST,
        &[Substr(5, 1000)],
        Shape::Run(0, 1000),
    ),
    (
        "depth_fifty",
        &[Leaf(&[1; 65])],
        &[CatBytes(&[2; 65]); 50],
        Size(3_315, 50),
    ),
    ("nothing_has_no_root", &[], &[], Nothing),
    ("nothing_is_made_of_nothing", &[], &[Balance], Nothing),
    ("nothing_is_made_of_nothing", ABCC, &[Catn(0)], Nothing),
    ("nothing_is_made_of_nothing", ABCC, &[Substr(4, 1)], Nothing),
    ("nothing_is_made_of_nothing", ABCC, &[Substr(0, 0)], Nothing),
];

// Whole cords are shared: calls that give the very cord that they were given.
const SHARED: &[(&str, Parts, Call)] = &[
    ("share", ABCCDEF, Share),
    ("substr", ABCCDEF, Substr(0, 7)),
    ("catn", ABCCDEF, Catn(1)),
    ("cat", ABCCDEF, Cat(&[])),
    ("cat", ABCCDEF, CatTo(&[])),
    ("balance", &[Leaf(&[7; 100]), Run(0, 1000)], Balance),
];

// too_long_unchanged: calls of the longest run that would make more bytes than a cord has.
const TOO_LONG: &[(&str, Call)] = &[
    ("cat", Cat(&[Leaf(b"a")])),
    ("cat_char", CatChar(97)),
    ("cat_bytes", CatBytes(b"a")),
];

#[test]
fn cases_of_cords(rt: HostRuntime) {
    let alloc = rt.alloc();
    for (name, parts, calls, shape) in MADE {
        let cord = after(&rt, alloc, made(&rt, alloc, parts), calls);
        expect_shape(&rt, alloc, name, &cord, shape);
    }
    for &(name, parts, call) in SHARED {
        let cord = made(&rt, alloc, parts);
        let answer = answer_of(&rt, alloc, &cord, call).expect(&rt, "no cord");
        expect_case(&rt, is_one(&answer, &cord), name, cord.len());
    }
    for &(name, call) in TOO_LONG {
        let longest = made(&rt, alloc, LONGEST);
        let refused = answer_of(&rt, alloc, &longest, call).err();
        expect_case(&rt, refused == Some(CordError::TooLong), name, MAX_LEN);
        expect_shape(&rt, alloc, name, &longest, &Shape::Run(0, MAX_LEN));
    }
}

// Whether a tree is this node, over and over.
fn is_made_of(node: &Rc<Node>, piece: &Rc<Node>) -> bool {
    if Rc::ptr_eq(node, piece) {
        return true;
    }
    match node.as_ref() {
        Node::Cat { left, right, .. } => is_made_of(left, piece) && is_made_of(right, piece),
        _ => false,
    }
}

// Whether a cord's tree is the root of another one, over and over.
fn repeats(cord: &Cord, piece: &Cord) -> bool {
    match (cord.root(), piece.root()) {
        (Some(node), Some(piece)) => is_made_of(node, piece),
        _ => false,
    }
}

#[test]
fn subtrees_are_shared(rt: HostRuntime) {
    let alloc = rt.alloc();
    let leaf = cord_of(&rt, alloc, &[7; 100]);
    let piece = joined(&rt, alloc, &leaf, &leaf);
    let cord = answer_of(&rt, alloc, &piece, Times(41)).expect(&rt, "no cord");
    assert!(rt; cord.depth() == 41);
    assert!(rt; repeats(&part_of(&rt, alloc, &cord, 200, 6000), &piece));
    assert!(rt; repeats(&part_of(&rt, alloc, &cord, 100, 7900), &leaf));
    let once = balanced(&rt, alloc, &cord);
    assert!(rt; once.depth() < 20);
    assert!(rt; repeats(&once, &piece));
    let part = part_of(&rt, alloc, &balanced(&rt, alloc, &once), 200, 200);
    expect_case(&rt, is_one(&part, &piece), "substr", 200);
}

// One byte, and 38 times over what there is, a byte, and what there is; it never is deeper than 60.
#[test]
fn a_shared_subtree_is_balanced_once(rt: HostRuntime) {
    let alloc = rt.alloc();
    let one = run_of(&rt, alloc, 66, 1);
    let mut cord = run_of(&rt, alloc, 65, 1);
    for _ in 0..38 {
        let longer = joined(&rt, alloc, &cord, &one);
        cord = joined(&rt, alloc, &longer, &cord);
    }
    assert!(rt; cord.len() == 549_755_813_887 && cord.depth() <= 60);
    assert!(rt; balanced(&rt, alloc, &cord).depth() <= 57);
}
