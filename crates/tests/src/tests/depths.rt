// How deep ropes are, by the order in which they were built, and after many edits.
use super::cases::expect_case;
use super::trees::{balanced, cord_of, joined, part_of, splice};
use cord_balance::slot_of;
use cord_core::Cord;
use cord_io::{MAX_DEPTH, MAX_LEN};
use cord_node::Node;
use std::alloc::Global;
use std::process::Abort;

// Where the next leaf goes.
enum Order {
    Append,
    Prepend,
    Turns,
    // The first leaf, and then all that there is once more: a full tree, which is balanced.
    Doubled,
}

// In which order leaves of 65 bytes are joined, in how many steps, the depth then, and the depth after `balance`. A
// model of the rules in another language gave the depths.
const ORDERS: &[(Order, u64, u32, u32)] = &[
    (Order::Append, 1_000, 26, 15),
    (Order::Append, 3_000, 40, 17),
    (Order::Append, 8_389, 21, 19),
    (Order::Prepend, 1_000, 26, 15),
    (Order::Prepend, 3_000, 40, 17),
    (Order::Prepend, 8_389, 21, 19),
    (Order::Turns, 1_000, 34, 15),
    (Order::Turns, 3_000, 26, 17),
    (Order::Turns, 8_389, 27, 19),
    (Order::Doubled, 1, 0, 0),
    (Order::Doubled, 2, 1, 1),
    (Order::Doubled, 3, 2, 2),
    (Order::Doubled, 4, 3, 3),
    (Order::Doubled, 5, 4, 4),
    (Order::Doubled, 6, 5, 5),
    (Order::Doubled, 7, 6, 6),
    (Order::Doubled, 8, 7, 7),
    (Order::Doubled, 9, 8, 8),
    (Order::Doubled, 10, 9, 9),
    (Order::Doubled, 11, 10, 10),
    (Order::Doubled, 12, 11, 11),
    (Order::Doubled, 13, 12, 12),
];

// How many parts a node has, counted one by one.
fn counted(node: &Node) -> u64 {
    match node {
        Node::Cat { left, right, .. } => counted(left).saturating_add(counted(right)),
        _ => 1,
    }
}

// That a cord has so many parts as it stores, and is no deeper than their slot once it is balanced.
fn expect_shallow(rt: &impl Abort, alloc: Global, cord: &Cord, name: &str) {
    let shallow = balanced(rt, alloc, cord);
    let parts = match shallow.root() {
        None => 0,
        Some(node) => {
            let parts = counted(node);
            expect_case(rt, node.part_count() == parts, name, parts);
            parts
        }
    };
    assert!(rt; 0 < parts && parts <= MAX_LEN);
    expect_case(rt, shallow.depth() <= slot_of(parts), name, parts);
    expect_case(rt, cord.depth() <= MAX_DEPTH, name, parts);
}

// What is grown in an order, in so many steps.
fn grown(rt: &impl Abort, alloc: Global, order: &Order, steps: u64) -> Cord {
    let leaf = cord_of(rt, alloc, &[7; 65]);
    let mut cord = Cord::empty();
    for step in 0..steps {
        let (left, right) = match order {
            Order::Append => (&cord, &leaf),
            Order::Turns if step % 2 == 1 => (&cord, &leaf),
            Order::Prepend | Order::Turns => (&leaf, &cord),
            Order::Doubled if step == 0 => (&cord, &leaf),
            Order::Doubled => (&cord, &cord),
        };
        cord = joined(rt, alloc, left, right);
    }
    cord
}

#[test]
fn grown_ropes(rt: HostRuntime) {
    let alloc = rt.alloc();
    for (order, count, depth, shallow) in ORDERS {
        let cord = grown(&rt, alloc, order, *count);
        expect_case(&rt, cord.depth() == *depth, "grown", *count);
        let reached = balanced(&rt, alloc, &cord).depth();
        expect_case(&rt, reached == *shallow, "balanced", *count);
        expect_shallow(&rt, alloc, &cord, "grown and balanced");
    }
}

// Words put in at random places, by cutting and joining.
#[test]
fn inserted_at_random(rt: HostRuntime) {
    let alloc = rt.alloc();
    let word = cord_of(&rt, alloc, b"ten bytes.");
    let mut cord = cord_of(&rt, alloc, &[7; 10_000]);
    for turn in 0..2_000u64 {
        let len = cord.len();
        let place = turn.wrapping_mul(7_919_003) % len.max(1);
        let prefix = joined(&rt, alloc, &part_of(&rt, alloc, &cord, 0, place), &word);
        cord = joined(&rt, alloc, &prefix, &part_of(&rt, alloc, &cord, place, len));
    }
    assert!(rt; cord.len() == 30_000);
    expect_shallow(&rt, alloc, &cord, "inserted at random");
}

// 1,000 leaves in which a byte is put in, over and over, at one place; or at random places, and every other time one is
// taken out.
#[test]
fn edited_ropes(rt: HostRuntime) {
    let alloc = rt.alloc();
    let byte = cord_of(&rt, alloc, b"x");
    let nothing = Cord::empty();
    for (name, is_random) in [("edited at one place", false), ("edited at random", true)] {
        let mut cord = grown(&rt, alloc, &Order::Append, 1_000);
        for turn in 0..100_000u64 {
            let place = if is_random {
                turn.wrapping_mul(7_919_003) % cord.len().max(1)
            } else {
                turn.saturating_add(32_000)
            };
            let is_removed = is_random && turn % 2 == 1;
            let middle = if is_removed { &nothing } else { &byte };
            let count = u64::from(is_removed);
            splice(&rt, alloc, &mut cord, (place, count), middle);
        }
        expect_shallow(&rt, alloc, &cord, name);
        assert!(rt; is_random || cord.len() == 165_000);
        if let Some(node) = cord.root() {
            assert!(rt; is_random || counted(node) <= 1_001 + 100_000 / 32);
        }
    }
}

// Two leaves of 40 bytes of which an edit leaves at most 64 become one, and no others.
#[test]
fn short_neighbours_become_one(rt: HostRuntime) {
    let alloc = rt.alloc();
    let leaf = cord_of(&rt, alloc, &[7; 40]);
    let word = cord_of(&rt, alloc, b"ten bytes.");
    for (start, count, middle, is_one) in [
        (0, 16, &Cord::empty(), true),
        (0, 15, &Cord::empty(), false),
        (60, 16, &Cord::empty(), true),
        (32, 16, &Cord::empty(), true),
        (20, 26, &word, true),
        (45, 26, &word, true),
        (45, 25, &word, false),
        (35, 26, &word, true),
    ] {
        let mut cord = joined(&rt, alloc, &leaf, &leaf);
        splice(&rt, alloc, &mut cord, (start, count), middle);
        expect_case(&rt, (cord.depth() == 0) == is_one, "leaves", start);
    }
}
