//! Cords: what makes them, joins them, takes their parts and balances them.
use super::super::cases::expect_equal;
use super::super::trees::{Shape, cord_of, expect_shape, expect_text, pattern, shared_of};
use super::answers::made;
use cord_core::Cord;
use cord_io::{CordError, MAX_LEN, SourceId};
use std::alloc::Global;
use std::process::Abort;

// What a cord is made of, from left to right.
#[derive(Clone, Copy)]
enum Part {
    // One leaf.
    Leaf(&'static [u8]),
    // So many times a byte.
    Run(u8, u64),
    // The pattern in so many leaves of 65 bytes, each of which is one step deeper than the one after it.
    Leaves(usize),
}

use Part::{Leaf, Leaves, Run};
use Shape::{Pattern, Text};

fn leaves_of(rt: &impl Abort, alloc: Global, count: usize) -> Cord {
    let text = pattern(rt, alloc, count.saturating_mul(65));
    let mut cord = Cord::empty();
    for leaf in text.chunks(65) {
        cord = again!(rt, Cord::cat_bytes(alloc, &cord, leaf));
    }
    cord
}

fn part_of(rt: &impl Abort, alloc: Global, part: Part) -> Result<Cord, CordError> {
    match part {
        Leaf(text) => Cord::from_bytes(alloc, text),
        Run(byte, len) => Cord::chars(alloc, byte, len),
        Leaves(count) => Ok(leaves_of(rt, alloc, count)),
    }
}

fn made_of(rt: &impl Abort, alloc: Global, parts: &[Part]) -> Cord {
    let mut cord = Cord::empty();
    for part in parts {
        let more = again!(rt, part_of(rt, alloc, *part));
        cord = again!(rt, Cord::cat(alloc, &cord, &more));
    }
    cord
}

// A call that makes a cord, of three cords at most.
#[derive(Clone, Copy)]
enum Call {
    FromBytes(&'static [u8]),
    // A cord of a slice that is shared on.
    FromShared(&'static [u8]),
    Chars(u8, u64),
    // Three bytes of source 0 from 8 on.
    FromFn,
    Cat,
    Catn,
    CatChar(u8),
    CatBytes(&'static [u8]),
    Substr(u64, u64),
    Share,
    Balance,
}

fn answer_of(
    rt: &impl Abort,
    alloc: Global,
    cords: &[Cord; 3],
    call: Call,
) -> Result<Cord, CordError> {
    let [first, second, _] = cords;
    match call {
        Call::FromBytes(bytes) => Cord::from_bytes(alloc, bytes),
        Call::FromShared(bytes) => {
            let shared = shared_of(rt, alloc, bytes);
            let answer = Cord::from_shared(alloc, again!(rt, shared.clone()));
            expect_equal(rt, shared.as_slice(), bytes);
            answer
        }
        Call::Chars(byte, len) => Cord::chars(alloc, byte, len),
        Call::FromFn => Cord::from_fn(alloc, SourceId(0), 8, 3),
        Call::Cat => Cord::cat(alloc, first, second),
        Call::Catn => Cord::catn(alloc, cords),
        Call::CatChar(byte) => Cord::cat_char(alloc, first, byte),
        Call::CatBytes(bytes) => Cord::cat_bytes(alloc, first, bytes),
        Call::Substr(start, count) => first.substr(alloc, start, count),
        Call::Share => first.share(alloc),
        Call::Balance => first.balance(alloc),
    }
}

// What a cord is made of, and what it is.
type Given = (&'static [Part], Shape);

// A call of cords, the first of which is so deep: what it makes, and how deep that is at most.
type Case = (Call, &'static [Given; 3], u32, Shape, u32);

const NONE: Given = (&[], Text(b""));

const ABCC: Given = (&[Leaf(b"ab"), Run(99, 2)], Text(b"abcc"));

const DEF: Given = (&[Leaf(b"def")], Text(b"def"));

const ABCCDEF: Given = (&[Leaf(b"ab"), Run(99, 2), Leaf(b"def")], Text(b"abccdef"));

const WHOLE: &[u8] =
    b"0123456789abcdefghijklmnopqrstuvwxyzABCDEFGHIJKLMNOPQRSTUVWXYZ<+/0123456789abcdefghijklmnopqrstuvwxyz";

const LEAF: Given = (&[Leaf(WHOLE)], Text(WHOLE));

const LONGEST: Given = (&[Run(0, MAX_LEN)], Shape::Run(0, MAX_LEN));

const ABC_AND_RUN: &[Given; 3] = &[
    (&[Leaf(b"abc")], Text(b"abc")),
    (&[Run(100, 4)], Text(b"dddd")),
    NONE,
];

// The bytes of the pattern after 3,965.
const LAST: &[u8] = &[
    200, 201, 202, 203, 204, 205, 206, 207, 208, 209, 210, 211, 212, 213, 214, 215, 216, 217, 218,
    219, 220, 221, 222, 223, 224, 225, 226, 227, 228, 229, 230, 231, 232, 233, 234, 235, 236, 237,
    238, 239, 240, 241, 242, 243, 244, 245, 246, 247, 248, 249, 250, 0, 1, 2, 3, 4, 5, 6, 7, 8, 9,
    10, 11, 12, 13,
];

const DEEP_AND_LAST: &[Given; 3] = &[
    (&[Leaves(61)], Pattern(3_965)),
    (&[Leaf(LAST)], Text(LAST)),
    NONE,
];

const DEEP: Given = (&[Leaves(30)], Pattern(1_950));

// 18 is the slot of 4,030 bytes, between the Fibonacci numbers 2,584 and 4,181, and 17 that of 1,950.
const CASES: &[Case] = &[
    (Call::FromBytes(b"ab"), &[NONE; 3], 0, Text(b"ab"), 0),
    (Call::FromShared(b"abc"), &[NONE; 3], 0, Text(b"abc"), 0),
    (Call::Chars(99, 2), &[NONE; 3], 0, Shape::Run(99, 2), 0),
    (Call::FromFn, &[NONE; 3], 0, Shape::Func(0, 8, 3), 0),
    (Call::Cat, ABC_AND_RUN, 0, Text(b"abcdddd"), 1),
    (Call::Cat, DEEP_AND_LAST, 60, Pattern(4_030), 18),
    (Call::Catn, &[ABCC, DEF, ABCC], 1, Text(b"abccdefabcc"), 10),
    (
        Call::CatChar(100),
        &[ABCC, NONE, NONE],
        1,
        Text(b"abccd"),
        2,
    ),
    (
        Call::CatBytes(b"def"),
        &[ABCC, NONE, NONE],
        1,
        Text(b"abccdef"),
        2,
    ),
    (
        Call::Substr(1, 3),
        &[ABCCDEF, NONE, NONE],
        2,
        Text(b"bcc"),
        2,
    ),
    (
        Call::Substr(10, 80),
        &[LEAF, NONE, NONE],
        0,
        Shape::Leaf(WHOLE, 10, 80),
        0,
    ),
    (
        Call::Substr(5, 1_000),
        &[LONGEST, NONE, NONE],
        0,
        Shape::Run(0, 1_000),
        0,
    ),
    (Call::Share, &[ABCC, NONE, NONE], 1, Text(b"abcc"), 1),
    (Call::Balance, &[DEEP, NONE, NONE], 29, Pattern(1_950), 17),
];

// After each call the cords are what they were.
#[test]
fn refused_cords(rt: HostRuntime) {
    let alloc = rt.alloc();
    for (call, [first, second, third], depth, shape, most) in CASES {
        let cords = [
            made_of(&rt, alloc, first.0),
            made_of(&rt, alloc, second.0),
            made_of(&rt, alloc, third.0),
        ];
        let answer = answer_of(&rt, alloc, &cords, *call);
        assert!(rt; cords[0].depth() == *depth);
        expect_shape(&rt, alloc, "first", &cords[0], &first.1);
        expect_shape(&rt, alloc, "second", &cords[1], &second.1);
        expect_shape(&rt, alloc, "third", &cords[2], &third.1);
        let cord = made(&rt, answer, answer_of(&rt, alloc, &cords, *call));
        expect_shape(&rt, alloc, "made", &cord, shape);
        assert!(rt; cord.depth() <= *most);
    }
}

// That "xyz" comes in the place of four bytes: where it was refused the text is as before, and it is put in again.
fn expect_spliced(rt: &impl Abort, alloc: Global, cord: &mut Cord, at: u64, after: &[u8]) {
    let xyz = cord_of(rt, alloc, b"xyz");
    if cord.splice(alloc, at, 4, &xyz).is_err() {
        expect_text(rt, cord, b"abccdef");
        cord.splice(alloc, at, 4, &xyz).expect(rt, "memory");
    }
    expect_text(rt, cord, after);
}

// In place, and of a cord that is shared.
#[test]
fn refused_splices(rt: HostRuntime) {
    for (at, after) in [(1, b"axyzef".as_slice()), (3, b"abcxyz")] {
        let mut cord = made_of(&rt, rt.alloc(), ABCCDEF.0);
        let other = made_of(&rt, rt.alloc(), ABCCDEF.0);
        let mut shared = again!(&rt, other.share(rt.alloc()));
        expect_spliced(&rt, rt.alloc(), &mut cord, at, after);
        expect_spliced(&rt, rt.alloc(), &mut shared, at, after);
        expect_text(&rt, &other, b"abccdef");
    }
}
