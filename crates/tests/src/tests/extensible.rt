// Cases of worked examples.
use super::cases::expect_case;
use super::made::{Part, Parts, made};
use super::trees::{Shape, expect_text, is_cord};
use cord_ec::ExtCord;
use cord_io::{CordError, MAX_LEN};
use std::alloc::Global;
use std::process::Abort;

// What is added to an extensible cord, or what it has.
#[derive(Drop)]
enum Step {
    // A byte, so many times.
    Byte(u8, usize),
    Bytes(&'static [u8]),
    // A cord of these parts.
    Cord(Parts),
    Text(&'static [u8]),
    Is(Shape),
    // No byte more.
    Full,
}

use Step::{Byte, Bytes, Full, Is, Text};

const LONGEST: Parts = &[Part::Run(0, MAX_LEN)];

// Steps one after another.
const TEXTS: &[&[Step]] = &[
    // ext_cord_calls
    &[
        Text(b""),
        Byte(97, 1),
        Bytes(b"bc"),
        Step::Cord(&[Part::Leaf(b"de")]),
        Text(b"abcde"),
        Byte(102, 1),
        Text(b"abcdef"),
    ],
    // ext_cord_129_appends
    &[
        Byte(65, 129),
        Text(&[65; 129]),
        Byte(65, 1),
        Text(&[65; 130]),
    ],
    // ext_cord_leaf_size
    &[Byte(65, 4096), Is(Shape::Size(4096, 0))],
    &[Byte(65, 4097), Is(Shape::Size(4097, 1))],
    // too_long_unchanged
    &[Step::Cord(LONGEST), Full, Is(Shape::Run(0, MAX_LEN))],
    // cord_calls
    &[Step::Cord(&[Part::Run(0, 1000)]), Is(Shape::Run(0, 1000))],
];

fn take_step(rt: &impl Abort, alloc: Global, ext: &mut ExtCord, step: &Step) {
    match step {
        Byte(byte, count) => {
            for _ in 0..*count {
                ext.append(alloc, *byte).expect(rt, "no memory");
            }
        }
        Bytes(bytes) => ext.append_bytes(alloc, bytes).expect(rt, "no memory"),
        Step::Cord(parts) => {
            let cord = made(rt, alloc, parts);
            ext.append_cord(alloc, &cord).expect(rt, "no memory");
        }
        Text(text) => {
            assert!(rt; ext.len() == text.len() as u64);
            let cord = ext.to_cord(alloc).expect(rt, "no memory");
            expect_text(rt, &cord, text);
        }
        Is(shape) => {
            let cord = ext.to_cord(alloc).expect(rt, "no memory");
            expect_case(rt, is_cord(&cord, shape), "the cord", cord.len());
        }
        Full => {
            let too_long = Err(CordError::TooLong);
            expect_case(rt, ext.append(alloc, 1) == too_long, "append", 1);
            let refused = ext.append_cord(alloc, &made(rt, alloc, LONGEST));
            expect_case(rt, refused == too_long, "append_cord", MAX_LEN);
        }
    }
}

#[test]
fn texts_of_steps(rt: HostRuntime) {
    for steps in TEXTS {
        let mut ext = ExtCord::new(rt.alloc()).expect(&rt, "no memory");
        for step in *steps {
            take_step(&rt, rt.alloc(), &mut ext, step);
        }
    }
}
