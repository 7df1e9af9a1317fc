// Cases of worked examples, over a table of one source.
ghost use Rattle.std.specs.Prelude.{◌≡◌, ◌≤◌};
ghost use Rattle.cord_io.specs.Table.{Lengths, length_at};
ghost use Rattle.cord_core.specs.Cord.{CordFitsIn};

use super::byte_source::six_hundred;
use super::cases::expect_case;
use super::made::{Part, Parts, made};
use Part::{Func, Leaf, Run};
use cord_core::Cord;
use cord_io::{CordError, FuseSink, MemSink, Sink, Source};
use cord_iter::{Visitor, iter, iter5, put, riter, riter4, to_vec};
use std::alloc::Global;
use std::process::Abort;

// So many reads that a source gives, the calls that a sink passes, and the most bytes of each.
type Passes = (u64, u64, u64);

// How far a cord is put, and what the sink takes.
const PUT: &[(&str, Parts, Passes, Result<(), CordError>, &[u8])] = &[
    (
        "to_vec_and_put",
        &[Leaf(b"abccd")],
        (0, 9, 9),
        Ok(()),
        b"abccd",
    ),
    (
        "put_offers_the_rest",
        &[Leaf(b"abccd")],
        (0, u64::MAX, 4096),
        Ok(()),
        b"abccd",
    ),
    (
        "put_offers_the_rest",
        &[Leaf(b"abccd")],
        (0, 5, 1),
        Ok(()),
        b"abccd",
    ),
    (
        "put_offers_the_rest",
        &[Leaf(b"abccd")],
        (0, 2, 3),
        Ok(()),
        b"abccd",
    ),
    (
        "put_offers_the_rest",
        &[Leaf(b"abccd")],
        (0, 1, 3),
        Err(CordError::WriteFailed),
        b"abc",
    ),
    (
        "a_read_fails_in_the_middle",
        &[Func(0, 500), Func(0, 600)],
        (1, u64::MAX, 4096),
        Err(CordError::ReadFailed),
        &[120; 500],
    ),
];

// An iteration over a cord: from a place on, from a place back, or over all of it.
#[derive(Clone, Copy)]
enum Way {
    On(u64),
    Back(u64),
    All,
    AllBack,
}

use Way::{All, AllBack, Back, On};

type Four = (u8, u8, u8, u8);

// Where an iteration stops, whether it does, and the last four bytes that it saw.
const ITERATIONS: &[(&str, Parts, Way, u8, bool, Four)] = &[
    (
        "iter_calls",
        &[Leaf(b"abcd")],
        On(1),
        b'c',
        true,
        (0, 0, b'b', b'c'),
    ),
    (
        "iter_calls",
        &[Leaf(b"abcd")],
        Back(2),
        0,
        false,
        (0, b'c', b'b', b'a'),
    ),
    (
        "whole_iterations",
        &[Leaf(b"abcd")],
        All,
        b'c',
        true,
        (0, b'a', b'b', b'c'),
    ),
    (
        "whole_iterations",
        &[Leaf(b"abcd")],
        AllBack,
        b'c',
        true,
        (0, 0, b'd', b'c'),
    ),
    ("iter_empty_and_tail", &[], All, 0, false, (0, 0, 0, 0)),
    ("iter_empty_and_tail", &[], AllBack, 0, false, (0, 0, 0, 0)),
    (
        "iter_empty_and_tail",
        &[Run(b'a', 1000), Leaf(b"b")],
        On(999),
        0,
        false,
        (0, 0, b'a', b'b'),
    ),
];

// A visitor that keeps the last four bytes that it saw, the newest one last, and stops at a byte.
#[derive(Drop)]
struct Latest {
    bytes: Four,
    stop: u8,
}

impl Visitor for Latest {
    ghost use Rattle.std.specs.Prelude.{ℕ, nat_eq};

    ghost State = { (ℕ × ℕ × ℕ × ℕ) × ℕ };

    ghost state = { λ s. ((s.bytes.0, s.bytes.1, s.bytes.2, s.bytes.3), s.stop) };

    ghost step = { λ s b. (((s.0.1, s.0.2, s.0.3, b), s.1), nat_eq b s.1) };

    fn byte(&mut self, byte: u8) -> bool {
        self.bytes = (self.bytes.1, self.bytes.2, self.bytes.3, byte);
        byte == self.stop
    }
}

fn text_of(rt: &impl Abort, alloc: Global, cord: &Cord) -> Vec<u8>
    requires { (lengths : Lengths) → 600 ≤ length_at lengths 2 → CordFitsIn lengths cord.now }
{
    to_vec(alloc, cord, &mut six_hundred((0, 0))).expect(rt, "no memory")
}

// The text of a cord, and what a sink takes of it in each case.
#[test]
fn to_vec_and_put(rt: HostRuntime) {
    let alloc = rt.alloc();
    let cord = made(&rt, alloc, &[Leaf(b"abccd")]);
    let text = text_of(&rt, alloc, &cord);
    assert!(rt; text.as_slice() == b"abccd".as_slice());
    for &(name, parts, passes, answer, taken) in PUT {
        let (reads, calls, most) = passes;
        let cord = made(&rt, alloc, parts);
        let mut source = six_hundred((reads, u64::MAX));
        assert!(rt; most >= 1);
        let mut sink = FuseSink::new(MemSink::new(alloc), calls, most);
        expect_case(
            &rt,
            put(&cord, &mut source, &mut sink) == answer,
            name,
            calls,
        );
        expect_case(&rt, sink.inner().bytes() == taken, name, calls);
        let failures = u64::from(answer == Err(CordError::ReadFailed));
        expect_case(&rt, source.failures() == failures, name, calls);
    }
}

// Nothing with 65 bytes appended 10,000 times, the k-th time of the byte k modulo 256; it never is deeper than 60.
fn appended(rt: &impl Abort, alloc: Global) -> Cord
    ensures { (lengths : Lengths) → 600 ≤ length_at lengths 2 → CordFitsIn lengths result }
{
    let mut cord = Cord::empty();
    for k in 0..10_000u32 {
        let byte = ((k + 1) % 256) as u8;
        let Ok(longer) = Cord::cat_bytes(alloc, &cord, &[byte; 65]) else {
            panic!(rt; "no memory");
        };
        assert!(rt; longer.depth() <= 60);
        cord = longer;
    }
    cord
}

#[test]
fn depth_after_many_appends(rt: HostRuntime) {
    let bytes = text_of(&rt, rt.alloc(), &appended(&rt, rt.alloc()));
    assert!(rt; bytes.len() == 650_000);
    for (place, byte) in bytes.iter().enumerate() {
        assert!(rt; *byte as usize == (place / 65 + 1) % 256);
    }
}

// A place has to lie inside the cord.
#[test]
fn cases_of_iterations(rt: HostRuntime) {
    for &(name, parts, way, stop, stopped, bytes) in ITERATIONS {
        let cord = made(&rt, rt.alloc(), parts);
        let mut seen = Latest {
            bytes: (0, 0, 0, 0),
            stop,
        };
        let mut source = six_hundred((0, 0));
        let answer = match way {
            On(from) => {
                assert!(rt; from < cord.len());
                iter5(&cord, from, &mut source, &mut seen)
            }
            Back(from) => {
                assert!(rt; from < cord.len());
                riter4(&cord, from, &mut source, &mut seen)
            }
            All => iter(&cord, &mut source, &mut seen),
            AllBack => riter(&cord, &mut source, &mut seen),
        };
        expect_case(&rt, answer == Ok(stopped), name, cord.len());
        expect_case(&rt, seen.bytes == bytes, name, cord.len());
    }
}
