// Cases of worked examples, over a table of one source.
ghost use Rattle.std.specs.Prelude.{◌≤◌};
ghost use Rattle.cord_io.specs.Table.{Lengths, length_at};
ghost use Rattle.cord_core.specs.Cord.{CordFitsIn};

use super::byte_source::six_hundred;
use super::cases::expect_case;
use super::made::{Part, Parts, made};
use Part::{Leaf, Run, Twice};
use Step::{At, Fetched, Len, Nexts, Prev};
use cord_core::Cord;
use cord_pos::Position;
use std::process::Abort;

// What is done with a position, or has to hold of it.
#[derive(Clone, Copy)]
enum Step {
    // So many steps on.
    Nexts(u32),
    // A step back.
    Prev,
    // It is at this index, or outside, after so many visits.
    At(Option<u64>, u64),
    // Its byte is this.
    Fetched(u8),
    // It is in a cord of this length.
    Len(u64),
}

const ABC: Parts = &[Leaf(b"abc")];

const TWO_LEAVES: Parts = &[Leaf(&[120; 100]), Leaf(&[121; 100])];

// Two leaves of 100 bytes, twice.
const FOUR_LEAVES: Parts = &[Leaf(&[120; 100]), Leaf(&[121; 100]), Twice(1)];

// From a place on.
const WALKS: &[(&str, Parts, u64, &[Step])] = &[
    (
        "position_calls",
        ABC,
        1,
        &[Fetched(98), Nexts(1), Fetched(99), At(Some(2), 1), Len(3)],
    ),
    (
        "positions_end_on_both_sides",
        ABC,
        2,
        &[Nexts(1), At(None, 1), Prev, At(None, 1)],
    ),
    ("positions_end_on_both_sides", ABC, 0, &[Prev, At(None, 1)]),
    ("positions_end_on_both_sides", ABC, 3, &[At(None, 0)]),
    (
        "visits_counted",
        TWO_LEAVES,
        0,
        &[
            At(Some(0), 2),
            Nexts(99),
            At(Some(99), 2),
            Nexts(1),
            At(Some(100), 3),
            Prev,
            At(Some(99), 4),
        ],
    ),
    (
        "visits_counted_at_each_place",
        FOUR_LEAVES,
        0,
        &[
            Len(400),
            At(Some(0), 3),
            Nexts(199),
            At(Some(199), 4),
            Nexts(1),
            At(Some(200), 6),
            Nexts(199),
            At(Some(399), 7),
            Nexts(1),
            At(None, 7),
        ],
    ),
    (
        "visits_of_whole_walks",
        FOUR_LEAVES,
        400,
        &[Len(400), At(None, 0)],
    ),
    ("a_run_has_its_byte", &[Run(46, 3)], 2, &[At(Some(2), 1)]),
    ("depth_fifty", &[Leaf(&[7; 65]); 51], 0, &[At(Some(0), 51)]),
];

fn walk_on(position: &mut Position, steps: u32)
    requires { (lengths : Lengths) → 600 ≤ length_at lengths 2 → CordFitsIn lengths position.old.cord }
    ensures { (lengths : Lengths) → 600 ≤ length_at lengths 2 → CordFitsIn lengths position.new.cord }
{
    for _step in 0..steps {
        position.next();
    }
}

fn take_step(rt: &impl Abort, name: &str, position: &mut Position, step: Step)
    requires { (lengths : Lengths) → 600 ≤ length_at lengths 2 → CordFitsIn lengths position.old.cord }
    ensures { (lengths : Lengths) → 600 ≤ length_at lengths 2 → CordFitsIn lengths position.new.cord }
{
    match step {
        Nexts(steps) => walk_on(position, steps),
        Prev => position.prev(),
        At(index, visits) => {
            expect_case(rt, position.is_valid() == index.is_some(), name, visits);
            expect_case(rt, position.index() == index, name, visits);
            expect_case(rt, position.visits() == visits, name, visits);
        }
        Fetched(byte) => {
            assert!(rt; position.is_valid());
            let fetched = position.fetch(&mut six_hundred((0, 0)));
            expect_case(rt, fetched == Ok(byte), name, u64::from(byte));
        }
        Len(len) => expect_case(rt, position.cord().len() == len, name, len),
    }
}

fn walk(rt: &impl Abort, name: &str, position: &mut Position, steps: &[Step])
    requires { (lengths : Lengths) → 600 ≤ length_at lengths 2 → CordFitsIn lengths position.old.cord }
{
    for step in steps {
        take_step(rt, name, position, *step);
    }
}

#[test]
fn cases_of_walks(rt: HostRuntime) {
    for &(name, parts, start, steps) in WALKS {
        let cord = made(&rt, rt.alloc(), parts);
        walk(&rt, name, &mut Position::set(&cord, start), steps);
    }
}
