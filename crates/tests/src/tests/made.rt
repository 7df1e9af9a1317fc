// Cords that cases tell by their parts.
ghost use Rattle.std.specs.Prelude.{◌≡◌, ◌+◌, ◌≤◌, IfOk};
ghost use Rattle.cord_io.specs.Table.{Lengths, length_at};
ghost use Rattle.cord_core.specs.Cord.{CordFitsIn};

use cord_core::Cord;
use cord_io::{CordError, SourceId};
use std::alloc::Global;
use std::process::Abort;

// What a cord is made of, from left to right.
#[derive(Clone, Copy)]
pub(super) enum Part {
    // These bytes.
    Leaf(&'static [u8]),
    // So many times a byte.
    Run(u8, u64),
    // So many bytes of source 2 from a place on, of its first 600.
    Func(u64, u64),
    // All that stands before it, once more, so often.
    Twice(u32),
}

pub(super) type Parts = &'static [Part];

// Each of these cords fits a table whose source 2 has 600 bytes.

// The cord of a part that stands by itself; of nothing there is no more.
fn part_of(rt: &impl Abort, alloc: Global, part: Part) -> Result<Cord, CordError>
    ensures { IfOk result (λ c. (lengths : Lengths) → 600 ≤ length_at lengths 2 → CordFitsIn lengths c) }
{
    match part {
        Part::Leaf(bytes) => Cord::from_bytes(alloc, bytes),
        Part::Run(byte, len) => Cord::chars(alloc, byte, len),
        Part::Func(start, count) => {
            assert!(rt; start <= 600 && count <= 600 - start);
            Cord::from_fn(alloc, SourceId(2), start, count)
        }
        Part::Twice(_) => Ok(Cord::empty()),
    }
}

fn both(rt: &impl Abort, alloc: Global, left: &Cord, right: &Cord) -> Cord
    requires left { (lengths : Lengths) → 600 ≤ length_at lengths 2 → CordFitsIn lengths left.now }
    requires right { (lengths : Lengths) → 600 ≤ length_at lengths 2 → CordFitsIn lengths right.now }
    ensures { (lengths : Lengths) → 600 ≤ length_at lengths 2 → CordFitsIn lengths result }
{
    let Ok(cord) = Cord::cat(alloc, left, right) else {
        panic!(rt; "no memory");
    };
    cord
}

// A cord and itself, one after the other, so often.
fn doubled(rt: &impl Abort, alloc: Global, cord: &Cord, turns: u32) -> Cord
    requires { (lengths : Lengths) → 600 ≤ length_at lengths 2 → CordFitsIn lengths cord.now }
    ensures { (lengths : Lengths) → 600 ≤ length_at lengths 2 → CordFitsIn lengths result }
{
    let mut all = both(rt, alloc, cord, cord);
    for _turn in 1..turns {
        all = both(rt, alloc, &all, &all);
    }
    all
}

fn with_part(rt: &impl Abort, alloc: Global, cord: &Cord, part: Part) -> Cord
    requires { (lengths : Lengths) → 600 ≤ length_at lengths 2 → CordFitsIn lengths cord.now }
    ensures { (lengths : Lengths) → 600 ≤ length_at lengths 2 → CordFitsIn lengths result }
{
    if let Part::Twice(turns) = part {
        return doubled(rt, alloc, cord, turns);
    }
    let Ok(next) = part_of(rt, alloc, part) else {
        panic!(rt; "no memory");
    };
    both(rt, alloc, cord, &next)
}

// A cord, and these parts after it; with no part the very cord, shared.
pub(super) fn longer(rt: &impl Abort, alloc: Global, cord: &Cord, parts: &[Part]) -> Cord
    requires { (lengths : Lengths) → 600 ≤ length_at lengths 2 → CordFitsIn lengths cord.now }
    ensures { (lengths : Lengths) → 600 ≤ length_at lengths 2 → CordFitsIn lengths result }
{
    let mut all = both(rt, alloc, &Cord::empty(), cord);
    for part in parts {
        all = with_part(rt, alloc, &all, *part);
    }
    all
}

// The cord of these parts.
pub(super) fn made(rt: &impl Abort, alloc: Global, parts: &[Part]) -> Cord
    ensures { (lengths : Lengths) → 600 ≤ length_at lengths 2 → CordFitsIn lengths result }
{
    longer(rt, alloc, &Cord::empty(), parts)
}
