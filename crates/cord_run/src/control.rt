//! Where a run stands among the operations of its plan, and where `repeat`, `if`, `else` and `end` lead.
pub(crate) mod branches;
pub(crate) mod lines;

ghost use Rattle.std.specs.Prelude.{get_or, map, reverse, ◌≡◌, ◌+◌, ◌-◌, ◌^◌, ◌<◌, ◌∷◌, [], Ok, IfOk, IfErr};
ghost use Rattle.cord_meaning.specs.declared.TheConstants.{MAX_TURNS};
ghost use Rattle.cord_run.specs.inner.{stop_of_control, Goes, IsTurnAt, begun, block_view, chosen, closed, repeated};
ghost use Rattle.cord_run.specs.inner.{where_of};

use crate::checks::as_index;
use crate::stops::{Stop, StopAt};
use cord_meaning::{FaultKind, MAX_TURNS};
use std::alloc::Global;

/// An open block.
#[derive(Clone, Copy)]
pub(crate) enum Open {
    /// A `repeat`, with its place, its line and the turns that are left after this one.
    Turns { place: usize, line: u32, left: u64 },
    /// An `if`.
    Chosen,
}

/// Where a run stands.
#[derive(Drop)]
pub(crate) struct Control {
    /// The next place.
    pub(crate) place: usize,
    /// The turns begun.
    pub(crate) turns: u64,
    /// The innermost open block.
    pub(crate) inner: Option<Open>,
    /// The open blocks that it stands in, the innermost last.
    pub(crate) outer: Vec<Open>,
}

/// Why control can't go on.
#[derive(Drop)]
pub(crate) enum ControlStop {
    /// A fault at a line.
    Fault(u32, FaultKind),
    /// Memory was refused, for a statement at a line.
    NoMemory(u32),
}

impl From<ControlStop> for StopAt {
    ghost from_gives = { λ stop stop_at. stop_at ≡ stop_of_control stop };

    fn from(stop: ControlStop) -> StopAt {
        match stop {
            ControlStop::Fault(line, kind) => StopAt {
                line,
                reason: Stop::Fault(kind),
            },
            ControlStop::NoMemory(line) => StopAt {
                line,
                reason: Stop::NoMemory,
            },
        }
    }
}

// The place after that of a block. No list is so long that there is none; then there would be no memory for it.
fn next(line: u32, place: usize) -> Result<usize, ControlStop>
    ensures next { IfOk result (λ n. n ≡ place + 1) }
    ensures refused { IfErr result (λ e. e ≡ ControlStop.NoMemory line) }
{
    place.checked_add(1).ok_or(ControlStop::NoMemory(line))
}

/// The place that the operation at a place leads to where it passes others over: where none is listed, the next one.
#[inline(always)]
pub(crate) fn exit_at(jumps: &[usize], place: usize) -> usize
    requires { place < 2 ^ 64 - 1 }
    ensures { result ≡ get_or jumps.now place (place + 1) }
{
    match jumps.get(place) {
        Some(exit) => *exit,
        None => place + 1,
    }
}

impl Control {
    /// Before the first operation.
    pub(crate) fn start(alloc: Global) -> Self
        ensures { where_of result ≡ record { place = 0; turns = 0; blocks = [] } }
    {
        Control {
            place: 0,
            turns: 0,
            inner: None,
            outer: Vec::new(alloc),
        }
    }

    /// Goes to another place, in the same blocks.
    #[inline(always)]
    pub(crate) fn go_to(&mut self, place: usize)
        ensures { where_of self.new ≡ record (where_of self.old) { place = place } }
    {
        self.place = place;
    }

    // Opens a block, for a statement at a line.
    #[inline(always)]
    fn open(&mut self, line: u32, block: Open) -> Result<(), ControlStop>
        ensures opened { IfOk result (λ _. where_of self.new
            ≡ record (where_of self.old) { blocks = block_view block ∷ (where_of self.old).blocks }) }
        ensures refused { IfErr result (λ e. e ≡ ControlStop.NoMemory line) }
    {
        match self.inner {
            None => self.outer.clear(),
            Some(outer) => match self.outer.push(outer) {
                Ok(()) => {}
                Err(_) => return Err(ControlStop::NoMemory(line)),
            },
        }
        self.inner = Some(block);
        Ok(())
    }

    // Begins a turn of the `repeat` at a place, if the loops of the run may begin one more.
    #[inline(always)]
    fn begin(&mut self, place: usize, line: u32, left: u64) -> Result<(), ControlStop>
        ensures { Goes (begun MAX_TURNS (where_of self.old) place line left (where_of self.old).blocks) (λ l. l ≡ line)
            (where_of self.new) result }
    {
        if self.turns >= MAX_TURNS {
            return Err(ControlStop::Fault(line, FaultKind::TooManyTurns));
        }
        let first = next(line, place)?;
        self.open(line, Open::Turns { place, line, left })?;
        self.turns += 1;
        self.place = first;
        Ok(())
    }

    /// A `repeat` that read this number; `exit` is the place after its `end`.
    #[inline(always)]
    pub(crate) fn repeat(&mut self, line: u32, exit: usize, count: i64) -> Result<(), ControlStop>
        ensures { Goes (repeated MAX_TURNS (where_of self.old) line exit count) (λ l. l ≡ line)
            (where_of self.new) result }
    {
        match as_index(count) {
            Err(kind) => Err(ControlStop::Fault(line, kind)),
            Ok(0) => {
                self.place = exit;
                Ok(())
            }
            Ok(turns) => self.begin(self.place, line, turns - 1),
        }
    }

    /// An `if`; `other` is the place after its `else`, or of its `end`.
    #[inline(always)]
    pub(crate) fn choose(&mut self, line: u32, other: usize, holds: bool) -> Result<(), ControlStop>
        ensures { Goes (Ok (chosen (where_of self.old) other holds)) (λ l. l ≡ line) (where_of self.new) result }
    {
        let first = next(line, self.place)?;
        self.open(line, Open::Chosen)?;
        self.place = if holds { first } else { other };
        Ok(())
    }

    /// An `end`: closes the innermost open block, or begins its next turn.
    #[inline(always)]
    pub(crate) fn close(&mut self) -> Result<(), ControlStop>
        requires { (where_of self.old).place < 2 ^ 64 - 1 }
        ensures { Goes (closed MAX_TURNS (where_of self.old) (where_of self.old).blocks)
            (IsTurnAt (where_of self.old).blocks) (where_of self.new) result }
    {
        match self.inner {
            Some(Open::Turns { place, line, left }) if left > 0 => {
                self.begin_next(place, line, left - 1)
            }
            Some(_) => {
                self.leave();
                Ok(())
            }
            None => {
                self.place += 1;
                Ok(())
            }
        }
    }

    // Begins the next turn of the innermost block, the `repeat` at a place.
    #[inline(always)]
    fn begin_next(&mut self, place: usize, line: u32, left: u64) -> Result<(), ControlStop>
        ensures { Goes (begun MAX_TURNS (where_of self.old) place line left
            (map block_view (reverse self.old.outer.items))) (λ l. l ≡ line) (where_of self.new) result }
    {
        if self.turns >= MAX_TURNS {
            return Err(ControlStop::Fault(line, FaultKind::TooManyTurns));
        }
        let first = next(line, place)?;
        self.inner = Some(Open::Turns { place, line, left });
        self.turns += 1;
        self.place = first;
        Ok(())
    }

    // Goes on after the innermost block.
    #[inline(always)]
    fn leave(&mut self)
        requires { self.old.place < 2 ^ 64 - 1 }
        ensures { where_of self.new ≡ record {
          place = self.old.place + 1;
          turns = self.old.turns;
          blocks = map block_view (reverse self.old.outer.items);
        } }
    {
        self.inner = self.outer.pop();
        self.place += 1;
    }
}
