// The part that holds the index, and moves to another one.
ghost use Rattle.std.specs.Prelude.{◌≡◌, ◌+◌, ◌≤◌, min};
ghost use Rattle.cord_pos.specs.Position.{moved_index, moved_visits};
ghost use Rattle.cord_pos.specs.Spans.{IsAheadOf, IsBehindOf, IsRestAhead, IsRestBehind};

use crate::span::Span;
use crate::{Position, Spot};
use cord_io::MAX_DEPTH;

impl<'a> Position<'a> {
    /// What the part that holds the index has from there on: none where the position is invalid. No byte is copied or
    /// read.
    pub fn ahead(&self) -> Option<Span<'a>>
        ensures span { IsAheadOf self.now.cord self.now.index result }
        ensures rest { IsRestAhead self.now.cord self.now.index result }
    {
        let Some(spot) = self.spot else {
            return None;
        };
        let from = spot.index - spot.part.start;
        spot.part.node.span(from, spot.part.node.len())
    }

    /// What the part that holds the index has up to there, with the byte at the index: none where the position is
    /// invalid. No byte is copied or read.
    pub fn behind(&self) -> Option<Span<'a>>
        ensures span { IsBehindOf self.now.cord self.now.index result }
        ensures rest { IsRestBehind self.now.cord self.now.index result }
    {
        let Some(spot) = self.spot else {
            return None;
        };
        let to = spot.index - spot.part.start + 1;
        spot.part.node.span(0, to)
    }

    /// To an index of the cord: past the end to none, and with none it stays. The way leads up to the last node that
    /// holds both indices and down again. So from part to part, in order or in the order turned round, a move takes
    /// constant time, taken over all of them.
    pub fn move_to(&mut self, index: u64)
        ensures cord { self.new.cord ≡ self.old.cord }
        ensures index { self.new.index ≡ moved_index self.old.cord self.old.index index }
        ensures visits { self.new.visits ≡ min (self.old.visits + moved_visits self.old.cord self.old.index index)
            u64.MAX }
        ensures bound { self.new.visits ≤ self.old.visits + MAX_DEPTH }
    {
        let Some(spot) = self.spot else {
            return;
        };
        if spot.part.start <= index && index < spot.part.end {
            self.spot = Some(Spot { index, ..spot });
        } else if index < self.tree.len() {
            self.go_to(index);
        } else {
            self.spot = None;
        }
    }
}
