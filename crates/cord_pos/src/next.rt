// The move to the next index.
ghost use Rattle.std.specs.Prelude.{◌≡◌, ◌+◌, ◌≤◌, min, None};
ghost use Rattle.cord_pos.specs.Position.{next_index, next_visits, IsNoEarlier, IsOnePart};

use crate::{Position, Spot};
use cord_io::MAX_DEPTH;

impl<'a> Position<'a> {
    /// To the next index: from the last place of the cord to none, and with none it stays.
    pub fn next(&mut self)
        ensures cord { self.new.cord ≡ self.old.cord }
        ensures index { self.new.index ≡ next_index self.old.cord self.old.index }
        ensures visits { self.new.visits ≡ min (self.old.visits + next_visits self.old.cord self.old.index) u64.MAX }
        ensures order { IsNoEarlier self.old.cord self.old.index self.new.index }
        ensures bound { self.new.visits ≤ self.old.visits + MAX_DEPTH }
        ensures one_part { IsOnePart self.old.cord self.old.index self.new.index → self.new.visits ≡ self.old.visits }
        ensures invalid { self.new.index ≡ None → self.new.visits ≡ self.old.visits }
    {
        let Some(spot) = self.spot else {
            return;
        };
        let index = spot.index + 1;
        if index < spot.part.end {
            self.spot = Some(Spot { index, ..spot });
        } else if index < self.tree.len() {
            self.go_to(index);
        } else {
            self.spot = None;
        }
    }
}
