// The move to the previous index.
ghost use Rattle.std.specs.Prelude.{◌≡◌, ◌+◌, ◌≤◌, min, None};
ghost use Rattle.cord_pos.specs.Position.{prev_index, prev_visits, IsOnePart};

use crate::{Position, Spot};
use cord_io::MAX_DEPTH;

impl<'a> Position<'a> {
    /// To the previous index: from 0 to none, and with none it stays.
    pub fn prev(&mut self)
        ensures cord { self.new.cord ≡ self.old.cord }
        ensures index { self.new.index ≡ prev_index self.old.index }
        ensures visits { self.new.visits ≡ min (self.old.visits + prev_visits self.old.cord self.old.index) u64.MAX }
        ensures bound { self.new.visits ≤ self.old.visits + MAX_DEPTH }
        ensures one_part { IsOnePart self.old.cord self.old.index self.new.index → self.new.visits ≡ self.old.visits }
        ensures invalid { self.new.index ≡ None → self.new.visits ≡ self.old.visits }
    {
        let Some(spot) = self.spot else {
            return;
        };
        if spot.part.start < spot.index {
            let index = spot.index - 1;
            self.spot = Some(Spot { index, ..spot });
        } else if 0 < spot.index {
            self.go_to(spot.index - 1);
        } else {
            self.spot = None;
        }
    }
}
