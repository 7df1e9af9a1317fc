// Whole walks of positions, by `next` alone.
ghost use Rattle.std.specs.Prelude.{◌≡◌, ◌+◌, ◌-◌, ◌<◌, Some};
ghost use Rattle.cord_core.specs.Cord.{text_len};
ghost use Rattle.cord_pos.specs.Position.{index_at, number_at, occurrences};

use crate::Position;
use cord_core::Cord;

impl<'a> Position<'a> {
    /// The position at this index of the cord, set at 0 and moved there by `next` alone. Its visits are one more than
    /// the preorder number of the leaf that holds the index: each node that comes no later in the order was visited
    /// once.
    pub fn walk_to(cord: &'a Cord, index: u64) -> Position<'a>
        requires inside { index < text_len cord.now }
        ensures cord { result.cord ≡ cord.now }
        ensures index { result.index ≡ Some index }
        ensures visits { result.visits ≡ number_at cord.now index + 1 }
    {
        let mut position = Position::set(cord, 0);
        for _step in 0..index {
            position.next();
        }
        position
    }

    /// The position at the last place of the cord, set at 0 and moved there by `next` alone; of the empty cord an
    /// invalid one. Its visits are the number of all nodes in the cord, shared ones counted at each place: each was
    /// visited once.
    pub fn walk_through(cord: &'a Cord) -> Position<'a>
        ensures cord { result.cord ≡ cord.now }
        ensures index { result.index ≡ index_at cord.now (text_len cord.now - 1) }
        ensures visits { result.visits ≡ occurrences cord.now }
    {
        let len = cord.len();
        if len == 0 {
            return Position::set(cord, 0);
        }
        Position::walk_to(cord, len - 1)
    }
}
