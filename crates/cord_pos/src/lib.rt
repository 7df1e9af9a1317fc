//! Positions in cords: an index, the path to the leaf that holds it, and a count of the nodes visited on the way, after
//! `cord_pos.h` of the Boehm collector's distribution.
#![tactic(auto)]

ghost use Rattle.std.specs.Prelude.{◌≡◌, ◌↔◌, ◌+◌, ◌<◌, ◌≤◌, min, IsTrue, IsSome, IfSome, Some};
ghost use Rattle.cord_core.specs.Cord.{text_len, depth, IsCord};
ghost use Rattle.cord_pos.specs.Position.{index_at, set_visits, move_visits};

use cord_core::Cord;
use cord_io::MAX_DEPTH;
use path::{Part, Path};
pub use span::Span;
use std::marker::Model;
use visited::Tree;
pub use visited::{Side, side_of};

mod fetch;
mod next;
mod parts;
mod path;
mod prev;
mod span;
mod visited;
mod walk;

/// Where a valid position stands: an index, and the part that holds it.
#[derive(Clone, Copy)]
struct Spot<'a> {
    index: u64,
    part: Part<'a>,
}

/// A cord with an index below its length, or with none, as past the end or before the beginning.
///
/// `fetch` asks for a valid position, which `is_valid` tells, and for function parts that lie inside sources of the
/// table: so it is with every cord over no files, with those that it made where it is a `Sources`, and with
/// what `cat`, `substr` and the others make of them.
///
/// ```rust end_of_word
/// use cord_core::Cord;
/// use cord_io::{CordError, Source};
/// use cord_pos::Position;
///
/// /// The place of the first space from `start` on, or the end.
/// pub fn end_of_word<S: Source>(
///     text: &Cord,
///     start: u64,
///     src: &mut S,
/// ) -> Result<u64, CordError> {
///     let mut position = Position::set(text, start);
///     while position.is_valid() && position.fetch(src)? != b' ' {
///         position.next();
///     }
///     Ok(position.index().unwrap_or(text.len()))
/// }
/// ```
#[derive(Drop)]
pub struct Position<'a> {
    tree: Tree<'a>,
    spot: Option<Spot<'a>>,
    path: Path<'a>,
}

impl<'a> Model for Position<'a> {
    ghost use Rattle.std.specs.Option.{option_map};
    ghost use Rattle.std.specs.Coded.{codes};
    ghost use Rattle.cord_node.specs.contracts.Node as n;
    ghost use Rattle.cord_pos.specs.Position.{Standing};

    ghost Value = { Standing };

    ghost coded = { Prim.hlevel (codes, n.the_row.coded) };

    ghost use Rattle.cord_pos.specs.inner.Invariant.{IsPosition};

    ghost view = { λ p. record {
      cord = p.tree.cord.now;
      index = option_map (λ s. s.index) p.spot;
      visits = p.path.visits.count;
    } };

    ghost invariant = { λ p. IsPosition p.tree.cord.now p.spot p.path };
}

impl<'a> Position<'a> {
    /// The position at this index of the cord: invalid where the index is at or past the end.
    // It stands apart: where it is part of its caller, that clears and copies the path twice more.
    #[inline(never)]
    pub fn set(cord: &'a Cord, index: u64) -> Position<'a>
        ensures cord { result.cord ≡ cord.now }
        ensures index { result.index ≡ index_at cord.now index }
        ensures visits { result.visits ≡ set_visits cord.now index }
        ensures bound { result.visits ≤ depth cord.now + 1 }
        ensures limit { result.visits ≤ MAX_DEPTH + 1 }
        ensures sound { IsCord cord.now }
    {
        let tree = Tree::new(cord);
        let mut path = Path::new();
        if tree.len() <= index {
            return Position {
                tree,
                spot: None,
                path,
            };
        }
        let part = path.enter(tree, index);
        Position {
            tree,
            spot: Some(Spot { index, part }),
            path,
        }
    }

    /// Whether it has an index.
    pub fn is_valid(&self) -> bool
        ensures { IsTrue result ↔ IsSome self.now.index }
    {
        self.spot.is_some()
    }

    /// The index, or `None` where it is invalid.
    pub fn index(&self) -> Option<u64>
        ensures value { result ≡ self.now.index }
        ensures inside { IfSome self.now.index (λ i. i < text_len self.now.cord) }
    {
        Some(self.spot?.index)
    }

    /// The cord.
    pub fn cord(&self) -> &'a Cord
        ensures { result.now ≡ self.now.cord }
    {
        self.tree.cord()
    }

    /// How many nodes were visited since it was set: at 2^64 - 1 the count stays. A visit is a step down into a node,
    /// from its parent or as the root; going up is none.
    pub fn visits(&self) -> u64
        ensures { result ≡ self.now.visits }
    {
        self.path.visits()
    }

    // From a valid index to another one of the cord.
    fn go_to(&mut self, index: u64)
        requires valid { IsSome self.old.index }
        requires inside { index < text_len self.old.cord }
        ensures cord { self.new.cord ≡ self.old.cord }
        ensures index { self.new.index ≡ Some index }
        ensures visits { IfSome self.old.index (λ i. self.new.visits
            ≡ min (self.old.visits + move_visits self.old.cord i index) u64.MAX) }
    {
        let part = self.path.go_to(index);
        self.spot = Some(Spot { index, part });
    }
}
