// The way from a root to a part: where each occurrence on it begins, and how many were visited.
ghost use Rattle.std.specs.Prelude.{◌≡◌, ◌+◌, ◌<◌, ◌≤◌, [], ◌∷◌, ◌++◌, Some, MatchOption};
ghost use Rattle.arrayvec.specs.ArrayVec.{array_vec_len};
ghost use Rattle.cord_node.specs.Tree.{len_of};
ghost use Rattle.cord_core.specs.Cord.{text_len};
ghost use Rattle.cord_pos.specs.inner.Path.{node_of, places, CanDescend, IsDescent, IsClimb, EndsIn, IsOnWay};
ghost use Rattle.cord_pos.specs.inner.Path.{IsTakenTo};
ghost use Rattle.cord_pos.specs.Position.{set_visits};
ghost use Rattle.cord_pos.specs.inner.Invariant.{IsOnCord};

use crate::visited::{Tree, Visited, Visits};
use arrayvec::ArrayVec;
use cord_io::MAX_DEPTH;

/// The most occurrences on a way: a root, and a step for each level below it.
pub(crate) const PATH_LEN: usize = MAX_DEPTH as usize + 1;

/// A node on the way, and the place in the root's text where its own text begins.
#[derive(Clone, Copy, Default)]
pub(crate) struct Occurrence<'a> {
    node: Option<Visited<'a>>,
    start: u64,
}

/// A part at the end of a way: where it begins and ends in the root's text.
#[derive(Clone, Copy)]
pub(crate) struct Part<'a> {
    pub(crate) node: Visited<'a>,
    pub(crate) start: u64,
    pub(crate) end: u64,
}

/// The occurrences from a root down, and how many were visited.
#[derive(Drop)]
pub(crate) struct Path<'a> {
    stops: ArrayVec<Occurrence<'a>, PATH_LEN>,
    visits: Visits,
}

impl<'a> Path<'a> {
    /// A path on which nothing was visited.
    pub(crate) fn new() -> Path<'a>
        ensures places { places result.stops.items ≡ [] }
        ensures visits { result.visits.count ≡ 0 }
    {
        Path {
            stops: ArrayVec::new(),
            visits: Visits::none(),
        }
    }

    /// How many nodes were visited.
    pub(crate) fn visits(&self) -> u64
        ensures { result ≡ self.now.visits.count }
    {
        self.visits.count()
    }

    /// The way from the root of a cord to the part that holds the index: each node on it is visited.
    pub(crate) fn enter(&mut self, tree: Tree<'a>, index: u64) -> Part<'a>
        requires inside { index < text_len tree.cord.now }
        requires empty { places self.old.stops.items ≡ [] }
        requires start { self.old.visits.count ≡ 0 }
        ensures on_cord { IsOnCord tree.entry.cord.now index result (places self.new.stops.items) }
        ensures visits { self.new.visits.count ≡ set_visits tree.entry.cord.now index }
    {
        let root = tree.root(&mut self.visits);
        self.keep(root, 0);
        self.descend(root, 0, index)
    }

    /// From the part at the end of the path to the part that holds the index `at`: up to the last node that holds it,
    /// and down.
    pub(crate) fn go_to(&mut self, at: u64) -> Part<'a>
        requires on_way { IsOnWay (places self.old.stops.items) at }
        requires counted { self.old.visits.count ≤ u64.MAX }
        ensures taken { IsTakenTo (places self.old.stops.items) at (places self.new.stops.items)
            (node_of result.node) result.start
            self.old.visits.count self.new.visits.count }
        ensures end { result.end ≡ result.start + len_of (node_of result.node) }
    {
        let Some((node, start)) = self.climb(at) else {
            unreachable!()
        };
        self.descend(node, start, at - start)
    }

    // Keeps the place of a node that was visited, as the last one.
    fn keep(&mut self, node: Visited<'a>, start: u64)
        requires room { array_vec_len self.old.stops < PATH_LEN }
        ensures places { places self.new.stops.items ≡ places self.old.stops.items
            ++ (Some (node_of node.entry), start) ∷ [] }
        ensures visits { self.new.visits.count ≡ self.old.visits.count }
        ensures len { array_vec_len self.new.stops ≡ array_vec_len self.old.stops + 1 }
    {
        self.stops.push(Occurrence {
            node: Some(node),
            start,
        });
    }

    // Steps down from a node that begins at `start` to the part that holds its index `index`.
    fn descend(&mut self, top: Visited<'a>, mut start: u64, mut index: u64) -> Part<'a>
        requires { CanDescend (node_of top) start index (array_vec_len self.old.stops) self.old.visits.count }
        ensures { IsDescent self.old self.new (node_of top.entry) start index result }
    {
        let mut node = top;
        while let Some(side) = node.step(index, &mut self.visits) {
            start += side.offset;
            index -= side.offset;
            node = side.node;
            self.keep(node, start);
        }
        Part {
            node,
            start,
            end: start + node.len(),
        }
    }

    // Goes up to the last node that holds the index `at` of the root's text, which visits nothing: that node, and where
    // it begins.
    fn climb(&mut self, at: u64) -> Option<(Visited<'a>, u64)>
        ensures climb { IsClimb (places self.old.stops.items) (places self.new.stops.items) at }
        ensures found { MatchOption result (places self.new.stops.items ≡ [])
            (λ top. EndsIn (places self.new.stops.items) (node_of top.0) top.1 at) }
        ensures visits { self.new.visits.count ≡ self.old.visits.count }
    {
        while let Some(last) = self.stops.last() {
            if let Some(node) = last.node {
                if last.start <= at && at - last.start < node.len() {
                    return Some((node, last.start));
                }
            }
            self.stops.pop();
        }
        None
    }
}
