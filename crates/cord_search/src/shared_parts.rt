// What two texts have at two places: bytes that both share, or a span of each.
ghost use Rattle.std.specs.Prelude.{◌≡◌, ℕ, ◌+◌, ◌-◌, ◌<◌, ◌≤◌, true, Option, None, IfSome, IfNone};
ghost use Rattle.arrayvec.specs.ArrayVec.{array_vec_len};
ghost use Rattle.cord_core.specs.Cord.{text_len};
ghost use Rattle.cord_node.specs.declared.Node.{Node as Tree};
ghost use Rattle.cord_node.specs.Tree.{len_of, depth_of, IsSound};
ghost use Rattle.cord_pos.specs.Spans.{is_part, span_len, IsSpanOf, IsSpanAt};
ghost use Rattle.cord_search.specs.inner.SharedParts.{IsSpot, AreOneSpot, IsSideOf, IsSpotOf, IsWay, LeadsTo};
ghost use Rattle.cord_search.specs.inner.SharedParts.{IsCommonAhead};

use crate::spans::begin_alike;
use arrayvec::ArrayVec;
use cord_core::{Cord, Node};
use cord_io::MAX_DEPTH;
use cord_pos::{Span, side_of};

// The most nodes on a way: a root, and a step for each level below it.
const WAY_LEN: usize = MAX_DEPTH as usize + 1;

/// A place of a node's text.
#[derive(Clone, Copy)]
pub(crate) struct Spot<'a> {
    pub(crate) node: &'a Node,
    pub(crate) place: u64,
}

/// A node of a cord, and the place in the cord's text where its own begins.
#[derive(Clone, Copy)]
pub(crate) struct Stop<'a> {
    pub(crate) node: &'a Node,
    pub(crate) start: u64,
}

/// The nodes on the way from the root of a cord to a place of its text, as far down as it was gone.
#[derive(Drop)]
pub(crate) struct Way<'a> {
    stops: ArrayVec<Option<Stop<'a>>, WAY_LEN>,
}

/// What two texts have at two places.
pub(crate) enum Ahead<'a> {
    /// So many bytes of both are the same.
    Same(u64),
    /// Spans of one length, nothing of which was compared.
    Apart(Span<'a>, Span<'a>),
}

impl<'a> Spot<'a> {
    // A place of a cord, as one of its root.
    fn of(cord: &'a Cord, at: u64) -> Spot<'a>
        requires { at < text_len cord.now }
        ensures spot { IsSpotOf cord.now at result }
        ensures place { result.place ≡ at }
    {
        let Some(root) = cord.root() else {
            unreachable!()
        };
        Spot {
            node: root.as_ref(),
            place: at,
        }
    }

    /// A place of a cord, as one of the part that holds it.
    pub(crate) fn of_part(cord: &'a Cord, at: u64) -> Spot<'a>
        requires { at < text_len cord.now }
        ensures spot { IsSpotOf cord.now at result }
        ensures part { is_part result.node.now ≡ true }
    {
        let mut spot = Spot::of(cord, at);
        while let Some(side) = spot.side() {
            spot = side;
        }
        spot
    }

    /// What a part has from one place on, up to another.
    pub(crate) fn span(self, from: u64, to: u64) -> Span<'a>
        requires part { is_part self.node.now ≡ true }
        requires sound { IsSound self.node.now }
        requires some { from < to }
        requires inside { to ≤ len_of self.node.now }
        ensures span { IsSpanAt self.entry.node.now from result }
        ensures len { span_len result ≡ to - from }
    {
        let Some(span) = Span::of_part(self.node, from, to) else {
            unreachable!()
        };
        span
    }

    // Whether the two are one place of one node.
    fn is_same(self, other: Spot) -> bool
        requires sound { IsSpot self × IsSpot other }
        ensures { result ≡ true → AreOneSpot self.entry other.entry }
    {
        self.place == other.place
            && self.node.len() == other.node.len()
            && self.node.same(other.node)
    }

    // The same place in the side of a concatenation that holds it.
    fn side(self) -> Option<Spot<'a>>
        requires { IsSpot self }
        ensures side { IfSome result (IsSideOf self.entry) }
        ensures part { result ≡ None → is_part self.entry.node.now ≡ true }
    {
        let side = side_of(self.node, self.place)?;
        Some(Spot {
            node: side.node,
            place: side.place,
        })
    }
}

impl<'a> Way<'a> {
    /// The way on which no step was taken.
    pub(crate) fn new() -> Way<'a>
        ensures { (c : Option Tree) → IsWay c result }
    {
        Way {
            stops: ArrayVec::new(),
        }
    }

    // Goes up to the last node that holds a place of the cord, or else begins at the root.
    fn climb(&mut self, cord: &'a Cord, at: u64) -> Spot<'a>
        requires way { IsWay cord.now self.old }
        requires inside { at < text_len cord.now }
        ensures way { IsWay cord.now self.new }
        ensures spot { IsSpotOf cord.now at result }
        ensures room { array_vec_len self.new.stops + depth_of result.node.now ≤ WAY_LEN }
    {
        while let Some(last) = self.stops.last() {
            if let Some(stop) = last {
                if stop.start <= at && at - stop.start < stop.node.len() {
                    return Spot {
                        node: stop.node,
                        place: at - stop.start,
                    };
                }
            }
            self.stops.pop();
        }
        let spot = Spot::of(cord, at);
        self.stops.push(Some(Stop {
            node: spot.node,
            start: 0,
        }));
        spot
    }

    // Goes down from the last node to the side that holds the place `at` of the cord: nowhere from a part.
    fn step(&mut self, last: Spot<'a>, at: u64) -> Option<Spot<'a>>
        requires spot { IsSpot last }
        requires low { last.place ≤ at }
        requires room { array_vec_len self.old.stops + depth_of last.node.now ≤ WAY_LEN }
        ensures way { (c : Option Tree) → IsSpotOf c at last.entry → IsWay c self.old → IsWay c self.new }
        ensures side { IfSome result (IsSideOf last.entry) }
        ensures low { IfSome result (λ side. side.place ≤ at) }
        ensures room { IfSome result (λ side. array_vec_len self.new.stops + depth_of side.node.now ≤ WAY_LEN) }
        ensures stays { IfNone result (array_vec_len self.new.stops ≡ array_vec_len self.old.stops) }
        ensures part { result ≡ None → is_part last.entry.node.now ≡ true }
    {
        let side = last.side()?;
        self.stops.push(Some(Stop {
            node: side.node,
            start: at - side.place,
        }));
        Some(side)
    }

    // What the part that holds the place `at` of the cord has from there on: the way goes down to it.
    fn span(&mut self, last: Spot<'a>, at: u64) -> Span<'a>
        requires spot { IsSpot last }
        requires low { last.place ≤ at }
        requires room { array_vec_len self.old.stops + depth_of last.node.now ≤ WAY_LEN }
        ensures way { (c : Option Tree) → IsSpotOf c at last.entry → IsWay c self.old → IsWay c self.new }
        ensures span { IsSpanAt last.entry.node.now last.entry.place result }
    {
        let mut spot = last;
        while let Some(side) = self.step(spot, at) {
            spot = side;
        }
        spot.span(spot.place, spot.node.len())
    }
}

// The greatest node that holds both places at one of its own, as two equal spots: going down, from the
// longer of two nodes, meets it, since a node's sides are shorter than the node. Where there is none, a part and a node
// that is no longer.
fn meet<'a>(
    x: &'a Cord,
    i: u64,
    way: &mut Way<'a>,
    y: &'a Cord,
    j: u64,
    other_way: &mut Way<'a>,
) -> (Spot<'a>, Spot<'a>)
    requires left_inside { i < text_len x.now }
    requires right_inside { j < text_len y.now }
    requires left_way { IsWay x.now way.old }
    requires right_way { IsWay y.now other_way.old }
    ensures left { LeadsTo x.now i way.new result.0 }
    ensures right { LeadsTo y.now j other_way.new result.1 }
{
    let mut spot = way.climb(x, i);
    let mut other = other_way.climb(y, j);
    while !spot.is_same(other) {
        if other.node.len() <= spot.node.len() {
            let Some(side) = way.step(spot, i) else { break };
            spot = side;
        } else {
            let Some(side) = other_way.step(other, j) else {
                break
            };
            other = side;
        }
    }
    (spot, other)
}

/// What two cords' texts have at two places, at most `most` bytes: bytes that are known to be the same, since they
/// are of one node, runs of one byte or one range of a source, or else a span of each. Each way leads to the place
/// before, and then to this one: from part to part, in order, that takes constant time, taken over all of them. No
/// node that both share is missed by that. It begins at the two places, or the ways had met in it before them.
pub(crate) fn look_ahead<'a>(
    x: &'a Cord,
    i: u64,
    way: &mut Way<'a>,
    y: &'a Cord,
    j: u64,
    other_way: &mut Way<'a>,
    most: u64,
) -> Ahead<'a>
    requires some { 0 < most }
    requires left_inside { i < text_len x.now }
    requires right_inside { j < text_len y.now }
    requires left_way { IsWay x.now way.old }
    requires right_way { IsWay y.now other_way.old }
    ensures ahead { IsCommonAhead x.now i y.now j most result }
    ensures left_way { IsWay x.now way.new }
    ensures right_way { IsWay y.now other_way.new }
{
    let (spot, other) = meet(x, i, way, y, j, other_way);
    if spot.is_same(other) {
        return Ahead::Same(most.min(spot.node.len() - spot.place));
    }
    let span = way.span(spot, i);
    let next = other_way.span(other, j);
    both_ahead(span, next, most)
}

// What begins with two spans, at most `most` bytes.
fn both_ahead<'a>(span: Span<'a>, other: Span<'a>, most: u64) -> Ahead<'a>
    requires { 0 < most }
    ensures { (x : Option Tree) → (i : ℕ) → (y : Option Tree) → (j : ℕ) → IsSpanOf x i span.entry →
        IsSpanOf y j other.entry → IsCommonAhead x i y j most result }
{
    let count = most.min(span.len()).min(other.len());
    if begin_alike(span, other) {
        return Ahead::Same(count);
    }
    Ahead::Apart(span.up_to(count), other.up_to(count))
}
