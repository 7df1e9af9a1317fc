// Nodes that were visited. Elsewhere in the crate a node is a `Visited`, and a cord that is gone into a `Tree`;
// `span.rt` alone is given a node, a part whose bytes it lends, and gives none out. The fields of the two are
// private to this file, and so is what makes a `Visited`, which counts it. So the one way to a root, or from a
// `Visited` to its child, is a step that is counted. `side_of` counts none: other crates call it, with nodes of their
// own.
ghost use Rattle.std.specs.Prelude.{◌≡◌, ◌+◌, ◌-◌, ◌<◌, min, is_err, IfOk, IfSome, Some, None};
ghost use Rattle.std.specs.Prelude.{MatchOption};
ghost use Rattle.cord_io.specs.Device.{FileSystem, count_after};
ghost use Rattle.cord_io.specs.Frames.{LeavesSource};
ghost use Rattle.cord_node.specs.Tree.{len_of, IsSound};
ghost use Rattle.cord_node.specs.Tables.{FitsIn};
ghost use Rattle.cord_core.specs.Cord.{text_len, IsCord};
ghost use Rattle.cord_pos.specs.inner.Path.{node_of};
ghost use Rattle.cord_pos.specs.inner.Parts.{HasByte};
ghost use Rattle.cord_pos.specs.Spans.{side_at};
ghost use Rattle.cord_pos.specs.inner.Spans.{IsPlaceOfPart, IsRangeOfPart, HasSpan};

use crate::span::Span;
use cord_core::Cord;
use cord_io::{ReadFault, Source};
use cord_node::Node;

/// How many nodes were visited: at 2^64 - 1 the count stays.
#[derive(Drop)]
pub(crate) struct Visits {
    count: u64,
}

/// A cord whose root is reached by a counted step.
#[derive(Clone, Copy)]
pub(crate) struct Tree<'a> {
    cord: &'a Cord,
}

/// A node that was visited, as the root or from its parent.
#[derive(Clone, Copy)]
pub(crate) struct Visited<'a> {
    node: &'a Node,
}

/// A side of a node that was visited, and the place in the node's text where its own begins.
#[derive(Clone, Copy)]
pub(crate) struct VisitedSide<'a> {
    pub(crate) node: Visited<'a>,
    pub(crate) offset: u64,
}

/// The side of a node that holds a place of its text.
#[derive(Clone, Copy)]
pub struct Side<'a> {
    pub node: &'a Node,
    /// Where the side's own text begins in that of the node.
    pub start: u64,
    /// The place, as one of the side.
    pub place: u64,
}

/// The side of a concatenation that holds a place of its text: none of a part. It is no visit.
pub fn side_of(node: &Node, place: u64) -> Option<Side<'_>>
    ensures side { MatchOption result (side_at node.now place ≡ None)
        (λ side. side_at node.now place ≡ Some (side.node.now, side.start)) }
    ensures place { IfSome result (λ side. side.place ≡ place - side.start) }
{
    let Node::Cat { left, right, .. } = node else {
        return None;
    };
    let seam = left.len();
    if place < seam {
        return Some(Side {
            node: left.as_ref(),
            start: 0,
            place,
        });
    }
    Some(Side {
        node: right.as_ref(),
        start: seam,
        place: place - seam,
    })
}

impl Visits {
    /// No node was visited.
    pub(crate) fn none() -> Visits
        ensures { result.count ≡ 0 }
    {
        Visits { count: 0 }
    }

    /// How many were.
    pub(crate) fn count(&self) -> u64
        ensures { result ≡ self.now.count }
    {
        self.count
    }

    // Visits a node. Nothing else makes a `Visited`, and nothing else changes the count.
    fn visit<'a>(&mut self, node: &'a Node) -> Visited<'a>
        ensures node { node_of result ≡ node.now }
        ensures count { self.new.count ≡ min (self.old.count + 1) u64.MAX }
    {
        self.count = self.count.saturating_add(1);
        Visited { node }
    }
}

impl<'a> Tree<'a> {
    /// That of a cord.
    pub(crate) fn new(cord: &'a Cord) -> Tree<'a>
        ensures cord { result.cord.now ≡ cord.now }
        ensures sound { IsCord cord.now }
    {
        let _root = cord.root();
        Tree { cord }
    }

    /// The cord.
    pub(crate) fn cord(self) -> &'a Cord
        ensures { result.now ≡ self.entry.cord.now }
    {
        self.cord
    }

    /// The length of its text.
    pub(crate) fn len(self) -> u64
        ensures { result ≡ text_len self.entry.cord.now }
    {
        self.cord.len()
    }

    /// Steps to the root.
    pub(crate) fn root(self, visits: &mut Visits) -> Visited<'a>
        requires some { 0 < text_len self.cord.now }
        ensures root { self.entry.cord.now ≡ Some (node_of result) }
        ensures sound { IsSound (node_of result) }
        ensures count { visits.new.count ≡ min (visits.old.count + 1) u64.MAX }
    {
        let Some(root) = self.cord.root() else {
            unreachable!()
        };
        visits.visit(root.as_ref())
    }
}

impl<'a> Visited<'a> {
    /// The length of the node's text.
    pub(crate) fn len(self) -> u64
        ensures { result ≡ len_of (node_of self.entry) }
    {
        self.node.len()
    }

    /// Steps down to the side that holds an index, if the node is no part. A step to the right reads the left side's
    /// length, which is no visit.
    pub(crate) fn step(self, index: u64, visits: &mut Visits) -> Option<VisitedSide<'a>>
        ensures side { MatchOption result (side_at (node_of self.entry) index ≡ None)
            (λ side. side_at (node_of self.entry) index ≡ Some (node_of side.node, side.offset)) }
        ensures count { MatchOption result (visits.new.count ≡ visits.old.count)
            (λ _. visits.new.count ≡ min (visits.old.count + 1) u64.MAX) }
    {
        let side = side_of(self.node, index)?;
        let node = visits.visit(side.node);
        Some(VisitedSide {
            node,
            offset: side.start,
        })
    }

    /// What a part has from one place on, up to another: the caller gets no node.
    pub(crate) fn span(self, from: u64, to: u64) -> Option<Span<'a>>
        requires { IsRangeOfPart (node_of self) from to }
        ensures { HasSpan (node_of self.entry) from to result }
    {
        Span::of_part(self.node, from, to)
    }

    /// The byte of a part's text at a place, of a function part by one read of one byte.
    pub(crate) fn byte<S: Source>(self, place: u64, src: &mut S) -> Result<u8, ReadFault>
        requires place { IsPlaceOfPart (node_of self) place }
        requires fits { FitsIn (S.lengths src.old) (node_of self) }
        ensures byte { (file_system : FileSystem) → S.consistent src.new file_system →
            IfOk result (λ b. HasByte (S.table src.old file_system) (node_of self.entry) place b) }
        ensures count { S.failures src.new ≡ count_after (is_err result) (S.failures src.old) }
        ensures source { LeavesSource ⟦<S as Source>⟧ src.old src.new }
    {
        match self.node {
            Node::Leaf { bytes, start, .. } => Ok(bytes.as_slice()[(*start + place) as usize]),
            Node::Run { byte, .. } => Ok(*byte),
            Node::Func { id, start, .. } => {
                let mut byte = [0];
                src.read(*id, *start + place, &mut byte)?;
                Ok(byte[0])
            }
            Node::Cat { .. } => unreachable!(),
        }
    }
}
