//! Nodes of a rope: parts of a text, and concatenations that share their two sides.
#![tactic(auto)]

ghost use Rattle.std.specs.Prelude.{◌≡◌, length};

use cord_io::SourceId;
use cord_mark::Mark;
use std::rc::{Rc, RcSlice};

/// Two leaves of at most this many bytes together are joined to one leaf.
pub const SMALL_LEN: usize = 64;

/// A text of at least one byte: a part, or two texts joined. By the marks of its leaves and
/// concatenations `same` tells one node from two that are equal. Fields stand in the order in which `len` has one place
/// in all forms, so that it is read without looking at the form, and in which a node has 40 bytes.
#[derive(Drop)]
pub enum Node {
    /// The `len` bytes from `start` on of shared bytes.
    Leaf {
        len: u64,
        bytes: RcSlice<u8>,
        start: u64,
        mark: Mark,
    },
    /// One byte, `len` times.
    Run {
        byte: u8,
        len: u64,
    },
    /// The `len` bytes from `start` on of a source.
    Func {
        id: SourceId,
        len: u64,
        start: u64,
    },
    /// The text of `left` and then that of `right`, with its length, its depth and the number of its parts.
    Cat {
        mark: Mark,
        depth: u32,
        len: u64,
        left: Rc<Node>,
        right: Rc<Node>,
        part_count: u64,
    },
}

impl Node {
    ghost use Rattle.std.specs.Prelude.{MatchOption, IfSome, false, true, map};
    ghost use Rattle.cord_node.specs.PartsFrom.{parts};
    ghost use Rattle.cord_node.specs.Tree.{cells, known, len_of, depth_of, count_of, true_len, true_depth};
    ghost use Rattle.cord_node.specs.Tree.{is_leaf, IsSound};

    /// The length of the text, in bytes.
    pub fn len(&self) -> u64
        ensures stored { result ≡ len_of self.now }
        ensures truth { IsSound self.now → result ≡ true_len self.now }
        ensures text { IsSound self.now → result ≡ length (cells self.now) }
    {
        let len = match self {
            Node::Leaf { len, .. } => len,
            Node::Run { len, .. } => len,
            Node::Func { len, .. } => len,
            Node::Cat { len, .. } => len,
        };
        *len
    }

    /// The steps from this node to its deepest part: 0 for a part.
    pub fn depth(&self) -> u32
        ensures stored { result ≡ depth_of self.now }
        ensures truth { IsSound self.now → result ≡ true_depth self.now }
    {
        let depth = match self {
            Node::Cat { depth, .. } => *depth,
            _ => 0,
        };
        depth
    }

    /// How many parts the text has, each counted at every place where it stands: 1 for a part.
    pub fn part_count(&self) -> u64
        ensures stored { result ≡ count_of self.now }
        ensures truth { IsSound self.now → result ≡ length (parts self.now) }
    {
        let count = match self {
            Node::Cat { part_count, .. } => *part_count,
            _ => 1,
        };
        count
    }

    /// Whether the two are one `Leaf` or one `Cat`; of the other forms, whether they are equal. Then
    /// they have one text, of the same parts. It takes the same time for nodes of any length.
    pub fn same(&self, other: &Node) -> bool
        requires { IsSound self.now × IsSound other.now }
        ensures text { result ≡ true → cells self.now ≡ cells other.now }
        ensures parts { result ≡ true → parts self.now ≡ parts other.now }
    {
        match (self, other) {
            (Node::Leaf { mark: mine, .. }, Node::Leaf { mark: others, .. }) => mine.same(others),
            (Node::Cat { mark: mine, .. }, Node::Cat { mark: others, .. }) => mine.same(others),
            (Node::Run { byte, len }, Node::Run { byte: b, len: n }) => byte == b && len == n,
            (
                Node::Func { id, start, len },
                Node::Func {
                    id: i,
                    start: s,
                    len: n,
                },
            ) => { id == i && start == s && len == n }
            _ => false,
        }
    }

    // The depth and the number of parts.
    fn shape(&self) -> (u32, u64)
        ensures depth { result.0 ≡ depth_of self.now }
        ensures count { result.1 ≡ count_of self.now }
    {
        match self {
            Node::Cat {
                depth,
                part_count,
                ..
            } => (*depth, *part_count),
            _ => (0, 1),
        }
    }

    // The bytes of a `Leaf`.
    fn leaf_bytes(&self) -> Option<&[u8]>
        requires { IsSound self.now }
        ensures form { MatchOption result (is_leaf self.now ≡ false) (λ _. is_leaf self.now ≡ true) }
        ensures text { IfSome result (λ bytes. cells self.now ≡ map known bytes.now) }
        ensures len { IfSome result (λ bytes. length bytes.now ≡ len_of self.now) }
    {
        match self {
            Node::Leaf {
                bytes,
                start,
                len,
                ..
            } => { Some(&bytes.as_slice()[*start as usize..(*start + *len) as usize]) }
            _ => None,
        }
    }
}

mod edit;
mod limits;
mod make;
mod range;
mod replace;

pub use edit::splice;
pub use limits::limits_are;
pub use make::{func, join, leaf, run};
pub use range::sub_node;
