// Spans: texts that lie in one part.
ghost use Rattle.std.specs.Prelude.{◌≡◌, ◌-◌, ◌<◌, ◌≤◌, false, None, IfSome};
ghost use Rattle.cord_node.specs.Tree.{len_of, IsSound};
ghost use Rattle.cord_pos.specs.Spans.{is_part};
ghost use Rattle.cord_pos.specs.Spans.{span_len, IsSpanAt, IsSpanPrefix};

use cord_io::SourceId;
use cord_node::Node;

/// A text that lies in one part: bytes of a leaf, a byte `len` times, or `len` bytes of a source of a table from place
/// `start` on.
#[derive(Clone, Copy)]
pub enum Span<'a> {
    Bytes(&'a [u8]),
    Run { byte: u8, len: u64 },
    Func { id: SourceId, start: u64, len: u64 },
}

impl<'a> Span<'a> {
    /// What a part has from one place on, up to another: none of a concatenation. No byte is copied or read.
    pub fn of_part(node: &'a Node, from: u64, to: u64) -> Option<Span<'a>>
        requires sound { IsSound node.now }
        requires some { from < to }
        requires inside { to ≤ len_of node.now }
        ensures span { IfSome result (IsSpanAt node.now from) }
        ensures len { IfSome result (λ s. span_len s ≡ to - from) }
        ensures none { result ≡ None → is_part node.now ≡ false }
    {
        match node {
            Node::Leaf { bytes, start, .. } => Some(Span::Bytes(
                &bytes.as_slice()[(*start + from) as usize..(*start + to) as usize],
            )),
            Node::Run { byte, .. } => Some(Span::Run {
                byte: *byte,
                len: to - from,
            }),
            Node::Func { id, start, .. } => Some(Span::Func {
                id: *id,
                start: *start + from,
                len: to - from,
            }),
            Node::Cat { .. } => None,
        }
    }

    /// The length.
    pub fn len(self) -> u64
        ensures { result ≡ span_len self.entry }
    {
        match self {
            Span::Bytes(bytes) => bytes.len() as u64,
            Span::Run { len, .. } => len,
            Span::Func { len, .. } => len,
        }
    }

    /// Its first `count` bytes.
    pub fn up_to(self, count: u64) -> Span<'a>
        requires { count ≤ span_len self }
        ensures { IsSpanPrefix self.entry count result }
    {
        match self {
            Span::Bytes(bytes) => Span::Bytes(&bytes[..count as usize]),
            Span::Run { byte, .. } => Span::Run { byte, len: count },
            Span::Func { id, start, .. } => Span::Func {
                id,
                start,
                len: count,
            },
        }
    }
}
