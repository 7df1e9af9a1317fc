// Copies of the bytes of a text.
ghost use Rattle.std.specs.Prelude.{◌≡◌, ◌+◌, ◌-◌, ◌<◌, ◌≤◌, length, take, drop, min};
ghost use Rattle.cord_node.specs.Tree.{len_of, IsSound};
ghost use Rattle.cord_node.specs.Tables.{bytes_over, FitsIn};
ghost use Rattle.cord.specs.Plain.{no_lengths, no_table};

use cord::Text;
use cord_core::Node;

/// Copies bytes of a text from `start` on, as many as there are and `bytes` has room for: how many. It takes no memory.
pub(crate) fn copy_from(text: &Text, start: u64, bytes: &mut [u8]) -> usize
    ensures count { result ≡ min (length bytes.old) (length text.now - start) }
    ensures bytes { take result bytes.new ≡ take (length bytes.old) (drop start text.now) }
    ensures rest { drop result bytes.new ≡ drop result bytes.old }
{
    let left = text.len().saturating_sub(start);
    let count = left.min(bytes.len() as u64) as usize;
    if count == 0 {
        return 0;
    }
    let Some(root) = text.as_cord().root() else {
        return 0;
    };
    copy_range(root.as_ref(), start, &mut bytes[..count]);
    count
}

// Copies as many bytes of a node from a place on as `bytes` has, at least one.
fn copy_range(node: &Node, from: u64, bytes: &mut [u8])
    requires sound { IsSound node.now }
    requires plain { FitsIn no_lengths node.now }
    requires some { 0 < length bytes.old }
    requires inside { from + length bytes.old ≤ len_of node.now }
    ensures { bytes.new ≡ take (length bytes.old) (drop from (bytes_over no_table node.now)) }
{
    match node {
        Node::Leaf {
            bytes: own,
            start,
            ..
        } => {
            let at = (*start + from) as usize;
            bytes.copy_from_slice(&own.as_slice()[at..at + bytes.len()]);
        }
        Node::Run { byte, .. } => bytes.fill(*byte),
        // A text has no function parts.
        Node::Func { .. } => {}
        Node::Cat { left, right, .. } => {
            let middle = left.len();
            if from + bytes.len() as u64 <= middle {
                copy_range(left.as_ref(), from, bytes);
            } else if middle <= from {
                copy_range(right.as_ref(), from - middle, bytes);
            } else {
                let (prefix, back) = bytes.split_at_mut((middle - from) as usize);
                copy_range(left.as_ref(), from, prefix);
                copy_range(right.as_ref(), 0, back);
            }
        }
    }
}
