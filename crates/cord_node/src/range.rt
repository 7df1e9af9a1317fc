// A range of a node.
ghost use Rattle.std.specs.Prelude.{◌≡◌, ◌+◌, ◌<◌, ◌≤◌, [], ◌∷◌, IfOk, length, map, take, drop};
ghost use Rattle.std.specs.Rc.{rc_slice_items};
ghost use Rattle.cord_node.specs.Tree.{cells, known, len_of, depth_of, IsSound};
ghost use Rattle.cord_node.specs.PartsFrom.{parts, leaf_part, PartsFrom};
ghost use Rattle.cord_node.specs.Touched.{touched};

use crate::make::leaf_range;
use crate::{Node, func, join, run};
use cord_io::MAX_LEN;
use std::alloc::{AllocError, Global};
use std::rc::{Rc, RcSlice};

// A part that is `len` of these bytes, from `start` on, which are shared.
fn shared_range(
    alloc: Global,
    bytes: &RcSlice<u8>,
    start: u64,
    len: u64,
) -> Result<Rc<Node>, AllocError>
    requires not_empty { 0 < len }
    requires inside { start + len ≤ length (rc_slice_items bytes.now) }
    requires within_limit { len ≤ MAX_LEN }
    ensures sound { IfOk result (λ node. IsSound node.value) }
    ensures text { IfOk result (λ node. cells node.value
        ≡ map known (take len (drop start (rc_slice_items bytes.now)))) }
    ensures part { IfOk result (λ node. parts node.value ≡ leaf_part (rc_slice_items bytes.now) start len ∷ []) }
    ensures len { IfOk result (λ node. len_of node.value ≡ len) }
    ensures depth { IfOk result (λ node. depth_of node.value ≡ 0) }
{
    let bytes = bytes.clone()?;
    leaf_range(alloc, bytes, start, len)
}

/// The `count` bytes from `from` on, at least one: whole sides and the bytes of leaves are shared, and
/// a new concatenation is made only where the range goes over the seam of one. No more parts than those that have a
/// byte in the range. Refused where memory was refused.
pub fn sub_node(
    alloc: Global,
    node: &Rc<Node>,
    from: u64,
    count: u64,
) -> Result<Rc<Node>, AllocError>
    requires sound { IsSound node.now.value }
    requires not_empty { 0 < count }
    requires inside { from + count ≤ len_of node.now.value }
    ensures sound { IfOk result (λ part. IsSound part.value) }
    ensures text { IfOk result (λ part. cells part.value ≡ take count (drop from (cells node.now.value))) }
    ensures len { IfOk result (λ part. len_of part.value ≡ count) }
    ensures depth { IfOk result (λ part. depth_of part.value ≤ depth_of node.now.value) }
    ensures parts_from { IfOk result (λ part. PartsFrom (parts node.now.value) (parts part.value)) }
    ensures few { IfOk result (λ part. length (parts part.value) ≤ touched from (from + count) (parts node.now.value)) }
{
    if count == node.len() {
        return node.clone();
    }
    match node.as_ref() {
        Node::Leaf { bytes, start, .. } => shared_range(alloc, bytes, *start + from, count),
        Node::Run { byte, .. } => run(alloc, *byte, count),
        Node::Func { id, start, .. } => func(alloc, *id, *start + from, count),
        Node::Cat { left, right, .. } => {
            let middle = left.len();
            if from + count <= middle {
                sub_node(alloc, left, from, count)
            } else if middle <= from {
                sub_node(alloc, right, from - middle, count)
            } else {
                let left = sub_node(alloc, left, from, middle - from)?;
                let right = sub_node(alloc, right, 0, from + count - middle)?;
                join(alloc, &left, &right)
            }
        }
    }
}
