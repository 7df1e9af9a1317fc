// Nodes made of parts and of other nodes.
ghost use Rattle.std.specs.Prelude.{◌≡◌, ◌+◌, ◌<◌, ◌≤◌, [], ◌∷◌, ◌++◌, true, false, max, length, map, IfOk};
ghost use Rattle.std.specs.Rc.{rc_slice_items};
ghost use Rattle.cord_node.specs.Tree.{cells, known, len_of, depth_of, count_of, is_leaf, are_merged, IsSound};
ghost use Rattle.cord_node.specs.Tree.{joined_depth, joined_count, HasSides};
ghost use Rattle.cord_node.specs.Tables.{IsJoinOver};
ghost use Rattle.cord_node.specs.PartsFrom.{parts, leaf_part, PartsFrom};

use crate::{Node, SMALL_LEN};
use cord_io::{MAX_DEPTH, MAX_LEN, SourceId};
use cord_mark::Mark;
use std::alloc::{AllocError, Global};
use std::rc::{Rc, RcSlice};

// A part that is `len` of these bytes, from `start` on.
pub fn leaf_range(
    alloc: Global,
    bytes: RcSlice<u8>,
    start: u64,
    len: u64,
) -> Result<Rc<Node>, AllocError>
    requires not_empty { 0 < len }
    requires inside { start + len ≤ length (rc_slice_items bytes) }
    requires within_limit { len ≤ MAX_LEN }
    ensures form { IfOk result (λ node. node.value ≡ Node.Leaf len bytes start
        (leaf_part (rc_slice_items bytes) start len ∷ [])) }
{
    let mark = Mark::new(&bytes, &(start, len));
    Ok(Rc::new(
        alloc,
        Node::Leaf {
            bytes,
            start,
            len,
            mark,
        },
    )?)
}

/// A part that is the whole of these bytes: 1 to `MAX_LEN` of them. Refused where memory was refused.
pub fn leaf(alloc: Global, bytes: RcSlice<u8>) -> Result<Rc<Node>, AllocError>
    requires not_empty { 0 < length (rc_slice_items bytes) }
    requires within_limit { length (rc_slice_items bytes) ≤ MAX_LEN }
    ensures form { IfOk result (λ node. node.value ≡ Node.Leaf (length (rc_slice_items bytes)) bytes 0
        (leaf_part (rc_slice_items bytes) 0 (length (rc_slice_items bytes)) ∷ [])) }
    ensures sound { IfOk result (λ node. IsSound node.value) }
    ensures depth { IfOk result (λ node. depth_of node.value ≡ 0) }
{
    let len = bytes.len() as u64;
    let node = leaf_range(alloc, bytes, 0, len)?;
    Ok(node)
}

/// A part that is one byte `len` times, where `len` is 1 to `MAX_LEN`. Refused where memory was refused.
pub fn run(alloc: Global, byte: u8, len: u64) -> Result<Rc<Node>, AllocError>
    requires not_empty { 0 < len }
    requires within_limit { len ≤ MAX_LEN }
    ensures form { IfOk result (λ node. node.value ≡ Node.Run byte len) }
    ensures sound { IfOk result (λ node. IsSound node.value) }
    ensures depth { IfOk result (λ node. depth_of node.value ≡ 0) }
{
    Ok(Rc::new(alloc, Node::Run { byte, len })?)
}

/// A part that is `len` bytes of the source `id`, from its byte `start` on: at least one byte, none
/// of them after the first `MAX_LEN`. Refused where memory was refused.
pub fn func(alloc: Global, id: SourceId, start: u64, len: u64) -> Result<Rc<Node>, AllocError>
    requires not_empty { 0 < len }
    requires within_limit { start + len ≤ MAX_LEN }
    ensures form { IfOk result (λ node. node.value ≡ Node.Func id len start) }
    ensures sound { IfOk result (λ node. IsSound node.value) }
    ensures depth { IfOk result (λ node. depth_of node.value ≡ 0) }
{
    Ok(Rc::new(alloc, Node::Func { id, start, len })?)
}

// What a concatenation of these two sides stores: its length, its depth, how many parts it has, and its mark.
#[inline(always)]
pub fn stored(left: &Rc<Node>, right: &Rc<Node>) -> (u64, u32, u64, Mark)
    requires left_sound { IsSound left.now.value }
    requires right_sound { IsSound right.now.value }
    requires within_limit { len_of left.now.value + len_of right.now.value ≤ MAX_LEN }
    requires shallow { max (depth_of left.now.value) (depth_of right.now.value) + 1 ≤ MAX_DEPTH }
    ensures len { result.0 ≡ len_of left.now.value + len_of right.now.value }
    ensures depth { result.1 ≡ max (depth_of left.now.value) (depth_of right.now.value) + 1 }
    ensures count { result.2 ≡ count_of left.now.value + count_of right.now.value }
    ensures mark { result.3 ≡ parts left.now.value ++ parts right.now.value }
{
    let len = left.len() + right.len();
    let (left_depth, left_count) = left.shape();
    let (right_depth, right_count) = right.shape();
    let depth = left_depth.max(right_depth) + 1;
    let part_count = left_count + right_count;
    let mark = Mark::new(left, right);
    (len, depth, part_count, mark)
}

// A concatenation that shares its two sides.
fn cat(alloc: Global, left: &Rc<Node>, right: &Rc<Node>) -> Result<Rc<Node>, AllocError>
    requires left_sound { IsSound left.now.value }
    requires right_sound { IsSound right.now.value }
    requires within_limit { len_of left.now.value + len_of right.now.value ≤ MAX_LEN }
    requires shallow { max (depth_of left.now.value) (depth_of right.now.value) + 1 ≤ MAX_DEPTH }
    ensures sound { IfOk result (λ node. IsSound node.value) }
    ensures form { IfOk result (λ node. is_leaf node.value ≡ false) }
    ensures sides { IfOk result (λ node. HasSides left.now.value right.now.value node.value) }
    ensures text { IfOk result (λ node. cells node.value ≡ cells left.now.value ++ cells right.now.value) }
    ensures parts { IfOk result (λ node. parts node.value ≡ parts left.now.value ++ parts right.now.value) }
    ensures len { IfOk result (λ node. len_of node.value ≡ len_of left.now.value + len_of right.now.value) }
    ensures depth { IfOk result (λ node. depth_of node.value ≡ max (depth_of left.now.value) (depth_of right.now.value)
        + 1) }
    ensures count { IfOk result (λ node. count_of node.value ≡ count_of left.now.value + count_of right.now.value) }
{
    let (len, depth, part_count, mark) = stored(left, right);
    let left = left.clone()?;
    let right = right.clone()?;
    Ok(Rc::new(
        alloc,
        Node::Cat {
            mark,
            depth,
            left,
            right,
            len,
            part_count,
        },
    )?)
}

// One leaf of the bytes of two.
fn merged(alloc: Global, left: &[u8], right: &[u8]) -> Result<Rc<Node>, AllocError>
    requires not_empty { 0 < length left.now + length right.now }
    requires small { length left.now + length right.now ≤ SMALL_LEN }
    ensures sound { IfOk result (λ node. IsSound node.value) }
    ensures form { IfOk result (λ node. is_leaf node.value ≡ true) }
    ensures text { IfOk result (λ node. cells node.value ≡ map known (left.now ++ right.now)) }
    ensures part { IfOk result (λ node. parts node.value
        ≡ leaf_part (left.now ++ right.now) 0 (length left.now + length right.now) ∷ []) }
    ensures len { IfOk result (λ node. len_of node.value ≡ length left.now + length right.now) }
    ensures depth { IfOk result (λ node. depth_of node.value ≡ 0) }
{
    let mut bytes = Vec::with_capacity(alloc, left.len() + right.len())?;
    bytes.extend_from_slice(left)?;
    bytes.extend_from_slice(right)?;
    leaf(alloc, RcSlice::from_vec(bytes)?)
}

/// The text of `left` and then that of `right`, which are shared. Two nodes of the form `Leaf`, of at
/// most `SMALL_LEN` bytes together, become one `Leaf`; all else becomes a `Cat`. The lengths sum to
/// at most `MAX_LEN`, and one plus the greater depth is at most `MAX_DEPTH`. Refused where memory was refused.
pub fn join(alloc: Global, left: &Rc<Node>, right: &Rc<Node>) -> Result<Rc<Node>, AllocError>
    requires left_sound { IsSound left.now.value }
    requires right_sound { IsSound right.now.value }
    requires within_limit { len_of left.now.value + len_of right.now.value ≤ MAX_LEN }
    requires shallow { max (depth_of left.now.value) (depth_of right.now.value) + 1 ≤ MAX_DEPTH }
    ensures sound { IfOk result (λ node. IsSound node.value) }
    ensures text { IfOk result (λ node. cells node.value ≡ cells left.now.value ++ cells right.now.value) }
    ensures over { IfOk result (λ node. IsJoinOver left.now.value right.now.value node.value) }
    ensures len { IfOk result (λ node. len_of node.value ≡ len_of left.now.value + len_of right.now.value) }

    ensures form { IfOk result (λ node. is_leaf node.value ≡ are_merged left.now.value right.now.value) }
    ensures sides { IfOk result (λ node. are_merged left.now.value right.now.value ≡ false →
        HasSides left.now.value right.now.value node.value) }
    ensures depth { IfOk result (λ node. depth_of node.value ≡ joined_depth left.now.value right.now.value) }
    ensures depth_bound { IfOk result (λ node. depth_of node.value
        ≤ max (depth_of left.now.value) (depth_of right.now.value) + 1) }
    ensures count { IfOk result (λ node. count_of node.value ≡ joined_count left.now.value right.now.value) }
    ensures parts_from { IfOk result (λ node. PartsFrom (parts left.now.value ++ parts right.now.value)
        (parts node.value)) }
{
    match (left.leaf_bytes(), right.leaf_bytes()) {
        (Some(a), Some(b)) if a.len() + b.len() <= SMALL_LEN => {
            let node = merged(alloc, a, b)?;
            Ok(node)
        }
        _ => {
            let node = cat(alloc, left, right)?;
            Ok(node)
        }
    }
}
