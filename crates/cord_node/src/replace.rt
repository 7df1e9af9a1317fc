// A node with another text in the place of a range of it.
ghost use Rattle.std.specs.Prelude.{◌≡◌, ℕ, ◌+◌, ◌-◌, ◌<◌, ◌≤◌, [], ◌∷◌, ◌++◌, max, length, map, take, drop};
ghost use Rattle.std.specs.Prelude.{IfOk, IfSome};
ghost use Rattle.cord_node.specs.Tree.{cells, known, len_of, depth_of, IsSound};
ghost use Rattle.cord_node.specs.PartsFrom.{parts, leaf_part, AreFrom};
ghost use Rattle.cord_node.specs.Touched.{touched};
ghost use Rattle.cord_node.specs.Cords.{node_in, text, text_len, depth, parts_of, IsCord};
ghost use Rattle.cord_node.specs.inner.Splices.{IsSplice};

use crate::{Node, SMALL_LEN, join, leaf, sub_node};
use cord_io::{MAX_DEPTH, MAX_LEN};
use std::alloc::{AllocError, Global};
use std::rc::{Rc, RcSlice};

// The bytes from `from` up to `until`, where there are any.
fn range_of(
    alloc: Global,
    node: &Rc<Node>,
    from: u64,
    until: u64,
) -> Result<Option<Rc<Node>>, AllocError>
    requires sound { IsSound node.now.value }
    requires order { from ≤ until }
    requires inside { until ≤ len_of node.now.value }
    ensures sound { IfOk result (λ part. IsCord (node_in part)) }
    ensures text { IfOk result (λ part. text (node_in part) ≡ take (until - from) (drop from (cells node.now.value))) }
    ensures len { IfOk result (λ part. text_len (node_in part) ≡ until - from) }
    ensures depth { IfOk result (λ part. depth (node_in part) ≤ depth_of node.now.value) }
    ensures from_there { IfOk result (λ part. AreFrom (parts_of (node_in part)) (parts node.now.value)) }
    ensures few { IfOk result (λ part. length (parts_of (node_in part)) ≤ touched from until (parts node.now.value)) }
{
    if from == until {
        return Ok(None);
    }
    let part = sub_node(alloc, node, from, until - from)?;
    Ok(Some(part))
}

// A node once more, where there is one.
fn shared(node: &Option<Rc<Node>>) -> Result<Option<Rc<Node>>, AllocError>
    ensures { IfOk result (λ same. node_in same ≡ node_in node.now) }
{
    match node {
        None => Ok(None),
        Some(node) => {
            let same = node.clone()?;
            Ok(Some(same))
        }
    }
}

// Two texts joined, each of which may be none.
fn joined(
    alloc: Global,
    left: &Option<Rc<Node>>,
    right: &Option<Rc<Node>>,
) -> Result<Option<Rc<Node>>, AllocError>
    requires left_sound { IsCord (node_in left.now) }
    requires right_sound { IsCord (node_in right.now) }
    requires within_limit { text_len (node_in left.now) + text_len (node_in right.now) ≤ MAX_LEN }
    requires shallow { max (depth (node_in left.now)) (depth (node_in right.now)) + 1 ≤ MAX_DEPTH }
    ensures sound { IfOk result (λ both. IsCord (node_in both)) }
    ensures text { IfOk result (λ both. text (node_in both) ≡ text (node_in left.now) ++ text (node_in right.now)) }
    ensures len { IfOk result (λ both. text_len (node_in both)
        ≡ text_len (node_in left.now) + text_len (node_in right.now)) }
    ensures depth { IfOk result (λ both. depth (node_in both)
        ≤ max (depth (node_in left.now)) (depth (node_in right.now)) + 1) }
    ensures from_there { IfOk result (λ both. AreFrom (parts_of (node_in both))
        (parts_of (node_in left.now) ++ parts_of (node_in right.now))) }
    ensures few { IfOk result (λ both. length (parts_of (node_in both))
        ≤ length (parts_of (node_in left.now)) + length (parts_of (node_in right.now))) }
{
    let (Some(a), Some(b)) = (left, right) else {
        let one = if left.is_some() {
            shared(left)?
        } else {
            shared(right)?
        };
        return Ok(one);
    };
    let both = join(alloc, a, b)?;
    Ok(Some(both))
}

// Whether a node is a leaf so short that it can be joined to one with another.
#[inline(always)]
pub fn is_short(node: &Node) -> bool {
    match node {
        Node::Leaf { len, .. } => *len < SMALL_LEN as u64,
        _ => false,
    }
}

// Whether the two are leaves that are joined to one.
pub fn are_merged(left: &Node, right: &Node) -> bool {
    match (left, right) {
        (Node::Leaf { len: a, .. }, Node::Leaf { len: b, .. }) => {
            a.saturating_add(*b) <= SMALL_LEN as u64
        }
        _ => false,
    }
}

// One leaf of the bytes of three, one after the other.
fn merged_three(
    alloc: Global,
    prefix: &[u8],
    middle: &[u8],
    back: &[u8],
) -> Result<Rc<Node>, AllocError>
    requires not_empty { 0 < length prefix.now + length middle.now + length back.now }
    requires small { length prefix.now + length middle.now + length back.now ≤ SMALL_LEN }
    ensures sound { IfOk result (λ node. IsSound node.value) }
    ensures text { IfOk result (λ node. cells node.value ≡ map known (prefix.now ++ middle.now ++ back.now)) }
    ensures part { IfOk result (λ node. parts node.value
        ≡ leaf_part (prefix.now ++ middle.now ++ back.now) 0 (length prefix.now + length middle.now + length back.now)
        ∷ []) }
    ensures len { IfOk result (λ node. len_of node.value ≡ length prefix.now + length middle.now + length back.now) }
    ensures depth { IfOk result (λ node. depth_of node.value ≡ 0) }
{
    let mut bytes = Vec::with_capacity(alloc, prefix.len() + middle.len() + back.len())?;
    bytes.extend_from_slice(prefix)?;
    bytes.extend_from_slice(middle)?;
    bytes.extend_from_slice(back)?;
    leaf(alloc, RcSlice::from_vec(bytes)?)
}

// The bytes of a leaf, and none where there is no node.
fn some_bytes(node: &Option<Rc<Node>>) -> Option<&[u8]>
    requires { IsCord (node_in node.now) }
    ensures text { IfSome result (λ bytes. text (node_in node.now) ≡ map known bytes.now) }
    ensures len { IfSome result (λ bytes. length bytes.now ≡ text_len (node_in node.now)) }
{
    match node {
        None => Some(&[]),
        Some(node) => node.leaf_bytes(),
    }
}

// A leaf with the bytes of another in the place of a range of it, as one leaf, where all are so short together.
fn short_replaced(
    alloc: Global,
    node: &Rc<Node>,
    from: u64,
    until: u64,
    middle: &Option<Rc<Node>>,
) -> Result<Option<Rc<Node>>, AllocError>
    requires sound { IsSound node.now.value }
    requires middle_sound { IsCord (node_in middle.now) }
    requires order { from ≤ until }
    requires inside { until ≤ len_of node.now.value }
    requires not_empty { 0 < from + text_len (node_in middle.now) + (len_of node.now.value - until) }
    requires within_limit { from + text_len (node_in middle.now) + (len_of node.now.value - until) ≤ MAX_LEN }
    ensures { IfOk result (λ new. IfSome new (λ new.
        IsSplice from until (node_in middle.now) node.now.value new.value)) }
{
    if from + (node.len() - until) > SMALL_LEN as u64 {
        return Ok(None);
    }
    match (node.leaf_bytes(), some_bytes(middle)) {
        (Some(old), Some(inner)) if inner.len() <= SMALL_LEN => {
            let prefix = &old[..from as usize];
            let back = &old[until as usize..];
            if prefix.len() + inner.len() + back.len() > SMALL_LEN {
                return Ok(None);
            }
            let new = merged_three(alloc, prefix, inner, back)?;
            Ok(Some(new))
        }
        _ => Ok(None),
    }
}

// The text of `node` with `middle` in the place of its bytes from `from` up to `until`. Where `middle` and what is
// left after it are one leaf together they are joined first, and else `middle` and what is left in front.
pub fn replaced(
    alloc: Global,
    node: &Rc<Node>,
    from: u64,
    until: u64,
    middle: &Option<Rc<Node>>,
) -> Result<Rc<Node>, AllocError>
    requires sound { IsSound node.now.value }
    requires middle_sound { IsCord (node_in middle.now) }
    requires order { from ≤ until }
    requires inside { until ≤ len_of node.now.value }
    requires not_empty { 0 < from + text_len (node_in middle.now) + (len_of node.now.value - until) }
    requires within_limit { from + text_len (node_in middle.now) + (len_of node.now.value - until) ≤ MAX_LEN }
    requires shallow { max (depth_of node.now.value) (depth (node_in middle.now)) + 2 ≤ MAX_DEPTH }
    ensures { IfOk result (λ new. IsSplice from until (node_in middle.now) node.now.value new.value) }
{
    if let Some(new) = short_replaced(alloc, node, from, until, middle)? {
        return Ok(new);
    }
    let prefix = range_of(alloc, node, 0, from)?;
    let back = range_of(alloc, node, until, node.len())?;
    let all = joined_three(alloc, &prefix, middle, &back)?;
    match all {
        Some(new) => Ok(new),
        None => unreachable!(),
    }
}

// Whether the two are leaves that are joined to one, where there are two.
fn some_merged(left: &Option<Rc<Node>>, right: &Option<Rc<Node>>) -> bool {
    match (left, right) {
        (Some(left), Some(right)) => are_merged(left, right),
        _ => false,
    }
}

// Three texts joined, each of which may be none: first the last two where they are one leaf, and else the first two.
fn joined_three(
    alloc: Global,
    prefix: &Option<Rc<Node>>,
    middle: &Option<Rc<Node>>,
    back: &Option<Rc<Node>>,
) -> Result<Option<Rc<Node>>, AllocError>
    requires prefix_sound { IsCord (node_in prefix.now) }
    requires middle_sound { IsCord (node_in middle.now) }
    requires back_sound { IsCord (node_in back.now) }
    requires within_limit { text_len (node_in prefix.now) + text_len (node_in middle.now)
        + text_len (node_in back.now) ≤ MAX_LEN }
    requires shallow { max (max (depth (node_in prefix.now)) (depth (node_in middle.now)))
        (depth (node_in back.now)) + 2 ≤ MAX_DEPTH }
    ensures sound { IfOk result (λ all. IsCord (node_in all)) }
    ensures text { IfOk result (λ all. text (node_in all)
        ≡ text (node_in prefix.now) ++ text (node_in middle.now) ++ text (node_in back.now)) }
    ensures len { IfOk result (λ all. text_len (node_in all)
        ≡ text_len (node_in prefix.now) + text_len (node_in middle.now) + text_len (node_in back.now)) }
    ensures depth { IfOk result (λ all. depth (node_in all)
        ≤ max (max (depth (node_in prefix.now)) (depth (node_in middle.now)))
        (depth (node_in back.now)) + 2) }
    ensures from_there { IfOk result (λ all. AreFrom (parts_of (node_in all))
        (parts_of (node_in prefix.now) ++ parts_of (node_in middle.now) ++ parts_of (node_in back.now))) }
    ensures few { IfOk result (λ all. length (parts_of (node_in all)) ≤ length (parts_of (node_in prefix.now))
        + length (parts_of (node_in middle.now)) + length (parts_of (node_in back.now))) }
{
    if some_merged(middle, back) {
        let back = joined(alloc, middle, back)?;
        let all = joined(alloc, prefix, &back)?;
        Ok(all)
    } else {
        let prefix = joined(alloc, prefix, middle)?;
        let all = joined(alloc, &prefix, back)?;
        Ok(all)
    }
}
