// Pieces are taken off the end of a forest and joined.
ghost use Rattle.std.specs.Prelude.{◌≡◌, ◌+◌, ◌<◌, ◌≤◌, [], ◌∷◌, ◌++◌, IfOk, OnOk, IfSome, IfNone, length, max};
ghost use Rattle.std.specs.Option.{ForSome};
ghost use Rattle.cord_node.specs.Tree.{cells, len_of, depth_of, count_of, IsSound};
ghost use Rattle.cord_node.specs.PartsFrom.{parts, PartsFrom};
ghost use Rattle.cord_balance.specs.Fib.{fib_of, IsSlotOf};
ghost use Rattle.cord_balance.specs.inner.Forest.{IsPieceInSlot, AllFrom, IsForest, forest_cells, forest_parts};
ghost use Rattle.cord_balance.specs.inner.Forest.{forest_len};
ghost use Rattle.cord_balance.specs.inner.Forest.{piece_cells, piece_parts, piece_len, IsGatheredBelow};

use super::Piece;
use crate::{MAX_INDEX, slot_of};
use cord_io::MAX_LEN;
use cord_node::{Node, join};
use std::alloc::{AllocError, Global};
use std::rc::Rc;

// The last piece, if its slot is below `below`.
fn pop_below(forest: &mut Vec<Piece>, below: u32) -> Option<Piece>
    requires { IsForest forest.old.items }
    ensures taken { IfSome result (λ p. forest.old.items ≡ forest.new.items ++ p ∷ []) }
    ensures piece { IfSome result (λ p. IsPieceInSlot p) }
    ensures below { IfSome result (λ p. p.slot < below) }
    ensures falls { IfSome result (λ p. AllFrom (p.slot + 1) forest.new.items) }
    ensures rest { IsForest forest.new.items }
    ensures none { IfNone result (AllFrom below forest.new.items) }
    ensures unchanged { IfNone result (forest.new.items ≡ forest.old.items) }
{
    let slot = forest.last()?.slot;
    if below <= slot {
        return None;
    }
    let piece = forest.pop()?;
    Some(piece)
}

// A longer node with what stands to its right.
#[tactic(auto, using(crate::proofs::ForestLemmas::joins))]
fn put_left(alloc: Global, left: Rc<Node>, right: Option<Rc<Node>>) -> Result<Rc<Node>, AllocError>
    requires left_sound { IsSound left.value }
    requires shallow { fib_of (depth_of left.value + 1) ≤ count_of left.value }
    requires right_sound { ForSome right (λ r. IsSound r.value) }
    requires right_shallow { ForSome right (λ r. fib_of (depth_of r.value + 1) ≤ count_of left.value) }
    requires within_limit { len_of left.value + piece_len right ≤ MAX_LEN }
    ensures sound { IfOk result (λ node. IsSound node.value) }
    ensures text { IfOk result (λ node. cells node.value ≡ cells left.value ++ piece_cells right) }
    ensures len { IfOk result (λ node. len_of node.value ≡ len_of left.value + piece_len right) }
    ensures parts_from { IfOk result (λ node. PartsFrom (parts left.value ++ piece_parts right) (parts node.value)) }
    ensures shallow { IfOk result (λ node. fib_of (depth_of node.value) ≤ count_of node.value) }
    ensures alone { IfNone right (IfOk result (λ node. depth_of node.value ≡ depth_of left.value)) }
    ensures depth { IfSome right
        (λ r. IfOk result (λ node. depth_of node.value ≤ max (depth_of left.value) (depth_of r.value) + 1)) }
{
    let Some(right) = right else {
        return Ok(left);
    };
    let joined = join(alloc, &left, &right)?;
    Ok(joined)
}

/// Takes all pieces of slots below `below` off the end, and joins them.
pub fn gather(
    alloc: Global,
    forest: &mut Vec<Piece>,
    below: u32,
) -> Result<Option<Rc<Node>>, AllocError>
    requires forest { IsForest forest.old.items }
    requires within_limit { forest_len forest.old.items ≤ MAX_LEN }
    ensures rest { IsForest forest.new.items }
    ensures from { OnOk result (AllFrom below forest.new.items) }
    ensures text { IfOk result (λ o. forest_cells forest.old.items ≡ forest_cells forest.new.items ++ piece_cells o) }
    ensures len { IfOk result (λ o. forest_len forest.old.items ≡ forest_len forest.new.items + piece_len o) }
    ensures parts_from { IfOk result (λ o. PartsFrom (forest_parts forest.old.items)
        (forest_parts forest.new.items ++ piece_parts o)) }
    ensures gathered { IfOk result (λ o. IsGatheredBelow below o) }
{
    let mut joined: Option<Rc<Node>> = None;
    while let Some(piece) = pop_below(forest, below) {
        joined = Some(put_left(alloc, piece.node, joined)?);
    }
    Ok(joined)
}

/// All pieces, at least one, joined.
pub fn gather_all(alloc: Global, forest: &mut Vec<Piece>) -> Result<Rc<Node>, AllocError>
    requires forest { IsForest forest.old.items }
    requires within_limit { forest_len forest.old.items ≤ MAX_LEN }
    requires some { 0 < forest_len forest.old.items }
    ensures sound { IfOk result (λ node. IsSound node.value) }
    ensures text { IfOk result (λ node. cells node.value ≡ forest_cells forest.old.items) }
    ensures len { IfOk result (λ node. len_of node.value ≡ forest_len forest.old.items) }
    ensures parts_from { IfOk result (λ node. PartsFrom (forest_parts forest.old.items) (parts node.value)) }
{
    match gather(alloc, forest, MAX_INDEX)? {
        Some(node) => Ok(node),
        None => unreachable!(),
    }
}

/// Puts a node after the pieces, joined with each last one whose slot isn't above its own.
pub fn merge(alloc: Global, forest: &mut Vec<Piece>, node: Rc<Node>) -> Result<(), AllocError>
    requires forest { IsForest forest.old.items }
    requires sound { IsSound node.value }
    requires shallow { fib_of (depth_of node.value + 1) ≤ count_of node.value }
    requires beyond { AllFrom (depth_of node.value) forest.old.items }
    requires within_limit { forest_len forest.old.items + len_of node.value ≤ MAX_LEN }
    ensures rest { OnOk result (IsForest forest.new.items) }
    ensures text { OnOk result (forest_cells forest.new.items ≡ forest_cells forest.old.items ++ cells node.value) }
    ensures len { OnOk result (forest_len forest.new.items ≡ forest_len forest.old.items + len_of node.value) }
    ensures parts_from { OnOk result (PartsFrom (forest_parts forest.old.items ++ parts node.value)
        (forest_parts forest.new.items)) }
{
    let mut joined = node;
    let mut slot = slot_of(joined.part_count());
    while let Some(piece) = pop_below(forest, slot + 1) {
        joined = join(alloc, &piece.node, &joined)?;
        slot = slot_of(joined.part_count());
    }
    forest.push(Piece { node: joined, slot })?;
    Ok(())
}

// A node with what stands to its left.
fn put_right(alloc: Global, left: Option<Rc<Node>>, right: Rc<Node>) -> Result<Rc<Node>, AllocError>
    requires left_sound { ForSome left (λ l. IsSound l.value) }
    requires left_shallow { ForSome left (λ l. fib_of (depth_of l.value) ≤ count_of l.value) }
    requires left_fits { ForSome left (λ l. fib_of (depth_of l.value + 1) ≤ count_of right.value) }
    requires sound { IsSound right.value }
    requires balanced { fib_of (depth_of right.value + 2) ≤ count_of right.value }
    requires within_limit { piece_len left + len_of right.value ≤ MAX_LEN }
    ensures sound { IfOk result (λ node. IsSound node.value) }
    ensures text { IfOk result (λ node. cells node.value ≡ piece_cells left ++ cells right.value) }
    ensures len { IfOk result (λ node. len_of node.value ≡ piece_len left + len_of right.value) }
    ensures parts_from { IfOk result (λ node. PartsFrom (piece_parts left ++ parts right.value) (parts node.value)) }
    ensures shallow { IfOk result (λ node. fib_of (depth_of node.value + 1) ≤ count_of node.value) }
    ensures alone { IfNone left (IfOk result (λ node. depth_of node.value ≡ depth_of right.value)) }
    ensures depth { IfSome left
        (λ l. IfOk result (λ node. depth_of node.value ≤ max (depth_of l.value) (depth_of right.value) + 1)) }
{
    let Some(left) = left else {
        return Ok(right);
    };
    let node = join(alloc, &left, &right)?;
    Ok(node)
}

/// Puts a balanced node after the pieces.
pub fn insert(alloc: Global, forest: &mut Vec<Piece>, node: Rc<Node>) -> Result<(), AllocError>
    requires forest { IsForest forest.old.items }
    requires sound { IsSound node.value }
    requires balanced { fib_of (depth_of node.value + 2) ≤ count_of node.value }
    requires within_limit { forest_len forest.old.items + len_of node.value ≤ MAX_LEN }
    ensures rest { OnOk result (IsForest forest.new.items) }
    ensures text { OnOk result (forest_cells forest.new.items ≡ forest_cells forest.old.items ++ cells node.value) }
    ensures len { OnOk result (forest_len forest.new.items ≡ forest_len forest.old.items + len_of node.value) }
    ensures parts_from { OnOk result (PartsFrom (forest_parts forest.old.items ++ parts node.value)
        (forest_parts forest.new.items)) }
{
    let slot = slot_of(node.part_count());
    let small = gather(alloc, forest, slot)?;
    let joined = put_right(alloc, small, node)?;
    merge(alloc, forest, joined)
}
