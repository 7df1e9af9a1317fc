// Trees are put into a forest, each greatest balanced part as one piece.
ghost use Rattle.std.specs.Prelude.{◌≡◌, ◌+◌, ◌<◌, ◌≤◌, ◌↔◌, ◌++◌, OnOk, IsTrue};
ghost use Rattle.cord_node.specs.Tree.{cells, len_of, depth_of, count_of, IsSound};
ghost use Rattle.cord_node.specs.PartsFrom.{parts, PartsFrom};
ghost use Rattle.cord_balance.specs.Fib.{fib_of};
ghost use Rattle.cord_balance.specs.Pieces.{all_cells, all_parts, total_len, AllSound};
ghost use Rattle.std.specs.List.{All};
ghost use Rattle.cord_balance.specs.inner.Forest.{IsForest, IsKnown, forest_cells, forest_parts, forest_len};

use super::Piece;
use super::balanced_trees::{Known, find};
use super::slots::{gather_all, insert};
use crate::{MAX_INDEX, fib};
use cord_io::MAX_LEN;
use cord_node::Node;
use std::alloc::{AllocError, Global};
use std::rc::Rc;

// It is long enough for its depth d: at least the Fibonacci number of index d + 2.
#[tactic(auto, using(crate::proofs::FibLemmas::fibs))]
fn is_balanced(node: &Node) -> bool
    requires { IsSound node.now }
    ensures { IsTrue result ↔ (fib_of (depth_of node.now + 2) ≤ count_of node.now) }
{
    let index = node.depth() + 2;
    index <= MAX_INDEX && fib(index) <= node.part_count()
}

/// Puts a tree after the pieces, each greatest balanced part of it as one piece.
#[tactic(auto, using(crate::proofs::FibLemmas::fibs))]
pub fn insert_tree(
    alloc: Global,
    forest: &mut Vec<Piece>,
    node: &Rc<Node>,
) -> Result<(), AllocError>
    requires forest { IsForest forest.old.items }
    requires sound { IsSound node.now.value }
    requires within_limit { forest_len forest.old.items + len_of node.now.value ≤ MAX_LEN }
    ensures rest { OnOk result (IsForest forest.new.items) }
    ensures text { OnOk result (forest_cells forest.new.items ≡ forest_cells forest.old.items ++ cells node.now.value) }
    ensures len { OnOk result (forest_len forest.new.items ≡ forest_len forest.old.items + len_of node.now.value) }
    ensures parts_from { OnOk result (PartsFrom (forest_parts forest.old.items ++ parts node.now.value)
        (forest_parts forest.new.items)) }
{
    if is_balanced(node) {
        let whole = node.clone()?;
        return insert(alloc, forest, whole);
    }
    match node.as_ref() {
        Node::Cat { left, right, .. } => {
            insert_tree(alloc, forest, left)?;
            insert_tree(alloc, forest, right)
        }
        Node::Leaf { .. } => unreachable!(),
        Node::Run { .. } => unreachable!(),
        Node::Func { .. } => unreachable!(),
    }
}

/// Puts a tree after the pieces, each greatest balanced part of it as one piece. A subtree that isn't balanced and has
/// more than `alone` owners, which is 1 for a side, is opened by itself where it is first met, once in a call. At each
/// further place the pairs are looked through, and its balanced form goes in, opened as far as that isn't balanced: a
/// few nodes for each of its levels.
pub fn insert_once(
    alloc: Global,
    forest: &mut Vec<Piece>,
    known: &mut Vec<Known>,
    node: &Rc<Node>,
    alone: usize,
) -> Result<(), AllocError>
    requires forest { IsForest forest.old.items }
    requires known { All IsKnown known.old.items }
    requires sound { IsSound node.now.value }
    requires within_limit { forest_len forest.old.items + len_of node.now.value ≤ MAX_LEN }
    ensures known { OnOk result (All IsKnown known.new.items) }
    ensures rest { OnOk result (IsForest forest.new.items) }
    ensures text { OnOk result (forest_cells forest.new.items ≡ forest_cells forest.old.items ++ cells node.now.value) }
    ensures len { OnOk result (forest_len forest.new.items ≡ forest_len forest.old.items + len_of node.now.value) }
    ensures parts_from { OnOk result (PartsFrom (forest_parts forest.old.items ++ parts node.now.value)
        (forest_parts forest.new.items)) }
{
    let Node::Cat { left, right, .. } = node.as_ref() else {
        return insert_tree(alloc, forest, node);
    };
    if is_balanced(node) {
        return insert_tree(alloc, forest, node);
    }
    if Rc::strong_count(node) <= alone {
        insert_once(alloc, forest, known, left, 1)?;
        return insert_once(alloc, forest, known, right, 1);
    }
    if let Some(form) = find(known.as_slice(), node.as_ref()) {
        insert_tree(alloc, forest, form)?;
        return Ok(());
    }
    let mut own = Vec::new(alloc);
    insert_once(alloc, &mut own, known, left, 1)?;
    insert_once(alloc, &mut own, known, right, 1)?;
    let form = gather_all(alloc, &mut own)?;
    insert_tree(alloc, forest, &form)?;
    let node = node.clone()?;
    known.push(Known { node, form })?;
    Ok(())
}
