// Edits of a node in its place.
ghost use Rattle.std.specs.Prelude.{◌≡◌, ◌≢◌, ℕ, ◌+◌, ◌-◌, ◌<◌, ◌≤◌, ◌++◌, max, true, IfOk, IsErr, take, drop};
ghost use Rattle.cord_node.specs.Tree.{cells, len_of, depth_of, count_of, IsSound};
ghost use Rattle.cord_node.specs.PartsFrom.{parts, AreFrom};
ghost use Rattle.cord_node.specs.Touched.{AtMostOneMore};
ghost use Rattle.cord_node.specs.Cords.{node_in, text, text_len, depth, parts_of, IsCord};
ghost use Rattle.cord_node.specs.inner.Splices.{TakesRange, LeftTakes, RightTakes, SeamTakes, BothTake, SidesAre};
ghost use Rattle.cord_node.specs.inner.Splices.{IsSplice};
ghost use Rattle.cord_node.specs.inner.Splices.{is_cat, AreSides, AreSpliced, IsEditable};

use crate::make::stored;
use crate::replace::{are_merged, is_short, replaced};
use crate::{Node, SMALL_LEN, join, sub_node};
use cord_io::{MAX_DEPTH, MAX_LEN};
use std::alloc::{AllocError, Global};
use std::rc::Rc;

// Where an edit goes on from a node: in one of its sides, in either of them, or in both; or it ends at the node itself.
#[derive(Clone, Copy)]
enum Way {
    Left,
    Right,
    Seam,
    Both,
    Here,
}

// Whether a side takes a range of it, and `middle` in its place: the side stays, and it is no less deep.
#[tactic(auto, using(crate::proofs::TreeLemmas::len_positive))]
#[inline(always)]
fn takes(side: &Rc<Node>, from: u64, until: u64, middle: &Option<Rc<Node>>) -> bool
    requires sound { IsSound side.now.value }
    requires middle_sound { IsCord (node_in middle.now) }
    requires order { from ≤ until }
    requires inside { until ≤ len_of side.now.value }
    ensures { result ≡ true → TakesRange from until (node_in middle.now) side.now.value }
{
    match middle {
        None => until - from < side.len(),
        Some(node) => node.depth() == 0 || node.depth() <= side.depth(),
    }
}

// The last part of a node.
fn last_part(node: &Node) -> &Node {
    let mut part = node;
    while let Node::Cat { right, .. } = part {
        part = right.as_ref();
    }
    part
}

// The first part of a node.
fn first_part(node: &Node) -> &Node {
    let mut part = node;
    while let Node::Cat { left, .. } = part {
        part = left.as_ref();
    }
    part
}

// Whether what comes to the seam of two sides goes to the left one: it is merged with the part beside the seam there,
// or it isn't on the right, where the tree is no less deep.
fn goes_left(left: &Node, right: &Node, middle: &Option<Rc<Node>>) -> bool {
    let is_shallower = left.depth() <= right.depth();
    match middle {
        Some(node) if is_short(node) => {
            are_merged(last_part(left), node)
                || (is_shallower && !are_merged(node, first_part(right)))
        }
        _ => is_shallower,
    }
}

// The greatest length of two leaves that are both short.
const PAIR_LEN: u64 = 2 * SMALL_LEN as u64;

// Whether an edit leaves so few bytes of two leaves that one leaf may have them all.
#[inline(always)]
fn becomes_one(
    left: &Node,
    right: &Node,
    from: u64,
    until: u64,
    middle: &Option<Rc<Node>>,
) -> bool {
    let Some(inner) = some_short(middle) else {
        return false;
    };
    match (left, right) {
        (Node::Leaf { len: a, .. }, Node::Leaf { len: b, .. }) => {
            let after = a.saturating_add(*b).saturating_sub(until);
            from.saturating_add(inner).saturating_add(after) <= SMALL_LEN as u64
        }
        _ => false,
    }
}

// The length of what comes, where that is nothing or a short leaf.
#[inline(always)]
fn some_short(middle: &Option<Rc<Node>>) -> Option<u64> {
    match middle {
        None => Some(0),
        Some(node) if is_short(node) => Some(node.len()),
        _ => None,
    }
}

// The way of an edit of a node with these sides.
#[inline(always)]
fn way_between(
    left: &Rc<Node>,
    right: &Rc<Node>,
    from: u64,
    until: u64,
    middle: &Option<Rc<Node>>,
) -> Way
    requires left_sound { IsSound left.now.value }
    requires right_sound { IsSound right.now.value }
    requires middle_sound { IsCord (node_in middle.now) }
    requires order { from ≤ until }
    requires inside { until ≤ len_of left.now.value + len_of right.now.value }
    requires within_limit { len_of left.now.value + len_of right.now.value ≤ MAX_LEN }
    ensures left { result ≡ Way.Left → LeftTakes from until (node_in middle.now) left.now.value right.now.value }
    ensures right { result ≡ Way.Right → RightTakes from until (node_in middle.now) left.now.value right.now.value }
    ensures seam { result ≡ Way.Seam → SeamTakes from until (node_in middle.now) left.now.value right.now.value }
    ensures both { result ≡ Way.Both → BothTake from until (node_in middle.now) left.now.value right.now.value }
{
    let seam = left.len();
    if until <= seam && takes(left, from, until, middle) {
        if seam <= from && takes(right, from - seam, until - seam, middle) {
            Way::Seam
        } else {
            Way::Left
        }
    } else if seam <= from && takes(right, from - seam, until - seam, middle) {
        Way::Right
    } else if from < seam
        && seam < until
        && until - seam < right.len()
        && takes(left, from, seam, middle)
    {
        Way::Both
    } else {
        Way::Here
    }
}

// The way of an edit of a node.
#[inline(always)]
fn way_of(node: &Node, from: u64, until: u64, middle: &Option<Rc<Node>>) -> Way
    requires sound { IsSound node.now }
    requires middle_sound { IsCord (node_in middle.now) }
    requires order { from ≤ until }
    requires inside { until ≤ len_of node.now }
    ensures left { result ≡ Way.Left → SidesAre (LeftTakes from until (node_in middle.now)) node.now }
    ensures right { result ≡ Way.Right → SidesAre (RightTakes from until (node_in middle.now)) node.now }
    ensures seam { result ≡ Way.Seam → SidesAre (SeamTakes from until (node_in middle.now)) node.now }
    ensures both { result ≡ Way.Both → SidesAre (BothTake from until (node_in middle.now)) node.now }
{
    match node {
        Node::Cat {
            left,
            right,
            len,
            ..
        } => {
            if *len <= PAIR_LEN && becomes_one(left, right, from, until, middle) {
                Way::Here
            } else {
                way_between(left, right, from, until, middle)
            }
        }
        _ => Way::Here,
    }
}

// The two sides of a concatenation, which are shared.
fn sides_of(node: &Node) -> Result<(Rc<Node>, Rc<Node>), AllocError>
    requires { is_cat node.now ≡ true }
    ensures { IfOk result (λ sides. AreSides node.now sides.0.value sides.1.value) }
{
    match node {
        Node::Cat { left, right, .. } => {
            let left = left.clone()?;
            let right = right.clone()?;
            Ok((left, right))
        }
        Node::Leaf { .. } => unreachable!(),
        Node::Run { .. } => unreachable!(),
        Node::Func { .. } => unreachable!(),
    }
}

/// Puts `middle` in the place of the bytes from `from` up to `until`. A node that nobody else holds is changed in its
/// place, and of one that is shared a new one is made, so what others hold stays. On the way down to the part that is
/// changed a node costs constant time, and no memory where it is changed in its place. The range lies inside the node,
/// 1 to `MAX_LEN` bytes are left, and two plus the greater depth is at most `MAX_DEPTH`. At most one part is cut in
/// two, so there are no more parts than those of both and one. Two leaves beside each other that an edit leaves at most
/// `SMALL_LEN` bytes of become one.
/// Refused where memory was refused: then nothing was changed.
pub fn splice(
    alloc: Global,
    node: &mut Rc<Node>,
    from: u64,
    until: u64,
    middle: &Option<Rc<Node>>,
) -> Result<(), AllocError>
    requires sound { IsSound node.old.value }
    requires middle_sound { IsCord (node_in middle.now) }
    requires order { from ≤ until }
    requires inside { until ≤ len_of node.old.value }
    requires not_empty { 0 < from + text_len (node_in middle.now) + (len_of node.old.value - until) }
    requires within_limit { from + text_len (node_in middle.now) + (len_of node.old.value - until) ≤ MAX_LEN }
    requires shallow { max (depth_of node.old.value) (depth (node_in middle.now)) + 2 ≤ MAX_DEPTH }
    ensures sound { IfOk result (λ _. IsSound node.new.value) }
    ensures text { IfOk result (λ _. cells node.new.value
        ≡ take from (cells node.old.value) ++ text (node_in middle.now) ++ drop until (cells node.old.value)) }
    ensures len { IfOk result (λ _. len_of node.new.value
        ≡ from + text_len (node_in middle.now) + (len_of node.old.value - until)) }

    ensures depth { IfOk result (λ _. depth_of node.new.value
        ≤ max (depth_of node.old.value) (depth (node_in middle.now)) + 2) }
    ensures from_there { IfOk result (λ _. AreFrom (parts node.new.value)
        (parts node.old.value ++ parts_of (node_in middle.now))) }
    ensures few { IfOk result (λ _. AtMostOneMore (parts node.old.value) (parts_of (node_in middle.now))
        (parts node.new.value)) }
    ensures unchanged { IsErr result → node.new.value ≡ node.old.value }
{
    splice_node(alloc, node, from, until, middle)?;
    Ok(())
}

// The same, where the node stays as it was if memory was refused. A level goes on in one side alone, as a rule; all
// else stands in functions that aren't inlined, so that a level keeps few values over the call.
#[cycle(splice_node)]
fn splice_node(
    alloc: Global,
    node: &mut Rc<Node>,
    from: u64,
    until: u64,
    middle: &Option<Rc<Node>>,
) -> Result<(), AllocError>
    requires { IsEditable from until (node_in middle.now) node.old.value }
    ensures splice { IfOk result (λ _. IsSplice from until (node_in middle.now) node.old.value node.new.value) }
    ensures unchanged { IsErr result → node.new ≡ node.old }
{
    let way = way_of(node, from, until, middle);
    if let Way::Here = way {
        return splice_here(alloc, node, from, until, middle);
    }
    match Rc::get_mut(node) {
        Some(alone) => splice_in_place(alloc, alone, way, from, until, middle),
        None => splice_shared(alloc, node, way, from, until, middle),
    }
}

// The same where the edit ends: another node is put in the place of this one.
#[inline(never)]
fn splice_here(
    alloc: Global,
    node: &mut Rc<Node>,
    from: u64,
    until: u64,
    middle: &Option<Rc<Node>>,
) -> Result<(), AllocError>
    requires { IsEditable from until (node_in middle.now) node.old.value }
    ensures splice { IfOk result (λ _. IsSplice from until (node_in middle.now) node.old.value node.new.value) }
    ensures unchanged { IsErr result → node.new ≡ node.old }
{
    let new = replaced(alloc, node, from, until, middle)?;
    *node = new;
    Ok(())
}

// The same of a node that nobody else holds, in its sides.
#[inline(always)]
#[cycle(splice_node)]
fn splice_in_place(
    alloc: Global,
    node: &mut Node,
    way: Way,
    from: u64,
    until: u64,
    middle: &Option<Rc<Node>>,
) -> Result<(), AllocError>
    requires editable { IsEditable from until (node_in middle.now) node.old }
    requires left { way ≡ Way.Left → SidesAre (LeftTakes from until (node_in middle.now)) node.old }
    requires right { way ≡ Way.Right → SidesAre (RightTakes from until (node_in middle.now)) node.old }
    requires seam { way ≡ Way.Seam → SidesAre (SeamTakes from until (node_in middle.now)) node.old }
    requires both { way ≡ Way.Both → SidesAre (BothTake from until (node_in middle.now)) node.old }
    requires goes_on { way ≢ Way.Here }

    ensures splice { IfOk result (λ _. IsSplice from until (node_in middle.now) node.old node.new) }
    ensures unchanged { IsErr result → node.new ≡ node.old }
{
    match node {
        Node::Cat {
            mark,
            depth,
            left,
            right,
            len,
            part_count,
        } => {
            splice_sides(alloc, left, right, way, from, until, middle)?;
            (*len, *depth, *part_count, *mark) = stored(left, right);
            Ok(())
        }
        _ => unreachable!(),
    }
}

// The same of a node that others may hold: a new one is made.
#[inline(never)]
#[cycle(splice_node)]
fn splice_shared(
    alloc: Global,
    node: &mut Rc<Node>,
    way: Way,
    from: u64,
    until: u64,
    middle: &Option<Rc<Node>>,
) -> Result<(), AllocError>
    requires editable { IsEditable from until (node_in middle.now) node.old.value }
    requires left { way ≡ Way.Left → SidesAre (LeftTakes from until (node_in middle.now)) node.old.value }
    requires right { way ≡ Way.Right → SidesAre (RightTakes from until (node_in middle.now)) node.old.value }
    requires seam { way ≡ Way.Seam → SidesAre (SeamTakes from until (node_in middle.now)) node.old.value }
    requires both { way ≡ Way.Both → SidesAre (BothTake from until (node_in middle.now)) node.old.value }
    requires goes_on { way ≢ Way.Here }

    ensures splice { IfOk result (λ _. IsSplice from until (node_in middle.now) node.old.value node.new.value) }
    ensures unchanged { IsErr result → node.new ≡ node.old }
{
    let (mut left, mut right) = sides_of(node)?;
    splice_sides(alloc, &mut left, &mut right, way, from, until, middle)?;
    let new = join(alloc, &left, &right)?;
    *node = new;
    Ok(())
}

// The same of the sides of a node, which stay as they were if memory was refused.
#[inline(always)]
#[cycle(splice_node)]
fn splice_sides(
    alloc: Global,
    left: &mut Rc<Node>,
    right: &mut Rc<Node>,
    way: Way,
    from: u64,
    until: u64,
    middle: &Option<Rc<Node>>,
) -> Result<(), AllocError>
    requires left_sound { IsSound left.old.value }
    requires right_sound { IsSound right.old.value }
    requires middle_sound { IsCord (node_in middle.now) }
    requires order { from ≤ until }
    requires inside { until ≤ len_of left.old.value + len_of right.old.value }
    requires within_limit { from + text_len (node_in middle.now)
        + (len_of left.old.value + len_of right.old.value - until) ≤ MAX_LEN }
    requires shallow { max (max (depth_of left.old.value) (depth_of right.old.value) + 1)
        (depth (node_in middle.now)) + 2 ≤ MAX_DEPTH }
    requires left { way ≡ Way.Left → LeftTakes from until (node_in middle.now) left.old.value right.old.value }
    requires right { way ≡ Way.Right → RightTakes from until (node_in middle.now) left.old.value right.old.value }
    requires seam { way ≡ Way.Seam → SeamTakes from until (node_in middle.now) left.old.value right.old.value }
    requires both { way ≡ Way.Both → BothTake from until (node_in middle.now) left.old.value right.old.value }
    requires goes_on { way ≢ Way.Here }

    ensures splice { IfOk result (λ _. AreSpliced from until (node_in middle.now) left.old.value right.old.value
        left.new.value right.new.value) }
    ensures left_unchanged { IsErr result → left.new ≡ left.old }
    ensures right_unchanged { IsErr result → right.new ≡ right.old }
{
    let seam = left.len();
    match way {
        Way::Left => splice_node(alloc, left, from, until, middle),
        Way::Right => splice_node(alloc, right, from - seam, until - seam, middle),
        Way::Seam => splice_seam(alloc, left, right, from, until, middle),
        Way::Both => splice_both(alloc, left, right, from, until, middle),
        Way::Here => unreachable!(),
    }
}

// The same at the seam of two sides, each of which takes `middle`.
#[inline(never)]
#[cycle(splice_node)]
fn splice_seam(
    alloc: Global,
    left: &mut Rc<Node>,
    right: &mut Rc<Node>,
    from: u64,
    until: u64,
    middle: &Option<Rc<Node>>,
) -> Result<(), AllocError>
    requires left_sound { IsSound left.old.value }
    requires right_sound { IsSound right.old.value }
    requires middle_sound { IsCord (node_in middle.now) }
    requires order { from ≤ until }
    requires inside { until ≤ len_of left.old.value + len_of right.old.value }
    requires within_limit { from + text_len (node_in middle.now)
        + (len_of left.old.value + len_of right.old.value - until) ≤ MAX_LEN }
    requires shallow { max (max (depth_of left.old.value) (depth_of right.old.value) + 1)
        (depth (node_in middle.now)) + 2 ≤ MAX_DEPTH }
    requires seam { SeamTakes from until (node_in middle.now) left.old.value right.old.value }

    ensures splice { IfOk result (λ _. AreSpliced from until (node_in middle.now) left.old.value right.old.value
        left.new.value right.new.value) }
    ensures left_unchanged { IsErr result → left.new ≡ left.old }
    ensures right_unchanged { IsErr result → right.new ≡ right.old }
{
    if goes_left(left, right, middle) {
        return splice_node(alloc, left, from, until, middle);
    }
    let seam = left.len();
    splice_node(alloc, right, from - seam, until - seam, middle)
}

// The same over the seam of two sides: the left one loses its end and takes `middle`, the right one loses its
// beginning.
#[inline(never)]
#[cycle(splice_node)]
fn splice_both(
    alloc: Global,
    left: &mut Rc<Node>,
    right: &mut Rc<Node>,
    from: u64,
    until: u64,
    middle: &Option<Rc<Node>>,
) -> Result<(), AllocError>
    requires left_sound { IsSound left.old.value }
    requires right_sound { IsSound right.old.value }
    requires middle_sound { IsCord (node_in middle.now) }
    requires order { from ≤ until }
    requires inside { until ≤ len_of left.old.value + len_of right.old.value }
    requires within_limit { from + text_len (node_in middle.now)
        + (len_of left.old.value + len_of right.old.value - until) ≤ MAX_LEN }
    requires shallow { max (max (depth_of left.old.value) (depth_of right.old.value) + 1)
        (depth (node_in middle.now)) + 2 ≤ MAX_DEPTH }
    requires both { BothTake from until (node_in middle.now) left.old.value right.old.value }

    ensures splice { IfOk result (λ _. AreSpliced from until (node_in middle.now) left.old.value right.old.value
        left.new.value right.new.value) }
    ensures left_unchanged { IsErr result → left.new ≡ left.old }
    ensures right_unchanged { IsErr result → right.new ≡ right.old }
{
    let seam = left.len();
    let after = until - seam;
    let rest = sub_node(alloc, right, after, right.len() - after)?;
    splice_node(alloc, left, from, seam, middle)?;
    *right = rest;
    Ok(())
}
