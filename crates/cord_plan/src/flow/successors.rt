// The places that may come next after each place.
ghost use Rattle.std.specs.Prelude.{◌≡◌, ◌+◌, ◌-◌, ◌^◌, ◌<◌, ◌≤◌, Some, IfOk, OnOk, map, reverse, length};
ghost use Rattle.std.specs.Prelude.{false};
ghost use Rattle.cord_meaning.specs.Blocks.{to_end, to_else, jump};
ghost use Rattle.cord_meaning.specs.Paths.{opened, open_at};
ghost use Rattle.cord_meaning.specs.Statements.{shape_of};
ghost use Rattle.cord_plan.specs.Inlined.{is_block};
ghost use Rattle.cord_plan.specs.Liveness.{successors};
ghost use Rattle.cord_plan.specs.inner.Liveness.{shape_view, turn_of, innermost, places, ArePaths, NoBlocks};

use cord_script::Statement;
use cord_syntax::{Control, Family};
use std::alloc::{AllocError, Global};

/// What a statement is to control.
#[derive(Clone, Copy)]
pub(crate) enum Shape {
    /// Any statement but the others.
    Straight,
    /// `repeat`.
    Loop,
    /// `if`.
    Branch,
    /// `else`.
    Otherwise,
    /// `end`.
    Close,
}

/// The places that may come next after a place: one, and where there are two, the other.
#[derive(Clone, Copy)]
pub(crate) struct Successors(pub(crate) usize, pub(crate) Option<usize>);

/// How a statement leads on a search for the end of a block, where so many blocks are open inside it.
#[derive(Clone, Copy)]
enum Turn {
    /// It is the `end` of the block.
    Closed,
    /// It is an `else` of the block.
    Turned,
    /// So many blocks are open after it.
    Inside(usize),
}

/// What a statement is to control.
pub(crate) fn shape_of(statement: &Statement) -> Shape
    ensures { shape_view result ≡ shape_of statement.now }
{
    match statement.family() {
        Family::Control(Control::Repeat { .. }) => Shape::Loop,
        Family::Control(Control::If { .. }) => Shape::Branch,
        Family::Control(Control::Else) => Shape::Otherwise,
        Family::Control(Control::End) => Shape::Close,
        Family::Origin(_)
        | Family::Composition(_)
        | Family::Derivation(_)
        | Family::Put { .. }
        | Family::Computation(_)
        | Family::Look(_)
        | Family::Search(_)
        | Family::Growth(_) => Shape::Straight,
    }
}

/// Whether a shape opens, parts or closes a block.
pub(crate) fn is_block(shape: Shape) -> bool
    ensures { result ≡ is_block (shape_view shape) }
{
    match shape {
        Shape::Straight => false,
        Shape::Loop | Shape::Branch | Shape::Otherwise | Shape::Close => true,
    }
}

fn turn_at(shape: Shape, depth: usize) -> Turn
    requires { depth < 2 ^ 64 - 1 }
    ensures { result ≡ turn_of (shape_view shape) depth }
{
    match shape {
        Shape::Straight => Turn::Inside(depth),
        Shape::Loop | Shape::Branch => Turn::Inside(depth + 1),
        Shape::Otherwise if depth == 0 => Turn::Turned,
        Shape::Otherwise => Turn::Inside(depth),
        Shape::Close if depth == 0 => Turn::Closed,
        Shape::Close => Turn::Inside(depth - 1),
    }
}

// How many statements stand before the `end` of the block that they stand in.
fn to_end(shapes: &[Shape]) -> usize
    ensures count { result ≡ to_end 0 (map shape_view shapes.now) }
    ensures within { result ≤ length shapes.now }
{
    let mut depth = 0;
    for (i, shape) in shapes.iter().enumerate() {
        match turn_at(*shape, depth) {
            Turn::Closed => return i,
            Turn::Turned => {}
            Turn::Inside(deep) => depth = deep,
        }
    }
    shapes.len()
}

// How many statements stand before the `end` of the `if` that they stand in, or up to and with its `else`.
fn to_else(shapes: &[Shape]) -> usize
    ensures count { result ≡ to_else 0 (map shape_view shapes.now) }
    ensures within { result ≤ length shapes.now }
{
    let mut depth = 0;
    for (i, shape) in shapes.iter().enumerate() {
        match turn_at(*shape, depth) {
            Turn::Closed => return i,
            Turn::Turned => return i + 1,
            Turn::Inside(deep) => depth = deep,
        }
    }
    shapes.len()
}

// The innermost open block, where it is a `repeat`.
fn innermost(blocks: &[Option<usize>]) -> Option<usize>
    ensures { result ≡ innermost (reverse blocks.now) }
{
    *blocks.last()?
}

// The open blocks after the statement at place p.
fn open_or_close(blocks: &mut Vec<Option<usize>>, p: usize, shape: Shape) -> Result<(), AllocError>
    ensures { OnOk result (reverse blocks.new.items ≡ opened p (reverse blocks.old.items) (Some (shape_view shape))) }
{
    match shape {
        Shape::Loop => blocks.push(Some(p))?,
        Shape::Branch => blocks.push(None)?,
        Shape::Close => {
            blocks.pop();
        }
        Shape::Straight | Shape::Otherwise => {}
    }
    Ok(())
}

/// The place that the statement at a place leads to where it passes others over: a `repeat` after its `end`, an `if`
/// after its `else` or, where it has none, to its `end`, an `else` to its `end`, and any other to the next one.
pub(crate) fn jump(shapes: &[Shape], place: usize) -> usize
    requires { place < length shapes.now }
    ensures { result ≡ jump (map shape_view shapes.now) place }
{
    let next = place + 1;
    match shapes[place] {
        Shape::Straight => next,
        Shape::Loop => next + to_end(&shapes[next..]) + 1,
        Shape::Branch => next + to_else(&shapes[next..]),
        Shape::Otherwise => next + to_end(&shapes[next..]),
        Shape::Close => next,
    }
}

// The places that may come next after place p, where this is the innermost open block.
fn successors_at(shapes: &[Shape], p: usize, block: Option<usize>) -> Successors
    requires within { p < length shapes.now }
    requires block { block ≡ innermost (open_at (map shape_view shapes.now) p) }
    ensures { places result ≡ successors (map shape_view shapes.now) p }
{
    let next = p + 1;
    match shapes[p] {
        Shape::Straight => Successors(next, None),
        Shape::Loop => Successors(next, Some(jump(shapes, p))),
        Shape::Branch => Successors(next, Some(jump(shapes, p))),
        Shape::Otherwise => Successors(jump(shapes, p), None),
        Shape::Close => match block {
            None => Successors(next, None),
            Some(repeat) => {
                let body = repeat + 1;
                Successors(body, Some(next))
            }
        },
    }
}

// The places that may come next after each place.
fn successor_table(alloc: Global, shapes: &[Shape]) -> Result<Vec<Successors>, AllocError>
    ensures { IfOk result (λ v. ArePaths (map shape_view shapes.now) v.items) }
{
    let mut blocks = Vec::new(alloc);
    let mut found = Vec::with_capacity(alloc, shapes.len())?;
    for (p, shape) in shapes.iter().enumerate() {
        let block = innermost(&blocks);
        found.push_reserved(successors_at(shapes, p, block));
        open_or_close(&mut blocks, p, *shape)?;
    }
    Ok(found)
}

fn shapes_of(alloc: Global, statements: &[Statement]) -> Result<Vec<Shape>, AllocError>
    ensures { IfOk result (λ v. map shape_view v.items ≡ map shape_of statements.now) }
{
    let mut shapes = Vec::with_capacity(alloc, statements.len())?;
    for statement in statements {
        shapes.push_reserved(shape_of(statement));
    }
    Ok(shapes)
}

/// Whether some line opens, parts or closes a block.
pub(crate) fn has_blocks(statements: &[Statement]) -> bool
    ensures { result ≡ false → NoBlocks statements.now }
{
    for statement in statements {
        if is_block(shape_of(statement)) {
            return true;
        }
    }
    false
}

/// The places that may come next after each place of a script. Each block is walked over once for each line that leads
/// to its end.
pub(crate) fn successors_of(
    alloc: Global,
    statements: &[Statement],
) -> Result<Vec<Successors>, AllocError>
    ensures { IfOk result (λ v. ArePaths (map shape_of statements.now) v.items) }
{
    let shapes = shapes_of(alloc, statements)?;
    successor_table(alloc, &shapes)
}
