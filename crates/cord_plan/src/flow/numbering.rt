// Names with numbers, and the numbers of the names of each line.
ghost use Rattle.std.specs.Prelude.{◌≡◌, false, All, IfOk, OnOk, length, slice_get};
ghost use Rattle.std.specs.List.{IsDistinct};
ghost use Rattle.std.specs.Str.{bytes_eq};
ghost use Rattle.std.proofs.Props.{props};
ghost use Rattle.cord_syntax.specs.declared.statements.Statement.{Statement};
ghost use Rattle.cord_plan.specs.Operands.{read_by};
ghost use Rattle.cord_plan.specs.inner.Places.{AddsPlaces, AddsLine, AreLines, HasNumbers, IsLineIn, TakesNumber};
ghost use Rattle.cord_plan.specs.inner.Places.{place_of};

use crate::flow::readings::first_read;
use cord_script::{Name, Statement};
use std::alloc::{AllocError, Global};

/// The names of a script, each with a number: its place in the list; and the numbers of the names of each line.
#[derive(Drop)]
pub(crate) struct Numbering {
    names: Vec<Name>,
    read: Vec<u32>,
    lines: Vec<NumberedLine>,
    ghost distinct: { IsDistinct bytes_eq names.items } by { Prim.hlevel props },
}

/// The number of the name that a line assigns, and where in the list of all the numbers of those stand that it reads:
/// in 32 bits, since each line of a script keeps one.
#[derive(Clone, Copy)]
struct NumberedLine {
    target: Option<u32>,
    start: u32,
    end: u32,
}

/// The number of the name that a line assigns, and those of the names that it reads, in their order.
#[derive(Clone, Copy)]
pub(crate) struct LineNumbers<'a> {
    pub(crate) target: Option<usize>,
    pub(crate) read: &'a [u32],
}

/// The number at an index, where there is one.
#[inline(always)]
pub(crate) fn number_at(numbers: &[u32], index: usize) -> Option<usize>
    ensures { result ≡ slice_get numbers.now index }
{
    widened(numbers.get(index).copied())
}

// A number in the width of places.
#[inline(always)]
fn widened(number: Option<u32>) -> Option<usize>
    ensures { result ≡ number }
{
    match number {
        None => None,
        Some(number) => Some(number as usize),
    }
}

// A place in 32 bits: no memory holds as many names as need more.
#[inline(always)]
fn narrowed(place: usize) -> Result<u32, AllocError>
    ensures { IfOk result (λ n. n ≡ place) }
{
    match u32::try_from(place) {
        Ok(number) => Ok(number),
        Err(_) => Err(AllocError),
    }
}

// The number of a name, which is taken in where it isn't there.
#[inline(always)]
fn number(names: &mut Vec<Name>, name: &Name) -> Result<u32, AllocError>
    ensures { IfOk result (λ n. TakesNumber name.now n names.old.items names.new.items) }
{
    match name.place_in(names) {
        Some(place) => Ok(narrowed(place)?),
        None => number_new(names, name),
    }
}

// The number of a name that isn't there, and is taken in.
#[cold]
#[inline(never)]
fn number_new(names: &mut Vec<Name>, name: &Name) -> Result<u32, AllocError>
    requires { All (λ other. bytes_eq name.now other ≡ false) names.old.items }
    ensures { IfOk result (λ n. TakesNumber name.now n names.old.items names.new.items) }
{
    let number = narrowed(names.len())?;
    names.push(name.clone()?)?;
    Ok(number)
}

// Notes the numbers of the names that a line reads.
fn add_read(
    names: &mut Vec<Name>,
    read: &mut Vec<u32>,
    statement: &Statement,
) -> Result<(), AllocError>
    ensures { OnOk result (AddsPlaces (read_by statement.now) names.old.items names.new.items
        read.old.items read.new.items) }
{
    let mut left = statement.reading();
    'others: while let Some((name, rest)) = first_read(left) {
        read.push(number(names, name)?)?;
        left = rest;
    }
    Ok(())
}

// Notes the numbers of the names that a line reads, and answers them with that of the name that it assigns.
fn add_line(
    names: &mut Vec<Name>,
    read: &mut Vec<u32>,
    statement: &Statement,
) -> Result<NumberedLine, AllocError>
    ensures { IfOk result (AddsLine statement.now names.old.items names.new.items read.old.items read.new.items) }
{
    let start = narrowed(read.len())?;
    add_read(names, read, statement)?;
    let end = narrowed(read.len())?;
    match statement.target() {
        None => Ok(NumberedLine {
            target: None,
            start,
            end,
        }),
        Some(target) => {
            let number = number(names, target)?;
            Ok(NumberedLine {
                target: Some(number),
                start,
                end,
            })
        }
    }
}

impl Numbering {
    /// The names that the lines of a script read or assign, in the order in which they stand there first.
    pub(crate) fn of(alloc: Global, statements: &[Statement]) -> Result<Self, AllocError>
        ensures { IfOk result (λ t. AreLines statements.now t.names.items t.read.items t.lines.items) }
    {
        let (mut names, mut read) = (Vec::new(alloc), Vec::new(alloc));
        let mut lines = Vec::with_capacity(alloc, statements.len())?;
        for statement in statements {
            lines.push(add_line(&mut names, &mut read, statement)?)?;
        }
        Ok(Numbering { names, read, lines })
    }

    /// The names, by their numbers.
    pub(crate) fn into_names(self) -> Vec<Name>
        ensures { IsDistinct bytes_eq result.items }
    {
        self.names
    }

    /// How many names there are.
    pub(crate) fn count(&self) -> usize
        ensures { result ≡ length self.now.names.items }
    {
        self.names.len()
    }

    /// The number of a name.
    #[inline(always)]
    pub(crate) fn number_of(&self, name: &Name) -> Option<usize>
        ensures { result ≡ place_of self.now.names.items name.now }
    {
        name.place_in(&self.names)
    }

    /// The numbers of the names of the line at a place.
    #[inline(always)]
    pub(crate) fn line(&self, place: usize) -> LineNumbers<'_>
        requires { (l : Statement) × IsLineIn self.now.names.items self.now.read.items self.now.lines.items l place }
        ensures { (l : Statement) → IsLineIn self.now.names.items self.now.read.items self.now.lines.items l place →
            HasNumbers self.now.names.items l result }
    {
        let line = self.lines[place];
        LineNumbers {
            target: widened(line.target),
            read: &self.read[line.start as usize..line.end as usize],
        }
    }
}
