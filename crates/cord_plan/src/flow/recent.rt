// The last lines so far that assign and read each name.
ghost use Rattle.std.specs.Prelude.{◌≡◌, ◌+◌, ℕ, List, Option, Some, IfOk, if◌then◌else◌, slice_get};
ghost use Rattle.cord_syntax.specs.declared.statements.Statement.{Statement};
ghost use Rattle.cord_meaning.specs.Statements.{shape_of};
ghost use Rattle.cord_plan.specs.Inlined.{is_block};
ghost use Rattle.cord_plan.specs.Operands.{has, is_this_name};
ghost use Rattle.cord_plan.specs.declared.flow.numbering.Numbering.{Numbering};
ghost use Rattle.cord_plan.specs.inner.Numbering.{IsNumbered, IsNumberIn, IsNumbering, names_of};
ghost use Rattle.cord_plan.specs.inner.Places.{AreNumbers};
ghost use Rattle.cord_plan.specs.inner.Liveness.{AreFor, IsRecent, PutsPlaces, entry_at, is_before, is_after};
ghost use Rattle.cord_plan.specs.inner.Liveness.{unless_after};

use crate::flow::liveness::Later;
use crate::flow::numbering::LineNumbers;
use crate::flow::successors::{is_block, shape_of};
use cord_script::Statement;
use std::alloc::{AllocError, Global};

/// For each number of a name the last line so far that assigns the name, and the last one that reads its bytes; and the
/// last line of a block.
#[derive(Drop)]
pub(crate) struct Recent<'a> {
    pub(crate) later: &'a Later<'a>,
    pub(crate) assigned: Vec<Option<usize>>,
    pub(crate) read: Vec<Option<usize>>,
    pub(crate) block: Option<usize>,
}

/// What places, by the numbers of names, have for a number, where they have anything.
pub(crate) fn entry_at(places: &[Option<usize>], number: Option<usize>) -> Option<usize>
    ensures { result ≡ entry_at places.now number }
{
    *places.get(number?)?
}

// Whether a place, where there is one, stands after another.
fn is_after(place: Option<usize>, other: usize) -> bool
    ensures { result ≡ is_after place other }
{
    match place {
        None => false,
        Some(place) => other < place,
    }
}

/// The last line that assigns a name, where neither of the other places stands after it.
pub(crate) fn unless_after(
    source: Option<usize>,
    reader: Option<usize>,
    block: Option<usize>,
) -> Option<usize>
    ensures { result ≡ unless_after source reader block }
{
    let place = source?;
    if is_after(reader, place) || is_after(block, place) {
        return None;
    }
    Some(place)
}

/// Whether a place, where there is one, stands before another.
pub(crate) fn is_before(place: Option<usize>, other: usize) -> bool
    ensures { result ≡ is_before place other }
{
    match place {
        None => true,
        Some(place) => place < other,
    }
}

/// Puts an entry for the name of a number, where there is one.
pub(crate) fn put(places: &mut [Option<usize>], number: Option<usize>, entry: Option<usize>)
    ensures { (t : Numbering) (o : Option (List ℕ)) → IsNumberIn t o number → AreFor t places.old →
        PutsPlaces t (λ x. is_this_name o x) entry places.old places.new }
{
    match number {
        None => {}
        Some(number) => {
            if number < places.len() {
                places[number] = entry;
            }
        }
    }
}

/// Notes a place for the names of these numbers.
pub(crate) fn note_all(places: &mut [Option<usize>], numbers: &[u32], place: usize)
    ensures { (t : Numbering) (xs : List (List ℕ)) → AreNumbers (names_of t) xs numbers.now → AreFor t places.old →
        PutsPlaces t (λ x. has xs x) (Some place) places.old places.new }
{
    for number in numbers {
        put(places, Some(*number as usize), Some(place));
    }
}

// The last line of a block after this line, where it was this one before it.
fn block_after(before: Option<usize>, statement: &Statement, place: usize) -> Option<usize>
    ensures { result ≡ (if is_block (shape_of statement.now) then Some place else before) }
{
    if is_block(shape_of(statement)) {
        Some(place)
    } else {
        before
    }
}

impl<'a> Recent<'a> {
    /// Before the first line.
    pub(crate) fn of(alloc: Global, later: &'a Later<'a>) -> Result<Self, AllocError>
        ensures later { IfOk result (λ r. r.later.now ≡ later.now) }
        ensures recent { IfOk result (λ r. (s : List Statement) → IsNumbering s later.now.numbering → IsRecent s 0 r) }
    {
        let count = later.numbering.count();
        let assigned = vec![in alloc; None; count]?;
        let read = vec![in alloc; None; count]?;
        Ok(Recent {
            later,
            assigned,
            read,
            block: None,
        })
    }

    /// Notes the next line, whose names have these numbers.
    pub(crate) fn note(&mut self, statement: &Statement, numbers: LineNumbers, place: usize)
        requires { IsNumbered self.old.later.now.numbering statement.now numbers }
        ensures later { self.new.later.now ≡ self.old.later.now }
        ensures recent { (s : List Statement) → slice_get s place ≡ Some statement.now → IsRecent s place self.old →
            IsRecent s (place + 1) self.new }
    {
        put(&mut self.assigned, numbers.target, Some(place));
        note_all(&mut self.read, numbers.read, place);
        self.block = block_after(self.block, statement, place);
    }
}
