// Which names are read later than which lines.
ghost use Rattle.std.specs.Prelude.{◌≡◌, ◌<◌, ◌≤◌, ◌^◌, ℕ, List, true, false, Some, map, get_or};
ghost use Rattle.std.specs.Prelude.{◌+◌, slice_get, IfOk};
ghost use Rattle.cord_meaning.specs.Statements.{shape_of};
ghost use Rattle.cord_syntax.specs.declared.statements.Statement.{Statement};
ghost use Rattle.cord_plan.specs.Operands.{assigns_at, target_of};
ghost use Rattle.cord_plan.specs.Liveness.{IsLater, successors, some_of};
ghost use Rattle.cord_plan.specs.inner.Numbering.{bit, column, room, IsBit, IsNumbering, number_of};
ghost use Rattle.cord_plan.specs.inner.Liveness.{flow, later_in, places, places_at, ArePaths, at, reports, reports_of};
ghost use Rattle.cord_plan.specs.inner.Liveness.{IsFound, IsReported, AllReported, AreAssigned, ArePartly, AreLive};
ghost use Rattle.cord_plan.specs.inner.Liveness.{AllLive, column_of, simple_operands};

use crate::flow::name_sets::{GROUP, has_bit, mark_all, mark_target};
use crate::flow::numbering::Numbering;
use crate::flow::readings::{assigns, reads};
use crate::flow::straight_line::{LineLater, OPERANDS, has_operand, line_at, lines_later};
use crate::flow::successors::{Successors, has_blocks, successors_of};
use cord_script::{Name, Statement};
use std::alloc::{AllocError, Global};

/// For each name and each line of a script whether some path after the line reads the bytes of the name before a line
/// assigns it.
#[derive(Drop)]
pub(crate) struct Later<'a> {
    statements: &'a [Statement],
    pub(crate) numbering: Numbering,
    found: Found,
}

/// What was found of that.
#[derive(Drop)]
enum Found {
    /// In a script without blocks, what is asked of each line.
    ByLines(Vec<LineLater>),
    /// In others the places that may come next after each place, and for each group of names and each place those that
    /// a path from there reads before a line assigns them.
    ByGroups(Vec<Successors>, Vec<Vec<u128>>),
}

/// The lines of a script, the places after them, and a group of its names.
#[derive(Clone, Copy)]
struct Flow<'a> {
    statements: &'a [Statement],
    successors: &'a [Successors],
    numbering: &'a Numbering,
    group: usize,
}

fn word_at(words: &[u128], place: usize) -> u128
    ensures bits { (i : ℕ) → bit result i ≡ at (column words.now i) place }
    ensures value { result ≡ get_or words.now place 0 }
{
    match words.get(place) {
        Some(word) => *word,
        None => 0,
    }
}

// The bits of the places that may come next.
fn successor_word(words: &[u128], successors: Successors) -> u128
    ensures { (i : ℕ) → bit result i ≡ some_of (λ q. at (column words.now i) q) (places successors) }
{
    let first = word_at(words, successors.0);
    match successors.1 {
        Some(second) => first | word_at(words, second),
        None => first,
    }
}

impl Flow<'_> {
    // For each line the word of the names that it reads, and that of the name that it assigns.
    fn words(&self, alloc: Global) -> Result<(Vec<u128>, Vec<u128>), AllocError>
        requires { IsNumbering self.now.statements.now self.now.numbering.now }
        ensures read { IfOk result (λ w. ArePartly self.now.statements.now self.now.numbering.now self.now.group
            w.0.items) }
        ensures assigned { IfOk result (λ w. AreAssigned self.now.statements.now self.now.numbering.now self.now.group
            w.1.items) }
    {
        let mut read = Vec::with_capacity(alloc, self.statements.len())?;
        let mut assigned = Vec::with_capacity(alloc, self.statements.len())?;
        for place in 0..self.statements.len() {
            let numbers = self.numbering.line(place);
            read.push_reserved(mark_all(self.group, numbers.read));
            assigned.push_reserved(mark_target(self.group, numbers.target));
        }
        Ok((read, assigned))
    }

    // The bits of the places that may come next after a place.
    fn successor_word_at(&self, words: &[u128], place: usize) -> u128
        ensures { (i : ℕ) → bit result i ≡ some_of (λ q. at (column words.now i) q)
            (places_at self.now.successors.now place) }
    {
        match self.successors.get(place) {
            Some(successors) => successor_word(words, *successors),
            None => 0,
        }
    }

    // What the flow back over the line at a place makes of its word: what the places after it have, but for what the
    // line assigns, is added.
    fn flow_at(&self, assigned: &[u128], words: &[u128], place: usize) -> u128
        requires paths { ArePaths (map shape_of self.now.statements.now) self.now.successors.now }
        requires assigned { AreAssigned self.now.statements.now self.now.numbering.now self.now.group assigned.now }
        ensures bits { (x : List ℕ) (i : ℕ) → IsBit self.now.numbering.now self.now.group x i →
            bit result i ≡ flow (at (column words.now i) place)
            (some_of (λ q. at (column words.now i) q) (successors (map shape_of self.now.statements.now) place))
            (assigns_at (slice_get self.now.statements.now place) x) }
        ensures grows { get_or words.now place 0 ≤ result }
        ensures fits { result < 2 ^ 128 }
    {
        let here = word_at(words, place);
        let successors = self.successor_word_at(words, place);
        let kill = word_at(assigned, place);
        here | (successors & !kill)
    }

    // One pass of the backwards flow over the lines, and whether it has found a place, so that another may find more.
    fn sweep(&self, assigned: &[u128], words: &mut [u128]) -> bool
        requires paths { ArePaths (map shape_of self.now.statements.now) self.now.successors.now }
        requires assigned { AreAssigned self.now.statements.now self.now.numbering.now self.now.group assigned.now }
        requires partly { ArePartly self.now.statements.now self.now.numbering.now self.now.group words.old }
        ensures partly { ArePartly self.now.statements.now self.now.numbering.now self.now.group words.new }
        ensures live { result ≡ false → AreLive self.now.statements.now self.now.numbering.now
            self.now.group words.new }
        ensures fewer { result ≡ true → room words.new < room words.old }
    {
        let mut again = false;
        for p in (0..words.len()).rev() {
            let here = word_at(words, p);
            let word = self.flow_at(assigned, words, p);
            if word != here {
                words[p] = word;
                again = true;
            }
        }
        again
    }

    // For each place the names of the group that a path from there reads before a line assigns them.
    fn live_words(&self, alloc: Global) -> Result<Vec<u128>, AllocError>
        requires numbered { IsNumbering self.now.statements.now self.now.numbering.now }
        requires paths { ArePaths (map shape_of self.now.statements.now) self.now.successors.now }
        ensures { IfOk result (λ v. AreLive self.now.statements.now self.now.numbering.now self.now.group v.items) }
    {
        let (mut words, assigned) = self.words(alloc)?;
        'sweeps: while self.sweep(&assigned, &mut words) {}
        Ok(words)
    }
}

// What is live of each group of names.
fn groups_of(
    alloc: Global,
    statements: &[Statement],
    successors: &[Successors],
    numbering: &Numbering,
) -> Result<Vec<Vec<u128>>, AllocError>
    requires numbered { IsNumbering statements.now numbering.now }
    requires paths { ArePaths (map shape_of statements.now) successors.now }
    ensures { IfOk result (λ v. AllLive statements.now numbering.now v.items) }
{
    let mut groups = Vec::new(alloc);
    for group in 0..numbering.count().div_ceil(GROUP) {
        let flow = Flow {
            statements,
            successors,
            numbering,
            group,
        };
        groups.push(flow.live_words(alloc)?)?;
    }
    Ok(groups)
}

// Whether a place that may come next has the name of a number.
fn is_live_at(groups: &[Vec<u128>], number: usize, successors: Successors) -> bool
    ensures { result ≡ some_of (λ q. at (column_of groups.now (Some number)) q) (places successors) }
{
    match groups.get(number / GROUP) {
        None => false,
        Some(words) => has_bit(successor_word(words, successors), number % GROUP),
    }
}

// Whether a place that may come after a line has the name of a number.
fn is_live_after(
    successors: &[Successors],
    groups: &[Vec<u128>],
    number: Option<usize>,
    place: usize,
) -> bool
    ensures { result ≡ reports_of successors.now groups.now number place }
{
    match (successors.get(place), number) {
        (Some(successors), Some(number)) => is_live_at(groups, number, *successors),
        _ => false,
    }
}

// Whether one of these lines reads a name before one assigns it.
#[cold]
#[inline(never)]
fn is_read_in(statements: &[Statement], name: &Name) -> bool
    ensures { result ≡ later_in statements.now name.now }
{
    for statement in statements {
        if reads(statement, name) {
            return true;
        }
        if assigns(statement, name) {
            return false;
        }
    }
    false
}

impl Found {
    // What is read later in a script of these statements, whose names are numbered.
    fn of(
        alloc: Global,
        statements: &[Statement],
        numbering: &Numbering,
    ) -> Result<Self, AllocError>
        requires { IsNumbering statements.now numbering.now }
        ensures { IfOk result (λ found. IsFound statements.now numbering.now found) }
    {
        if !has_blocks(statements) {
            return Ok(Found::ByLines(lines_later(alloc, statements, numbering)?));
        }
        let successors = successors_of(alloc, statements)?;
        let groups = groups_of(alloc, statements, &successors, numbering)?;
        Ok(Found::ByGroups(successors, groups))
    }
}

impl<'a> Later<'a> {
    /// What is read later in a script of these statements.
    pub(crate) fn of(alloc: Global, statements: &'a [Statement]) -> Result<Self, AllocError>
        ensures later { IfOk result (λ t. IsLater statements.now (reports t)) }
        ensures reported { IfOk result (λ t. AllReported statements.now t) }
        ensures numbered { IfOk result (λ t. IsNumbering statements.now t.numbering) }
    {
        let numbering = Numbering::of(alloc, statements)?;
        let found = Found::of(alloc, statements, &numbering)?;
        Ok(Later {
            statements,
            numbering,
            found,
        })
    }

    /// Whether the name that a line assigns, which has this number, is read later than the line.
    pub(crate) fn is_target_later(&self, number: Option<usize>, place: usize) -> bool
        ensures { (l : Statement) (x : List ℕ) → target_of l ≡ Some x → IsReported self.now l place →
            number ≡ number_of self.now.numbering x → result ≡ reports self.now x place }
    {
        match &self.found {
            Found::ByLines(lines) => line_at(lines, place).target,
            Found::ByGroups(successors, groups) => is_live_after(successors, groups, number, place),
        }
    }

    /// Whether an operand of a line, which has this number, is read later than the line.
    pub(crate) fn is_operand_later(
        &self,
        operand: &Name,
        number: Option<usize>,
        index: usize,
        place: usize,
    ) -> bool
        requires number { number ≡ number_of self.now.numbering operand.now }
        requires reported { (l : Statement) × (xs : List (List ℕ)) × (simple_operands l ≡ Some xs) ×
            (slice_get xs index ≡ Some operand.now) × IsReported self.now l place }
        ensures { result ≡ reports self.now operand.now place }
    {
        match &self.found {
            Found::ByLines(lines) if index < OPERANDS => has_operand(line_at(lines, place), index),
            Found::ByLines(_) => is_read_in(&self.statements[place + 1..], operand),
            Found::ByGroups(successors, groups) => is_live_after(successors, groups, number, place),
        }
    }
}
