// In a script without blocks, which names of each line are read later than the line.
ghost use Rattle.std.specs.Prelude.{◌≡◌, ◌<◌, ◌==◌, ◌&&◌, ◌∷◌, ℕ, List, Some, IfOk, is_some, slice_get};
ghost use Rattle.cord_syntax.specs.declared.statements.Statement.{Statement};
ghost use Rattle.cord_plan.specs.inner.Liveness.{AreNextReads, AreBits, AreReportedFrom, entry_at, entry_of};
ghost use Rattle.cord_plan.specs.inner.Numbering.{bit, IsNumbered, IsNumbering, names_of};
ghost use Rattle.cord_plan.specs.inner.Places.{AreNumbers};
ghost use Rattle.cord_plan.specs.declared.flow.numbering.Numbering.{Numbering};

use crate::flow::numbering::{LineNumbers, Numbering};
use crate::flow::recent::{entry_at, note_all, put};
use cord_script::Statement;
use std::alloc::{AllocError, Global};

/// Of how many operands it is kept whether they are read later.
pub(crate) const OPERANDS: usize = 16;

/// Whether the name that a line assigns is read later than the line, and by a bit for each of its first operands
/// whether that one is.
#[derive(Clone, Copy)]
pub(crate) struct LineLater {
    pub(crate) target: bool,
    pub(crate) operands: u16,
}

/// Nothing is read later.
const NOTHING: LineLater = LineLater {
    target: false,
    operands: 0,
};

/// What is read later than the line at a place.
pub(crate) fn line_at(lines: &[LineLater], place: usize) -> LineLater
    ensures { (line : LineLater) → slice_get lines.now place ≡ Some line → result ≡ line }
{
    match lines.get(place) {
        Some(line) => *line,
        None => NOTHING,
    }
}

/// Whether an operand of a line is read later than the line.
pub(crate) fn has_operand(line: LineLater, index: usize) -> bool
    requires { index < 16 }
    ensures { result ≡ bit line.operands index }
{
    (line.operands >> index) & 1 == 1
}

// The bit of an operand, where it is set.
fn operand_bit(index: usize, is_set: bool) -> u16
    requires { index < 16 }
    ensures { (i : ℕ) → bit result i ≡ (is_set && (i == index)) }
{
    if is_set { 1 << index } else { 0 }
}

// On the way back over lines `next_reads` has, by the numbers of names, the next line that reads each name, where none
// before that one assigns it.

// Whether the name of a number is read before it is assigned.
fn is_read(next_reads: &[Option<usize>], number: Option<usize>) -> bool
    ensures { result ≡ is_some (entry_at next_reads.now number) }
{
    entry_at(next_reads, number).is_some()
}

// Which of the first of these numbers are those of names that are read before they are assigned.
fn operand_bits(next_reads: &[Option<usize>], numbers: &[u32]) -> u16
    ensures { (t : Numbering) (xs : List (List ℕ)) → AreNumbers (names_of t) xs numbers.now →
        AreBits (λ x. is_some (entry_of t next_reads.now x)) xs result }
{
    let mut bits = 0;
    for (index, number) in numbers.iter().enumerate() {
        if index >= OPERANDS {
            return bits;
        }
        bits |= operand_bit(index, is_read(next_reads, Some(*number as usize)));
    }
    bits
}

// Goes back over the line before, whose names have these numbers.
fn go_back(next_reads: &mut [Option<usize>], numbers: LineNumbers, place: usize)
    ensures { (t : Numbering) (l : Statement) (ls : List Statement) → IsNumbered t l numbers.entry →
        AreNextReads ls t next_reads.old → AreNextReads (l ∷ ls) t next_reads.new }
{
    put(next_reads, numbers.target, None);
    note_all(next_reads, numbers.read, place);
}

/// Which names of each line are read later, in a script without blocks: one pass from the last line back.
pub(crate) fn lines_later(
    alloc: Global,
    statements: &[Statement],
    numbering: &Numbering,
) -> Result<Vec<LineLater>, AllocError>
    requires { IsNumbering statements.now numbering.now }
    ensures { IfOk result (λ v. AreReportedFrom statements.now 0 v.items) }
{
    let mut next_reads = vec![in alloc; None; numbering.count()]?;
    let mut lines = vec![in alloc; NOTHING; statements.len()]?;
    for place in (0..statements.len()).rev() {
        let numbers = numbering.line(place);
        lines[place] = LineLater {
            target: is_read(&next_reads, numbers.target),
            operands: operand_bits(&next_reads, numbers.read),
        };
        go_back(&mut next_reads, numbers, place);
    }
    Ok(lines)
}
