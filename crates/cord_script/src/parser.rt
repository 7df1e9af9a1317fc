// The parser.
ghost use Rattle.std.specs.Prelude.{◌≡◌, ◌≢◌, ◌≤◌, ◌<◌, ◌+◌, [], ◌∷◌, ◌++◌, List, ℕ, All, IfOk, IfErr, OnOk, MatchBool};
ghost use Rattle.std.specs.Prelude.{length};
ghost use Rattle.memchr.specs.Find.{IsFirstByte, is_byte};
ghost use Rattle.cord_script.specs.Words.{IsIdle, IsSplit};
ghost use Rattle.cord_syntax.specs.Lines.{line_of};
ghost use Rattle.cord_script.specs.Script.{Reads, ReadsUpTo, whole};
ghost use Rattle.cord_script.specs.FirstErrors.{FirstError, HasBadLine};
ghost use Rattle.cord_script.specs.inner.LineReading.{scope_of, TakesLine};
ghost use Rattle.cord_script.specs.declared.TheConstants.{MAX_LINES};

use crate::blocks::open_error;
use crate::context::Context;
use crate::diagnosis::first_wrong;
use crate::line::take_statement;
use crate::words::{blanks, head, tail, uncons};
use crate::{MAX_LINES, MAX_SCRIPT, Refusal, RefusalKind, Script, Statement};
use memchr::memchr_iter;
use std::alloc::Global;

// No statement stands on the line.
fn is_idle(line: &[u8]) -> bool
    ensures { MatchBool result (IsIdle line.now) (¬ IsIdle line.now) }
{
    match uncons(tail(line, blanks(line))) {
        None => true,
        Some((first, _)) => first == b'#',
    }
}

// The place of the first byte 10, by what looks at the nearest bytes first, since most lines are short.
#[inline(always)]
fn first_end(bytes: &[u8]) -> Option<usize>
    ensures { IsFirstByte (is_byte 10) bytes.now result }
{
    memchr_iter(b'\n', bytes).next()
}

// The first line, and what follows its byte 10.
fn first_line(bytes: &[u8]) -> (&[u8], &[u8])
    requires { bytes.now ≢ [] }
    ensures first { (lines : List (List ℕ)) → IsSplit result.1.now lines → IsSplit bytes.now (result.0.now ∷ lines) }
    ensures shorter { length result.1.now < length bytes.now }
{
    match first_end(bytes) {
        Some(end) => (head(bytes, end), tail(bytes, end + 1)),
        None => (bytes, tail(bytes, bytes.len())),
    }
}

// Adds the statement of a line, if it has one, where no more lines than there may be stand in front.
fn take_line(
    alloc: Global,
    number: u32,
    line: &[u8],
    context: &mut Context,
    statements: &mut Vec<Statement>,
) -> Result<(), RefusalKind>
    requires { number ≤ MAX_LINES + 1 }
    ensures few { OnOk result (number ≤ MAX_LINES) }
    ensures takes { OnOk result
        (TakesLine number line.now (scope_of context.old) (scope_of context.new) statements.old.items
        statements.new.items) }
    ensures first_error { IfErr result (λ kind. kind ≢ RefusalKind.NoMemory →
        HasBadLine whole number (scope_of context.old) line.now kind) }
    ensures no_memory { IfErr result (λ kind. kind ≡ RefusalKind.NoMemory → number ≤ MAX_LINES) }
{
    if number > MAX_LINES {
        return Err(RefusalKind::TooBig);
    }
    if take_statement(alloc, number, line, context, statements)? {
        return Ok(());
    }
    if is_idle(line) {
        return Ok(());
    }
    Err(first_wrong(alloc, context, line).unwrap_or(RefusalKind::NoMemory))
}

/// Reads a script: lines that end with byte 10, or with the script, and on each one statement, a comment or nothing.
/// docs/GRAMMAR.md gives the grammar.
///
/// Refused with the line of the first error, counted from 1, and what it is: the bytes of a line come first, then its
/// verb, the number of its words, the words, and the names. Line 0 is the script as a whole. `NoMemory` comes at the
/// line that was being read, and says nothing of the script but that the lines before are read.
pub fn parse(alloc: Global, script: &[u8]) -> Result<Script, Refusal>
    // The bytes are these statements.
    ensures reads { IfOk result (λ s. Reads script.now s) }
    // Unless memory was refused, this is the first thing wrong with the bytes.
    ensures first_error { IfErr result (λ r. r.kind ≢ RefusalKind.NoMemory → FirstError script.now r.line r.kind) }
    // Where memory was refused, the line is the one that was being read.
    ensures no_memory { IfErr result (λ r. r.kind ≡ RefusalKind.NoMemory → ReadsUpTo script.now r.line) }
    // Lines are numbered from 1.
    ensures numbered { IfOk result (λ s. All (λ statement. 1 ≤ line_of statement) s) }
{
    let size = script.len();
    if size > MAX_SCRIPT {
        return Err(Refusal {
            line: 0,
            kind: RefusalKind::TooBig,
        });
    }
    let mut statements = Vec::new(alloc);
    let mut context = Context::nothing(alloc);
    let mut rest = script;
    let mut number = 1u32;
    'lines: while !rest.is_empty() {
        let (line, after) = first_line(rest);
        if let Err(kind) = take_line(alloc, number, line, &mut context, &mut statements) {
            return Err(Refusal { line: number, kind });
        }
        rest = after;
        number += 1;
    }
    if let Some(refusal) = open_error(&context.blocks) {
        return Err(refusal);
    }
    Ok(Script::of(statements))
}
