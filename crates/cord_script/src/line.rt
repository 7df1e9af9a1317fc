// The statement of a line, and what it leaves.
ghost use Rattle.std.specs.Prelude.{◌≡◌, [], ◌∷◌, ◌++◌, true, false, IfSome, IfOk};
ghost use Rattle.cord_script.specs.Words.{HasWord};
ghost use Rattle.cord_script.specs.declared.words.Word.TheVariants.{Plain};
ghost use Rattle.cord_script.specs.inner.LineReading.{scope_of, TakesLine};
ghost use Rattle.cord_script.specs.inner.Verbal.{verb_word};

use crate::Statement;
use crate::blocks::block_error;
use crate::context::Context;
use crate::grammar::verb_of;
use crate::remaining_words::LineWords;
use crate::statements::statement_of;
use crate::verbs::Verb;
use crate::words::plain_word;
use std::alloc::{AllocError, Global};

// The verb of a line's first word, and what follows that word.
#[inline(always)]
fn prefix_verb(line: &[u8]) -> Option<(Verb, &[u8])>
    ensures { IfSome result (λ r. HasWord line.now (Plain (verb_word r.0)) r.1.now) }
{
    let (word, rest) = plain_word(line)?;
    let verb = verb_of(word)?;
    Some((verb, rest))
}

// Adds what was built, and tells whether it did, if it was built of all words.
#[inline(always)]
fn push_of_all<T: Drop>(items: &mut Vec<T>, is_done: bool, built: T) -> Result<bool, AllocError>
    ensures adds { IfOk result (λ added. added ≡ true → (is_done ≡ true) ×
        (items.new.items ≡ items.old.items ++ built ∷ [])) }
    ensures keeps { IfOk result (λ added. added ≡ false → items.new.items ≡ items.old.items) }
{
    if is_done {
        items.push(built)?;
        Ok(true)
    } else {
        Ok(false)
    }
}

/// Adds the statement of a line and what it leaves, and tells whether the line says one. Where it says none, or memory
/// was refused for its statement, nothing is added.
#[inline(always)]
pub fn take_statement(
    alloc: Global,
    number: u32,
    line: &[u8],
    context: &mut Context,
    statements: &mut Vec<Statement>,
) -> Result<bool, AllocError>
    ensures adds { IfOk result (λ taken. taken ≡ true → TakesLine number line.now (scope_of context.old)
        (scope_of context.new) statements.old.items statements.new.items) }
    ensures keeps { IfOk result (λ taken. taken ≡ false → (scope_of context.new ≡ scope_of context.old) ×
        (statements.new.items ≡ statements.old.items)) }
{
    let Some((verb, rest)) = prefix_verb(line) else {
        return Ok(false);
    };
    if block_error(verb, &context.blocks).is_some() {
        return Ok(false);
    }
    let mut words = LineWords::of(alloc, context, rest);
    let Some(statement) = statement_of(verb, number, &mut words) else {
        return Ok(false);
    };
    let is_added = push_of_all(statements, words.is_done(), statement)?;
    if !is_added {
        return Ok(false);
    }
    let (name, path) = words.into_added();
    context.leave(verb, number, name, path)?;
    Ok(true)
}
