// What is wrong with a line that isn't read.
ghost use Rattle.std.specs.Prelude.{◌≡◌, ◌≢◌, ◌++◌, [], Some, IfOk, IfSome, option_map};
ghost use Rattle.cord_script.specs.declared.words.Word.TheVariants.{Plain};
ghost use Rattle.cord_script.specs.Words.{IsIdle};
ghost use Rattle.cord_script.specs.Forms.{form_of};
ghost use Rattle.cord_script.specs.Forms.Shape.{Joined, Printed};
ghost use Rattle.cord_script.specs.Forms.Effect.{Stays};
ghost use Rattle.cord_script.specs.FirstErrors.{HasFormat, HasFormError, HasBadWords, format_wants};
ghost use Rattle.cord_script.specs.Script.{whole};
ghost use Rattle.cord_script.specs.inner.LineReading.{scope_of, wanted_error, HasWrong};
ghost use Rattle.cord_script.specs.inner.Verbal.{verb_word};

use crate::context::Context;
use crate::errors::{Pass, earliest_error, wanted_error};
use crate::formats::wants_of_pieces;
use crate::grammar::{verb_of, wants_of};
use crate::kinds::{Kind, Want};
use crate::verbs::Verb;
use crate::words::{Word, words_of};
use crate::{MAX_PARTS, MIN_PARTS, RefusalKind};
use cord_printf::{Format, FormatError};
use std::alloc::{AllocError, Global};

const TARGET: Want = Want::Target(Kind::Cord);

const CORD: Want = Want::Operand(Kind::Cord);

// A target, and as many cords as a `catn` may have.
const JOINED: [Want; 1 + MAX_PARTS] = [
    TARGET, CORD, CORD, CORD, CORD, CORD, CORD, CORD, CORD, CORD, CORD, CORD, CORD, CORD, CORD,
    CORD, CORD,
];

// The target and the format of a `sprintf`.
const PRINTED: [Want; 2] = [TARGET, Want::Format];

// What is wrong with the words after `catn`.
fn joined_error(context: &Context, words: &[Word]) -> Option<RefusalKind>
    ensures { IfSome result (λ kind.
        HasFormError (scope_of context.now) (Some (record { shape = Joined; effect = Stays })) words.now kind) }
{
    let count = words.len();
    if count < 1 + MIN_PARTS {
        return Some(RefusalKind::WrongCount);
    }
    if count > 1 + MAX_PARTS {
        return Some(RefusalKind::WrongCount);
    }
    wanted_error(context, Verb::Catn, &JOINED[..count], words)
}

// What is wanted of all words after `sprintf`, by the format among them; none where there is none.
fn printed_wants(alloc: Global, words: &[Word]) -> Result<Option<Vec<Want>>, AllocError>
    ensures wants { IfOk result (λ wants. HasFormat Printed words.now (option_map (λ w. w.items) wants)) }
{
    let [_, format, ..] = words else {
        return Ok(None);
    };
    let Word::Quoted(text) = format else {
        return Ok(None);
    };
    let format = match Format::parse(alloc, text.as_slice()) {
        Ok(format) => format,
        Err(FormatError::BadFormat(_)) => return Ok(None),
        Err(FormatError::NoMemory) => return Err(AllocError),
    };
    Ok(Some(wants_of_pieces(alloc, format.pieces())?))
}

// What is wrong with the words after `sprintf`, where this is wanted of its arguments.
fn arguments_error(
    alloc: Global,
    context: &Context,
    arguments: &[Want],
    words: &[Word],
) -> Option<RefusalKind>
    ensures { IfSome result (λ kind.
        wanted_error Stays (scope_of context.now) (format_wants ++ arguments.now) words.now ≡ Some kind) }
{
    let mut wants = Vec::from_slice(alloc, &PRINTED).ok()?;
    wants.extend_from_slice(arguments).ok()?;
    wanted_error(context, Verb::Sprintf, &wants, words)
}

// What is wrong with the words after `sprintf`.
fn printed_error(alloc: Global, context: &Context, words: &[Word]) -> Option<RefusalKind>
    ensures { IfSome result (λ kind.
        HasFormError (scope_of context.now) (Some (record { shape = Printed; effect = Stays })) words.now kind) }
{
    if words.len() < PRINTED.len() {
        return Some(RefusalKind::WrongCount);
    }
    let Ok(arguments) = printed_wants(alloc, words) else {
        return None;
    };
    if let Some(kind) = earliest_error(Pass::Words, context, &PRINTED, words) {
        return Some(kind);
    }
    let Some(arguments) = arguments else {
        return Some(RefusalKind::BadFormat);
    };
    arguments_error(alloc, context, &arguments, words)
}

// What is wrong with the words after a verb.
fn form_error(alloc: Global, context: &Context, verb: Verb, words: &[Word]) -> Option<RefusalKind>
    ensures { IfSome result (λ kind. HasFormError (scope_of context.now) (form_of (verb_word verb)) words.now kind) }
{
    match verb {
        Verb::Fixed(fixed) => wanted_error(context, verb, wants_of(fixed), words),
        Verb::Catn => joined_error(context, words),
        Verb::Sprintf => printed_error(alloc, context, words),
    }
}

// What is wrong with the words of a line.
fn words_error(alloc: Global, context: &Context, words: &[Word]) -> Option<RefusalKind>
    requires { words.now ≢ [] }
    ensures { IfSome result (λ kind. HasBadWords whole (scope_of context.now) words.now kind) }
{
    let [first, others @ ..] = words else {
        return Some(RefusalKind::UnknownStatement);
    };
    let Word::Plain(word) = first else {
        return Some(RefusalKind::UnknownStatement);
    };
    match verb_of(word.as_slice()) {
        None => Some(RefusalKind::UnknownStatement),
        Some(verb) => form_error(alloc, context, verb, others),
    }
}

/// What is wrong first with a line for which no statement was built: its bytes, or its words. Where nothing is, memory
/// was refused for the statement.
#[cold]
#[inline(never)]
pub fn first_wrong(alloc: Global, context: &Context, line: &[u8]) -> Option<RefusalKind>
    requires { ¬ IsIdle line.now }
    ensures { IfSome result (λ kind. kind ≢ RefusalKind.NoMemory → HasWrong line.now (scope_of context.now) kind) }
{
    match words_of(alloc, line) {
        Ok(words) => words_error(alloc, context, &words),
        Err(kind) => Some(kind),
    }
}
