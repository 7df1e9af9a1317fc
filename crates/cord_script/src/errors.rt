// What is wrong first with words where something is wanted of each, by the order of the refusals.
ghost use Rattle.std.specs.Prelude.{◌≡◌};
ghost use Rattle.cord_script.specs.FirstErrors.{unless, misfit, first_pair};
ghost use Rattle.cord_script.specs.inner.LineReading.{scope_of, pair_error, wanted_error};
ghost use Rattle.cord_script.specs.inner.Verbal.{verb_effect};

use crate::blocks::block_error;
use crate::context::{Context, is_among};
use crate::fields::{begins_numeral, function_of, is_path, relation_of};
use crate::kinds::{Kind, Want};
use crate::names::{assigned_error, is_name, kind_error};
use crate::numerals::numeral_of;
use crate::verbs::Verb;
use crate::words::Word;
use crate::{MAX_PATHS, RefusalKind};

/// A pass over the words of a statement, from left to right.
#[derive(Clone, Copy)]
pub enum Pass {
    /// The words by themselves.
    Words,
    /// The operands that are names.
    Operands,
    /// The target.
    Target,
    /// The path.
    Path,
}

// This kind where the test fails.
fn unless(test: bool, kind: RefusalKind) -> Option<RefusalKind>
    ensures { result ≡ unless test kind }
{
    if test { None } else { Some(kind) }
}

// What is wrong with a word by itself, where this is wanted.
fn misfit(want: Want, word: &Word) -> Option<RefusalKind>
    ensures { result ≡ misfit want word.now }
{
    match (want, word) {
        (Want::Target(_) | Want::Operand(_), Word::Plain(name)) => {
            unless(is_name(name.as_slice()), RefusalKind::BadName)
        }
        (Want::Number, Word::Plain(word)) => {
            if begins_numeral(word.as_slice()) {
                return unless(
                    numeral_of(word.as_slice()).is_some(),
                    RefusalKind::BadNumber,
                );
            }
            unless(is_name(word.as_slice()), RefusalKind::BadName)
        }
        (Want::Number, Word::Quoted(_)) => Some(RefusalKind::BadNumber),
        (Want::Text | Want::Path | Want::Format, Word::Plain(_)) => Some(RefusalKind::WrongKind),
        (Want::Text | Want::Format, Word::Quoted(_)) => None,
        (Want::Path, Word::Quoted(path)) => unless(is_path(path.as_slice()), RefusalKind::BadName),
        (Want::Function, Word::Plain(word)) => {
            unless(function_of(word.as_slice()).is_some(), RefusalKind::BadName)
        }
        (Want::Relation, Word::Plain(word)) => {
            unless(relation_of(word.as_slice()).is_some(), RefusalKind::BadName)
        }
        _ => Some(RefusalKind::BadName),
    }
}

// What is wrong with a word in a pass.
fn pair_error(pass: Pass, context: &Context, want: Want, word: &Word) -> Option<RefusalKind>
    ensures { result ≡ pair_error pass (scope_of context.now) want word.now }
{
    let names = &context.names;
    match (pass, want, word) {
        (Pass::Words, _, _) => misfit(want, word),
        (Pass::Operands, Want::Operand(kind), Word::Plain(name)) => {
            kind_error(names.kind_of(name.as_slice()), kind)
        }
        (Pass::Operands, Want::Number, Word::Plain(word)) => {
            if begins_numeral(word.as_slice()) {
                return None;
            }
            kind_error(names.kind_of(word.as_slice()), Kind::Number)
        }
        (Pass::Target, Want::Target(kind), Word::Plain(name)) => {
            assigned_error(names.kind_of(name.as_slice()), kind, names.len())
        }
        (Pass::Path, Want::Path, Word::Quoted(path)) => {
            let is_known = is_among(&context.paths, path.as_slice());
            unless(
                is_known || context.paths.len() < MAX_PATHS,
                RefusalKind::TooMany,
            )
        }
        _ => None,
    }
}

/// The first that is wrong in a pass.
#[tactic(auto, using(crate::proofs::FormErrors::pair_step))]
pub fn earliest_error(
    pass: Pass,
    context: &Context,
    wants: &[Want],
    words: &[Word],
) -> Option<RefusalKind>
    ensures { result ≡ first_pair (pair_error pass (scope_of context.now)) wants.now words.now }
{
    let mut wants = wants;
    let mut words = words;
    'pairs: while let [want, more @ ..] = wants {
        let [word, suffix @ ..] = words else {
            return None;
        };
        if let Some(kind) = pair_error(pass, context, *want, word) {
            return Some(kind);
        }
        wants = more;
        words = suffix;
    }
    None
}

/// What is wrong with the words after a verb, where this is wanted of them: their number, the words by themselves, the
/// names, the blocks.
#[tactic(auto, using(crate::proofs::FormErrors::or_first))]
pub fn wanted_error(
    context: &Context,
    verb: Verb,
    wants: &[Want],
    words: &[Word],
) -> Option<RefusalKind>
    ensures { result ≡ wanted_error (verb_effect verb) (scope_of context.now) wants.now words.now }
{
    if words.len() != wants.len() {
        return Some(RefusalKind::WrongCount);
    }
    let of_blocks = block_error(verb, &context.blocks);
    let of_path = earliest_error(Pass::Path, context, wants, words);
    let of_target = earliest_error(Pass::Target, context, wants, words);
    let of_names = earliest_error(Pass::Operands, context, wants, words).or(of_target.or(of_path));
    earliest_error(Pass::Words, context, wants, words).or(of_names.or(of_blocks))
}
