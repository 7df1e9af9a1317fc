// What a word says that is a path, a function or a relation.
ghost use Rattle.std.specs.Prelude.{◌≡◌, ◌==◌, ◌&&◌, not, true, false, is_some, IfSome, ℕ, List};
ghost use Rattle.std.specs.Str.{is_utf8};
ghost use Rattle.cord_script.specs.Tests.{each, is_path, begins_numeral, function_word, relation_word};
ghost use Rattle.cord_script.specs.FirstErrors.{unless, function_misfit, relation_misfit};

use crate::numerals::is_digit;
use crate::words::Word;
use crate::{Function, MAX_PATH, Path, RefusalKind, Relation, Text};

/// Whether a word begins as a numeral: with a digit or `-`.
pub fn begins_numeral(word: &[u8]) -> bool
    ensures { result ≡ begins_numeral word.now }
{
    match word {
        [] => false,
        [first, ..] => is_digit(*first) || *first == b'-',
    }
}

// Whether a byte 0 stands nowhere.
fn has_no_zero(bytes: &[u8]) -> bool
    ensures { result ≡ each (λ c. not (c == 0)) bytes.now }
{
    !bytes.contains(&0)
}

// Whether bytes are UTF-8.
fn is_utf8(bytes: &[u8]) -> bool
    ensures { result ≡ is_utf8 bytes.now }
{
    str::from_utf8(bytes).is_ok()
}

// Whether bytes are a path, if they are UTF-8.
fn is_path_text(path: &[u8]) -> bool
    ensures { is_path path.now ≡ (result && is_utf8 path.now) }
{
    !path.is_empty() && path.len() <= MAX_PATH && has_no_zero(path)
}

/// Whether bytes are a path.
pub fn is_path(path: &[u8]) -> bool
    ensures { result ≡ is_path path.now }
{
    is_path_text(path) && is_utf8(path)
}

/// The path of a text, where it is one.
#[tactic(auto, using(crate::proofs::Checked::string_is_utf8))]
pub fn path_of(text: Text) -> Option<Path>
    ensures { IfSome result (λ path. (path ≡ text) × (is_path path ≡ true)) }
{
    if !is_path_text(text.as_slice()) {
        return None;
    }
    match String::from_utf8(text.into_vec()) {
        Ok(path) => Some(Path::of(path)),
        Err(_) => None,
    }
}

/// The function of a plain word, where it is one's.
pub fn function_of(word: &[u8]) -> Option<Function>
    ensures function { IfSome result (λ function. word.now ≡ function_word function) }
    ensures misfit { function_misfit (Word.Plain word.now) ≡ unless (is_some result) RefusalKind.BadName }
{
    if word == b"digits".as_slice() {
        return Some(Function::Digits);
    }
    if word == b"bytes".as_slice() {
        return Some(Function::Bytes);
    }
    None
}

/// The relation of a plain word, where it is one's.
pub fn relation_of(word: &[u8]) -> Option<Relation>
    ensures relation { IfSome result (λ relation. word.now ≡ relation_word relation) }
    ensures misfit { relation_misfit (Word.Plain word.now) ≡ unless (is_some result) RefusalKind.BadName }
{
    match word {
        b"lt" => Some(Relation::Less),
        b"eq" => Some(Relation::Equal),
        b"gt" => Some(Relation::Greater),
        _ => None,
    }
}
