// Whether a word is a name, and what is wrong with the kind of a name.
ghost use Rattle.std.specs.Prelude.{◌≡◌, ◌||◌, true, Some};
ghost use Rattle.cord_script.specs.Tests.{is_letter, is_digit, is_name, each};
ghost use Rattle.cord_script.specs.FirstErrors.{kind_error, assigned_error, same_kind};

use crate::kinds::Kind;
use crate::numerals::is_digit;
use crate::words::uncons;
use crate::{MAX_NAME, MAX_NAMES, RefusalKind};

fn is_letter(c: u8) -> bool
    ensures { result ≡ is_letter c }
{
    matches!(c, b'a'..=b'z' | b'A'..=b'Z' | b'_')
}

fn all_inner(word: &[u8]) -> bool
    ensures { result ≡ each (λ c. is_letter c || is_digit c) word.now }
{
    for c in word {
        if !is_letter(*c) && !is_digit(*c) {
            return false;
        }
    }
    true
}

/// Whether a word is a name.
pub fn is_name(word: &[u8]) -> bool
    ensures { result ≡ is_name word.now }
{
    match uncons(word) {
        None => false,
        Some((first, rest)) => is_letter(first) && all_inner(rest) && word.len() <= MAX_NAME,
    }
}

/// Whether two kinds are one.
pub fn is_same(a: Kind, b: Kind) -> bool
    ensures { result ≡ same_kind a b }
{
    matches!(
        (a, b),
        (Kind::Cord, Kind::Cord)
            | (Kind::Number, Kind::Number)
            | (Kind::Extensible, Kind::Extensible)
    )
}

/// What is wrong with an operand of this kind.
pub fn kind_error(has: Option<Kind>, kind: Kind) -> Option<RefusalKind>
    ensures { result ≡ kind_error has kind }
{
    match has {
        None => Some(RefusalKind::UnknownName),
        Some(known) if is_same(known, kind) => None,
        Some(_) => Some(RefusalKind::WrongKind),
    }
}

/// What is wrong with a target of this kind, where so many names are known.
pub fn assigned_error(has: Option<Kind>, kind: Kind, count: usize) -> Option<RefusalKind>
    ensures { result ≡ assigned_error has kind count }
{
    match has {
        None if count < MAX_NAMES => None,
        None => Some(RefusalKind::TooMany),
        Some(known) if is_same(known, kind) => None,
        Some(_) => Some(RefusalKind::WrongKind),
    }
}
