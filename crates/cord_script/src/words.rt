// The words of a line.
ghost use Rattle.std.specs.Prelude.{◌≡◌, ◌≢◌, ◌<◌, ◌≤◌, ℕ, List, [], ◌∷◌, ◌++◌, length, take, drop, All, IfOk, IfErr};
ghost use Rattle.std.specs.Prelude.{OnOk, IfSome, MatchOption, option_map, IsTrue, false};
ghost use Rattle.cord_script.specs.Words.{IsBlank, IsPlainByte, EndsPlain, SpellsText, IsBadText, HasWord};
ghost use Rattle.cord_script.specs.Words.{BeginsBadText, HasWords, HasBadBytes};
ghost use Rattle.cord_script.specs.inner.Reading.{HasNext, StartsNoBlank, digit_of, hex_of, escape_of, unit_of};

use crate::{MAX_TEXT, RefusalKind, Text};
use std::alloc::Global;
use std::marker::Model;

/// The bytes of a plain word, which stand in the script.
#[derive(Drop)]
pub struct Plain<'a> {
    bytes: &'a [u8],
}

impl<'a> Model for Plain<'a> {
    ghost use Rattle.std.specs.Prelude.{List, ℕ};

    ghost Value = { List ℕ };

    ghost view = { λ p. p.bytes.now };
}

impl<'a> Plain<'a> {
    /// The bytes of the word.
    pub fn as_slice(&self) -> &[u8]
        ensures { result.now ≡ self.now }
    {
        self.bytes
    }
}

/// A word: a plain one as its bytes, a quoted one as the text that it spells.
#[derive(Drop)]
pub enum Word<'a> {
    Plain(Plain<'a>),
    Quoted(Text),
}

fn is_blank(c: u8) -> bool
    ensures yes { IsTrue result → IsBlank c }
    ensures no { result ≡ false → ¬ IsBlank c }
{
    c == b' ' || c == b'\t' || c == b'\r'
}

/// How many blanks stand at the front.
pub fn blanks(line: &[u8]) -> usize
    ensures within { result ≤ length line.now }
    ensures blank { All IsBlank (take result line.now) }
    ensures stops { StartsNoBlank (drop result line.now) }
{
    for (i, c) in line.iter().enumerate() {
        if !is_blank(*c) {
            return i;
        }
    }
    line.len()
}

// How many bytes of a plain word stand at the front.
fn plain_len(line: &[u8]) -> usize
    ensures within { result ≤ length line.now }
    ensures plain { All IsPlainByte (take result line.now) }
    ensures ends { EndsPlain (drop result line.now) }
{
    for (i, c) in line.iter().enumerate() {
        if *c == b'"' || is_blank(*c) {
            return i;
        }
    }
    line.len()
}

/// What follows the first bytes.
pub fn tail(bytes: &[u8], n: usize) -> &[u8]
    requires { n ≤ length bytes.now }
    ensures { result.now ≡ drop n bytes.now }
{
    &bytes[n..]
}

/// The first bytes.
pub fn head(bytes: &[u8], n: usize) -> &[u8]
    requires { n ≤ length bytes.now }
    ensures { result.now ≡ take n bytes.now }
{
    &bytes[..n]
}

/// The first byte and the others.
pub fn uncons(bytes: &[u8]) -> Option<(u8, &[u8])>
    ensures { MatchOption result (bytes.now ≡ []) (λ r. bytes.now ≡ r.0 ∷ r.1.now) }
{
    match bytes {
        [] => None,
        [first, rest @ ..] => Some((*first, rest)),
    }
}

// The value of a hexadecimal digit.
fn digit(c: u8) -> Option<u8>
    ensures value { result ≡ digit_of c }
    ensures small { IfSome result (λ v. v < 16) }
{
    match c {
        b'0'..=b'9' => Some(c - b'0'),
        b'a'..=b'f' => Some(c - b'a' + 10),
        b'A'..=b'F' => Some(c - b'A' + 10),
        _ => None,
    }
}

// The byte of two hexadecimal digits, and what follows them.
fn hex_byte(bytes: &[u8]) -> Option<(u8, &[u8])>
    ensures { option_map (λ r. (r.0, r.1.now)) result ≡ hex_of bytes.now }
{
    let (h, after) = uncons(bytes)?;
    let (l, rest) = uncons(after)?;
    let high = digit(h)?;
    let low = digit(l)?;
    Some((16 * high + low, rest))
}

// The byte of an escape whose `\` is read, and what follows the escape.
fn escape(bytes: &[u8]) -> Option<(u8, &[u8])>
    ensures { option_map (λ r. (r.0, r.1.now)) result ≡ escape_of bytes.now }
{
    let (c, rest) = uncons(bytes)?;
    match c {
        b'\\' => Some((b'\\', rest)),
        b'"' => Some((b'"', rest)),
        b'n' => Some((b'\n', rest)),
        b't' => Some((b'\t', rest)),
        b'x' => hex_byte(rest),
        _ => None,
    }
}

// The byte that the prefix of a quoted word stands for, and what follows it.
fn unit(bytes: &[u8]) -> Option<(u8, &[u8])>
    ensures { option_map (λ r. (r.0, r.1.now)) result ≡ unit_of bytes.now }
{
    let (c, rest) = uncons(bytes)?;
    match c {
        b'\\' => escape(rest),
        b'"' => None,
        _ => Some((c, rest)),
    }
}

// The text of a quoted word whose first quote is read, and what follows the word.
fn quoted(alloc: Global, inner: &[u8]) -> Result<(Text, &[u8]), RefusalKind>
    ensures text { IfOk result (λ r. (w : List ℕ) × (inner.now ≡ w ++ 34 ∷ r.1.now) × SpellsText w r.0 ×
        (length r.0 ≤ MAX_TEXT)) }
    ensures first_error { IfErr result (λ kind. kind ≢ RefusalKind.NoMemory → IsBadText inner.now kind) }
{
    let mut text = Vec::new(alloc);
    let mut rest = inner;
    'units: while let Some((first, after)) = uncons(rest) {
        if first == b'"' {
            return Ok((Text::of(text), after));
        }
        let Some((byte, suffix)) = unit(rest) else {
            return Err(RefusalKind::BadEscape);
        };
        if text.len() == MAX_TEXT {
            return Err(RefusalKind::LiteralTooLong);
        }
        text.push(byte)?;
        rest = suffix;
    }
    Err(RefusalKind::Unterminated)
}

/// The first word of a line and what follows it, if it is a plain word.
#[inline(always)]
pub fn plain_word(line: &[u8]) -> Option<(&[u8], &[u8])>
    ensures { IfSome result (λ r. HasWord line.now (Word.Plain r.0.now) r.1.now) }
{
    let rest = tail(line, blanks(line));
    let Some((first, _)) = uncons(rest) else {
        return None;
    };
    if first == b'"' {
        return None;
    }
    let len = plain_len(rest);
    Some((head(rest, len), tail(rest, len)))
}

/// The first word of a line and what follows it, if there is one.
#[inline(always)]
pub fn next_word(alloc: Global, line: &[u8]) -> Result<Option<(Word<'_>, &[u8])>, RefusalKind>
    ensures word { IfOk result (λ o. HasNext line.now (option_map (λ r. (r.0, r.1.now)) o)) }
    ensures first_error { IfErr result (λ kind. kind ≢ RefusalKind.NoMemory → BeginsBadText line.now kind) }
{
    let rest = tail(line, blanks(line));
    let Some((first, inner)) = uncons(rest) else {
        return Ok(None);
    };
    if first == b'"' {
        let (text, after) = quoted(alloc, inner)?;
        return Ok(Some((Word::Quoted(text), after)));
    }
    let len = plain_len(rest);
    let bytes = head(rest, len);
    Ok(Some((Word::Plain(Plain { bytes }), tail(rest, len))))
}

/// The words of a line, in order.
pub fn words_of(alloc: Global, line: &[u8]) -> Result<Vec<Word<'_>>, RefusalKind>
    ensures words { IfOk result (λ words. HasWords line.now words.items) }
    ensures first_error { IfErr result (λ kind. kind ≢ RefusalKind.NoMemory → HasBadBytes line.now kind) }
{
    let mut words = Vec::new(alloc);
    let mut rest = line;
    'words: loop {
        match next_word(alloc, rest)? {
            None => return Ok(words),
            Some((word, suffix)) => {
                words.push(word)?;
                rest = suffix;
            }
        }
    }
}
