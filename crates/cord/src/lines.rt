// The lines of a text.
ghost use Rattle.std.specs.Prelude.{◌≡◌, ◌-◌, ◌<◌, ◌≤◌, ◌∷◌, IfOk, length, take, drop, slice_get};
ghost use Rattle.cord.specs.Lines.{lines, bare_lines, lines_as};

use crate::Text;
use crate::count::{count_in, nth_in};
use std::alloc::{AllocError, Global};
use std::marker::Model;

/// The lines of a text that are left, as texts that share its tree. A line ends with the byte 10, which the last one
/// may lack. Where memory is refused a line is `AllocError`, and the next ones follow.
#[derive(Drop)]
pub struct Lines<'a> {
    text: &'a Text,
    alloc: Global,
    start: u64,
    with_ends: bool,
}

impl<'a> Model for Lines<'a> {
    ghost use Rattle.std.specs.Prelude.{List, ℕ, ◌≤◌, drop, length};
    ghost use Rattle.cord.specs.Lines.{lines_as};

    ghost Value = { List (List ℕ) };

    ghost view = { λ l. lines_as l.with_ends (drop l.start l.text.now) };

    ghost invariant = { λ l. l.start ≤ length l.text.now };
}

impl Text {
    /// Its lines without their ends.
    pub fn lines(&self, alloc: Global) -> Lines<'_>
        ensures { result ≡ bare_lines self.now }
    {
        self.all_lines(alloc, false)
    }

    /// Its lines with their ends: together they are the text.
    pub fn lines_with_ends(&self, alloc: Global) -> Lines<'_>
        ensures { result ≡ lines self.now }
    {
        self.all_lines(alloc, true)
    }

    // Its lines with their ends or without.
    fn all_lines(&self, alloc: Global, with_ends: bool) -> Lines<'_>
        ensures { result ≡ lines_as with_ends self.now }
    {
        Lines {
            text: self,
            alloc,
            start: 0,
            with_ends,
        }
    }

    /// Line `n`, from 0, without its end: none where there are no more than `n` lines. Those before it aren't made.
    /// Refused only when out of memory.
    pub fn nth_line(&self, alloc: Global, n: u64) -> Result<Option<Text>, AllocError>
        ensures line { IfOk result (λ line. line ≡ slice_get (bare_lines self.now) n) }
    {
        let start = self.line_start(n);
        if start == self.len() {
            return Ok(None);
        }
        let (end, _) = self.line_end(start, false);
        let line = self.substr(alloc, start, end - start)?;
        Ok(Some(line))
    }

    // Where line `n` begins: at the end where there are no more than `n` lines.
    fn line_start(&self, n: u64) -> u64
        ensures line { bare_lines (drop result self.now) ≡ drop n (bare_lines self.now) }
        ensures inside { result ≤ length self.now }
    {
        if n == 0 {
            return 0;
        }
        let mut left = n - 1;
        let mut start = 0;
        let mut chunks = self.chunks();
        while let Some(chunk) = chunks.next() {
            let ends = count_in(chunk, b'\n');
            if left < ends {
                return start + nth_in(chunk, b'\n', left) + 1;
            }
            left -= ends;
            start += chunk.len();
        }
        start
    }

    // Where the line that begins at a place ends, with its end or without it, and where the next one begins.
    fn line_end(&self, start: u64, with_end: bool) -> (u64, u64)
        requires { start < length self.now }
        ensures line { lines_as with_end (drop start self.now)
            ≡ take (result.0 - start) (drop start self.now) ∷ lines_as with_end (drop result.1 self.now) }
        ensures start { start ≤ result.0 }
        ensures later { start < result.1 }
        ensures inside { result.1 ≤ length self.now }
    {
        let len = self.len();
        match self.find_byte(b'\n', start) {
            Some(place) if with_end => (place + 1, place + 1),
            Some(place) => (place, place + 1),
            None => (len, len),
        }
    }
}

impl<'a> Iterator for Lines<'a> {
    ghost use Rattle.std.specs.Iterator.{item_count};
    ghost use Rattle.cord.specs.Lines.{GivesLine};

    type Item = Result<Text, AllocError>;

    ghost next_gives = { GivesLine };

    ghost remaining = { item_count (λ left. left) };

    fn next(&mut self) -> Option<Result<Text, AllocError>> {
        let start = self.start;
        if start == self.text.len() {
            return None;
        }
        let (end, next) = self.text.line_end(start, self.with_ends);
        self.start = next;
        Some(self.text.substr(self.alloc, start, end - start))
    }
}
