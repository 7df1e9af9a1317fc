//! A text that is edited, with the index of its lines.
ghost use Rattle.std.specs.Prelude.{◌≡◌, ◌+◌, ◌<◌, ◌≤◌, ◌++◌, IfOk, OnOk, IfErr, IsErr, Err};
ghost use Rattle.std.specs.Prelude.{length, take, drop, min, slice_get};
ghost use Rattle.cord_io.specs.declared.CordError.TheVariants.{TooLong};
ghost use Rattle.cord_core.specs.Refusals.{IsRefusal};
ghost use Rattle.cord.specs.Lines.{lines, bare_lines};
ghost use Rattle.cord_lines.specs.Counts.{chars_in, ends_in};
ghost use Rattle.cord_lines.specs.Lines.{after_ends};

use crate::index::LineIndex;
use cord::{CordError, MAX_LEN, Text};
use std::alloc::{AllocError, Global};
use std::marker::Model;

/// A text and the index of its lines, which each edit keeps, so that lines are found by number and by place at any
/// time. After a refusal all is as before.
#[derive(Drop)]
pub struct LineEditor {
    text: Text,
    index: LineIndex,
}

impl Model for LineEditor {
    ghost use Rattle.std.specs.Prelude.{List, ℕ};
    ghost use Rattle.cord_lines.specs.Index.{IsIndexOf};

    ghost Value = { List ℕ };

    ghost view = { λ e. e.text };

    ghost invariant = { λ e. IsIndexOf e.index e.text };
}

impl LineEditor {
    /// An editor of the bytes of `text`, whose tree it shares. Each byte is counted once. Refused only when out of
    /// memory.
    pub fn of(alloc: Global, text: &Text) -> Result<LineEditor, AllocError>
        ensures text { IfOk result (λ made. made ≡ text.now) }
    {
        let index = LineIndex::of(alloc, text)?;
        let text = text.share(alloc)?;
        Ok(LineEditor { text, index })
    }

    /// The text as it is now. A share of it stays as it is.
    pub fn text(&self) -> &Text
        ensures { result.now ≡ self.now }
    {
        &self.text
    }

    /// The number of lines, as `LineIndex::lines`.
    pub fn lines(&self) -> u64
        ensures { result ≡ length (lines self.now) }
    {
        self.index.lines()
    }

    /// The place where line `n` begins, as `LineIndex::line_start`.
    pub fn line_start(&self, n: u64) -> u64
        ensures { result ≡ after_ends n self.now }
    {
        self.index.line_start(&self.text, n)
    }

    /// The number of the line that holds the byte at `place`, as `LineIndex::line_of`.
    pub fn line_of(&self, place: u64) -> u64
        ensures { result ≡ ends_in (take place self.now) }
    {
        self.index.line_of(&self.text, place)
    }

    /// The column of the byte at `place`, as `LineIndex::column`.
    pub fn column(&self, place: u64) -> u64
        ensures { after_ends (ends_in (take place self.now)) self.now + result ≡ min place (length self.now) }
    {
        self.index.column(&self.text, place)
    }

    /// How many characters of UTF-8 begin in a range, as `LineIndex::utf8_len`.
    pub fn utf8_len(&self, start: u64, count: u64) -> u64
        ensures { result ≡ chars_in (take count (drop start self.now)) }
    {
        self.index.utf8_len(&self.text, start, count)
    }

    /// Line `n`, from 0, without its end: none where there are no more than `n` lines. Refused only when out of memory.
    pub fn line(&self, alloc: Global, n: u64) -> Result<Option<Text>, AllocError>
        ensures line { IfOk result (λ line. line ≡ slice_get (bare_lines self.now) n) }
    {
        self.index.line(alloc, &self.text, n)
    }

    /// Puts the bytes of `text`, whose tree is shared, in the place of at most `count` bytes from `start` on: at the
    /// end where `start` is at or past the end. It costs what `Text::replace_range` does and then, within one block, a
    /// count of what is removed and what is new, or else what `LineIndex::edited` does. `TooLong` where the bytes would
    /// be more than `MAX_LEN`, `NoMemory` where memory was refused.
    pub fn replace_range(
        &mut self,
        alloc: Global,
        start: u64,
        count: u64,
        text: &Text,
    ) -> Result<(), CordError>
        ensures text { OnOk result (self.new ≡ take start self.old ++ text.now ++ drop (start + count) self.old) }
        ensures unchanged { IsErr result → self.new ≡ self.old }
        ensures too_long { result ≡ Err TooLong →
            MAX_LEN < length (take start self.old ++ text.now ++ drop (start + count) self.old) }
        ensures within_limit { OnOk result
            (length (take start self.old ++ text.now ++ drop (start + count) self.old) ≤ MAX_LEN) }
        ensures refused { IfErr result IsRefusal }
    {
        let after = self.text.replace_range(alloc, start, count, text)?;
        let len = self.text.len();
        let from = start.min(len);
        let removed = count.min(len - from);
        self.index
            .edited_from(alloc, &self.text, &after, from, removed, text.len())?;
        self.text = after;
        Ok(())
    }
}
