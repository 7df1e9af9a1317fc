//! The lines of a text by number.
ghost use Rattle.std.specs.Prelude.{◌≡◌, ◌+◌, ◌-◌, ◌<◌, ◌≤◌, List, ℕ, IfOk, IfSome, OnOk, IsErr};
ghost use Rattle.std.specs.Prelude.{Some, length, take, drop, min, slice_get};
ghost use Rattle.cord.specs.Lines.{lines, bare_lines, lines_as};
ghost use Rattle.cord_lines.specs.Counts.{chars_in, counts_of, ends_in};
ghost use Rattle.cord_lines.specs.Lines.{after_ends, is_inside_line, lacks_end, IsEditOf};
ghost use Rattle.cord_lines.specs.Index.{FollowsEdit, IsIndexOf, of_no_bytes};
ghost use Rattle.cord_lines.specs.inner.Blocks.{total};
ghost use Rattle.cord_lines.specs.inner.Cuts.{AreBlocksOf, AreModest, IsModest};
ghost use Rattle.cord_lines.specs.inner.Edits.{AreRemoved};

use crate::around::{around_after, around_within, known_of};
use crate::blocks::{Blocks, Measure};
use crate::counting::Counts;
use crate::cutting::{BLOCK, cut};
use crate::reading::{after_last_end, end_from};
use crate::renewing::{Edit, renew};
use cord::Text;
use std::alloc::{AllocError, Global};
use std::marker::Model;

/// How far before the place where the end of a line is guessed the search begins.
const MARGIN: u64 = 256;

/// How many lines end, and how many characters begin, in each block of a text, so that a line is found by its number
/// and by a place in it without a walk through the text. It belongs to one text and doesn't keep it: each call is given
/// that text once more, and of another text its answers mean nothing.
///
/// A line ends with the byte 10, which the last one may lack. Blocks have some 6,550 to 8,192 bytes at first, and end
/// where a part of the text does, if one ends there, so the index takes less than a thousandth of the text's memory. A
/// look-up passes the sums of 4,096 blocks each, 64 sums of 64 blocks each and 64 blocks, and reads a part of one
/// block: near the place of the last `edited_from` only what lies between.
#[derive(Drop)]
pub struct LineIndex {
    blocks: Blocks,
    lacks_end: bool,
    // The counts of the bytes before the place of the last edit of which the text before was given, or of no bytes.
    mark: Counts,
    // Whether a line ends before that place in its block, so that the way back to the end is short.
    is_end_near: bool,
}

impl Model for LineIndex {
    ghost use Rattle.cord_lines.specs.Index.{Indexed};
    ghost use Rattle.cord_lines.specs.inner.Cuts.{AreOfSomeText, IsModest, shown};

    ghost Value = { Indexed };

    ghost view = { λ i. shown i.blocks i.lacks_end i.mark };

    ghost invariant = { λ i. AreOfSomeText i.blocks × IsModest i.mark };
}

impl LineIndex {
    /// The index of a text of no bytes, which takes no memory.
    pub fn empty(alloc: Global) -> LineIndex
        ensures { result ≡ of_no_bytes }
    {
        LineIndex {
            blocks: Blocks::none(alloc),
            lacks_end: false,
            mark: Counts::NONE,
            is_end_near: false,
        }
    }

    /// The index of a text. Each byte is counted once.
    pub fn of(alloc: Global, text: &Text) -> Result<LineIndex, AllocError>
        ensures index { IfOk result (λ index. IsIndexOf index text.now) }
    {
        let blocks = cut(alloc, text, 0, text.len(), BLOCK)?;
        let blocks = Blocks::of(alloc, blocks)?;
        Ok(LineIndex {
            blocks,
            lacks_end: lacks_end_of(text),
            mark: Counts::NONE,
            is_end_near: false,
        })
    }

    /// The number of lines. Constant time.
    pub fn lines(&self) -> u64
        ensures { (x : List ℕ) → IsIndexOf self.now x → result ≡ length (lines x) }
    {
        self.blocks.counts().ends + u64::from(self.lacks_end)
    }

    /// The place where line `n`, from 0, begins: the place after the `n`th end of a line, and the end of the text where
    /// there are fewer.
    pub fn line_start(&self, text: &Text, n: u64) -> u64
        ensures { IsIndexOf self.now text.now → result ≡ after_ends n text.now }
    {
        if n == 0 {
            return 0;
        }
        if n == self.mark.ends && self.mark.bytes <= text.len() && self.is_end_near {
            return after_last_end(text, self.mark.bytes);
        }
        let before = before_line(&self.blocks, text, n);
        let from = before.bytes.min(text.len());
        end_from(text, from, n - before.ends)
    }

    /// The number of the line that holds the byte at `place`: how many lines end before it. At or past the end of the
    /// text it is how many end in all.
    pub fn line_of(&self, text: &Text, place: u64) -> u64
        ensures { IsIndexOf self.now text.now → result ≡ ends_in (take place text.now) }
    {
        self.counts_before(text, place).ends
    }

    /// How many characters of UTF-8 begin in at most `count` bytes from `start` on: each byte but those of the form
    /// 10xxxxxx begins one.
    pub fn utf8_len(&self, text: &Text, start: u64, count: u64) -> u64
        ensures { IsIndexOf self.now text.now → result ≡ chars_in (take count (drop start text.now)) }
    {
        let end = start.saturating_add(count).min(text.len());
        let before = self.counts_before(text, start).chars;
        self.counts_before(text, end).chars.saturating_sub(before)
    }

    /// The column of the byte at `place`: how many bytes its line has before it. At or past the end of the text it is
    /// that of the end.
    pub fn column(&self, text: &Text, place: u64) -> u64
        ensures { IsIndexOf self.now text.now →
            after_ends (ends_in (take place text.now)) text.now + result ≡ min place (length text.now) }
    {
        let start = self.line_start(text, self.line_of(text, place));
        place.min(text.len()).saturating_sub(start)
    }

    /// Line `n`, from 0, without its end: none where there are no more than `n` lines. It shares the tree of the text.
    /// Refused only when out of memory.
    pub fn line(&self, alloc: Global, text: &Text, n: u64) -> Result<Option<Text>, AllocError>
        ensures line { IsIndexOf self.now text.now → IfOk result (λ line. line ≡ slice_get (bare_lines text.now) n) }
    {
        self.line_as(alloc, text, n, false)
    }

    /// Line `n`, from 0, as `line`, but with its end, which the last line may lack.
    pub fn line_with_end(
        &self,
        alloc: Global,
        text: &Text,
        n: u64,
    ) -> Result<Option<Text>, AllocError>
        ensures line { IsIndexOf self.now text.now → IfOk result (λ line. line ≡ slice_get (lines text.now) n) }
    {
        self.line_as(alloc, text, n, true)
    }

    // Line `n` with its end or without it.
    fn line_as(
        &self,
        alloc: Global,
        text: &Text,
        n: u64,
        with_end: bool,
    ) -> Result<Option<Text>, AllocError>
        ensures line { IsIndexOf self.now text.now →
            IfOk result (λ line. line ≡ slice_get (lines_as with_end text.now) n) }
    {
        let start = self.line_start(text, n);
        if start >= text.len() {
            return Ok(None);
        }
        let end = line_end(text, start, with_end);
        let line = text.substr(alloc, start, end - start)?;
        Ok(Some(line))
    }

    /// Makes it the index of the text after an edit: `inserted` bytes stand from `start` on in the place of `removed`
    /// others of the text before. Only the blocks that the edit meets are counted once more, and the new bytes: of an
    /// insertion into one block the new bytes alone. Where the number of blocks changes, the list of them is copied,
    /// which takes O(n) in blocks of some 8 KiB. If no such edit makes a text of this length, all of it is counted.
    /// After a refusal the index is as it was.
    pub fn edited(
        &mut self,
        alloc: Global,
        after: &Text,
        start: u64,
        removed: u64,
        inserted: u64,
    ) -> Result<(), AllocError>
        ensures index { OnOk result (FollowsEdit self.old self.new after.now start removed inserted) }
        ensures unchanged { IsErr result → self.new ≡ self.old }
    {
        let edit = Edit {
            start,
            removed,
            inserted,
        };
        self.follow(alloc, None, after, edit)
    }

    /// As `edited`, but of an edit of the text `before` within one block only what is removed and what is new is
    /// counted, and what is between its place, from which the look-ups of its line begin, and the nearer end of the
    /// block.
    pub fn edited_from(
        &mut self,
        alloc: Global,
        before: &Text,
        after: &Text,
        start: u64,
        removed: u64,
        inserted: u64,
    ) -> Result<(), AllocError>
        ensures index { OnOk result (IsIndexOf self.old before.now →
            IsEditOf before.now after.now start removed inserted → IsIndexOf self.new after.now) }
        ensures unchanged { IsErr result → self.new ≡ self.old }
    {
        let edit = Edit {
            start,
            removed,
            inserted,
        };
        self.follow(alloc, Some(before), after, edit)
    }

    // Makes it the index of the text after an edit, of which the text before may be given.
    fn follow(
        &mut self,
        alloc: Global,
        before: Option<&Text>,
        after: &Text,
        edit: Edit,
    ) -> Result<(), AllocError>
        ensures index { OnOk result ((x : List ℕ) → IsIndexOf self.old x → IfSome before.entry (λ text. text.now ≡ x) →
            IsEditOf x after.now edit.start edit.removed edit.inserted → IsIndexOf self.new after.now) }
        ensures unchanged { IsErr result → self.new ≡ self.old }
    {
        let len = self.blocks.counts().bytes;
        if !edit.fits(len, after.len()) {
            *self = LineIndex::of(alloc, after)?;
            return Ok(());
        }
        let found = self.blocks.find(Measure::Bytes, edit.start);
        let known = known_of(&self.blocks, self.mark, before, edit, found);
        renew(&mut self.blocks, alloc, after, edit, found, known.removed)?;
        self.lacks_end = lacks_end_after(edit, len, self.lacks_end, after);
        self.mark = known.mark;
        self.is_end_near = found.before.ends < known.mark.ends;
        Ok(())
    }

    // The counts of the bytes before a place.
    fn counts_before(&self, text: &Text, place: u64) -> Counts
        ensures { IsIndexOf self.now text.now → result ≡ counts_of (take place text.now) }
    {
        let end = place.min(text.len());
        if self.mark.are_near(end) {
            return around_after(self.mark, text, end, 0).before;
        }
        let found = self.blocks.find(Measure::Bytes, end);
        around_within(&self.blocks, text, found, end, 0).before
    }
}

// The counts of the bytes before a place that fewer than `n` ends of lines precede: near the `n`th one, where that
// stands in the second half of its block, as far as its lines are of one length, and else where the block begins.
fn before_line(blocks: &Blocks, text: &Text, n: u64) -> Counts
    requires modest { AreModest blocks.now }
    requires some { 0 < n }
    ensures few { result.ends < n }
    ensures counts { AreBlocksOf blocks.now text.now → result ≡ counts_of (take result.bytes text.now) }
{
    let found = blocks.find(Measure::Ends, n - 1);
    if found.index < blocks.len() {
        let place = found.before.bytes.saturating_add(offset_of(
            blocks.get(found.index),
            n - 1 - found.before.ends,
        ));
        if place <= text.len() {
            let counts = around_within(blocks, text, found, place, 0).before;
            if counts.ends < n {
                return counts;
            }
        }
    }
    found.before
}

// How far behind the beginning of a block so many of its ends of lines are passed, if in its second half and lines are
// of one length, less a margin: else 0.
fn offset_of(block: Counts, passed: u64) -> u64 {
    if passed < block.ends && block.ends - passed < passed {
        (block.bytes.saturating_mul(passed) / block.ends).saturating_sub(MARGIN)
    } else {
        0
    }
}

// Whether the last line lacks its end after an edit of a text of this length, where it is known of that.
fn lacks_end_after(edit: Edit, len: u64, known: bool, after: &Text) -> bool
    requires { edit.start + edit.removed ≤ len }
    ensures { (before : List ℕ) → length before ≡ len → known ≡ lacks_end before →
        IsEditOf before after.now edit.start edit.removed edit.inserted → result ≡ lacks_end after.now }
{
    if edit.start + edit.removed == len {
        lacks_end_of(after)
    } else {
        known
    }
}

// Whether the last line of a text lacks its end.
fn lacks_end_of(text: &Text) -> bool
    ensures { result ≡ lacks_end text.now }
{
    is_inside_line_at(text, text.len().saturating_sub(1))
}

// Whether there is a byte at a place that is no end of a line.
fn is_inside_line_at(text: &Text, place: u64) -> bool
    ensures { result ≡ is_inside_line (slice_get text.now place) }
{
    match text.get(place) {
        Some(byte) => byte != b'\n',
        None => false,
    }
}

// Where the line that begins at a place ends, with its end or without it.
fn line_end(text: &Text, start: u64, with_end: bool) -> u64
    requires { start < length text.now }
    ensures line { slice_get (lines_as with_end (drop start text.now)) 0
        ≡ Some (take (result - start) (drop start text.now)) }
    ensures ordered { start ≤ result }
{
    let end = end_from(text, start, 1);
    if with_end {
        return end;
    }
    if is_inside_line_at(text, end - 1) {
        end
    } else {
        end - 1
    }
}
