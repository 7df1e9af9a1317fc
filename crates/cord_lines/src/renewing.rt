// Blocks of a text that was edited.
ghost use Rattle.std.specs.Prelude.{◌≡◌, ◌↔◌, ◌+◌, ◌<◌, ◌≤◌, List, ℕ, IsTrue, IfSome, OnOk, IsErr, length};
ghost use Rattle.cord_lines.specs.Counts.{plus, AreFew};
ghost use Rattle.cord_lines.specs.declared.blocks.Measure.TheVariants.{Bytes};
ghost use Rattle.cord_lines.specs.inner.Blocks.{block_counts, total, IsFound};
ghost use Rattle.cord_lines.specs.inner.Cuts.{AreOfSomeText, BeginsBy, IsSize};
ghost use Rattle.cord_lines.specs.inner.Edits.{AreRemoved, Covers, EditFits, FollowEdit, IsExchanged, IsSpan, IsSpanTo};

use crate::blocks::{Block, Blocks, Found};
use crate::counting::Counts;
use crate::cutting::{BLOCK, LARGEST, cut};
use crate::reading::count_range;
use cord::Text;
use std::alloc::{AllocError, Global};

/// Blocks of fewer bytes are joined with one beside them.
const SMALLEST: u64 = 2_048;

/// So many bytes from a place on were removed, and so many others put there.
#[derive(Clone, Copy)]
pub(crate) struct Edit {
    pub(crate) start: u64,
    pub(crate) removed: u64,
    pub(crate) inserted: u64,
}

impl Edit {
    /// Whether it may make a text of `after` bytes of one of `before` bytes.
    pub(crate) fn fits(self, before: u64, after: u64) -> bool
        ensures { IsTrue result ↔ EditFits self before after }
    {
        self.start <= before
            && self.removed <= before - self.start
            && before - self.removed <= after
            && after - (before - self.removed) == self.inserted
    }

    /// The counts of what it removes, where they are known without the text: of nothing.
    pub(crate) fn known_removed(self) -> Option<Counts>
        ensures { (x : List ℕ) → AreRemoved result self x }
    {
        if self.removed == 0 {
            Some(Counts::NONE)
        } else {
            None
        }
    }

    /// Whether it removes little, which a text of so many bytes has.
    pub(crate) fn removes_little(self, len: u64) -> bool
        ensures { IsTrue result → self.start + self.removed ≤ len }
    {
        self.removed <= LARGEST && self.start <= len && self.removed <= len - self.start
    }
}

/// Blocks beside each other: `count` of them from the index `first` on, which hold `bytes` bytes from `start` on.
#[derive(Clone, Copy)]
struct Span {
    first: usize,
    count: usize,
    start: u64,
    bytes: u64,
}

/// The blocks of the text after an edit: those that the edit meets are counted once more, but within one block only
/// what is new, where the counts of what was removed are known. After a refusal all is as it was.
pub(crate) fn renew(
    blocks: &mut Blocks,
    alloc: Global,
    after: &Text,
    edit: Edit,
    found: Found,
    removed: Option<Counts>,
) -> Result<(), AllocError>
    requires blocks { AreOfSomeText blocks.old }
    requires found { IsFound block_counts blocks.old Bytes edit.start found }
    requires edit { EditFits edit (total blocks.old).bytes (length after.now) }
    ensures blocks { AreOfSomeText blocks.new }
    ensures cut { OnOk result (FollowEdit blocks.old blocks.new after.now edit removed) }
    ensures unchanged { IsErr result → blocks.new ≡ blocks.old }
{
    let len_after = after.len();
    prove!(edit.inserted <= len_after);
    let span = span_of(blocks, edit, found);
    let len = span.bytes - edit.removed + edit.inserted;
    if span.count == 1 && len <= LARGEST {
        if let Some(removed) = removed {
            let inserted = count_range(after, edit.start, edit.start + edit.inserted);
            if let Some(block) = block_with(blocks.get(span.first), removed, inserted, len) {
                blocks.set(span.first, block);
                return Ok(());
            }
        }
    }
    let size = size_of(len, span.count);
    let fresh = cut(alloc, after, span.start, span.start + len, size)?;
    blocks.replace(alloc, span.first, span.count, &fresh)?;
    Ok(())
}

// The block of these counts with others in the place of a part of them, if there are `len` bytes with such counts.
fn block_with(own: Counts, removed: Counts, inserted: Counts, len: u64) -> Option<Block>
    requires few { AreFew (plus own inserted) }
    requires small { len ≤ LARGEST }
    ensures { IfSome result (IsExchanged own removed inserted len) }
{
    if !removed.are_within(own) {
        return None;
    }
    let counts = own.exchanged(removed, inserted);
    if counts.ends <= counts.chars && counts.chars <= counts.bytes && counts.bytes == len {
        Some(Block::of(counts))
    } else {
        None
    }
}

// The size of the blocks of so many bytes in the place of so many blocks: such that their number stays, where they are
// neither small nor large then.
fn size_of(len: u64, count: usize) -> u64
    ensures { IsSize result LARGEST }
{
    let mean = len / (count as u64).max(1);
    if SMALLEST <= mean && mean <= LARGEST {
        mean
    } else {
        BLOCK
    }
}

// The blocks that an edit meets, with one more beside them where they would be small afterwards.
fn span_of(blocks: &Blocks, edit: Edit, found: Found) -> Span
    requires found { BeginsBy blocks.now found edit.start }
    requires inside { edit.start + edit.removed ≤ (total blocks.now).bytes }
    ensures { Covers blocks.now result edit }
{
    let span = span_over(blocks, found, edit.start + edit.removed);
    if span.count > 0 && SMALLEST <= span.bytes - edit.removed + edit.inserted.min(SMALLEST) {
        span
    } else if span.first + span.count < blocks.len() {
        with_next(blocks, span)
    } else if span.first > 0 {
        with_last(blocks, span)
    } else {
        span
    }
}

// The blocks that hold the bytes from where a block begins up to a place.
fn span_over(blocks: &Blocks, found: Found, end: u64) -> Span
    requires found { BeginsBy blocks.now found found.before.bytes }
    requires inside { end ≤ (total blocks.now).bytes }
    ensures { IsSpanTo blocks.now result found.before.bytes end }
{
    let mut span = Span {
        first: found.index,
        count: 0,
        start: found.before.bytes,
        bytes: 0,
    };
    while span.start + span.bytes < end {
        span = with_next(blocks, span);
    }
    span
}

// These blocks and the one after them.
fn with_next(blocks: &Blocks, span: Span) -> Span
    requires span { IsSpan blocks.now span }
    requires more { span.first + span.count < length blocks.now }
    ensures span { IsSpanTo blocks.now result span.start (span.start + span.bytes) }
    ensures first { result.first ≡ span.first }
    ensures count { result.count ≡ span.count + 1 }
{
    Span {
        count: span.count + 1,
        bytes: span.bytes + blocks.get(span.first + span.count).bytes,
        ..span
    }
}

// The block before these ones, and them.
fn with_last(blocks: &Blocks, span: Span) -> Span
    requires span { IsSpan blocks.now span }
    requires more { 0 < span.first }
    ensures span { IsSpan blocks.now result }
    ensures start { result.start ≤ span.start }
    ensures end { result.start + result.bytes ≡ span.start + span.bytes }
{
    let bytes = blocks.get(span.first - 1).bytes;
    Span {
        first: span.first - 1,
        count: span.count + 1,
        start: span.start - bytes,
        bytes: span.bytes + bytes,
    }
}
