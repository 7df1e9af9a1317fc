// The blocks of a text, and what each holds.
ghost use Rattle.std.specs.Prelude.{◌≡◌, ◌+◌, ◌<◌, ◌≤◌, ◌^◌, IfOk, OnOk, IsErr, [], length, take, slice_set};
ghost use Rattle.cord_lines.specs.Counts.{plus, AreFew, AreNarrow};
ghost use Rattle.cord_lines.specs.inner.Blocks.{amount, block_counts, own, total, total_by};
ghost use Rattle.cord_lines.specs.inner.Blocks.{AreSumsOf, IsFound, IsFoundAfter, IsGroup};
ghost use Rattle.cord_lines.specs.inner.Edits.{replaced, CanReplace};

use crate::counting::Counts;
use std::alloc::{AllocError, Global};
use std::marker::Model;

/// How many blocks are summed up together, and how many of their sums.
const GROUP: usize = 64;

/// The counts of a block, which has less than 65,536 bytes.
#[derive(Clone, Copy)]
pub(crate) struct Block {
    pub(crate) bytes: u16,
    pub(crate) ends: u16,
    pub(crate) chars: u16,
}

/// What has counts: a block, or a group of them.
pub(crate) trait Counted: Copy {
    ghost use Rattle.cord_lines.specs.declared.counting.Counts.{Counts};

    ghost part: { Self → Counts };

    /// Its counts.
    fn counts(self) -> Counts
        ensures { result ≡ part self };
}

impl Counted for Counts {
    ghost part = { own };

    fn counts(self) -> Counts {
        self
    }
}

impl Counted for Block {
    ghost part = { block_counts };

    fn counts(self) -> Counts {
        Counts {
            bytes: u64::from(self.bytes),
            ends: u64::from(self.ends),
            chars: u64::from(self.chars),
        }
    }
}

impl Block {
    /// The block of these counts.
    pub(crate) fn of(counts: Counts) -> Block
        requires { AreNarrow counts }
        ensures { block_counts result ≡ counts }
    {
        Block {
            bytes: counts.bytes as u16,
            ends: counts.ends as u16,
            chars: counts.chars as u16,
        }
    }
}

/// By what a block is looked for.
#[derive(Clone, Copy)]
pub(crate) enum Measure {
    Bytes,
    Ends,
}

impl Measure {
    fn of(self, counts: Counts) -> u64
        ensures { result ≡ amount self counts }
    {
        match self {
            Measure::Bytes => counts.bytes,
            Measure::Ends => counts.ends,
        }
    }
}

/// A block or a group, by its index, and the counts of all before it.
#[derive(Clone, Copy)]
pub(crate) struct Found {
    pub(crate) index: usize,
    pub(crate) before: Counts,
}

/// The blocks of a text in order, with the sums of each `GROUP` of them, of each `GROUP` of those, and of all.
#[derive(Drop)]
pub(crate) struct Blocks {
    blocks: Vec<Block>,
    sums: Vec<Counts>,
    tops: Vec<Counts>,
    all: Counts,
}

impl Model for Blocks {
    ghost use Rattle.std.specs.Prelude.{List};
    ghost use Rattle.cord_lines.specs.declared.blocks.Block.{Block};
    ghost use Rattle.cord_lines.specs.inner.Blocks.{AreSummed};

    ghost Value = { List Block };

    ghost view = { λ b. b.blocks.items };

    ghost invariant = { λ b. AreSummed b.tops.items b.sums.items b.all b.blocks.items };
}

impl Blocks {
    /// These blocks.
    pub(crate) fn of(alloc: Global, blocks: Vec<Block>) -> Result<Blocks, AllocError>
        requires { AreFew (total blocks.items) }
        ensures blocks { IfOk result (λ made. made ≡ blocks.items) }
    {
        let sums = sums_of(alloc, &blocks)?;
        let tops = sums_of(alloc, &sums)?;
        let all = sum_of(&tops);
        Ok(Blocks {
            blocks,
            sums,
            tops,
            all,
        })
    }

    /// No blocks, which take no memory.
    pub(crate) fn none(alloc: Global) -> Blocks
        ensures { result ≡ [] }
    {
        Blocks {
            blocks: Vec::new(alloc),
            sums: Vec::new(alloc),
            tops: Vec::new(alloc),
            all: Counts::NONE,
        }
    }

    /// The number of blocks.
    pub(crate) fn len(&self) -> usize
        ensures { result ≡ length self.now }
    {
        self.blocks.len()
    }

    /// The counts of a block.
    pub(crate) fn get(&self, index: usize) -> Counts
        requires { index < length self.now }
        ensures { total (take (index + 1) self.now) ≡ plus (total (take index self.now)) result }
    {
        self.blocks[index].counts()
    }

    /// The counts of all blocks.
    pub(crate) fn counts(&self) -> Counts
        ensures { result ≡ total self.now }
    {
        self.all
    }

    /// The last block with no more than `target` before it: of no blocks none.
    pub(crate) fn find(&self, measure: Measure, target: u64) -> Found
        requires { AreFew (total self.now) }
        ensures { IsFound block_counts self.now measure target result }
    {
        let top = last_with(&self.tops, measure, target, Counts::NONE);
        let sum = last_in_group(&self.sums, top, measure, target);
        last_in_group(&self.blocks, sum, measure, target)
    }

    /// Puts a block into the place of another one.
    pub(crate) fn set(&mut self, index: usize, block: Block)
        requires inside { index < length self.old }
        requires few { AreFew (total (slice_set self.old index block)) }
        ensures { self.new ≡ slice_set self.old index block }
    {
        let old = self.blocks[index].counts();
        let new = block.counts();
        let group = index / GROUP;
        let sum = self.sums[group];
        let changed = sum.exchanged(old, new);
        let top = group / GROUP;
        self.blocks[index] = block;
        self.sums[group] = changed;
        self.tops[top] = self.tops[top].exchanged(sum, changed);
        self.all = self.all.exchanged(old, new);
    }

    // Puts blocks into the place of as many others.
    fn set_each(&mut self, start: usize, fresh: &[Block])
        requires fits { CanReplace self.old start (length fresh.now) fresh.now }
        requires short { length self.old < 2 ^ 64 }
        ensures { self.new ≡ replaced self.old start (length fresh.now) fresh.now }
    {
        for (offset, block) in fresh.iter().enumerate() {
            self.set(start + offset, *block);
        }
    }

    /// Puts blocks into the place of `count` others: of as many without a pass over the rest. After a refusal all is as
    /// it was.
    pub(crate) fn replace(
        &mut self,
        alloc: Global,
        start: usize,
        count: usize,
        fresh: &[Block],
    ) -> Result<(), AllocError>
        requires { CanReplace self.old start count fresh.now }
        ensures blocks { OnOk result (self.new ≡ replaced self.old start count fresh.now) }
        ensures unchanged { IsErr result → self.new ≡ self.old }
    {
        let len = self.blocks.len() - count + fresh.len();
        if count == fresh.len() {
            self.set_each(start, fresh);
            return Ok(());
        }
        let mut blocks = Vec::with_capacity(alloc, len)?;
        blocks.extend_from_slice(&self.blocks[..start])?;
        blocks.extend_from_slice(fresh)?;
        blocks.extend_from_slice(&self.blocks[start + count..])?;
        *self = Blocks::of(alloc, blocks)?;
        Ok(())
    }
}

// The last one with no more than `target` before it in a group, of which the number is known and what is before it.
fn last_in_group<T: Counted>(parts: &[T], group: Found, measure: Measure, target: u64) -> Found
    requires { IsGroup T.part parts.now measure target group }
    ensures { IsFound T.part parts.now measure target result }
{
    let start = group.index.saturating_mul(GROUP).min(parts.len());
    let rest = &parts[start..];
    let prefix = &rest[..rest.len().min(GROUP)];
    let found = last_with(prefix, measure, target, group.before);
    Found {
        index: start + found.index,
        before: found.before,
    }
}

// The last one with no more than `target` before it, where they follow others.
fn last_with<T: Counted>(parts: &[T], measure: Measure, target: u64, others: Counts) -> Found
    requires few { AreFew (plus others (total_by T.part parts.now)) }
    requires most { amount measure others ≤ target }
    ensures { IsFoundAfter others T.part parts.now measure target result }
{
    let mut before = others;
    for (index, part) in parts.iter().enumerate() {
        let after = before.plus(part.counts());
        if target < measure.of(after) {
            return Found { index, before };
        }
        before = after;
    }
    Found {
        index: parts.len(),
        before,
    }
}

// What they have together.
fn sum_of<T: Counted>(parts: &[T]) -> Counts
    requires { AreFew (total_by T.part parts.now) }
    ensures { result ≡ total_by T.part parts.now }
{
    let mut sum = Counts::NONE;
    for part in parts {
        sum = sum.plus(part.counts());
    }
    sum
}

// The sums of all groups.
fn sums_of<T: Counted>(alloc: Global, parts: &[T]) -> Result<Vec<Counts>, AllocError>
    requires { AreFew (total_by T.part parts.now) }
    ensures sums { IfOk result (λ sums. AreSumsOf T.part sums.items parts.now) }
{
    let mut sums = Vec::with_capacity(alloc, parts.len() / GROUP + 1)?;
    let mut rest = parts;
    while !rest.is_empty() {
        let (prefix, back) = rest.split_at(rest.len().min(GROUP));
        sums.push(sum_of(prefix))?;
        rest = back;
    }
    Ok(sums)
}
