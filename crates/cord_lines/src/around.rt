// What a text has before a place, and after it.
ghost use Rattle.std.specs.Prelude.{◌≡◌, ◌+◌, ◌≤◌, List, ℕ, IfSome, length};
ghost use Rattle.cord_lines.specs.inner.Cuts.{AreBlocksOf, BeginsBy, IsMark, IsMarkWhere, IsModest};
ghost use Rattle.cord_lines.specs.inner.Edits.{AreRemoved};
ghost use Rattle.cord_lines.specs.inner.Reading.{IsAround, IsRange};

use crate::blocks::{Blocks, Found};
use crate::counting::Counts;
use crate::reading::{NOTHING, count_next};
use crate::renewing::Edit;
use cord::Text;

/// The counts of the bytes before a place of a text, and of some next ones.
#[derive(Clone, Copy)]
pub(crate) struct Around {
    pub(crate) before: Counts,
    pub(crate) next: Counts,
}

/// What is known of the text before an edit: the counts of bytes before its place, and of those that it removes.
#[derive(Clone, Copy)]
pub(crate) struct Known {
    pub(crate) mark: Counts,
    pub(crate) removed: Option<Counts>,
}

/// What is known of it, if it is given: the block where the edit begins was found.
pub(crate) fn known_of(
    blocks: &Blocks,
    last: Counts,
    before: Option<&Text>,
    edit: Edit,
    found: Found,
) -> Known
    requires found { BeginsBy blocks.now found edit.start }
    requires last { IsModest last }
    ensures mark { IsMarkWhere
        (λ x. IfSome before.entry (λ text. text.now ≡ x) × AreBlocksOf blocks.now x × IsMark x last)
        edit.start result.mark }
    ensures removed { (x : List ℕ) → IfSome before.entry (λ text. text.now ≡ x) → AreRemoved result.removed edit x }
{
    if let Some(text) = before {
        if edit.removes_little(text.len()) {
            let around = around_near(blocks, last, text, edit, found);
            return Known {
                mark: around.before.up_to(edit.start),
                removed: Some(around.next),
            };
        }
    }
    Known {
        mark: last.up_to(edit.start),
        removed: edit.known_removed(),
    }
}

// What is around the place of an edit: before it, and removed there.
fn around_near(blocks: &Blocks, last: Counts, text: &Text, edit: Edit, found: Found) -> Around
    requires found { BeginsBy blocks.now found edit.start }
    requires last { IsModest last }
    requires inside { edit.start + edit.removed ≤ length text.now }
    ensures { IsAround (AreBlocksOf blocks.now text.now × IsMark text.now last)
        text.now edit.start edit.removed result }
{
    if last.are_near(edit.start) {
        around_after(last, text, edit.start, edit.removed)
    } else {
        around_within(blocks, text, found, edit.start, edit.removed)
    }
}

/// What is around a place of a block, counted from the nearer end of the block.
pub(crate) fn around_within(
    blocks: &Blocks,
    text: &Text,
    found: Found,
    place: u64,
    count: u64,
) -> Around
    requires found { BeginsBy blocks.now found place }
    requires inside { place + count ≤ length text.now }
    ensures { IsAround (AreBlocksOf blocks.now text.now) text.now place count result }
{
    let before = found.before;
    let len = text.len();
    if found.index < blocks.len() {
        let end = before.plus(blocks.get(found.index));
        if end.bytes <= len
            && place + count <= end.bytes
            && end.bytes - place < place - before.bytes
        {
            return around_up_to(end, text, place, count);
        }
    }
    around_after(before, text, place, count)
}

/// What is around a place, counted from bytes before it on, of which the counts are known.
pub(crate) fn around_after(from: Counts, text: &Text, place: u64, count: u64) -> Around
    requires modest { IsModest from }
    requires ordered { from.bytes ≤ place }
    requires inside { place + count ≤ length text.now }
    ensures { IsAround (IsMark text.now from) text.now place count result }
{
    let _len = text.len();
    let counted = count_next(text, from.bytes, place - from.bytes, NOTHING);
    let next = count_next(text, place, count, counted.1).0;
    Around {
        before: from.plus(counted.0),
        next,
    }
}

// What is around a place, counted up to a place after it, of which the counts of all before it are known.
fn around_up_to(end: Counts, text: &Text, place: u64, count: u64) -> Around
    requires { IsRange text.now (place + count) end.bytes }
    ensures { IsAround (IsMark text.now end) text.now place count result }
{
    let _len = text.len();
    let next = count_next(text, place, count, NOTHING);
    let rest = count_next(text, place + count, end.bytes - (place + count), next.1).0;
    Around {
        before: end.without(next.0).without(rest),
        next: next.0,
    }
}
