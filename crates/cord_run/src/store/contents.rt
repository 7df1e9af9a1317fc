// What the entry of a name gets.
ghost use Rattle.std.specs.Prelude.{◌≡◌, ◌<◌, ℕ, List, length};
ghost use Rattle.cord_run.specs.inner.{text_len, HasSplice, IsContentSpliced, IsWholeContent, IsWholeAt, IsSetAt};
ghost use Rattle.cord_run.specs.inner.{Splices};
ghost use Rattle.cord_run.specs.inner.{spliced_len, cells_in, content_in, cord_in, extensible_in};
ghost use Rattle.cord_run.specs.inner.{HasContent, HasExtensible, HasNumber, IsEntryAt};

use crate::store::{Content, Entry};
use cord_core::Cord;
use cord_ec::ExtCord;
use cord_io::CordError;
use std::alloc::Global;
use std::mem::replace;

/// Puts another content into the entry at a place.
pub(crate) fn set_content(entries: &mut [Entry], place: usize, content: Content)
    requires { place < length entries.old }
    ensures { IsSetAt place (λ name. HasContent name content entries.old entries.new) entries.old entries.new }
{
    let entry = &mut entries[place];
    entry.content = content;
}

/// Puts a length alone into the entry at a place.
#[inline(always)]
pub(crate) fn set_length(entries: &mut [Entry], place: usize, len: u64)
    requires { place < length entries.old }
    ensures { IsSetAt place (λ name. HasContent name
        (Content.Long len) entries.old entries.new) entries.old entries.new }
{
    let entry = &mut entries[place];
    become_length(&mut entry.content, len);
}

// Puts a length alone in the place of a content: over another length nothing is let go.
#[inline(always)]
fn become_length(content: &mut Content, len: u64)
    ensures { content.new ≡ Content.Long len }
{
    match content {
        Content::Long(known) => *known = len,
        content => *content = Content::Long(len),
    }
}

/// Puts a cord in the place of so many bytes from a start on of the cord in the entry at a place.
pub(crate) fn splice_content(
    alloc: Global,
    entries: &mut [Entry],
    place: usize,
    start: u64,
    count: u64,
    middle: &Cord,
) -> Result<(), CordError>
    requires within { place < length entries.old }
    requires whole { IsWholeAt place entries.old }
    ensures { IsSetAt place (λ name. Splices (HasSplice name start count middle.now entries.old entries.new)
        (spliced_len start count middle.now (text_len (cord_in (content_in entries.old name))))
        entries.old entries.new result) entries.old entries.new }
{
    let entry = &mut entries[place];
    splice_within(alloc, &mut entry.content, start, count, middle)
}

// The same of a content.
fn splice_within(
    alloc: Global,
    content: &mut Content,
    start: u64,
    count: u64,
    middle: &Cord,
) -> Result<(), CordError>
    requires { IsWholeContent content.old }
    ensures { Splices (IsContentSpliced start count middle.now content.old content.new)
        (spliced_len start count middle.now (text_len (cord_in content.old))) content.old content.new result }
{
    match content {
        Content::Whole(cord) => cord.splice(alloc, start, count, middle),
        Content::Long(_) => unreachable!(),
    }
}

/// Puts another number into the entry at a place.
#[inline(always)]
pub(crate) fn set_number(entries: &mut [Entry], place: usize, number: i64)
    requires { place < length entries.old }
    ensures { IsSetAt place (λ name. HasNumber name number entries.old entries.new) entries.old entries.new }
{
    let entry = &mut entries[place];
    entry.number = number;
}

/// Puts another extensible cord, or none, into the entry at a place, and answers what it had.
pub(crate) fn set_extensible(
    entries: &mut [Entry],
    place: usize,
    extensible: Option<ExtCord>,
) -> Option<ExtCord>
    requires { place < length entries.old }
    ensures before { (name : List ℕ) → IsEntryAt entries.old name place →
        cells_in result ≡ extensible_in entries.old name }
    ensures set { IsSetAt place (λ name. HasExtensible name (cells_in extensible) entries.old entries.new)
        entries.old entries.new }
{
    let entry = &mut entries[place];
    replace(&mut entry.extensible, extensible)
}
