//! Edits, each of which makes a new text of an old one.
ghost use Rattle.std.specs.Prelude.{◌≡◌, Some, IfOk};
ghost use Rattle.cord_core.specs.Texts.{first};
ghost use Rattle.examples.specs.Edits.{IsEdited};
ghost use Rattle.examples.specs.declared.editor.edit.Edit.TheVariants.{Append, Insert, Delete, Replace};

use super::refusal::Refusal;
use cord::Text;
use std::alloc::Global;

/// A change of a text. Places and counts are in bytes.
#[derive(Clone, Copy)]
pub enum Edit<'a> {
    /// Adds a line at the end.
    Append(&'a str),
    /// Puts a text in front of a place.
    Insert(u64, &'a str),
    /// Takes so many bytes out, from a place on.
    Delete(u64, u64),
    /// Puts the second text in the place of the first one, where that stands first.
    Replace(&'a str, &'a str),
}

/// The text after an edit. The old one stands, and shares with the new one all that the edit leaves alone.
pub fn edited(alloc: Global, text: &Text, edit: &Edit<'_>) -> Result<Text, Refusal>
    ensures { IfOk result (IsEdited edit.now text.now) }
{
    match *edit {
        Edit::Append(line) => with_line(alloc, text, line),
        Edit::Insert(place, added) => inserted(alloc, text, place, added),
        Edit::Delete(place, count) => deleted(alloc, text, place, count),
        Edit::Replace(old, new) => replaced(alloc, text, old, new),
    }
}

fn with_line(alloc: Global, text: &Text, line: &str) -> Result<Text, Refusal>
    ensures { IfOk result (IsEdited (Append line.entry) text.now) }
{
    let prefix = text.append_bytes(alloc, line.as_bytes())?;
    Ok(prefix.append_bytes(alloc, b"\n")?)
}

fn inserted(alloc: Global, text: &Text, place: u64, added: &str) -> Result<Text, Refusal>
    ensures { IfOk result (IsEdited (Insert place added.entry) text.now) }
{
    if place > text.len() {
        return Err(Refusal::PastEnd);
    }
    let added = Text::from_str(alloc, added)?;
    Ok(text.insert(alloc, place, &added)?)
}

fn deleted(alloc: Global, text: &Text, place: u64, count: u64) -> Result<Text, Refusal>
    ensures { IfOk result (IsEdited (Delete place count) text.now) }
{
    if place > text.len() || count > text.len() - place {
        return Err(Refusal::PastEnd);
    }
    Ok(text.remove(alloc, place, count)?)
}

/// The first place of a text in another one.
pub fn first_place(alloc: Global, text: &Text, wanted: &str) -> Result<u64, Refusal>
    ensures { IfOk result (λ place. first text.now 0 wanted.now ≡ Some place) }
{
    let found = text.find(alloc, wanted.as_bytes(), 0)?;
    found.ok_or(Refusal::NotFound)
}

fn replaced(alloc: Global, text: &Text, old: &str, new: &str) -> Result<Text, Refusal>
    ensures { IfOk result (IsEdited (Replace old.entry new.entry) text.now) }
{
    let place = first_place(alloc, text, old)?;
    let new = Text::from_str(alloc, new)?;
    Ok(text.replace_range(alloc, place, old.len() as u64, &new)?)
}
