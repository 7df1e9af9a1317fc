//! What lies behind the pointers that C keeps.
ghost use Rattle.std.specs.Prelude.{◌≡◌, [], None, IfOk, length};
ghost use Rattle.cord_lines.specs.Index.{of_no_bytes};

use cord::{Text, TextEditor};
use cord_core::Cord;
use cord_lines::LineIndex;
use std::alloc::{AllocError, Global};

/// What a handle leads to, in few bytes: what has more lies at another place on the heap.
#[derive(Drop)]
pub enum Referent {
    /// Nothing: the pointer is null.
    Nothing,
    /// A text, whose bytes are in memory.
    Text(Text),
    /// A cord, which may have parts in files.
    Cord(Cord),
    /// A text that is edited in place.
    Editor(Box<TextEditor, Global>),
    /// The index of the lines of a text.
    Lines(Box<LineIndex, Global>),
}

impl Referent {
    ghost use Rattle.cord_c.specs.Referent.{text_by, cord_by, edited_by, index_by};

    /// The text, `none` where there is none.
    pub(crate) fn text_or<'a>(&'a self, none: &'a Text) -> &'a Text
        requires { none.now ≡ [] }
        ensures { result.now ≡ text_by self.now }
    {
        match self {
            Referent::Text(text) => text,
            _ => none,
        }
    }

    /// The cord, `none` where there is none.
    pub(crate) fn cord_or<'a>(&'a self, none: &'a Cord) -> &'a Cord
        requires { none.now ≡ None }
        ensures { result.now ≡ cord_by self.now }
    {
        match self {
            Referent::Cord(cord) => cord,
            _ => none,
        }
    }

    /// The index of lines, `none` where there is none.
    pub(crate) fn index_or<'a>(&'a self, none: &'a LineIndex) -> &'a LineIndex
        requires { none.now ≡ of_no_bytes }
        ensures { result.now ≡ index_by self.now }
    {
        match self {
            Referent::Lines(index) => index,
            _ => none,
        }
    }

    /// The number of bytes of the text that is edited, 0 where there is none.
    pub(crate) fn edited_len(&self) -> u64
        ensures { result ≡ length (edited_by self.now) }
    {
        match self {
            Referent::Editor(text) => text.len(),
            _ => 0,
        }
    }

    /// The text that is edited, that of no bytes where there is none. Refused only when out of memory.
    pub(crate) fn edited_text(&mut self, alloc: Global) -> Result<Text, AllocError>
        ensures text { IfOk result (λ t. t ≡ edited_by self.old) }
        ensures same { edited_by self.new ≡ edited_by self.old }
    {
        match self {
            Referent::Editor(text) => text.to_text(alloc),
            _ => Ok(Text::empty()),
        }
    }
}
