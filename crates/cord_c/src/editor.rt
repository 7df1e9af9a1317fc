//! What a `zc_edit` of C is: a text that is edited in place.
ghost use Rattle.std.specs.Prelude.{◌≡◌, ◌⊎◌, [], false};
ghost use Rattle.cord_c.specs.Codes.{MayLackMemory};
ghost use Rattle.cord_c.specs.Editors.{edited_of};

use crate::Handle;
use crate::code::{NO_MEMORY, OK};
use crate::referent::Referent;
use cord::{Text, TextEditor};
use std::alloc::Global;

/// Owns the text at the pointer, where it isn't null: null is that of no bytes.
#[repr(C)]
#[derive(Drop)]
pub struct Editor {
    pub(crate) handle: Handle,
}

impl Editor {
    /// Has a text that is edited from now on, that of no bytes where it had none. Refused only when out of memory.
    pub(crate) fn ready(&mut self, alloc: Global) -> i32
        ensures same { edited_of self.new ≡ edited_of self.old }
        ensures code { MayLackMemory result }
    {
        if self.is_ready() {
            return OK;
        }
        match TextEditor::of(alloc, &Text::empty()) {
            Ok(text) => self.hold(alloc, text),
            Err(_) => NO_MEMORY,
        }
    }

    // Whether it has a text that is edited.
    fn is_ready(&mut self) -> bool
        ensures none { result ≡ false → edited_of self.old ≡ [] }
        ensures same { edited_of self.new ≡ edited_of self.old }
    {
        match self.handle.lent() {
            Some(Referent::Editor(_)) => true,
            _ => false,
        }
    }

    /// Holds this text from now on, and frees the one that it held. Refused only when out of memory, where the pointer
    /// is null: then it stays.
    pub(crate) fn hold(&mut self, alloc: Global, text: TextEditor) -> i32
        ensures held { result ≡ OK → edited_of self.new ≡ text }
        ensures kept { (result ≡ OK) ⊎ (edited_of self.new ≡ edited_of self.old) }
        ensures code { MayLackMemory result }
    {
        match Box::new(alloc, text) {
            Ok(text) => self.handle.keep(alloc, Referent::Editor(text)),
            Err(_) => NO_MEMORY,
        }
    }
}
