// Texts over no files.
ghost use Rattle.std.specs.Prelude.{◌≡◌, ◌↔◌, ◌≤◌, [], IfOk, IsTrue, length};
ghost use Rattle.cord_core.specs.Cord.{text_len, IsCord};
ghost use Rattle.cord_core.specs.Equations.{HasText};

use crate::memory::within_memory;
use cord_core::Cord;
use cord_io::MAX_LEN;
use std::alloc::{AllocError, Global};
use std::marker::Model;

/// An immutable text of at most `MAX_LEN` bytes that is kept in memory: a cord with no part in a file, which contracts
/// see as the list of its bytes. Calls make new texts, which share the trees of the old ones, so each text that a call
/// is given stands, also where the call is refused.
#[derive(Drop)]
pub struct Text {
    pub(crate) cord: Cord,
}

impl Model for Text {
    ghost use Rattle.std.specs.Prelude.{List, ℕ};
    ghost use Rattle.cord.specs.Plain.{plain_bytes, IsPlain};

    ghost Value = { List ℕ };

    ghost view = { λ t. plain_bytes t.cord };

    ghost invariant = { λ t. IsPlain t.cord };
}

impl Text {
    /// The text of no bytes.
    pub fn empty() -> Text
        ensures { result ≡ [] }
    {
        Text {
            cord: Cord::empty(),
        }
    }

    /// The number of bytes.
    pub fn len(&self) -> u64
        ensures value { result ≡ length self.now }
        ensures limit { result ≤ MAX_LEN }
    {
        self.cord.len()
    }

    /// Whether it has no bytes.
    pub fn is_empty(&self) -> bool
        ensures { IsTrue result ↔ (self.now ≡ []) }
    {
        self.len() == 0
    }

    /// The same text once more, which shares its tree. Refused only when out of memory.
    pub fn share(&self, alloc: Global) -> Result<Text, AllocError>
        ensures same { IfOk result (λ t. t ≡ self.now) }
    {
        let cord = within_memory(self.cord.share(alloc))?;
        Ok(Text { cord })
    }

    /// The cord of this text, to be used with the calls of the other crates: it fits every source.
    pub fn as_cord(&self) -> &Cord
        ensures text { HasText self.now result.now }
        ensures len { text_len result.now ≡ length self.now }
        ensures sound { IsCord result.now }
    {
        &self.cord
    }

    /// The cord of this text, to be joined with cords over files: it fits every source.
    pub fn into_cord(self) -> Cord
        ensures text { HasText self result }
        ensures len { text_len result ≡ length self }
        ensures sound { IsCord result }
    {
        let Text { cord } = self;
        cord
    }
}
