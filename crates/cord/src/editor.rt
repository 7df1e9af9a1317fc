// Texts that are edited.
ghost use Rattle.std.specs.Prelude.{◌≡◌, ◌↔◌, ◌+◌, ◌<◌, ◌≤◌, [], ◌++◌, IfOk, OnOk, IfErr, IsErr};
ghost use Rattle.std.specs.Prelude.{IsTrue, Err, length, take, drop};
ghost use Rattle.cord_core.specs.Refusals.{IsRefusal};

use crate::Text;
use crate::memory::within_memory;
use cord_edit::EditBuffer;
use cord_io::{CordError, MAX_LEN};
use std::alloc::{AllocError, Global};
use std::marker::Model;

/// A text of at most `MAX_LEN` bytes that is edited in place, for many small edits, most of them beside the one before:
/// such an edit takes constant time. After a refusal its bytes are as before.
#[derive(Drop)]
pub struct TextEditor {
    buffer: EditBuffer,
}

impl Model for TextEditor {
    ghost use Rattle.std.specs.Prelude.{List, ℕ};
    ghost use Rattle.cord.specs.Plain.{grown_bytes, IsPlainGrowth};

    ghost Value = { List ℕ };

    ghost view = { λ e. grown_bytes e.buffer.text };

    ghost invariant = { λ e. IsPlainGrowth e.buffer.text };
}

impl TextEditor {
    /// An editor of the bytes of `text`, whose tree it shares. Refused only when out of memory.
    pub fn of(alloc: Global, text: &Text) -> Result<TextEditor, AllocError>
        ensures text { IfOk result (λ made. made ≡ text.now) }
    {
        let buffer = within_memory(EditBuffer::of(alloc, text.as_cord()))?;
        Ok(TextEditor { buffer })
    }

    /// The number of bytes.
    pub fn len(&self) -> u64
        ensures value { result ≡ length self.now }
        ensures limit { result ≤ MAX_LEN }
    {
        self.buffer.len()
    }

    /// Whether it has no bytes.
    pub fn is_empty(&self) -> bool
        ensures { IsTrue result ↔ (self.now ≡ []) }
    {
        self.len() == 0
    }

    /// Puts the bytes of `text`, whose tree is shared, in front of the byte `at`: at the end where `at` is at or past
    /// the end.
    /// `TooLong` where the bytes would be more than `MAX_LEN`, `NoMemory` where memory was refused.
    pub fn insert(&mut self, alloc: Global, at: u64, text: &Text) -> Result<(), CordError>
        ensures text { OnOk result (self.new ≡ take at self.old ++ text.now ++ drop at self.old) }
        ensures unchanged { IsErr result → self.new ≡ self.old }
        ensures too_long { result ≡ Err CordError.TooLong → MAX_LEN < length self.old + length text.now }
        ensures within_limit { OnOk result (length self.old + length text.now ≤ MAX_LEN) }
        ensures refused { IfErr result IsRefusal }
    {
        self.replace_range(alloc, at, 0, text)?;
        Ok(())
    }

    /// Puts bytes, of which it takes a copy, in front of the byte `at`: at the end where `at` is at or past the end.
    /// `TooLong` where the bytes would be more than `MAX_LEN`, `NoMemory` where memory was refused.
    pub fn insert_bytes(&mut self, alloc: Global, at: u64, bytes: &[u8]) -> Result<(), CordError>
        ensures text { OnOk result (self.new ≡ take at self.old ++ bytes.now ++ drop at self.old) }
        ensures unchanged { IsErr result → self.new ≡ self.old }
        ensures too_long { result ≡ Err CordError.TooLong → MAX_LEN < length self.old + length bytes.now }
        ensures within_limit { OnOk result (length self.old + length bytes.now ≤ MAX_LEN) }
        ensures refused { IfErr result IsRefusal }
    {
        self.buffer.insert(alloc, at, bytes)?;
        Ok(())
    }

    /// Takes out at most `count` bytes from `start` on: none where `start` is at or past the end. Refused only when
    /// out of memory.
    pub fn remove(&mut self, alloc: Global, start: u64, count: u64) -> Result<(), AllocError>
        ensures text { OnOk result (self.new ≡ take start self.old ++ drop (start + count) self.old) }
        ensures unchanged { IsErr result → self.new ≡ self.old }
    {
        within_memory(self.buffer.remove(alloc, start, count))?;
        Ok(())
    }

    /// Puts the bytes of `text`, whose tree is shared, in the place of at most `count` bytes from `start` on: at the
    /// end where `start` is at or past the end. `TooLong` where the bytes would be more than `MAX_LEN`, `NoMemory`
    /// where memory was refused.
    pub fn replace_range(
        &mut self,
        alloc: Global,
        start: u64,
        count: u64,
        text: &Text,
    ) -> Result<(), CordError>
        ensures text { OnOk result (self.new ≡ take start self.old ++ text.now ++ drop (start + count) self.old) }
        ensures unchanged { IsErr result → self.new ≡ self.old }
        ensures too_long { result ≡ Err CordError.TooLong →
            MAX_LEN < length (take start self.old ++ text.now ++ drop (start + count) self.old) }
        ensures within_limit { OnOk result
            (length (take start self.old ++ text.now ++ drop (start + count) self.old) ≤ MAX_LEN) }
        ensures refused { IfErr result IsRefusal }
    {
        self.buffer.splice(alloc, start, count, text.as_cord())?;
        Ok(())
    }

    /// Its bytes as a text, which shares its tree with the editor. The editor stays, and can be edited further. Refused
    /// only when out of memory.
    pub fn to_text(&mut self, alloc: Global) -> Result<Text, AllocError>
        ensures text { IfOk result (λ t. t ≡ self.old) }
        ensures same { self.new ≡ self.old }
    {
        let cord = within_memory(self.buffer.to_cord(alloc))?;
        Ok(Text { cord })
    }
}
