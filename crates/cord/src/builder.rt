// Texts that grow at their end.
ghost use Rattle.std.specs.Prelude.{◌≡◌, ◌↔◌, ◌+◌, ◌<◌, ◌≤◌, [], ◌∷◌, ◌++◌, IfOk, OnOk, IfErr, IsErr};
ghost use Rattle.std.specs.Prelude.{IsTrue, Err, length};
ghost use Rattle.cord_core.specs.Refusals.{IsRefusal};

use crate::Text;
use crate::memory::within_memory;
use cord_ec::ExtCord;
use cord_io::{CordError, MAX_LEN};
use std::alloc::{AllocError, Global};
use std::marker::Model;

/// A text of at most `MAX_LEN` bytes that grows at its end, made of many small pieces: they are gathered to leaves of
/// up to 4,096 bytes. After a refusal its bytes are as before.
#[derive(Drop)]
pub struct TextBuilder {
    grown: ExtCord,
}

impl Model for TextBuilder {
    ghost use Rattle.std.specs.Prelude.{List, ℕ};
    ghost use Rattle.cord.specs.Plain.{grown_bytes, IsPlainGrowth};

    ghost Value = { List ℕ };

    ghost view = { λ b. grown_bytes b.grown.text };

    ghost invariant = { λ b. IsPlainGrowth b.grown.text };
}

impl TextBuilder {
    /// The builder of no bytes. Refused only when out of memory.
    pub fn new(alloc: Global) -> Result<TextBuilder, AllocError>
        ensures text { IfOk result (λ made. made ≡ []) }
    {
        let grown = within_memory(ExtCord::new(alloc))?;
        Ok(TextBuilder { grown })
    }

    /// The number of bytes.
    pub fn len(&self) -> u64
        ensures value { result ≡ length self.now }
        ensures limit { result ≤ MAX_LEN }
    {
        self.grown.len()
    }

    /// Whether it has no bytes.
    pub fn is_empty(&self) -> bool
        ensures { IsTrue result ↔ (self.now ≡ []) }
    {
        self.len() == 0
    }

    /// Adds a byte at the end.
    /// `TooLong` where the bytes would be more than `MAX_LEN`, `NoMemory` where memory was refused.
    pub fn push(&mut self, alloc: Global, byte: u8) -> Result<(), CordError>
        ensures text { OnOk result (self.new ≡ self.old ++ byte ∷ []) }
        ensures unchanged { IsErr result → self.new ≡ self.old }
        ensures too_long { result ≡ Err CordError.TooLong → MAX_LEN < length self.old + 1 }
        ensures within_limit { OnOk result (length self.old + 1 ≤ MAX_LEN) }
        ensures refused { IfErr result IsRefusal }
    {
        self.grown.append(alloc, byte)?;
        Ok(())
    }

    /// Adds bytes at the end, of which it takes a copy.
    /// `TooLong` where the bytes would be more than `MAX_LEN`, `NoMemory` where memory was refused.
    pub fn push_bytes(&mut self, alloc: Global, bytes: &[u8]) -> Result<(), CordError>
        ensures text { OnOk result (self.new ≡ self.old ++ bytes.now) }
        ensures unchanged { IsErr result → self.new ≡ self.old }
        ensures too_long { result ≡ Err CordError.TooLong → MAX_LEN < length self.old + length bytes.now }
        ensures within_limit { OnOk result (length self.old + length bytes.now ≤ MAX_LEN) }
        ensures refused { IfErr result IsRefusal }
    {
        self.grown.append_bytes(alloc, bytes)?;
        Ok(())
    }

    /// Adds the bytes of a text at the end, whose tree is shared.
    /// `TooLong` where the bytes would be more than `MAX_LEN`, `NoMemory` where memory was refused.
    pub fn push_text(&mut self, alloc: Global, text: &Text) -> Result<(), CordError>
        ensures text { OnOk result (self.new ≡ self.old ++ text.now) }
        ensures unchanged { IsErr result → self.new ≡ self.old }
        ensures too_long { result ≡ Err CordError.TooLong → MAX_LEN < length self.old + length text.now }
        ensures within_limit { OnOk result (length self.old + length text.now ≤ MAX_LEN) }
        ensures refused { IfErr result IsRefusal }
    {
        self.grown.append_cord(alloc, text.as_cord())?;
        Ok(())
    }

    /// Its bytes as a text, which shares its tree with the builder. The builder stays, and can grow further. Refused
    /// only when out of memory.
    pub fn to_text(&mut self, alloc: Global) -> Result<Text, AllocError>
        ensures text { IfOk result (λ t. t ≡ self.old) }
        ensures same { self.new ≡ self.old }
    {
        let cord = within_memory(self.grown.to_cord(alloc))?;
        Ok(Text { cord })
    }
}
