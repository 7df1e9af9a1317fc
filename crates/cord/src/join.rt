// Texts one after another.
ghost use Rattle.std.specs.Prelude.{◌≡◌, ◌+◌, ◌<◌, ◌≤◌, ◌++◌, IfOk, OnOk, IfErr, Err, length};
ghost use Rattle.std.specs.List.{concat};
ghost use Rattle.cord_core.specs.Refusals.{IsRefusal};

use crate::Text;
use cord_core::Cord;
use cord_io::{CordError, MAX_LEN};
use std::alloc::Global;

impl Text {
    /// The bytes of `left` and then those of `right`.
    /// `TooLong` where they are more than `MAX_LEN` together, `NoMemory` where memory was refused.
    pub fn cat(alloc: Global, left: &Text, right: &Text) -> Result<Text, CordError>
        ensures text { IfOk result (λ t. t ≡ left.now ++ right.now) }
        ensures too_long { result ≡ Err CordError.TooLong → MAX_LEN < length left.now + length right.now }
        ensures within_limit { OnOk result (length left.now + length right.now ≤ MAX_LEN) }
        ensures refused { IfErr result IsRefusal }
    {
        let cord = Cord::cat(alloc, &left.cord, &right.cord)?;
        Ok(Text { cord })
    }

    /// The bytes of all texts in order: of no texts the empty one.
    /// `TooLong` where they are more than `MAX_LEN` together, `NoMemory` where memory was refused.
    pub fn catn(alloc: Global, texts: &[Text]) -> Result<Text, CordError>
        ensures text { IfOk result (λ t. t ≡ concat texts.now) }
        ensures too_long { result ≡ Err CordError.TooLong → MAX_LEN < length (concat texts.now) }
        ensures within_limit { OnOk result (length (concat texts.now) ≤ MAX_LEN) }
        ensures refused { IfErr result IsRefusal }
    {
        let mut all = Text::empty();
        for text in texts {
            all = Text::cat(alloc, &all, text)?;
        }
        Ok(all)
    }

    /// The bytes of this text and then `bytes`, of which it takes a copy.
    /// `TooLong` where they are more than `MAX_LEN` together, `NoMemory` where memory was refused.
    pub fn append_bytes(&self, alloc: Global, bytes: &[u8]) -> Result<Text, CordError>
        ensures text { IfOk result (λ t. t ≡ self.now ++ bytes.now) }
        ensures too_long { result ≡ Err CordError.TooLong → MAX_LEN < length self.now + length bytes.now }
        ensures within_limit { OnOk result (length self.now + length bytes.now ≤ MAX_LEN) }
        ensures refused { IfErr result IsRefusal }
    {
        let cord = Cord::cat_bytes(alloc, &self.cord, bytes)?;
        Ok(Text { cord })
    }
}
