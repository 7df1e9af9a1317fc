// Parts of a text, and texts with a part taken out, put in or replaced.
ghost use Rattle.std.specs.Prelude.{◌≡◌, ◌+◌, ◌<◌, ◌≤◌, ◌++◌, IfOk, OnOk, IfErr, Err, length, take, drop};
ghost use Rattle.cord_core.specs.Refusals.{IsRefusal};

use crate::Text;
use crate::memory::within_memory;
use cord_io::{CordError, MAX_LEN};
use std::alloc::{AllocError, Global};

impl Text {
    /// The bytes from `start` on, at most `count` of them: none where `start` is at or past the end. Refused only
    /// when out of memory.
    pub fn substr(&self, alloc: Global, start: u64, count: u64) -> Result<Text, AllocError>
        ensures text { IfOk result (λ t. t ≡ take count (drop start self.now)) }
    {
        let cord = within_memory(self.cord.substr(alloc, start, count))?;
        Ok(Text { cord })
    }

    /// The bytes before `at`, and those from `at` on: all and none where `at` is at or past the end. Refused only
    /// when out of memory.
    pub fn split_at(&self, alloc: Global, at: u64) -> Result<(Text, Text), AllocError>
        ensures prefix { IfOk result (λ parts. parts.0 ≡ take at self.now) }
        ensures back { IfOk result (λ parts. parts.1 ≡ drop at self.now) }
    {
        let prefix = self.substr(alloc, 0, at)?;
        let back = self.substr(alloc, at, self.len())?;
        Ok((prefix, back))
    }

    /// This text with the bytes of `text` in front of its byte `at`: at its end where `at` is at or past the end.
    /// `TooLong` where they are more than `MAX_LEN` together, `NoMemory` where memory was refused.
    pub fn insert(&self, alloc: Global, at: u64, text: &Text) -> Result<Text, CordError>
        ensures text { IfOk result (λ t. t ≡ take at self.now ++ text.now ++ drop at self.now) }
        ensures too_long { result ≡ Err CordError.TooLong → MAX_LEN < length self.now + length text.now }
        ensures within_limit { OnOk result (length self.now + length text.now ≤ MAX_LEN) }
        ensures refused { IfErr result IsRefusal }
    {
        self.replace_range(alloc, at, 0, text)
    }

    /// This text without at most `count` of its bytes from `start` on: all of it where `start` is at or past the end.
    /// Refused only when out of memory.
    pub fn remove(&self, alloc: Global, start: u64, count: u64) -> Result<Text, AllocError>
        ensures text { IfOk result (λ t. t ≡ take start self.now ++ drop (start + count) self.now) }
    {
        let _ = &self.cord;
        within_memory(self.replace_range(alloc, start, count, &Text::empty()))
    }

    /// This text with the bytes of `text` in the place of at most `count` of its bytes from `start` on: at its end
    /// where `start` is at or past the end.
    /// `TooLong` where the result would be longer than `MAX_LEN`, `NoMemory` where memory was refused.
    pub fn replace_range(
        &self,
        alloc: Global,
        start: u64,
        count: u64,
        text: &Text,
    ) -> Result<Text, CordError>
        ensures text { IfOk result (λ t. t ≡ take start self.now ++ text.now ++ drop (start + count) self.now) }
        ensures too_long { result ≡ Err CordError.TooLong →
            MAX_LEN < length (take start self.now ++ text.now ++ drop (start + count) self.now) }
        ensures within_limit { OnOk result (length (take start self.now ++ text.now ++ drop (start + count) self.now)
            ≤ MAX_LEN) }
        ensures refused { IfErr result IsRefusal }
    {
        let mut cord = self.cord.share(alloc)?;
        cord.splice(alloc, start, count, &text.cord)?;
        Ok(Text { cord })
    }

    /// The same bytes in a tree of a depth of about 1.44 times the binary logarithm of their number at most. Refused
    /// only when out of memory.
    pub fn balance(&self, alloc: Global) -> Result<Text, AllocError>
        ensures text { IfOk result (λ t. t ≡ self.now) }
    {
        let cord = within_memory(self.cord.balance(alloc))?;
        Ok(Text { cord })
    }
}
