// Texts of bytes.
ghost use Rattle.std.specs.Prelude.{◌≡◌, ◌<◌, ◌≤◌, IfOk, OnOk, IfErr, Err, length, replicate};
ghost use Rattle.cord_core.specs.Refusals.{IsRefusal};

use crate::Text;
use cord_core::Cord;
use cord_io::{CordError, MAX_LEN};
use std::alloc::Global;

impl Text {
    /// These bytes, of which it takes a copy.
    /// `TooLong` where they are more than `MAX_LEN`, `NoMemory` where memory was refused.
    pub fn from_bytes(alloc: Global, bytes: &[u8]) -> Result<Text, CordError>
        ensures text { IfOk result (λ t. t ≡ bytes.now) }
        ensures too_long { result ≡ Err CordError.TooLong → MAX_LEN < length bytes.now }
        ensures within_limit { OnOk result (length bytes.now ≤ MAX_LEN) }
        ensures refused { IfErr result IsRefusal }
    {
        let cord = Cord::from_bytes(alloc, bytes)?;
        Ok(Text { cord })
    }

    /// The bytes of this string in UTF-8, of which it takes a copy.
    /// `TooLong` where they are more than `MAX_LEN`, `NoMemory` where memory was refused.
    pub fn from_str(alloc: Global, string: &str) -> Result<Text, CordError>
        ensures text { IfOk result (λ t. t ≡ string.now) }
        ensures too_long { result ≡ Err CordError.TooLong → MAX_LEN < length string.now }
        ensures within_limit { OnOk result (length string.now ≤ MAX_LEN) }
        ensures refused { IfErr result IsRefusal }
    {
        Text::from_bytes(alloc, string.as_bytes())
    }

    /// `count` times the byte `byte`, which takes the same little memory whatever the count.
    /// `TooLong` where `count` is more than `MAX_LEN`, `NoMemory` where memory was refused.
    pub fn repeat(alloc: Global, byte: u8, count: u64) -> Result<Text, CordError>
        ensures text { IfOk result (λ t. t ≡ replicate count byte) }
        ensures too_long { result ≡ Err CordError.TooLong → MAX_LEN < count }
        ensures within_limit { OnOk result (count ≤ MAX_LEN) }
        ensures refused { IfErr result IsRefusal }
    {
        let cord = Cord::chars(alloc, byte, count)?;
        Ok(Text { cord })
    }
}
