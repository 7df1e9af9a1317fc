// Texts that stand many times.
ghost use Rattle.std.specs.Prelude.{◌≡◌, ◌*◌, ◌<◌, ◌≤◌, ℕ, List, IfOk, OnOk, IfErr, Err, length};
ghost use Rattle.std.specs.List.{repeat};
ghost use Rattle.cord_io.specs.Table.{Table, Lengths};
ghost use Rattle.cord_core.specs.Cord.{text_len, IsCord};
ghost use Rattle.cord_core.specs.Refusals.{IsRefusal};
ghost use Rattle.cord.specs.Means.{Means};
ghost use Rattle.cord.specs.Repeats.{IsRepeated};

use crate::Text;
use cord_core::Cord;
use cord_io::{CordError, MAX_LEN};
use std::alloc::Global;

/// The text of a cord `times` times, made by doubling: it shares its tree with itself, and takes at most two nodes for
/// each binary digit of `times`.
/// `TooLong` where that is more than `MAX_LEN` bytes, `NoMemory` where memory was refused.
pub fn repeated(alloc: Global, cord: &Cord, times: u64) -> Result<Cord, CordError>
    ensures over { IfOk result (IsRepeated times cord.now) }
    ensures means { (lengths : Lengths) (bytes copies : Table → List ℕ) → Means lengths bytes cord.now →
        ((t : Table) → copies t ≡ repeat times (bytes t)) → IfOk result (Means lengths copies) }
    ensures len { IfOk result (λ c. text_len c ≡ times * text_len cord.now) }
    ensures sound { IfOk result IsCord }
    ensures too_long { result ≡ Err CordError.TooLong → MAX_LEN < times * text_len cord.now }
    ensures within_limit { OnOk result (times * text_len cord.now ≤ MAX_LEN) }
    ensures refused { IfErr result IsRefusal }
{
    if times == 0 {
        return Ok(Cord::empty());
    }
    let half = repeated(alloc, cord, times / 2)?;
    let twice = Cord::cat(alloc, &half, &half)?;
    if times % 2 == 0 {
        return Ok(twice);
    }
    let odd = Cord::cat(alloc, &twice, cord)?;
    Ok(odd)
}

impl Text {
    /// Its bytes `times` times. The result shares its tree with itself, and takes at most two nodes for each binary
    /// digit of `times`.
    /// `TooLong` where that is more than `MAX_LEN` bytes, `NoMemory` where memory was refused.
    pub fn repeated(&self, alloc: Global, times: u64) -> Result<Text, CordError>
        ensures text { IfOk result (λ t. t ≡ repeat times self.now) }
        ensures too_long { result ≡ Err CordError.TooLong → MAX_LEN < times * length self.now }
        ensures within_limit { OnOk result (times * length self.now ≤ MAX_LEN) }
        ensures refused { IfErr result IsRefusal }
    {
        let cord = repeated(alloc, &self.cord, times)?;
        Ok(Text { cord })
    }
}
