// Cords of one part.
ghost use Rattle.std.specs.Prelude.{◌≡◌, ℕ, ◌+◌, ◌<◌, ◌≤◌, IfOk, OnOk, IfErr, IsOkUnless, Err, length, map, replicate};
ghost use Rattle.std.specs.List.{range_with_len};
ghost use Rattle.std.specs.Rc.{rc_slice_items};
ghost use Rattle.cord_node.specs.Tree.{known, held_by};
ghost use Rattle.cord_core.specs.Cord.{text, text_len, IsCord};
ghost use Rattle.cord_core.specs.Forms.{IsLeafOf, IsRunOf, IsFuncOf};
ghost use Rattle.cord_core.specs.Equations.{HasText, IsSourceRange};
ghost use Rattle.cord_core.specs.Refusals.{IsRefusal};

use crate::Cord;
use cord_io::{CordError, MAX_LEN, SourceId};
use cord_node::{func, leaf, run};
use std::alloc::Global;
use std::rc::RcSlice;

impl Cord {
    /// These bytes as one leaf, which takes a copy of them.
    /// `TooLong` where they are more than `MAX_LEN`, `NoMemory` where memory was refused.
    pub fn from_bytes(alloc: Global, bytes: &[u8]) -> Result<Cord, CordError>
        ensures form { IfOk result (IsLeafOf bytes.now) }
        ensures text { IfOk result (λ c. text c ≡ map known bytes.now) }
        ensures over { IfOk result (HasText bytes.now) }
        ensures len { IfOk result (λ c. text_len c ≡ length bytes.now) }
        ensures sound { IfOk result IsCord }

        ensures too_long { result ≡ Err CordError.TooLong → MAX_LEN < length bytes.now }
        ensures within_limit { OnOk result (length bytes.now ≤ MAX_LEN) }
        ensures refused { IfErr result IsRefusal }
    {
        if bytes.len() as u64 > MAX_LEN {
            return Err(CordError::TooLong);
        }
        let shared = RcSlice::from_slice(alloc, bytes)?;
        let cord = Cord::from_shared(alloc, shared)?;
        Ok(cord)
    }

    /// Bytes that are shared already as one leaf, without a copy of them.
    /// `TooLong` where they are more than `MAX_LEN`, `NoMemory` where memory was refused.
    pub fn from_shared(alloc: Global, bytes: RcSlice<u8>) -> Result<Cord, CordError>
        ensures form { IfOk result (IsLeafOf (rc_slice_items bytes)) }
        ensures text { IfOk result (λ c. text c ≡ map known (rc_slice_items bytes)) }
        ensures over { IfOk result (HasText (rc_slice_items bytes)) }
        ensures len { IfOk result (λ c. text_len c ≡ length (rc_slice_items bytes)) }
        ensures sound { IfOk result IsCord }

        ensures too_long { result ≡ Err CordError.TooLong → MAX_LEN < length (rc_slice_items bytes) }
        ensures within_limit { OnOk result (length (rc_slice_items bytes) ≤ MAX_LEN) }
        ensures refused { IfErr result IsRefusal }
    {
        if bytes.len() as u64 > MAX_LEN {
            return Err(CordError::TooLong);
        }
        if bytes.is_empty() {
            return Ok(Cord::empty());
        }
        let node = leaf(alloc, bytes)?;
        Ok(Cord { root: Some(node) })
    }

    /// `n` times the byte `c`, as one run.
    /// `TooLong` where `n` is more than `MAX_LEN`, `NoMemory` where memory was refused.
    pub fn chars(alloc: Global, c: u8, n: u64) -> Result<Cord, CordError>
        ensures form { IfOk result (IsRunOf c n) }
        ensures text { IfOk result (λ cord. text cord ≡ replicate n (known c)) }
        ensures over { IfOk result (HasText (replicate n c)) }
        ensures len { IfOk result (λ cord. text_len cord ≡ n) }
        ensures sound { IfOk result IsCord }

        ensures too_long { result ≡ Err CordError.TooLong → MAX_LEN < n }
        ensures within_limit { OnOk result (n ≤ MAX_LEN) }
        ensures refused { IfErr result IsRefusal }
    {
        if n > MAX_LEN {
            return Err(CordError::TooLong);
        }
        if n == 0 {
            return Ok(Cord::empty());
        }
        let node = run(alloc, c, n)?;
        Ok(Cord { root: Some(node) })
    }

    /// The `n` bytes of the source `id` from its byte `start` on, none of them after the first `MAX_LEN`, as one
    /// function part: no byte is read. Refused only when out of memory.
    pub fn from_fn(alloc: Global, id: SourceId, start: u64, n: u64) -> Result<Cord, CordError>
        requires { start + n ≤ MAX_LEN }
        ensures form { IfOk result (IsFuncOf id.0 start n) }
        ensures text { IfOk result (λ c. text c ≡ map (held_by id.0) (range_with_len start n)) }
        ensures over { IfOk result (IsSourceRange id.0 start n) }
        ensures len { IfOk result (λ c. text_len c ≡ n) }
        ensures sound { IfOk result IsCord }
        ensures refused { IsOkUnless result CordError.NoMemory }
    {
        if n == 0 {
            return Ok(Cord::empty());
        }
        let node = func(alloc, id, start, n)?;
        Ok(Cord { root: Some(node) })
    }
}
