// Ranges of a cord, and the same text in a tree that isn't deep.
ghost use Rattle.std.specs.Prelude.{◌≡◌, ℕ, ◌+◌, ◌-◌, ◌≤◌, min, length, IfOk, IsOkUnless, take, drop};
ghost use Rattle.cord_node.specs.PartsFrom.{PartsFrom};
ghost use Rattle.cord_node.specs.Touched.{touched};
ghost use Rattle.cord_core.specs.Cord.{text, text_len, parts_of, IsCord};
ghost use Rattle.cord_core.specs.Depths.{IsInSlot, IsInPartSlot};
ghost use Rattle.cord_core.specs.Equations.{IsSubstring, IsSameText};

use crate::Cord;
use cord_balance::balance_parts;
use cord_io::CordError;
use cord_node::sub_node;
use std::alloc::Global;

impl Cord {
    /// The bytes from `i` on, at most `n` of them: nothing where `i` is at or past the end. Whole subtrees and the
    /// bytes of leaves are shared. No more parts than those that have a byte in the range. Refused only when out of
    /// memory.
    #[tactic(auto, using(crate::proofs::CordLemmas::ranges))]
    pub fn substr(&self, alloc: Global, i: u64, n: u64) -> Result<Cord, CordError>
        ensures text { IfOk result (λ c. text c ≡ take n (drop i (text self.now))) }
        ensures over { IfOk result (IsSubstring i n self.now) }
        ensures len { IfOk result (λ c. text_len c ≡ min n (text_len self.now - i)) }
        ensures sound { IfOk result IsCord }
        ensures parts_from { IfOk result (λ c. PartsFrom (parts_of self.now) (parts_of c)) }
        ensures few { IfOk result (λ c. length (parts_of c) ≤ touched i (i + n) (parts_of self.now)) }
        ensures refused { IsOkUnless result CordError.NoMemory }
    {
        let Some(node) = &self.root else {
            return Ok(Cord::empty());
        };
        if n == 0 || node.len() <= i {
            return Ok(Cord::empty());
        }
        let part = sub_node(alloc, node, i, n.min(node.len() - i))?;
        Ok(Cord { root: Some(part) })
    }

    /// The same text in a tree no deeper than `slot_of` its number of parts, and so of its length. Refused only when
    /// out of memory.
    pub fn balance(&self, alloc: Global) -> Result<Cord, CordError>
        ensures text { IfOk result (λ c. text c ≡ text self.now) }
        ensures over { IfOk result (IsSameText self.now) }
        ensures len { IfOk result (λ c. text_len c ≡ text_len self.now) }
        ensures sound { IfOk result IsCord }
        ensures slot { IfOk result IsInSlot }
        ensures part_slot { IfOk result IsInPartSlot }
        ensures parts_from { IfOk result (λ c. PartsFrom (parts_of self.now) (parts_of c)) }
        ensures refused { IsOkUnless result CordError.NoMemory }
    {
        let Some(node) = &self.root else {
            return Ok(Cord::empty());
        };
        let ropes = [node.clone()?];
        let node = balance_parts(alloc, &ropes)?;
        Ok(Cord { root: Some(node) })
    }
}
