// Cords one after another.
ghost use Rattle.std.specs.Prelude.{◌≡◌, ℕ, ◌+◌, ◌<◌, ◌≤◌, [], ◌∷◌, ◌++◌, IfOk, OnOk, IfErr, Err, Some, length, map};
ghost use Rattle.cord_node.specs.Tree.{cells, known, len_of, IsSound};
ghost use Rattle.cord_node.specs.PartsFrom.{parts, PartsFrom};
ghost use Rattle.cord_core.specs.Cord.{text, text_len, parts_of, IsCord, all_text, all_len, all_parts};
ghost use Rattle.cord_core.specs.Depths.{HasCatDepth, HasCatSides, IsCatWithBytes};
ghost use Rattle.cord_core.specs.Equations.{IsCatOf, IsAppended, IsAllOf};
ghost use Rattle.cord_core.specs.Refusals.{IsRefusal};

use crate::Cord;
use cord_balance::balance_parts;
use cord_io::{CordError, MAX_DEPTH, MAX_LEN};
use cord_node::{Node, join};
use std::alloc::{AllocError, Global};
use std::rc::Rc;

// Two trees joined, and balanced where the join would be deeper than `MAX_DEPTH`.
fn joined(alloc: Global, left: &Rc<Node>, right: &Rc<Node>) -> Result<Rc<Node>, AllocError>
    requires left_sound { IsSound left.now.value }
    requires right_sound { IsSound right.now.value }
    requires within_limit { len_of left.now.value + len_of right.now.value ≤ MAX_LEN }
    ensures sound { IfOk result (λ node. IsSound node.value) }
    ensures text { IfOk result (λ node. cells node.value ≡ cells left.now.value ++ cells right.now.value) }
    ensures len { IfOk result (λ node. len_of node.value ≡ len_of left.now.value + len_of right.now.value) }
    ensures depth { IfOk result (λ node. HasCatDepth (Some left.now.value) (Some right.now.value) (Some node.value)) }
    ensures sides { IfOk result (λ node. HasCatSides (Some left.now.value) (Some right.now.value) (Some node.value)) }
    ensures parts_from { IfOk result (λ node. PartsFrom (parts left.now.value ++ parts right.now.value)
        (parts node.value)) }
{
    if left.depth().max(right.depth()) < MAX_DEPTH {
        join(alloc, left, right)
    } else {
        let ropes = [left.clone()?, right.clone()?];
        balance_parts(alloc, &ropes)
    }
}

impl Cord {
    /// The text of `left` and then that of `right`, which share their trees with the result. It is the join
    /// of the two trees, and balanced where that would be deeper than `MAX_DEPTH`.
    /// `TooLong` where the result would be longer than `MAX_LEN`, `NoMemory` where memory was refused.
    pub fn cat(alloc: Global, left: &Cord, right: &Cord) -> Result<Cord, CordError>
        ensures text { IfOk result (λ c. text c ≡ text left.now ++ text right.now) }
        ensures over { IfOk result (IsCatOf left.now right.now) }
        ensures len { IfOk result (λ c. text_len c ≡ text_len left.now + text_len right.now) }
        ensures sound { IfOk result IsCord }
        ensures depth { IfOk result (HasCatDepth left.now right.now) }
        ensures sides { IfOk result (HasCatSides left.now right.now) }
        ensures parts_from { IfOk result (λ c. PartsFrom (parts_of left.now ++ parts_of right.now) (parts_of c)) }

        ensures too_long { result ≡ Err CordError.TooLong → MAX_LEN < text_len left.now + text_len right.now }
        ensures within_limit { OnOk result (text_len left.now + text_len right.now ≤ MAX_LEN) }
        ensures refused { IfErr result IsRefusal }
    {
        let (Some(a), Some(b)) = (&left.root, &right.root) else {
            let cord = if left.root.is_some() {
                left.share(alloc)?
            } else {
                right.share(alloc)?
            };
            return Ok(cord);
        };
        if a.len() + b.len() > MAX_LEN {
            return Err(CordError::TooLong);
        }
        let node = joined(alloc, a, b)?;
        Ok(Cord { root: Some(node) })
    }

    /// The texts of all cords in order: of no cords the empty cord.
    /// `TooLong` where the result would be longer than `MAX_LEN`, `NoMemory` where memory was refused.
    pub fn catn(alloc: Global, cords: &[Cord]) -> Result<Cord, CordError>
        ensures text { IfOk result (λ c. text c ≡ all_text cords.now) }
        ensures over { IfOk result (IsAllOf cords.now) }
        ensures len { IfOk result (λ c. text_len c ≡ all_len cords.now) }
        ensures sound { IfOk result IsCord }
        ensures parts_from { IfOk result (λ c. PartsFrom (all_parts cords.now) (parts_of c)) }

        ensures too_long { result ≡ Err CordError.TooLong → MAX_LEN < all_len cords.now }
        ensures within_limit { OnOk result (all_len cords.now ≤ MAX_LEN) }
        ensures refused { IfErr result IsRefusal }
    {
        let mut all = Cord::empty();
        for cord in cords {
            all = Cord::cat(alloc, &all, cord)?;
        }
        Ok(all)
    }

    /// The text of `cord` and then these bytes: the `cat` with what `from_bytes` makes of them.
    /// `TooLong` where the result would be longer than `MAX_LEN`, `NoMemory` where memory was refused.
    pub fn cat_bytes(alloc: Global, cord: &Cord, bytes: &[u8]) -> Result<Cord, CordError>
        ensures text { IfOk result (λ c. text c ≡ text cord.now ++ map known bytes.now) }
        ensures over { IfOk result (IsAppended cord.now bytes.now) }
        ensures len { IfOk result (λ c. text_len c ≡ text_len cord.now + length bytes.now) }
        ensures sound { IfOk result IsCord }
        ensures cat { IfOk result (IsCatWithBytes cord.now bytes.now) }

        ensures too_long { result ≡ Err CordError.TooLong → MAX_LEN < text_len cord.now + length bytes.now }
        ensures within_limit { OnOk result (text_len cord.now + length bytes.now ≤ MAX_LEN) }
        ensures refused { IfErr result IsRefusal }
    {
        let tail = Cord::from_bytes(alloc, bytes)?;
        let cord = Cord::cat(alloc, cord, &tail)?;
        Ok(cord)
    }

    /// The text of `cord` and then the byte `c`: the `cat` with what `from_bytes` makes of it.
    /// `TooLong` where the result would be longer than `MAX_LEN`, `NoMemory` where memory was refused.
    pub fn cat_char(alloc: Global, cord: &Cord, c: u8) -> Result<Cord, CordError>
        ensures text { IfOk result (λ longer. text longer ≡ text cord.now ++ known c ∷ []) }
        ensures over { IfOk result (IsAppended cord.now (c ∷ [])) }
        ensures len { IfOk result (λ longer. text_len longer ≡ text_len cord.now + 1) }
        ensures sound { IfOk result IsCord }
        ensures cat { IfOk result (IsCatWithBytes cord.now (c ∷ [])) }

        ensures too_long { result ≡ Err CordError.TooLong → MAX_LEN < text_len cord.now + 1 }
        ensures within_limit { OnOk result (text_len cord.now + 1 ≤ MAX_LEN) }
        ensures refused { IfErr result IsRefusal }
    {
        Cord::cat_bytes(alloc, cord, &[c])
    }
}
