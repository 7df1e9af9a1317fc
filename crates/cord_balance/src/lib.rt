//! Balanced ropes: parts are put into slots for numbers of parts between Fibonacci numbers.
#![tactic(auto)]

ghost use Rattle.std.specs.Prelude.{◌≡◌, ℕ, ◌+◌, ◌<◌, ◌≤◌, IfOk, length};
ghost use Rattle.cord_node.specs.Tree.{cells, len_of, depth_of, IsSound};
ghost use Rattle.cord_node.specs.PartsFrom.{parts, PartsFrom};
ghost use Rattle.cord_balance.specs.Fib.{fib_of, IsSlotOf};
ghost use Rattle.cord_balance.specs.Pieces.{all_cells, all_parts, total_len, AllSound, AreJoinedOver};

use cord_io::MAX_LEN;
use cord_node::Node;
use std::alloc::{AllocError, Global};
use std::rc::Rc;

mod forest;
mod limits;

use forest::{gather, insert_once};

/// The index of the last Fibonacci number that `fib` serves. It is above `MAX_LEN`, so each slot of a
/// text has a lesser number.
pub const MAX_INDEX: u32 = 60;

/// The owners of a rope that stands once in the list: the list and its cord.
const ROOT_OWNERS: usize = 2;

/// The Fibonacci number with the index `n`, which is at most `MAX_INDEX`: `fib(1)` and `fib(2)` are 1.
#[tactic(auto, using(crate::proofs::FibLemmas::fibs))]
pub fn fib(n: u32) -> u64
    requires { n ≤ MAX_INDEX }
    ensures { result ≡ fib_of n }
{
    let mut low = 0u64;
    let mut high = 1u64;
    for _ in 0..n {
        let next = low + high;
        low = high;
        high = next;
    }
    low
}

/// The slot for a text of so many bytes or parts, 1 to `MAX_LEN`: the index, at least 2, of the last Fibonacci
/// number that is at most `len`.
#[tactic(auto, using(crate::proofs::FibLemmas::fibs))]
pub fn slot_of(len: u64) -> u32
    requires not_empty { 0 < len }
    requires within_limit { len ≤ MAX_LEN }
    ensures { IsSlotOf len result }
{
    let mut slot = 2;
    let mut low = 1u64;
    let mut high = 2u64;
    while high <= len {
        let next = low + high;
        low = high;
        high = next;
        slot += 1;
    }
    slot
}

/// The texts of these ropes in order, as one rope no deeper than the slot of its number of parts: at least one rope,
/// with lengths that sum to at most `MAX_LEN`. Its leaves are theirs, but where `join` makes one of two.
/// Each greatest balanced part of a rope is taken as it is, without opening it. A shared subtree that isn't balanced is
/// opened once in a call, however often it occurs. Refused where memory was refused.
pub fn balance_parts(alloc: Global, ropes: &[Rc<Node>]) -> Result<Rc<Node>, AllocError>
    requires not_empty { 0 < length ropes.now }
    requires sound { AllSound ropes.now }
    requires within_limit { total_len ropes.now ≤ MAX_LEN }
    ensures sound { IfOk result (λ node. IsSound node.value) }
    ensures text { IfOk result (λ node. cells node.value ≡ all_cells ropes.now) }
    ensures over { IfOk result (λ node. AreJoinedOver ropes.now node.value) }
    ensures len { IfOk result (λ node. len_of node.value ≡ total_len ropes.now) }

    ensures slot { IfOk result (λ node. (n : ℕ) → IsSlotOf (len_of node.value) n → depth_of node.value ≤ n) }
    ensures part_slot { IfOk result (λ node. (n : ℕ) → IsSlotOf (length (parts node.value)) n
        → depth_of node.value ≤ n) }
    ensures shallow { IfOk result (λ node. depth_of node.value < MAX_INDEX) }
    ensures parts_from { IfOk result (λ node. PartsFrom (all_parts ropes.now) (parts node.value)) }
{
    let mut forest = Vec::new(alloc);
    let mut known = Vec::new(alloc);
    for rope in ropes {
        insert_once(alloc, &mut forest, &mut known, rope, ROOT_OWNERS)?;
    }
    match gather(alloc, &mut forest, MAX_INDEX)? {
        Some(node) => Ok(node),
        None => unreachable!(),
    }
}
