// Edits of a cord.
ghost use Rattle.std.specs.Prelude.{◌≡◌, ℕ, ◌+◌, ◌-◌, ◌<◌, ◌≤◌, ◌++◌, min, max, true, length, take, drop};
ghost use Rattle.std.specs.Prelude.{Err, IfOk, OnOk, IfErr, IsErr, IsOkUnless};
ghost use Rattle.cord_node.specs.PartsFrom.{AreFrom, PartsFrom};
ghost use Rattle.cord_node.specs.Touched.{AtMostOneMore};
ghost use Rattle.cord_core.specs.Cord.{text, text_len, depth, parts_of, IsCord};
ghost use Rattle.cord_core.specs.Equations.{IsSpliced};
ghost use Rattle.cord_core.specs.Refusals.{IsRefusal};

use crate::Cord;
use cord_io::{CordError, MAX_DEPTH, MAX_LEN};
use cord_node::splice;
use std::alloc::Global;

impl Cord {
    /// Puts `middle` in the place of the `count` bytes from `start` on, of those that there are: from past the end on
    /// there are none, and `middle` comes last. There are no more parts than those of both and one, as at most one part
    /// is cut in two. Other handles on the cord's tree keep their texts.
    /// `TooLong` where the text would be longer than `MAX_LEN`, `NoMemory` where memory was refused. After either the
    /// cord is as before.
    pub fn splice(
        &mut self,
        alloc: Global,
        start: u64,
        count: u64,
        middle: &Cord,
    ) -> Result<(), CordError>
        ensures text { IfOk result (λ _. text self.new
            ≡ take start (text self.old) ++ text middle.now ++ drop (start + count) (text self.old)) }
        ensures over { IfOk result (λ _. IsSpliced start count self.old middle.now self.new) }
        ensures len { IfOk result (λ _. text_len self.new
            ≡ min start (text_len self.old) + text_len middle.now + (text_len self.old - (start + count))) }
        ensures sound { IfOk result (λ _. IsCord self.new) }
        ensures from_there { IfOk result (λ _. AreFrom (parts_of self.new) (parts_of self.old ++ parts_of middle.now)) }
        ensures few { IfOk result (λ _. AtMostOneMore (parts_of self.old) (parts_of middle.now) (parts_of self.new)) }
        ensures unchanged { IsErr result → self.new ≡ self.old }

        ensures too_long { result ≡ Err CordError.TooLong → MAX_LEN
            < min start (text_len self.old) + text_len middle.now + (text_len self.old - (start + count)) }
        ensures within_limit { OnOk result (min start (text_len self.old) + text_len middle.now
            + (text_len self.old - (start + count)) ≤ MAX_LEN) }
        ensures refused { IfErr result IsRefusal }
    {
        let len = self.len();
        let from = start.min(len);
        let until = start.saturating_add(count).min(len);
        if from + middle.len() + (len - until) > MAX_LEN {
            return Err(CordError::TooLong);
        }
        if has_room(self, middle) {
            splice_tree(alloc, self, from, until, middle)?;
        } else {
            let changed = spliced_balanced(alloc, self, from, until, middle)?;
            *self = changed;
        }
        Ok(())
    }
}

// Whether a node may become deeper by two where one of the trees stands in the other.
fn has_room(cord: &Cord, middle: &Cord) -> bool
    ensures { result ≡ true → max (depth cord.now) (depth middle.now) + 2 ≤ MAX_DEPTH }
{
    cord.depth().max(middle.depth()) + 2 <= MAX_DEPTH
}

// Puts `middle` in the place of the bytes from `from` up to `until`. The cord is as before where memory was refused.
fn splice_tree(
    alloc: Global,
    cord: &mut Cord,
    from: u64,
    until: u64,
    middle: &Cord,
) -> Result<(), CordError>
    requires order { from ≤ until }
    requires inside { until ≤ text_len cord.old }
    requires within_limit { from + text_len middle.now + (text_len cord.old - until) ≤ MAX_LEN }
    requires shallow { max (depth cord.old) (depth middle.now) + 2 ≤ MAX_DEPTH }
    ensures text { IfOk result (λ _. text cord.new
        ≡ take from (text cord.old) ++ text middle.now ++ drop until (text cord.old)) }
    ensures len { IfOk result (λ _. text_len cord.new
        ≡ from + text_len middle.now + (text_len cord.old - until)) }
    ensures sound { IfOk result (λ _. IsCord cord.new) }
    ensures from_there { IfOk result (λ _. AreFrom (parts_of cord.new) (parts_of cord.old ++ parts_of middle.now)) }
    ensures few { IfOk result (λ _. AtMostOneMore (parts_of cord.old) (parts_of middle.now) (parts_of cord.new)) }
    ensures unchanged { IsErr result → cord.new ≡ cord.old }
    ensures refused { IsOkUnless result CordError.NoMemory }
{
    if from == 0 && until == cord.len() {
        let all = middle.share(alloc)?;
        *cord = all;
        return Ok(());
    }
    if from == until && middle.len() == 0 {
        return Ok(());
    }
    let Some(node) = &mut cord.root else {
        unreachable!()
    };
    splice(alloc, node, from, until, &middle.root)?;
    Ok(())
}

// The same text in a tree that may become deeper by two, where one of its length can be: balanced, if this one may not.
fn shallow(alloc: Global, cord: &Cord) -> Result<Cord, CordError>
    ensures text { IfOk result (λ c. text c ≡ text cord.now) }
    ensures len { IfOk result (λ c. text_len c ≡ text_len cord.now) }
    ensures parts_from { IfOk result (λ c. PartsFrom (parts_of cord.now) (parts_of c)) }
    ensures refused { IsOkUnless result CordError.NoMemory }
{
    if cord.depth() + 2 <= MAX_DEPTH {
        let same = cord.share(alloc)?;
        Ok(same)
    } else {
        cord.balance(alloc)
    }
}

// The text of `cord` with `middle` in the place of the bytes from `from` up to `until`, where a tree is too deep to be
// changed in its place: both are balanced first, and where that leaves no room the text is joined anew.
fn spliced_balanced(
    alloc: Global,
    cord: &Cord,
    from: u64,
    until: u64,
    middle: &Cord,
) -> Result<Cord, CordError>
    requires order { from ≤ until }
    requires inside { until ≤ text_len cord.now }
    requires within_limit { from + text_len middle.now + (text_len cord.now - until) ≤ MAX_LEN }
    ensures text { IfOk result (λ c. text c
        ≡ take from (text cord.now) ++ text middle.now ++ drop until (text cord.now)) }
    ensures len { IfOk result (λ c. text_len c ≡ from + text_len middle.now + (text_len cord.now - until)) }
    ensures sound { IfOk result IsCord }
    ensures from_there { IfOk result (λ c. AreFrom (parts_of c) (parts_of cord.now ++ parts_of middle.now)) }
    ensures few { IfOk result (λ c. AtMostOneMore (parts_of cord.now) (parts_of middle.now) (parts_of c)) }
    ensures refused { IsOkUnless result CordError.NoMemory }
{
    let mut changed = shallow(alloc, cord)?;
    let middle = shallow(alloc, middle)?;
    if has_room(&changed, &middle) {
        splice_tree(alloc, &mut changed, from, until, &middle)?;
        return Ok(changed);
    }
    let prefix = changed.substr(alloc, 0, from)?;
    let back = changed.substr(alloc, until, changed.len())?;
    let all = joined(alloc, &prefix, &middle, &back)?;
    Ok(all)
}

// Three texts, one after the other.
fn joined(alloc: Global, prefix: &Cord, middle: &Cord, back: &Cord) -> Result<Cord, CordError>
    requires { text_len prefix.now + text_len middle.now + text_len back.now ≤ MAX_LEN }
    ensures text { IfOk result (λ c. text c ≡ text prefix.now ++ text middle.now ++ text back.now) }
    ensures len { IfOk result (λ c. text_len c ≡ text_len prefix.now + text_len middle.now + text_len back.now) }
    ensures sound { IfOk result IsCord }
    ensures from_there { IfOk result (λ c. AreFrom (parts_of c)
        (parts_of prefix.now ++ parts_of middle.now ++ parts_of back.now)) }
    ensures few { IfOk result (λ c. length (parts_of c)
        ≤ length (parts_of prefix.now) + length (parts_of middle.now) + length (parts_of back.now)) }
    ensures refused { IsOkUnless result CordError.NoMemory }
{
    let longer = Cord::cat(alloc, prefix, middle)?;
    let all = Cord::cat(alloc, &longer, back)?;
    Ok(all)
}
