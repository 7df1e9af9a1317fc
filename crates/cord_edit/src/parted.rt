// A text in one cord or in two.
ghost use Rattle.std.specs.Prelude.{◌≡◌, ◌+◌, ◌-◌, ◌≤◌, ◌++◌, length, take, drop, IfOk, IsErr, IsOkUnless};
ghost use Rattle.cord_core.specs.Cord.{text, text_len, parts_of, IsCord};
ghost use Rattle.cord_ec.specs.Gathered.{Gathered};
ghost use Rattle.cord_edit.specs.inner.Splices.{growth_of, both_of, spliced, CanSplice, IsCordWith, IsSpliced};
ghost use Rattle.cord_edit.specs.inner.Splices.{AreHalves, IsLengthened, IsJoined};

use cord_core::Cord;
use cord_io::{CordError, MAX_DEPTH, MAX_LEN};
use std::alloc::Global;
use std::marker::Model;

// The levels that are left free above a text that is asked for again and again: two for the joins that make one cord of
// it, and two for joins of that cord, which else would be balanced each time.
const ROOM: u32 = 4;

// A text in one cord, or in two where it is asked for again and again while it is edited at one place: there it is
// parted, and the cord with what was put in is made of both by joins alone.
#[derive(Drop)]
pub(crate) struct Parted {
    prefix: Cord,
    // What comes after it: nothing where the text isn't parted.
    back: Cord,
}

impl Model for Parted {
    ghost use Rattle.std.specs.Prelude.{◌≡◌, ◌≤◌, ◌+◌, ◌++◌, length};
    ghost use Rattle.cord_io.specs.declared.TheConstants.{MAX_LEN};
    ghost use Rattle.cord_core.specs.Cord.{text, text_len, parts_of};
    ghost use Rattle.cord_ec.specs.Gathered.{Growth, coded_growth};

    ghost Value = { Growth };

    ghost coded = { coded_growth };

    ghost view = { λ p. record {
      text = text p.prefix ++ text p.back;
      parts = parts_of p.prefix ++ parts_of p.back;
    } };

    ghost invariant = { λ p. (text_len p.prefix + text_len p.back ≤ MAX_LEN)
        × (length (text p.prefix ++ text p.back) ≡ text_len p.prefix + text_len p.back) };
}

impl Parted {
    // The text of `cord`, whose tree is shared.
    pub(crate) fn of(alloc: Global, cord: &Cord) -> Result<Parted, CordError>
        ensures text { IfOk result (λ made. made.text ≡ text cord.now) }
        ensures parts { IfOk result (λ made. made.parts ≡ parts_of cord.now) }
        ensures refused { IsOkUnless result CordError.NoMemory }
    {
        let prefix = cord.share(alloc)?;
        let back = Cord::empty();
        Ok(Parted { prefix, back })
    }

    // The length of the text, in bytes.
    #[inline(always)]
    pub(crate) fn len(&self) -> u64
        ensures value { result ≡ length self.now.text }
        ensures limit { result ≤ MAX_LEN }
    {
        self.prefix.len() + self.back.len()
    }

    // Whether it can be joined, and joined again, and leaves room.
    pub(crate) fn has_room(&self) -> bool {
        self.prefix.depth().max(self.back.depth()) + ROOM <= MAX_DEPTH
    }

    // The text as one cord.
    pub(crate) fn to_cord(&self, alloc: Global) -> Result<Cord, CordError>
        ensures made { IfOk result (IsCordWith 0 self.now) }
        ensures refused { IsOkUnless result CordError.NoMemory }
    {
        let cord = Cord::cat(alloc, &self.prefix, &self.back)?;
        Ok(cord)
    }

    // Puts `middle` in the place of the bytes from `from` up to `until`, and leaves one cord.
    pub(crate) fn splice(
        &mut self,
        alloc: Global,
        from: u64,
        until: u64,
        middle: &Cord,
    ) -> Result<(), CordError>
        requires { CanSplice self.old.text from until (text_len middle.now) }
        ensures spliced { IfOk result (λ _. IsSpliced from until (growth_of middle.now) (text_len middle.now)
            self.old self.new) }
        ensures unchanged { IsErr result → self.new ≡ self.old }
        ensures refused { IsOkUnless result CordError.NoMemory }
    {
        if self.back.len() == 0 {
            self.prefix.splice(alloc, from, until - from, middle)?;
            return Ok(());
        }
        let mut all = Cord::cat(alloc, &self.prefix, &self.back)?;
        all.splice(alloc, from, until - from, middle)?;
        self.prefix = all;
        self.back = Cord::empty();
        Ok(())
    }

    // The same, where the text is parted after `middle`.
    pub(crate) fn splice_parted(
        &mut self,
        alloc: Global,
        from: u64,
        until: u64,
        middle: &Cord,
    ) -> Result<(), CordError>
        requires { CanSplice self.old.text from until (text_len middle.now) }
        ensures spliced { IfOk result (λ _. IsSpliced from until (growth_of middle.now) (text_len middle.now)
            self.old self.new) }
        ensures unchanged { IsErr result → self.new ≡ self.old }
        ensures refused { IsOkUnless result CordError.NoMemory }
    {
        let (prefix, back) = halves(alloc, &self.prefix, &self.back, from, until)?;
        let longer = lengthened(alloc, &prefix, middle)?;
        self.prefix = longer;
        self.back = back;
        Ok(())
    }

    // The text with `middle` in the place of the bytes from `from` up to `until`, as a cord. The text itself loses
    // these bytes, and is parted there.
    pub(crate) fn with(
        &mut self,
        alloc: Global,
        from: u64,
        until: u64,
        middle: &Cord,
    ) -> Result<Cord, CordError>
        requires { CanSplice self.old.text from until (text_len middle.now) }
        ensures made { IfOk result (IsCordWith 1 (spliced from until (growth_of middle.now) self.old)) }
        ensures cut { IfOk result (λ _. self.new.text ≡ take from self.old.text ++ drop until self.old.text) }
        ensures cut_len { IfOk result (λ _. length self.new.text ≡ from + (length self.old.text - until)) }
        ensures stays { IfOk result (λ _. Gathered 1 self.old.parts self.new.parts) }
        ensures unchanged { IsErr result → self.new ≡ self.old }
        ensures refused { IsOkUnless result CordError.NoMemory }
    {
        if from == until && from == self.prefix.len() {
            let all = joined(alloc, &self.prefix, middle, &self.back)?;
            return Ok(all);
        }
        let (prefix, back) = halves(alloc, &self.prefix, &self.back, from, until)?;
        let all = joined(alloc, &prefix, middle, &back)?;
        self.prefix = prefix;
        self.back = back;
        Ok(all)
    }
}

// The text of two cords up to `from`, and the one from `until` on.
fn halves(
    alloc: Global,
    prefix: &Cord,
    back: &Cord,
    from: u64,
    until: u64,
) -> Result<(Cord, Cord), CordError>
    requires order { from ≤ until }
    requires inside { until ≤ text_len prefix.now + text_len back.now }
    requires within_limit { text_len prefix.now + text_len back.now ≤ MAX_LEN }
    ensures halves { IfOk result (λ halves. AreHalves from until (text_len prefix.now + text_len back.now)
        (both_of prefix.now back.now) halves.0 halves.1) }
    ensures refused { IsOkUnless result CordError.NoMemory }
{
    if from == until && from == prefix.len() {
        let prefix = prefix.share(alloc)?;
        let back = back.share(alloc)?;
        return Ok((prefix, back));
    }
    let all = Cord::cat(alloc, prefix, back)?;
    let prefix = all.substr(alloc, 0, from)?;
    let back = all.substr(alloc, until, all.len())?;
    Ok((prefix, back))
}

// The text of `prefix` and then that of `middle`, balanced where it leaves too little room above it.
fn lengthened(alloc: Global, prefix: &Cord, middle: &Cord) -> Result<Cord, CordError>
    requires { text_len prefix.now + text_len middle.now ≤ MAX_LEN }
    ensures made { IfOk result (IsLengthened prefix.now middle.now) }
    ensures refused { IsOkUnless result CordError.NoMemory }
{
    let longer = Cord::cat(alloc, prefix, middle)?;
    if longer.depth() + ROOM <= MAX_DEPTH {
        return Ok(longer);
    }
    let balanced = longer.balance(alloc)?;
    Ok(balanced)
}

// Three texts, one after the other.
fn joined(alloc: Global, prefix: &Cord, middle: &Cord, back: &Cord) -> Result<Cord, CordError>
    requires { text_len prefix.now + text_len middle.now + text_len back.now ≤ MAX_LEN }
    ensures joined { IfOk result (IsJoined prefix.now middle.now back.now) }
    ensures refused { IsOkUnless result CordError.NoMemory }
{
    let longer = Cord::cat(alloc, prefix, middle)?;
    let all = Cord::cat(alloc, &longer, back)?;
    Ok(all)
}
