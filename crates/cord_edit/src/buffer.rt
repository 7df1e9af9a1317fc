// The gap buffer.
ghost use Rattle.std.specs.Prelude.{◌≡◌, ℕ, ◌+◌, ◌-◌, ◌<◌, ◌≤◌, min, List, [], ◌++◌, length, map, take, drop};
ghost use Rattle.std.specs.Prelude.{Err, IfOk, OnOk, IfErr, IsErr, IsOkUnless};
ghost use Rattle.cord_io.specs.Table.{Table};
ghost use Rattle.cord_node.specs.Tree.{known};
ghost use Rattle.cord_core.specs.Cord.{text, text_len, parts_of, IsCord};
ghost use Rattle.cord_core.specs.Refusals.{IsRefusal};
ghost use Rattle.cord_ec.specs.Gathered.{leaf_bytes, leaf_parts, Gathered};
ghost use Rattle.cord_ec.specs.Grown.{bytes_of_cells, IsCordOf};
ghost use Rattle.cord_edit.specs.Edits.{edited, IsTextOf, IsEdited, IsEditedByCord};
ghost use Rattle.cord_edit.specs.inner.Gaps.{gap_bytes, IsCleared};
ghost use Rattle.cord_edit.specs.inner.Splices.{leaf_growth, CanSplice, IsCordWith, IsSpliced, StaysText};

use crate::gap::{Gap, MOST};
use crate::parted::Parted;
use cord_core::Cord;
use cord_ec::ExtCord;
use cord_io::{CordError, MAX_LEN};
use std::alloc::Global;
use std::marker::Model;

// The most bytes of the gap that are copied for each text that is asked for.
const COPIED: usize = 128;

/// A text of at most `MAX_LEN` bytes that is edited at a place, the gap, which moves now and then.
///
/// It is a cord with a range cut out, and the gap's bytes in its place, at most 4,096. An insert at the gap's end or in
/// front of its bytes, and a removal that reaches up to its end or begins there, touch no tree and take constant time,
/// beside the copy of the bytes. An edit elsewhere moves the gap: its bytes become one leaf of the cord, by one
/// `Cord::splice`, which takes steps for each level of the tree.
#[derive(Drop)]
pub struct EditBuffer {
    cords: Parted,
    // The text begins with so many bytes of the cords,
    cut_start: u64,
    // and ends with those from here on.
    cut_end: u64,
    gap: Gap,
    // Whether the text was asked for while the gap stood where it is.
    is_asked: bool,
}

impl Model for EditBuffer {
    ghost use Rattle.std.specs.Prelude.{◌≡◌, ◌≤◌, ◌+◌, ◌-◌, ◌++◌, length, map, take, drop};
    ghost use Rattle.cord_io.specs.declared.TheConstants.{MAX_LEN};
    ghost use Rattle.cord_node.specs.Tree.{known};
    ghost use Rattle.cord_ec.specs.Gathered.{Growth, coded_growth, leaf_parts};
    ghost use Rattle.cord_edit.specs.inner.Gaps.{gap_bytes};

    ghost Value = { Growth };

    ghost coded = { coded_growth };

    // The gap's bytes are a leaf after the cord's parts.
    ghost view = { λ e. record {
      text = take e.cut_start e.cords.text ++ map known (gap_bytes e.gap) ++ drop e.cut_end e.cords.text;
      parts = e.cords.parts ++ leaf_parts (gap_bytes e.gap);
    } };

    ghost invariant = { λ e. (e.cut_start ≤ e.cut_end) × (e.cut_end ≤ length e.cords.text)
        × (length e.cords.text ≤ MAX_LEN)
        × (e.cut_start + length (gap_bytes e.gap) + (length e.cords.text - e.cut_end) ≤ MAX_LEN) };
}

impl EditBuffer {
    /// A buffer with the text of `cord`, whose tree it shares, and the gap at its end. Refused only when out of memory.
    pub fn of(alloc: Global, cord: &Cord) -> Result<EditBuffer, CordError>
        ensures text { IfOk result (λ made. made.text ≡ text cord.now) }
        ensures over { IfOk result (λ made. IsTextOf cord.now made.text) }
        ensures parts { IfOk result (λ made. made.parts ≡ parts_of cord.now) }
        ensures refused { IsOkUnless result CordError.NoMemory }
    {
        let gap = Gap::new(alloc)?;
        let cords = Parted::of(alloc, cord)?;
        let len = cords.len();
        Ok(EditBuffer {
            cords,
            cut_start: len,
            cut_end: len,
            gap,
            is_asked: false,
        })
    }

    /// The length of the text, in bytes.
    pub fn len(&self) -> u64
        ensures value { result ≡ length self.now.text }
        ensures over { (t : Table) → result ≡ length (bytes_of_cells t self.now.text) }
        ensures limit { result ≤ MAX_LEN }
    {
        self.cut_start + self.gap.len() as u64 + (self.cords.len() - self.cut_end)
    }

    /// Puts bytes, of which it takes a copy, in front of the byte `at`: at the end where `at` is at or past the end.
    /// `TooLong` where the text would be longer than `MAX_LEN`, `NoMemory` where memory was refused. After either the
    /// text is as before.
    #[inline(always)]
    pub fn insert(&mut self, alloc: Global, at: u64, bytes: &[u8]) -> Result<(), CordError>
        ensures text { IfOk result (λ _. self.new.text ≡ edited at 0 (map known bytes.now) self.old.text) }
        ensures over { IfOk result (λ _. IsEdited at 0 bytes.now self.old.text self.new.text) }
        ensures gathered { (k : ℕ) → length bytes.now ≤ leaf_bytes k → Gathered (2 + k) self.old.parts self.new.parts }
        ensures unchanged { IsErr result → self.new.text ≡ self.old.text }
        ensures too_long { result ≡ Err CordError.TooLong → MAX_LEN < length self.old.text + length bytes.now }
        ensures within_limit { OnOk result (length self.old.text + length bytes.now ≤ MAX_LEN) }
        ensures refused { IfErr result IsRefusal }
    {
        let len = self.len();
        if bytes.len() as u64 > MAX_LEN - len {
            return Err(CordError::TooLong);
        }
        let at = at.min(len);
        if at == self.cut_start + self.gap.len() as u64 && self.gap.fits_after(bytes.len()) {
            self.gap.append(bytes);
            return Ok(());
        }
        if at == self.cut_start && self.gap.fits_before(bytes.len()) {
            self.gap.prepend(bytes);
            return Ok(());
        }
        self.insert_apart(alloc, at, bytes)?;
        Ok(())
    }

    /// Takes out the `count` bytes from `start` on, of those that there are: from past the end on there are none.
    /// Refused only when out of memory; then the text is as before.
    pub fn remove(&mut self, alloc: Global, start: u64, count: u64) -> Result<(), CordError>
        ensures text { IfOk result (λ _. self.new.text ≡ edited start count [] self.old.text) }
        ensures over { IfOk result (λ _. IsEdited start count [] self.old.text self.new.text) }
        ensures gathered { Gathered 1 self.old.parts self.new.parts }
        ensures unchanged { IsErr result → self.new.text ≡ self.old.text }
        ensures refused { IsOkUnless result CordError.NoMemory }
    {
        let len = self.len();
        let from = start.min(len);
        let until = start.saturating_add(count).min(len);
        let end = self.cut_start + self.gap.len() as u64;
        if from <= end && end <= until {
            self.gap
                .truncate(from.saturating_sub(self.cut_start) as usize);
            self.cut_start = self.cut_start.min(from);
            self.cut_end += until - end;
            return Ok(());
        }
        flush(
            alloc,
            &mut self.cords,
            self.cut_start,
            self.cut_end,
            &mut self.gap,
            false,
        )?;
        self.cut_start = from;
        self.cut_end = until;
        self.is_asked = false;
        Ok(())
    }

    /// Puts the text of `middle`, whose tree is shared, in the place of the `count` bytes from `start` on, of those
    /// that there are: from past the end on there are none, and `middle` comes last. The gap is then after it.
    /// `TooLong` where the text would be longer than `MAX_LEN`, `NoMemory` where memory was refused. After either the
    /// text is as before.
    pub fn splice(
        &mut self,
        alloc: Global,
        start: u64,
        count: u64,
        middle: &Cord,
    ) -> Result<(), CordError>
        ensures text { IfOk result (λ _. self.new.text ≡ edited start count (text middle.now) self.old.text) }
        ensures over { IfOk result (λ _. IsEditedByCord start count middle.now self.old.text self.new.text) }
        ensures gathered { Gathered 2 (self.old.parts ++ parts_of middle.now) self.new.parts }
        ensures unchanged { IsErr result → self.new.text ≡ self.old.text }
        ensures too_long { result ≡ Err CordError.TooLong → MAX_LEN < min start (length self.old.text)
            + text_len middle.now + (length self.old.text - (start + count)) }
        ensures within_limit { OnOk result (min start (length self.old.text) + text_len middle.now
            + (length self.old.text - (start + count)) ≤ MAX_LEN) }
        ensures refused { IfErr result IsRefusal }
    {
        let len = self.len();
        let from = start.min(len);
        let until = start.saturating_add(count).min(len);
        if from + middle.len() + (len - until) > MAX_LEN {
            return Err(CordError::TooLong);
        }
        let end = flush(
            alloc,
            &mut self.cords,
            self.cut_start,
            self.cut_end,
            &mut self.gap,
            false,
        )?;
        self.cut_start = end;
        self.cut_end = end;
        self.is_asked = false;
        self.cords.splice(alloc, from, until, middle)?;
        self.cut_start = from + middle.len();
        self.cut_end = self.cut_start;
        Ok(())
    }

    /// The text as a cord, which shares its tree with this one. The text stays, and can be edited further. Refused only
    /// when out of memory.
    pub fn to_cord(&mut self, alloc: Global) -> Result<Cord, CordError>
        ensures text { IfOk result (λ c. text c ≡ self.old.text) }
        ensures over { IfOk result (IsCordOf self.old.text) }
        ensures sound { IfOk result IsCord }
        ensures gathered { IfOk result (λ c. Gathered 1 self.old.parts (parts_of c)) }
        ensures same { self.new.text ≡ self.old.text }
        ensures stays { Gathered 1 self.old.parts self.new.parts }
        ensures refused { IsOkUnless result CordError.NoMemory }
    {
        let is_again = self.is_asked && self.cords.has_room();
        if is_again && self.gap.len() <= COPIED && self.has_edits() {
            let cord = self.with_gap(alloc)?;
            return Ok(cord);
        }
        let end = flush(
            alloc,
            &mut self.cords,
            self.cut_start,
            self.cut_end,
            &mut self.gap,
            is_again,
        )?;
        self.cut_start = end;
        self.cut_end = end;
        self.is_asked = true;
        let cord = self.cords.to_cord(alloc)?;
        Ok(cord)
    }

    // Whether the text is another one than that of the cords.
    fn has_edits(&self) -> bool {
        self.gap.len() > 0 || self.cut_start < self.cut_end
    }

    // The text as a cord, where it is parted at the gap, whose bytes stay in it.
    fn with_gap(&mut self, alloc: Global) -> Result<Cord, CordError>
        ensures made { IfOk result (IsCordWith 1 self.old) }
        ensures stays { StaysText self.old self.new }
        ensures refused { IsOkUnless result CordError.NoMemory }
    {
        let leaf = Cord::from_bytes(alloc, self.gap.bytes())?;
        let cord = self.cords.with(alloc, self.cut_start, self.cut_end, &leaf)?;
        self.cut_end = self.cut_start;
        Ok(cord)
    }

    // Puts bytes in front of the byte `at`, where the gap isn't or hasn't room for them.
    #[cold]
    #[inline(never)]
    fn insert_apart(&mut self, alloc: Global, at: u64, bytes: &[u8]) -> Result<(), CordError>
        requires { CanSplice self.old.text at at (length bytes.now) }
        ensures text { IfOk result (λ _. self.new.text ≡ edited at 0 (map known bytes.now) self.old.text) }
        ensures gathered { (k : ℕ) → length bytes.now ≤ leaf_bytes k → Gathered (2 + k) self.old.parts self.new.parts }
        ensures unchanged { IsErr result → self.new.text ≡ self.old.text }
        ensures refused { IsOkUnless result CordError.NoMemory }
    {
        flush(
            alloc,
            &mut self.cords,
            self.cut_start,
            self.cut_end,
            &mut self.gap,
            false,
        )?;
        self.cut_start = at;
        self.cut_end = at;
        self.is_asked = false;
        if bytes.len() <= MOST {
            self.gap.append(bytes);
            return Ok(());
        }
        put_leaves(alloc, &mut self.cords, at, bytes)?;
        self.cut_start = at + bytes.len() as u64;
        self.cut_end = self.cut_start;
        Ok(())
    }
}

// Puts the gap's bytes into the cords, in the place of those from `cut_start` up to `cut_end`, and empties it. Answers
// the place after them, where the text is parted then if it is to be.
fn flush(
    alloc: Global,
    cords: &mut Parted,
    cut_start: u64,
    cut_end: u64,
    gap: &mut Gap,
    is_parted: bool,
) -> Result<u64, CordError>
    requires { CanSplice cords.old.text cut_start cut_end (length (gap_bytes gap.old)) }
    ensures spliced { IfOk result (λ _. IsSpliced cut_start cut_end (leaf_growth (gap_bytes gap.old))
        (length (gap_bytes gap.old)) cords.old cords.new) }
    ensures place { IfOk result (λ place. place ≡ cut_start + length (gap_bytes gap.old)) }
    ensures cleared { IfOk result (λ _. IsCleared gap.new) }
    ensures cords_unchanged { IsErr result → cords.new ≡ cords.old }
    ensures gap_unchanged { IsErr result → gap.new ≡ gap.old }
    ensures refused { IsOkUnless result CordError.NoMemory }
{
    if cut_start == cut_end && gap.len() == 0 {
        gap.clear();
        return Ok(cut_start);
    }
    let end = cut_start + gap.len() as u64;
    put_bytes(alloc, cords, cut_start, cut_end, gap.bytes(), is_parted)?;
    gap.clear();
    Ok(end)
}

// Puts bytes, which are one leaf, in the place of those from `from` up to `until`.
fn put_bytes(
    alloc: Global,
    cords: &mut Parted,
    from: u64,
    until: u64,
    bytes: &[u8],
    is_parted: bool,
) -> Result<(), CordError>
    requires fits { CanSplice cords.old.text from until (length bytes.now) }
    requires leaf { length bytes.now ≤ MOST }
    ensures spliced { IfOk result (λ _. IsSpliced from until (leaf_growth bytes.now) (length bytes.now)
        cords.old cords.new) }
    ensures unchanged { IsErr result → cords.new ≡ cords.old }
    ensures refused { IsOkUnless result CordError.NoMemory }
{
    let leaf = Cord::from_bytes(alloc, bytes)?;
    if is_parted {
        cords.splice_parted(alloc, from, until, &leaf)?;
        return Ok(());
    }
    cords.splice(alloc, from, until, &leaf)?;
    Ok(())
}

// Puts bytes in front of the byte `at`, as leaves of at most `RawBuf::CAP` bytes.
fn put_leaves(alloc: Global, cords: &mut Parted, at: u64, bytes: &[u8]) -> Result<(), CordError>
    requires { CanSplice cords.old.text at at (length bytes.now) }
    ensures text { IfOk result (λ _. cords.new.text
        ≡ take at cords.old.text ++ map known bytes.now ++ drop at cords.old.text) }
    ensures len { IfOk result (λ _. length cords.new.text ≡ length cords.old.text + length bytes.now) }
    ensures gathered { IfOk result (λ _. (k : ℕ) → length bytes.now ≤ leaf_bytes k →
        Gathered (1 + k) cords.old.parts cords.new.parts) }
    ensures unchanged { IsErr result → cords.new ≡ cords.old }
    ensures refused { IsOkUnless result CordError.NoMemory }
{
    let leaves = leaves_of(alloc, bytes)?;
    cords.splice(alloc, at, at, &leaves)?;
    Ok(())
}

// Bytes as leaves of at most `RawBuf::CAP` bytes.
fn leaves_of(alloc: Global, bytes: &[u8]) -> Result<Cord, CordError>
    requires { length bytes.now ≤ MAX_LEN }
    ensures text { IfOk result (λ c. text c ≡ map known bytes.now) }
    ensures len { IfOk result (λ c. text_len c ≡ length bytes.now) }
    ensures gathered { IfOk result (λ c. (k : ℕ) → length bytes.now ≤ leaf_bytes k → Gathered k [] (parts_of c)) }
    ensures refused { IsOkUnless result CordError.NoMemory }
{
    let mut grown = ExtCord::new(alloc)?;
    grown.append_bytes(alloc, bytes)?;
    let leaves = grown.to_cord(alloc)?;
    Ok(leaves)
}
