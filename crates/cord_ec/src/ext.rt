// The extensible cord.
ghost use Rattle.std.specs.Prelude.{◌≡◌, ℕ, ◌+◌, ◌<◌, ◌≤◌, List, [], ◌∷◌, ◌++◌, IfOk, OnOk, IfErr, IsErr, IsOkUnless};
ghost use Rattle.std.specs.Prelude.{Err, length, map};
ghost use Rattle.cord_io.specs.Table.{Table};
ghost use Rattle.cord_node.specs.Tree.{known};
ghost use Rattle.cord_node.specs.PartsFrom.{PartsFrom};
ghost use Rattle.cord_core.specs.Cord.{text, text_len, parts_of, IsCord};
ghost use Rattle.cord_core.specs.Refusals.{IsRefusal};
ghost use Rattle.cord_ec.specs.Gathered.{leaf_bytes, leaf_parts, Gathered};
ghost use Rattle.cord_ec.specs.Grown.{bytes_of_cells, IsGrownBy, IsGrownByCord, IsCordOf};

use cord_core::Cord;
use cord_io::{CordError, MAX_LEN};
use cord_raw::RawBuf;
use std::alloc::{AllocError, Global};
use std::marker::Model;

/// A text of at most `MAX_LEN` bytes that grows at its end.
///
/// It is a cord and a buffer of the bytes after it. The buffer goes into the cord as one leaf, of up to
/// `RawBuf::CAP` bytes, when a byte no longer fits into it and when a cord is appended or made.
#[derive(Drop)]
pub struct ExtCord {
    cord: Cord,
    buffer: RawBuf,
    // So many bytes the buffer may hold after the cord, so that an append need not look at the cord.
    room: u64,
}

impl Model for ExtCord {
    ghost use Rattle.std.specs.Prelude.{◌≤◌, ◌+◌, ◌++◌, length, map};
    ghost use Rattle.cord_io.specs.declared.TheConstants.{MAX_LEN};
    ghost use Rattle.cord_raw.specs.declared.buffer.TheConstants.RawBuf.{CAP};
    ghost use Rattle.cord_node.specs.Tree.{known};
    ghost use Rattle.cord_core.specs.Cord.{text, text_len, parts_of};
    ghost use Rattle.cord_ec.specs.Gathered.{Growth, coded_growth, leaf_parts};

    ghost Value = { Growth };

    ghost coded = { coded_growth };

    // The buffer's bytes are a leaf after the cord's parts.
    ghost view = { λ e. record {
      text = text e.cord ++ map known e.buffer;
      parts = parts_of e.cord
          ++ leaf_parts e.buffer;
    } };

    ghost invariant = { λ e. (text_len e.cord + length e.buffer ≤ MAX_LEN) × (text_len e.cord + e.room ≤ MAX_LEN)
        × (length (text e.cord) + e.room ≤ MAX_LEN) × (e.room ≤ CAP) };
}

impl ExtCord {
    /// The extensible cord of no bytes. Refused only when out of memory.
    pub fn new(alloc: Global) -> Result<ExtCord, CordError>
        ensures text { IfOk result (λ made. made.text ≡ []) }
        ensures parts { IfOk result (λ made. made.parts ≡ []) }
        ensures refused { IsOkUnless result CordError.NoMemory }
    {
        let buffer = RawBuf::new(alloc)?;
        Ok(ExtCord {
            cord: Cord::empty(),
            buffer,
            room: RawBuf::CAP,
        })
    }

    /// The length of the text, in bytes.
    pub fn len(&self) -> u64
        ensures value { result ≡ length self.now.text }
        ensures over { (t : Table) → result ≡ length (bytes_of_cells t self.now.text) }
        ensures limit { result ≤ MAX_LEN }
    {
        len_of(&self.cord, &self.buffer)
    }

    /// Adds a byte at the end.
    /// `TooLong` where the text would be longer than `MAX_LEN`, `NoMemory` where memory was refused. After either the
    /// text is as before.
    pub fn append(&mut self, alloc: Global, byte: u8) -> Result<(), CordError>
        ensures text { IfOk result (λ _. self.new.text ≡ self.old.text ++ known byte ∷ []) }
        ensures over { IfOk result (λ _. IsGrownBy self.old.text self.new.text (byte ∷ [])) }
        ensures gathered { IfOk result (λ _. Gathered 1 self.old.parts self.new.parts) }
        ensures unchanged { IsErr result → self.new ≡ self.old }
        ensures too_long { result ≡ Err CordError.TooLong → MAX_LEN < length self.old.text + 1 }
        ensures within_limit { OnOk result (length self.old.text + 1 ≤ MAX_LEN) }
        ensures refused { IfErr result IsRefusal }
    {
        if self.buffer.len() < self.room {
            self.buffer.push(alloc, byte)?;
            return Ok(());
        }
        if len_of(&self.cord, &self.buffer) == MAX_LEN {
            return Err(CordError::TooLong);
        }
        begin_next(alloc, &mut self.cord, &mut self.buffer, byte)?;
        self.room = room_after(&self.cord);
        Ok(())
    }

    /// Adds bytes at the end, as leaves of at most `RawBuf::CAP` bytes.
    /// `TooLong` where the text would be longer than `MAX_LEN`, `NoMemory` where memory was refused. After either the
    /// text is as before.
    pub fn append_bytes(&mut self, alloc: Global, bytes: &[u8]) -> Result<(), CordError>
        ensures text { IfOk result (λ _. self.new.text ≡ self.old.text ++ map known bytes.now) }
        ensures over { IfOk result (λ _. IsGrownBy self.old.text self.new.text bytes.now) }
        ensures gathered { IfOk result (λ _. (k : ℕ) → length bytes.now ≤ leaf_bytes k →
            Gathered k self.old.parts self.new.parts) }
        ensures unchanged { IsErr result → self.new ≡ self.old }
        ensures too_long { result ≡ Err CordError.TooLong → MAX_LEN < length self.old.text + length bytes.now }
        ensures within_limit { OnOk result (length self.old.text + length bytes.now ≤ MAX_LEN) }
        ensures refused { IfErr result IsRefusal }
    {
        if self.buffer.len().saturating_add(bytes.len() as u64) <= self.room {
            self.buffer.extend(alloc, bytes)?;
            return Ok(());
        }
        if bytes.len() as u64 > MAX_LEN - len_of(&self.cord, &self.buffer) {
            return Err(CordError::TooLong);
        }
        let so_far = whole(alloc, &self.cord, &self.buffer)?;
        let longer = cat_leaves(alloc, so_far, bytes)?;
        self.cord = longer;
        self.buffer.clear();
        self.room = room_after(&self.cord);
        Ok(())
    }

    /// Adds the text of a cord at the end, which shares its tree.
    /// `TooLong` where the text would be longer than `MAX_LEN`, `NoMemory` where memory was refused. After either the
    /// text is as before.
    pub fn append_cord(&mut self, alloc: Global, cord: &Cord) -> Result<(), CordError>
        ensures text { IfOk result (λ _. self.new.text ≡ self.old.text ++ text cord.now) }
        ensures over { IfOk result (λ _. IsGrownByCord self.old.text self.new.text cord.now) }
        ensures parts_from { IfOk result (λ _. PartsFrom (self.old.parts ++ parts_of cord.now) self.new.parts) }
        ensures unchanged { IsErr result → self.new ≡ self.old }
        ensures too_long { result ≡ Err CordError.TooLong → MAX_LEN < length self.old.text + text_len cord.now }
        ensures within_limit { OnOk result (length self.old.text + text_len cord.now ≤ MAX_LEN) }
        ensures refused { IfErr result IsRefusal }
    {
        if cord.len() > MAX_LEN - len_of(&self.cord, &self.buffer) {
            return Err(CordError::TooLong);
        }
        let so_far = whole(alloc, &self.cord, &self.buffer)?;
        let longer = cat_within(alloc, &so_far, cord)?;
        self.cord = longer;
        self.buffer.clear();
        self.room = room_after(&self.cord);
        Ok(())
    }

    /// The text as a cord, which shares its tree with this one. The text stays, and can grow further.
    /// Refused only when out of memory.
    #[tactic(auto, using(crate::proofs::Growing::cord_of))]
    pub fn to_cord(&mut self, alloc: Global) -> Result<Cord, CordError>
        ensures text { IfOk result (λ c. text c ≡ self.old.text) }
        ensures over { IfOk result (IsCordOf self.old.text) }
        ensures sound { IfOk result IsCord }
        ensures parts_from { IfOk result (λ c. PartsFrom self.old.parts (parts_of c)) }
        ensures same { self.new.text ≡ self.old.text }
        ensures stays { PartsFrom self.old.parts self.new.parts }
        ensures refused { IsOkUnless result CordError.NoMemory }
    {
        flush(alloc, &mut self.cord, &mut self.buffer)?;
        self.room = room_after(&self.cord);
        let cord = self.cord.share(alloc)?;
        Ok(cord)
    }
}

// The length of the text of a cord and of the buffer after it.
fn len_of(cord: &Cord, buffer: &RawBuf) -> u64
    requires within_limit { text_len cord.now + length buffer.now ≤ MAX_LEN }
    ensures stored { result ≡ text_len cord.now + length buffer.now }
    ensures text { result ≡ length (text cord.now ++ map known buffer.now) }
{
    cord.len() + buffer.len()
}

// How many bytes the buffer after a cord may hold.
fn room_after(cord: &Cord) -> u64
    ensures stored { text_len cord.now + result ≤ MAX_LEN }
    ensures text { length (text cord.now) + result ≤ MAX_LEN }
    ensures most { result ≤ RawBuf.CAP }
{
    RawBuf::CAP.min(MAX_LEN - cord.len())
}

// The text of a cord and of the buffer after it, as one cord: the buffer's bytes, where it has any, are a leaf.
#[cold]
#[inline(never)]
fn whole(alloc: Global, cord: &Cord, buffer: &RawBuf) -> Result<Cord, AllocError>
    requires within_limit { text_len cord.now + length buffer.now ≤ MAX_LEN }
    ensures text { IfOk result (λ c. text c ≡ text cord.now ++ map known buffer.now) }
    ensures len { IfOk result (λ c. text_len c ≡ text_len cord.now + length buffer.now) }
    ensures parts_from { IfOk result (λ c. PartsFrom (parts_of cord.now ++ leaf_parts buffer.now) (parts_of c)) }
    ensures sound { IfOk result IsCord }
{
    let leaf = leaf_of(alloc, buffer)?;
    let longer = cat_within(alloc, cord, &leaf)?;
    Ok(longer)
}

// A buffer of one byte.
fn buffer_of(alloc: Global, byte: u8) -> Result<RawBuf, AllocError>
    ensures bytes { IfOk result (λ made. made ≡ byte ∷ []) }
{
    let mut made = RawBuf::new(alloc)?;
    made.push(alloc, byte)?;
    Ok(made)
}

// Puts the bytes of the buffer, where it has any, into the cord, and empties it.
fn flush(alloc: Global, cord: &mut Cord, buffer: &mut RawBuf) -> Result<(), AllocError>
    requires within_limit { text_len cord.old + length buffer.old ≤ MAX_LEN }
    ensures text { IfOk result (λ _. text cord.new ≡ text cord.old ++ map known buffer.old) }
    ensures len { IfOk result (λ _. text_len cord.new ≡ text_len cord.old + length buffer.old) }
    ensures parts_from { IfOk result (λ _. PartsFrom (parts_of cord.old ++ leaf_parts buffer.old) (parts_of cord.new)) }
    ensures emptied { IfOk result (λ _. buffer.new ≡ []) }
    ensures cord_unchanged { IsErr result → cord.new ≡ cord.old }
    ensures buffer_unchanged { IsErr result → buffer.new ≡ buffer.old }
{
    let longer = whole(alloc, cord, buffer)?;
    *cord = longer;
    buffer.clear();
    Ok(())
}

// Puts the bytes of the buffer into the cord, and a byte into the next buffer. It is seldom called, and what it needs
// stands apart from the short way of an append.
#[cold]
#[inline(never)]
fn begin_next(
    alloc: Global,
    cord: &mut Cord,
    buffer: &mut RawBuf,
    byte: u8,
) -> Result<(), AllocError>
    requires within_limit { text_len cord.old + length buffer.old ≤ MAX_LEN }
    ensures text { IfOk result (λ _. text cord.new ≡ text cord.old ++ map known buffer.old) }
    ensures len { IfOk result (λ _. text_len cord.new ≡ text_len cord.old + length buffer.old) }
    ensures parts_from { IfOk result (λ _. PartsFrom (parts_of cord.old ++ leaf_parts buffer.old) (parts_of cord.new)) }
    ensures begun { IfOk result (λ _. buffer.new ≡ byte ∷ []) }
    ensures cord_unchanged { IsErr result → cord.new ≡ cord.old }
    ensures buffer_unchanged { IsErr result → buffer.new ≡ buffer.old }
{
    let next = buffer_of(alloc, byte)?;
    flush(alloc, cord, buffer)?;
    *buffer = next;
    Ok(())
}

// The text of one cord and then of another, which are short enough together.
fn cat_within(alloc: Global, left: &Cord, right: &Cord) -> Result<Cord, AllocError>
    requires within_limit { text_len left.now + text_len right.now ≤ MAX_LEN }
    ensures text { IfOk result (λ c. text c ≡ text left.now ++ text right.now) }
    ensures len { IfOk result (λ c. text_len c ≡ text_len left.now + text_len right.now) }
    ensures parts_from { IfOk result (λ c. PartsFrom (parts_of left.now ++ parts_of right.now) (parts_of c)) }
    ensures sound { IfOk result IsCord }
{
    Cord::cat(alloc, left, right).map_err(|_| AllocError)
}

// The bytes of a buffer as one leaf. Of no bytes it is the empty cord.
fn leaf_of(alloc: Global, buffer: &RawBuf) -> Result<Cord, AllocError>
    ensures text { IfOk result (λ c. text c ≡ map known buffer.now) }
    ensures len { IfOk result (λ c. text_len c ≡ length buffer.now) }
    ensures parts { IfOk result (λ c. parts_of c ≡ leaf_parts buffer.now) }
    ensures sound { IfOk result IsCord }
{
    if buffer.len() == 0 {
        return Ok(Cord::empty());
    }
    let shared = buffer.to_shared(alloc)?;
    match Cord::from_shared(alloc, shared) {
        Ok(leaf) => Ok(leaf),
        Err(_) => Err(AllocError),
    }
}

// The text of a cord and then these bytes, as leaves that are gathered in a buffer of their own.
#[cold]
#[inline(never)]
fn cat_leaves(alloc: Global, cord: Cord, bytes: &[u8]) -> Result<Cord, AllocError>
    requires within_limit { text_len cord + length bytes.now ≤ MAX_LEN }
    ensures text { IfOk result (λ c. text c ≡ text cord ++ map known bytes.now) }
    ensures len { IfOk result (λ c. text_len c ≡ text_len cord + length bytes.now) }
    ensures gathered { IfOk result (λ c. (k : ℕ) → length bytes.now ≤ leaf_bytes k →
        Gathered k (parts_of cord) (parts_of c)) }
{
    let mut longer = cord;
    let mut leaf_bytes = RawBuf::new(alloc)?;
    let mut rest = bytes;
    while !rest.is_empty() {
        let (run, after) = rest.split_at(rest.len().min(RawBuf::CAP as usize));
        leaf_bytes.clear();
        leaf_bytes.extend(alloc, run)?;
        longer = whole(alloc, &longer, &leaf_bytes)?;
        rest = after;
    }
    Ok(longer)
}
