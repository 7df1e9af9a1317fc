// Extensible cords: texts that grow at their end.
ghost use Rattle.std.specs.Prelude.{◌≡◌, ◌⊎◌, ◌+◌, ◌<◌, ◌≤◌, [], ◌∷◌, ◌++◌, length, take};
ghost use Rattle.std.specs.Prelude.{IfOk, OnOk, IfErr, IsErr, Err};
ghost use Rattle.cord_core.specs.Refusals.{IsRefusal};
ghost use Rattle.cord_c.specs.Codes.{MayBeTooLong, MayLackMemory};
ghost use Rattle.cord_c.specs.Grown.{grown};
ghost use denote.RawPtr.{Testable};
ghost use Rattle.core.specs.Ptr.{as_mut_ptr};

use crate::code::{NULL_POINTER, OK, TOO_LONG, code_of};
use crate::extensible::ROOM;
use crate::pointer::{either_missing, missing};
use crate::referent::Referent;
use crate::{Extensible, Handle};
use cord::{CordError, MAX_LEN, Text};
use std::alloc::{AllocError, Global};

/// The number of bytes.
#[unsafe(no_mangle)]
pub extern "C" fn zc_ext_len(x: &mut Extensible) -> u64
    requires places { Testable (as_mut_ptr x) }
    ensures len { result ≡ length (grown x.old) }
    ensures x { grown x.new ≡ grown x.old }
{
    if missing(x) {
        return 0;
    }
    x.len
}

/// Adds the byte `byte` at the end.
#[unsafe(no_mangle)]
pub extern "C" fn zc_ext_char(alloc: Global, x: &mut Extensible, byte: u8) -> i32
    requires places { Testable (as_mut_ptr x) }
    ensures text { result ≡ OK → grown x.new ≡ grown x.old ++ byte ∷ [] }
    ensures kept { (result ≡ OK) ⊎ (grown x.new ≡ grown x.old) }
    ensures too_long { result ≡ TOO_LONG → MAX_LEN < length (grown x.old) + 1 }
    ensures within_limit { result ≡ OK → length (grown x.old) + 1 ≤ MAX_LEN }
    ensures code { MayBeTooLong result }
{
    if missing(x) {
        return NULL_POINTER;
    }
    match x.push(alloc, byte) {
        Ok(()) => OK,
        Err(refusal) => code_of(refusal),
    }
}

/// Adds these bytes at the end, of which it takes a copy.
#[unsafe(no_mangle)]
pub extern "C" fn zc_ext_bytes(alloc: Global, x: &mut Extensible, bytes: &[u8]) -> i32
    requires places { Testable (as_mut_ptr x) }
    ensures text { result ≡ OK → grown x.new ≡ grown x.old ++ bytes.now }
    ensures kept { (result ≡ OK) ⊎ (grown x.new ≡ grown x.old) }
    ensures too_long { result ≡ TOO_LONG → MAX_LEN < length (grown x.old) + length bytes.now }
    ensures within_limit { result ≡ OK → length (grown x.old) + length bytes.now ≤ MAX_LEN }
    ensures code { MayBeTooLong result }
{
    if missing(x) {
        return NULL_POINTER;
    }
    match x.append(alloc, bytes) {
        Ok(()) => OK,
        Err(refusal) => code_of(refusal),
    }
}

/// Adds the bytes of `y` at the end, whose tree is shared.
#[unsafe(no_mangle)]
pub extern "C" fn zc_ext_cord(alloc: Global, x: &mut Extensible, y: &mut Handle) -> i32
    requires places { Testable (as_mut_ptr x) × Testable (as_mut_ptr y) }
    ensures text { result ≡ OK → grown x.new ≡ grown x.old ++ y.old.text }
    ensures kept { (result ≡ OK) ⊎ (grown x.new ≡ grown x.old) }
    ensures too_long { result ≡ TOO_LONG → MAX_LEN < length (grown x.old) + length y.old.text }
    ensures within_limit { result ≡ OK → length (grown x.old) + length y.old.text ≤ MAX_LEN }
    ensures code { MayBeTooLong result }
    ensures y { y.new.text ≡ y.old.text }
{
    if either_missing(x, y) {
        return NULL_POINTER;
    }
    match x.append_text(alloc, y.text(&Text::empty())) {
        Ok(()) => OK,
        Err(refusal) => code_of(refusal),
    }
}

/// The bytes of `x` as a cord. `x` stays, and can grow further.
#[unsafe(no_mangle)]
pub extern "C" fn zc_ext_to_cord(alloc: Global, x: &mut Extensible, out: &mut Handle) -> i32
    requires places { Testable (as_mut_ptr x) × Testable (as_mut_ptr out) }
    ensures text { result ≡ OK → out.new.text ≡ grown x.old }
    ensures kept { (result ≡ OK) ⊎ (out.new.text ≡ out.old.text) }
    ensures code { MayLackMemory result }
    ensures x { grown x.new ≡ grown x.old }
{
    if either_missing(x, out) {
        return NULL_POINTER;
    }
    let made = x.to_text(alloc);
    out.hold_within(alloc, made)
}

/// Frees what `x` owns, which then has no bytes.
#[unsafe(no_mangle)]
pub extern "C" fn zc_ext_free(alloc: Global, x: &mut Extensible)
    requires places { Testable (as_mut_ptr x) }
    ensures text { grown x.new ≡ [] }
{
    if missing(x) {
        return;
    }
    x.clear(alloc);
}

impl Extensible {
    // Frees the cord, and forgets the bytes that are gathered.
    fn clear(&mut self, alloc: Global)
        ensures { grown self.new ≡ [] }
    {
        self.built = Handle::empty(alloc);
        self.count = 0;
        self.len = 0;
    }

    // Adds a byte at the end. After a refusal the bytes are as before, here and below.
    fn push(&mut self, alloc: Global, byte: u8) -> Result<(), CordError>
        ensures text { OnOk result (grown self.new ≡ grown self.old ++ byte ∷ []) }
        ensures unchanged { IsErr result → grown self.new ≡ grown self.old }
        ensures too_long { result ≡ Err CordError.TooLong → MAX_LEN < length (grown self.old) + 1 }
        ensures within_limit { OnOk result (length (grown self.old) + 1 ≤ MAX_LEN) }
        ensures refused { IfErr result IsRefusal }
    {
        if self.len == MAX_LEN {
            return Err(CordError::TooLong);
        }
        self.make_room(alloc, 1)?;
        self.gather_byte(byte);
        Ok(())
    }

    // Adds bytes at the end: gathered, or as a leaf of their own where there is no room for them all.
    fn append(&mut self, alloc: Global, bytes: &[u8]) -> Result<(), CordError>
        ensures text { OnOk result (grown self.new ≡ grown self.old ++ bytes.now) }
        ensures unchanged { IsErr result → grown self.new ≡ grown self.old }
        ensures too_long { result ≡ Err CordError.TooLong → MAX_LEN < length (grown self.old) + length bytes.now }
        ensures within_limit { OnOk result (length (grown self.old) + length bytes.now ≤ MAX_LEN) }
        ensures refused { IfErr result IsRefusal }
    {
        if bytes.len() as u64 > MAX_LEN - self.len {
            return Err(CordError::TooLong);
        }
        if bytes.len() > ROOM {
            let whole = self.whole(alloc)?;
            let longer = whole.append_bytes(alloc, bytes)?;
            return Ok(self.hold(alloc, longer)?);
        }
        self.make_room(alloc, bytes.len())?;
        self.gather(bytes);
        Ok(())
    }

    // Adds the bytes of a text at the end, whose tree is shared.
    fn append_text(&mut self, alloc: Global, more: &Text) -> Result<(), CordError>
        ensures text { OnOk result (grown self.new ≡ grown self.old ++ more.now) }
        ensures unchanged { IsErr result → grown self.new ≡ grown self.old }
        ensures too_long { result ≡ Err CordError.TooLong → MAX_LEN < length (grown self.old) + length more.now }
        ensures within_limit { OnOk result (length (grown self.old) + length more.now ≤ MAX_LEN) }
        ensures refused { IfErr result IsRefusal }
    {
        let whole = self.whole(alloc)?;
        let longer = Text::cat(alloc, &whole, more)?;
        Ok(self.hold(alloc, longer)?)
    }

    // The bytes as a text, which shares its tree with the cord.
    fn to_text(&mut self, alloc: Global) -> Result<Text, AllocError>
        ensures text { IfOk result (λ t. t ≡ grown self.old) }
        ensures same { grown self.new ≡ grown self.old }
    {
        self.make_room(alloc, ROOM)?;
        self.built.read(alloc)
    }

    // Makes room for so many bytes, where there can be: the gathered ones become a leaf of the cord.
    fn make_room(&mut self, alloc: Global, more: usize) -> Result<(), AllocError>
        requires within { more ≤ ROOM }
        ensures same { grown self.new ≡ grown self.old }
        ensures len { self.new.len ≡ self.old.len }
        ensures room { OnOk result (self.new.count + more ≤ ROOM) }
    {
        if more <= ROOM - self.count {
            return Ok(());
        }
        let whole = self.whole(alloc)?;
        self.hold(alloc, whole)
    }

    // All bytes as one text: those that are gathered are a leaf at its end.
    fn whole(&mut self, alloc: Global) -> Result<Text, AllocError>
        ensures text { IfOk result (λ t. t ≡ grown self.old) }
        ensures same { grown self.new ≡ grown self.old }
        ensures len { self.new.len ≡ self.old.len }
    {
        let built = self.built.read(alloc)?;
        built
            .append_bytes(alloc, &self.bytes[..self.count])
            .map_err(|_| AllocError)
    }

    // Has these bytes from now on, and none that are gathered.
    fn hold(&mut self, alloc: Global, whole: Text) -> Result<(), AllocError>
        ensures text { OnOk result (grown self.new ≡ whole) }
        ensures unchanged { IsErr result → grown self.new ≡ grown self.old }
        ensures len { OnOk result (self.new.len ≡ length whole) }
        ensures len_kept { IsErr result → self.new.len ≡ self.old.len }
        ensures emptied { OnOk result (self.new.count ≡ 0) }
    {
        let len = whole.len();
        if self.built.keep(alloc, Referent::Text(whole)) != OK {
            return Err(AllocError);
        }
        self.count = 0;
        self.len = len;
        Ok(())
    }

    // Gathers a byte, for which there has to be room.
    fn gather_byte(&mut self, byte: u8)
        requires room { self.old.count < ROOM }
        requires limit { self.old.len < MAX_LEN }
        ensures { grown self.new ≡ grown self.old ++ byte ∷ [] }
    {
        self.bytes[self.count] = byte;
        self.count += 1;
        self.len += 1;
    }

    // Gathers bytes, for which there has to be room.
    fn gather(&mut self, bytes: &[u8])
        requires room { self.old.count + length bytes.now ≤ ROOM }
        requires limit { self.old.len + length bytes.now ≤ MAX_LEN }
        ensures { grown self.new ≡ grown self.old ++ bytes.now }
    {
        copy_to(&mut self.bytes, self.count, bytes);
        self.count += bytes.len();
        self.len += bytes.len() as u64;
    }
}

// Copies bytes to a place of others, where there has to be room.
fn copy_to(all: &mut [u8], start: usize, bytes: &[u8])
    requires { start + length bytes.now ≤ length all.old }
    ensures { take (start + length bytes.now) all.new ≡ take start all.old ++ bytes.now }
{
    all[start..start + bytes.len()].copy_from_slice(bytes);
}
