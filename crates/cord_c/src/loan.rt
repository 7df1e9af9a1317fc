//! A text on the heap that is lent to C, and which of its bytes.
ghost use Rattle.std.specs.Prelude.{◌≡◌, List, ℕ, [], length, take, drop, IfOk};
ghost use denote.RawPtr.{Testable};
ghost use Rattle.cord_c.specs.Loans.{lender_owns};
ghost use Rattle.cord_c.specs.Referent.{text_by};
ghost use Rattle.cord_c.specs.contracts.referent.Referent as row;
ghost use Rattle.cord_c.specs.declared.referent.Referent.{Referent};

use crate::Handle;
use crate::referent::Referent;
use cord::{Chunk, Text};
use cord_raw::Raw;
use std::alloc::{AllocError, Global};
use std::marker::Model;
use std::mem::replace;

/// The fewest bytes that are lent: of shorter leaves more than one are copied at a time.
const LEAST: usize = 512;

/// Owns what lies at the pointer `at`, where it isn't null, and lends bytes of it at the pointer `bytes`, which may be
/// read as long as this stays.
#[repr(C)]
pub struct Lender {
    pub(crate) at: *mut u8,
    pub(crate) bytes: *const u8,
    pub(crate) alloc: Global,
    pub ghost referent: { Referent } by { row.the_row.coded },
    pub ghost items: { List ℕ },
    ghost testable: { Testable at },
}

impl Model for Lender {
    ghost also_owns = { λ l. lender_owns l.at l.referent l.bytes l.items };
}

impl Drop for Lender {
    fn drop(self) {
        drop(self.end());
    }
}

impl Lender {
    /// Ends the loan: what was lent from.
    fn end(self) -> Handle
        ensures { result.referent ≡ self.referent }
    {
        let Lender {
            at,
            bytes: _,
            alloc,
        } = self;
        Handle { at, alloc }
    }
}

/// Lends `count` bytes of a text.
#[repr(C)]
#[derive(Drop)]
pub struct Loan {
    pub(crate) lender: Lender,
    pub(crate) count: usize,
    ghost counted: { count ≡ length lender.items },
}

impl Loan {
    /// That of no text.
    pub(crate) fn empty(alloc: Global) -> Loan
        ensures { (result.lender.referent ≡ Referent.Nothing) × (result.lender.items ≡ []) }
    {
        Handle::empty(alloc).lend(0)
    }

    /// Lends no bytes of the text yet. Refused only when out of memory.
    pub(crate) fn make(alloc: Global, text: Text) -> Result<Loan, AllocError>
        ensures { IfOk result (λ l. text_by l.lender.referent ≡ text) }
    {
        match Box::new(alloc, Referent::Text(text)) {
            Ok(held) => Ok(Handle::of(Raw::of(held)).lend(u64::MAX)),
            Err(refused) => Err(AllocError::from(refused)),
        }
    }

    /// Lends other bytes of the text from now on: those at `place`, as `lend`.
    pub(crate) fn move_to(&mut self, alloc: Global, place: u64)
        ensures text { self.new.lender.referent ≡ self.old.lender.referent }
        ensures items { self.new.lender.items
            ≡ take (length self.new.lender.items) (drop place (text_by self.old.lender.referent)) }
    {
        let Loan { lender, count: _ } = replace(self, Loan::empty(alloc));
        *self = lender.end().lend(place);
    }
}

/// The bytes of the leaf that holds the byte at `place`, from there on: none where they are few, or where no leaf does.
pub(crate) fn leaf_at(referent: &Referent, place: u64) -> &[u8]
    ensures { result.now ≡ take (length result.now) (drop place (text_by referent.now)) }
{
    let Referent::Text(text) = referent else {
        return &[];
    };
    match text.chunk_at(place) {
        Some(Chunk::Bytes(bytes)) if bytes.len() >= LEAST => bytes,
        _ => &[],
    }
}
