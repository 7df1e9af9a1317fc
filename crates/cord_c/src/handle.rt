//! What a `zc_cord` of C is: a pointer to a text on the heap, or null for the text of no bytes.
ghost use Rattle.std.specs.Prelude.{◌≡◌, ◌⊎◌, ◌-◌, ℕ, List, [], length, take, drop, min, MatchOption};
ghost use Rattle.std.specs.Prelude.{◌++◌, ◌∷◌, Ok, Err, IfOk, IfErr};
ghost use denote.RawPtr.{Testable};
ghost use Rattle.cord_core.specs.Refusals.{IsRefusal};
ghost use Rattle.cord_c.specs.Codes.{MayBeTooLong, MayLackMemory};
ghost use Rattle.cord_c.specs.Handles.{handle_owns};
ghost use Rattle.cord_c.specs.Referent.{text_by};
ghost use Rattle.cord_c.specs.contracts.referent.Referent as row;
ghost use Rattle.cord_c.specs.declared.referent.Referent.{Referent};

use crate::code::{NO_MEMORY, OK, TOO_LONG, code_of};
use crate::copy::copy_from;
use crate::loan::{Lender, Loan, leaf_at};
use crate::referent::Referent;
use cord::{CordError, Text};
use cord_raw::Raw;
use std::alloc::{AllocError, Global};
use std::marker::Model;

/// Owns what lies at the pointer, where it isn't null: a text, a cord if it is a `LazyHandle`'s, or a text that is
/// edited if it is an `Editor`'s. In C it is a struct of one pointer, which doesn't say to what. Its `text` is that of
/// the text, and has no bytes where there is none.
#[repr(C)]
pub struct Handle {
    pub(crate) at: *mut u8,
    pub(crate) alloc: Global,
    pub ghost referent: { Referent } by { row.the_row.coded },
    pub ghost text: { List ℕ },
    ghost reported: { text ≡ text_by referent },
    ghost testable: { Testable at },
}

impl Model for Handle {
    ghost also_owns = { λ h. handle_owns h.at h.referent };
}

impl Drop for Handle {
    fn drop(self) {
        if let Some(referent) = self.into_raw() {
            drop(referent.into_box());
        }
    }
}

impl Handle {
    ghost use types.Logic.{sem};
    ghost use Rattle.cord_c.specs.inner.Loans.{LendsReferent, KeepsText};

    /// The handle of the text of no bytes: null.
    pub(crate) fn empty(alloc: Global) -> Handle
        ensures { result.referent ≡ Referent.Nothing }
    {
        Handle {
            at: std::ptr::null_mut(),
            alloc,
        }
    }

    /// The handle of what lies on the heap.
    pub(crate) fn of(referent: Raw<Referent, Global>) -> Handle
        ensures { result.referent ≡ referent.value }
    {
        let Raw { at, alloc } = referent;
        Handle {
            at: at as *mut u8,
            alloc,
        }
    }

    /// What lies on the heap, nothing where the pointer is null.
    pub(crate) fn into_raw(self) -> Option<Raw<Referent, Global>>
        ensures { MatchOption result (self.referent ≡ Referent.Nothing) (λ l. l.value ≡ self.referent) }
    {
        let Handle { at, alloc } = self;
        if at.is_null() {
            return None;
        }
        Some(Raw {
            at: at as *mut Referent,
            alloc,
        })
    }

    /// Lends the bytes of the leaf that holds the byte at `place`, from there on, if they are many, and else none.
    pub(crate) fn lend(self, place: u64) -> Loan
        ensures { (result.lender.referent ≡ self.referent)
            × (result.lender.items ≡ take (length result.lender.items) (drop place (text_by self.referent))) }
    {
        let Handle { at, alloc } = self;
        if at.is_null() {
            return Loan {
                lender: Lender {
                    at,
                    bytes: std::ptr::null(),
                    alloc,
                },
                count: 0,
            };
        }
        let bytes = leaf_at(unsafe { &*(at as *mut Referent) }, place);
        Loan {
            lender: Lender {
                at,
                bytes: bytes.as_ptr(),
                alloc,
            },
            count: bytes.len(),
        }
    }

    /// What lies on the heap, where it lies: nothing where the pointer is null.
    pub(crate) fn lent(&mut self) -> Option<&mut Referent>
        ensures* given_back { sem 𝓛 (LendsReferent self.entry result) }
        ensures value { MatchOption result (self.old.referent ≡ Referent.Nothing) (λ r. r.now ≡ self.old.referent) }
    {
        let at = self.at;
        if at.is_null() {
            return None;
        }
        Some(unsafe { &mut *(at as *mut Referent) })
    }

    /// Its text, where it lies: `none` where there is none.
    pub(crate) fn text<'a>(&'a mut self, none: &'a Text) -> &'a Text
        requires none { none.now ≡ [] }
        ensures* kept { sem 𝓛 (KeepsText self.entry) }
        ensures text { result.now ≡ self.old.text }
    {
        match self.lent() {
            Some(referent) => referent.text_or(none),
            None => none,
        }
    }

    /// Copies bytes of its text from `start` on, as many as there are and `bytes` has room for: how many.
    pub(crate) fn copy_to(&mut self, start: u64, bytes: &mut [u8]) -> usize
        ensures count { result ≡ min (length bytes.old) (length self.old.text - start) }
        ensures bytes { take result bytes.new ≡ take (length bytes.old) (drop start self.old.text) }
        ensures same { self.new.text ≡ self.old.text }
    {
        copy_from(self.text(&Text::empty()), start, bytes)
    }

    /// Its text once more, which shares its tree. Refused only when out of memory.
    pub(crate) fn read(&mut self, alloc: Global) -> Result<Text, AllocError>
        ensures text { IfOk result (λ t. t ≡ self.old.text) }
        ensures same { self.new.text ≡ self.old.text }
    {
        self.text(&Text::empty()).share(alloc)
    }

    /// Appends its text once more to these, as `read`.
    pub(crate) fn read_onto(
        &mut self,
        alloc: Global,
        made: &mut Vec<Text>,
    ) -> Result<(), AllocError>
        ensures made { IfOk result (λ _. made.new.items ≡ made.old.items ++ self.old.text ∷ []) }
        ensures same { self.new.text ≡ self.old.text }
    {
        let text = self.read(alloc)?;
        made.push(text)?;
        Ok(())
    }

    /// Holds this from now on, and frees what it held, whose place on the heap it takes. Refused only when out of
    /// memory, where the pointer is null: then it stays.
    pub(crate) fn keep(&mut self, alloc: Global, referent: Referent) -> i32
        ensures held { result ≡ OK → self.new.referent ≡ referent }
        ensures same { (result ≡ OK) ⊎ (self.new.referent ≡ self.old.referent) }
        ensures code { MayLackMemory result }
    {
        if let Some(held) = self.lent() {
            *held = referent;
            return OK;
        }
        match Box::new(alloc, referent) {
            Ok(held) => *self = Handle::of(Raw::of(held)),
            Err(_) => return NO_MEMORY,
        }
        OK
    }

    /// Holds the text that was made, as `keep`. Where none was made, it stays.
    pub(crate) fn hold(&mut self, alloc: Global, made: Result<Text, CordError>) -> i32
        requires refused { IfErr made IsRefusal }
        ensures held { result ≡ OK → made ≡ Ok self.new.text }
        ensures kept { (result ≡ OK) ⊎ (self.new.text ≡ self.old.text) }
        ensures too_long { result ≡ TOO_LONG → made ≡ Err CordError.TooLong }
        ensures code { MayBeTooLong result }
    {
        match made {
            Ok(text) => self.keep(alloc, Referent::Text(text)),
            Err(refusal) => code_of(refusal),
        }
    }

    /// As `hold`, of what only out of memory refuses.
    pub(crate) fn hold_within(&mut self, alloc: Global, made: Result<Text, AllocError>) -> i32
        ensures held { result ≡ OK → made ≡ Ok self.new.text }
        ensures kept { (result ≡ OK) ⊎ (self.new.text ≡ self.old.text) }
        ensures code { MayLackMemory result }
    {
        match made {
            Ok(text) => self.keep(alloc, Referent::Text(text)),
            Err(_) => NO_MEMORY,
        }
    }
}
