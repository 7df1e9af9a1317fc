//! What a `zc_lazy` of C is: a cord that may have parts in files.
ghost use Rattle.std.specs.Prelude.{◌≡◌, ◌⊎◌, None, Ok, Err, IfErr};
ghost use Rattle.cord_core.specs.Refusals.{IsRefusal};
ghost use Rattle.cord_c.specs.Codes.{MayBeTooLong, MayLackMemory};
ghost use Rattle.cord_c.specs.Lazy.{cord_of};

use crate::Handle;
use crate::code::{NO_MEMORY, OK, TOO_LONG, code_of};
use crate::referent::Referent;
use cord::CordError;
use cord_core::Cord;
use std::alloc::Global;

/// Owns the cord at the pointer, where it isn't null.
#[repr(C)]
#[derive(Drop)]
pub struct LazyHandle {
    pub(crate) handle: Handle,
}

impl LazyHandle {
    ghost use types.Logic.{sem};
    ghost use Rattle.cord_c.specs.inner.Loans.{KeepsCord};

    /// Its cord, where it lies: `none` where there is none.
    pub(crate) fn cord<'a>(&'a mut self, none: &'a Cord) -> &'a Cord
        requires none { none.now ≡ None }
        ensures* kept { sem 𝓛 (KeepsCord self.entry) }
        ensures cord { result.now ≡ cord_of self.old }
    {
        match self.handle.lent() {
            Some(referent) => referent.cord_or(none),
            None => none,
        }
    }

    /// Holds the cord that was made from now on, and frees the one that it held. Where none was made, it stays.
    pub(crate) fn hold(&mut self, alloc: Global, made: Result<Cord, CordError>) -> i32
        requires refused { IfErr made IsRefusal }
        ensures held { result ≡ OK → made ≡ Ok (cord_of self.new) }
        ensures kept { (result ≡ OK) ⊎ (cord_of self.new ≡ cord_of self.old) }
        ensures too_long { result ≡ TOO_LONG → made ≡ Err CordError.TooLong }
        ensures code { MayBeTooLong result }
    {
        match made {
            Ok(cord) => self.handle.keep(alloc, Referent::Cord(cord)),
            Err(refusal) => code_of(refusal),
        }
    }

    /// As `hold`, of what only out of memory refuses.
    pub(crate) fn hold_within(&mut self, alloc: Global, made: Result<Cord, CordError>) -> i32
        ensures held { result ≡ OK → made ≡ Ok (cord_of self.new) }
        ensures kept { (result ≡ OK) ⊎ (cord_of self.new ≡ cord_of self.old) }
        ensures code { MayLackMemory result }
    {
        match made {
            Ok(cord) => self.handle.keep(alloc, Referent::Cord(cord)),
            Err(_) => NO_MEMORY,
        }
    }
}
