//! What a `zc_lines` of C is: the index of the lines of a text.
ghost use Rattle.std.specs.Prelude.{◌≡◌, ◌⊎◌, false};
ghost use Rattle.cord_lines.specs.Index.{of_no_bytes};
ghost use Rattle.cord_c.specs.Codes.{MayLackMemory};
ghost use Rattle.cord_c.specs.LineIndexes.{index_in};

use crate::Handle;
use crate::code::{NO_MEMORY, OK};
use crate::referent::Referent;
use cord_lines::LineIndex;
use std::alloc::Global;

/// Owns the index at the pointer, where it isn't null: null is that of no bytes.
#[repr(C)]
#[derive(Drop)]
pub struct Lines {
    pub(crate) handle: Handle,
}

impl Lines {
    ghost use types.Logic.{sem};
    ghost use Rattle.cord_c.specs.inner.Loans.{KeepsIndex};

    /// Its index, where it lies: `none` where there is none.
    pub(crate) fn index<'a>(&'a mut self, none: &'a LineIndex) -> &'a LineIndex
        requires none { none.now ≡ of_no_bytes }
        ensures* kept { sem 𝓛 (KeepsIndex self.entry) }
        ensures index { result.now ≡ index_in self.old }
    {
        match self.handle.lent() {
            Some(referent) => referent.index_or(none),
            None => none,
        }
    }

    /// Has an index from now on, that of no bytes where it had none. Refused only when out of memory.
    pub(crate) fn ready(&mut self, alloc: Global) -> i32
        ensures same { index_in self.new ≡ index_in self.old }
        ensures code { MayLackMemory result }
    {
        if self.is_ready() {
            return OK;
        }
        self.hold(alloc, LineIndex::empty(alloc))
    }

    // Whether it has an index.
    fn is_ready(&mut self) -> bool
        ensures none { result ≡ false → index_in self.old ≡ of_no_bytes }
        ensures same { index_in self.new ≡ index_in self.old }
    {
        match self.handle.lent() {
            Some(Referent::Lines(_)) => true,
            _ => false,
        }
    }

    /// Holds this index from now on, and frees the one that it held. Refused only when out of memory, where the pointer
    /// is null: then it stays.
    pub(crate) fn hold(&mut self, alloc: Global, index: LineIndex) -> i32
        ensures held { result ≡ OK → index_in self.new ≡ index }
        ensures kept { (result ≡ OK) ⊎ (index_in self.new ≡ index_in self.old) }
        ensures code { MayLackMemory result }
    {
        match Box::new(alloc, index) {
            Ok(index) => self.handle.keep(alloc, Referent::Lines(index)),
            Err(_) => NO_MEMORY,
        }
    }
}
