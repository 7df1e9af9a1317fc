// Cords of what names hold.
ghost use Rattle.std.specs.Prelude.{◌≡◌, IfOk, Ok, length};
ghost use Rattle.cord_run.specs.inner.{IsCord, IsExtended, IsTextOver, cells_or_none, SameEntries, cells_in};
ghost use Rattle.cord_run.specs.inner.{content_in, cord_in, extensible_in};

use crate::store::Store;
use cord_core::Cord;
use cord_ec::ExtCord;
use cord_script::Name;
use std::alloc::{AllocError, Global};

/// The cord of a name, shared.
pub(crate) fn shared(alloc: Global, store: &Store, name: &Name) -> Result<Cord, AllocError>
    ensures same { IfOk result (λ cord. cord ≡ cord_in (content_in store.now.entries.items name.now)) }
    ensures sound { IfOk result IsCord }
{
    match store.cord_of(name) {
        None => Ok(Cord::empty()),
        Some(cord) => match cord.share(alloc) {
            Ok(shared) => Ok(shared),
            Err(_) => Err(AllocError),
        },
    }
}

/// The text of a name as a balanced cord.
pub(crate) fn balanced(alloc: Global, store: &Store, name: &Name) -> Result<Cord, AllocError>
    ensures made { IfOk result (IsTextOver store.now.entries.items (λ s. Ok (s.texts name.now))) }
{
    match store.cord_of(name) {
        None => Ok(Cord::empty()),
        Some(cord) => match cord.balance(alloc) {
            Ok(balanced) => Ok(balanced),
            Err(_) => Err(AllocError),
        },
    }
}

impl Store {
    /// The text of the extensible cord of a name as a cord: no bytes where it was not begun. All names hold what they
    /// held.
    pub(crate) fn extended(&mut self, alloc: Global, name: &Name) -> Result<Cord, AllocError>
        ensures made { IfOk result (IsTextOver self.old.entries.items (λ s. Ok (s.extensibles name.now))) }
        ensures same { SameEntries self.old.entries.items self.new.entries.items }
    {
        match self.place(name) {
            None => Ok(Cord::empty()),
            Some(place) => {
                let extensible = &mut self.entries[place].extensible;
                cord_of(alloc, extensible)
            }
        }
    }

    /// The length of the extensible cord of a name: 0 where it was not begun.
    pub(crate) fn extended_length(&self, name: &Name) -> u64
        ensures { result ≡ length (cells_or_none (extensible_in self.now.entries.items name.now)) }
    {
        match self.place(name) {
            None => 0,
            Some(place) => match &self.entries[place].extensible {
                None => 0,
                Some(extensible) => extensible.len(),
            },
        }
    }
}

// The text of an extensible cord, where there is one, which stays.
fn cord_of(alloc: Global, extensible: &mut Option<ExtCord>) -> Result<Cord, AllocError>
    ensures made { IfOk result (IsExtended (cells_in extensible.old)) }
    ensures same { cells_in extensible.new ≡ cells_in extensible.old }
{
    match extensible {
        None => Ok(Cord::empty()),
        Some(extensible) => extensible.to_cord(alloc).map_err(|_| AllocError),
    }
}
