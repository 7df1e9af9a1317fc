// Values that copies share.
ghost use Rattle.std.specs.Prelude.{◌≡◌, IfOk};

use std::alloc::{AllocError, Global};
use std::marker::Model;
use std::rc::Rc;

/// A value on the heap. Copies share it.
#[derive(Clone, Drop)]
pub struct Shared<T> {
    value: Rc<T>,
}

impl<T> Model for Shared<T> {
    ghost Value = { T };

    ghost view = { λ s. s.value.value };
}

impl<T: Drop> Shared<T> {
    /// This value, on the heap.
    pub fn new(alloc: Global, value: T) -> Result<Self, AllocError>
        ensures { IfOk result (λ shared. shared ≡ value) }
    {
        Ok(Shared {
            value: Rc::new(alloc, value)?,
        })
    }

    /// The value.
    #[inline(always)]
    pub fn as_ref(&self) -> &T
        ensures { result.now ≡ self.now }
    {
        self.value.as_ref()
    }
}
