//! One raw allocation and the pointer to it, made of a box.
ghost use Rattle.std.specs.Prelude.{◌≡◌};
ghost use Rattle.std.specs.Box.Ownership.{box_owns};

use std::alloc::Allocator;
use std::marker::Model;

/// Owns one allocation that holds a `T`. The pointer is never null. It can't be dropped: it is made a box again, or its
/// pointer goes into an owner of another kind.
pub struct Raw<T, A: Allocator> {
    pub at: *mut T,
    pub alloc: A,
    pub ghost value: { T },
}

impl<T, A: Allocator> Model for Raw<T, A> {
    ghost also_owns = { λ r. box_owns (A.dealloc_token r.alloc) T.row r.at r.value };
}

impl<T: Drop, A: Allocator> Raw<T, A> {
    /// Takes over the allocation of a box; no byte moves.
    pub fn of(value: Box<T, A>) -> Raw<T, A>
        ensures { result.value ≡ value.value }
    {
        let (at, alloc) = Box::into_raw_with_allocator(value);
        Raw { at, alloc }
    }
    /// Makes the box again.
    pub fn into_box(self) -> Box<T, A>
        ensures { result.value ≡ self.value }
    {
        let Raw { at, alloc } = self;
        unsafe { Box::from_raw(alloc, at) }
    }
}
