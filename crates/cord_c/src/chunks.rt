//! What a `zc_chunks` of C is: a cord that is gone over, and the chunk of it that C looks at.
ghost use Rattle.std.specs.Prelude.{◌≡◌, ◌-◌, ◌≤◌, length, take, drop};
ghost use Rattle.cord_c.specs.Referent.{text_by};
ghost use Rattle.cord_c.specs.Shown.{shown};
ghost use Rattle.cord_c.specs.declared.chunks.TheConstants.{CHUNK};

use crate::{Handle, Loan};

/// The most bytes of a chunk that is copied.
pub const CHUNK: usize = 4_096;

/// A text of `len` bytes, and a chunk of it of `count` bytes, which ends at the place `next`. It is what the loan has,
/// where that is more than nothing, and else lies in `room`. C points `bytes` to it, in c/chunks.c.
#[repr(C)]
#[derive(Drop)]
pub struct Chunks {
    pub(crate) text: Handle,
    pub(crate) len: u64,
    pub(crate) next: u64,
    pub(crate) count: usize,
    bytes: *const u8,
    pub(crate) loan: Loan,
    pub(crate) room: [u8; CHUNK],
    ghost counted: { len ≡ length text.text },
    ghost within: { next ≤ len },
    ghost roomy: { length room ≡ CHUNK },
    ghost filled: { count ≤ length (shown loan room) },
    ghost reached: { count ≤ next },
    ghost lent: { text_by loan.lender.referent ≡ text.text },
    ghost copied: { take count (shown loan room) ≡ take count (drop (next - count) text.text) },
}
