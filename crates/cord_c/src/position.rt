//! What a `zc_pos` of C is: a cord, a place in it or none, and a copy of the bytes around that place.
ghost use Rattle.std.specs.Prelude.{◌≡◌, ◌-◌, length, take, drop, min};
ghost use Rattle.cord_c.specs.declared.position.TheConstants.{WINDOW};

use crate::Handle;

/// The most bytes that are copied at once.
pub const WINDOW: usize = 256;

/// A text of `len` bytes, and a copy of `count` of them, those from `start` on. It stands at the byte `at` of the copy,
/// and nowhere where the copy has no such byte.
#[repr(C)]
#[derive(Drop)]
pub struct Position {
    pub(crate) text: Handle,
    pub(crate) len: u64,
    pub(crate) start: u64,
    pub(crate) at: usize,
    pub(crate) count: usize,
    pub(crate) bytes: [u8; WINDOW],
    ghost counted: { len ≡ length text.text },
    ghost room: { length bytes ≡ WINDOW },
    ghost filled: { count ≡ min WINDOW (len - start) },
    ghost copied: { take count bytes ≡ take WINDOW (drop start text.text) },
}
