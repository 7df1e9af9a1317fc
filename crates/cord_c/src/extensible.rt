//! What a `zc_ext` of C is: a cord, and the bytes after it that are gathered to its next leaf.
ghost use Rattle.std.specs.Prelude.{◌≡◌, ◌+◌, ◌≤◌, length};
ghost use Rattle.cord_io.specs.declared.TheConstants.{MAX_LEN};
ghost use Rattle.cord_c.specs.declared.extensible.TheConstants.{ROOM};

use crate::Handle;

/// The most bytes that are gathered.
pub const ROOM: usize = 4_096;

/// A text that grows at its end. `len` counts all its bytes, and `count` those that are gathered.
#[repr(C)]
#[derive(Drop)]
pub struct Extensible {
    pub(crate) built: Handle,
    pub(crate) len: u64,
    pub(crate) count: usize,
    pub(crate) bytes: [u8; ROOM],
    ghost room: { length bytes ≡ ROOM },
    ghost within: { count ≤ ROOM },
    ghost counted: { len ≡ length built.text + count },
    ghost limit: { len ≤ MAX_LEN },
}
