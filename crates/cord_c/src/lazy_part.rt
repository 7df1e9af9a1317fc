// What lies in files, whose bytes are read by the caller.
ghost use Rattle.std.specs.Prelude.{◌≡◌, ◌⊎◌, ◌+◌, ◌<◌, ◌≤◌, length, take, drop};
ghost use Rattle.cord_io.specs.Table.{Table, Lengths, length_at};
ghost use Rattle.cord_core.specs.Cord.{text_len, bytes_of, CordFits, CordFitsIn};
ghost use Rattle.cord_core.specs.Equations.{IsSourceRange};
ghost use Rattle.cord_c.specs.Codes.{MayBeTooLong};
ghost use Rattle.cord_c.specs.Lazy.{cord_of};
ghost use denote.RawPtr.{Testable};
ghost use Rattle.core.specs.Ptr.{as_mut_ptr};

use crate::LazyHandle;
use crate::code::{IN_FILE, NULL_POINTER, OK, TOO_LONG};
use crate::pointer::{either_missing, missing};
use cord::MAX_LEN;
use cord_core::Cord;
use cord_io::SourceId;
use cord_pos::{Position, Span};
use std::alloc::Global;

/// The first `len` bytes of the file that the caller calls by this number.
#[unsafe(no_mangle)]
pub extern "C" fn zc_lazy_of_file(alloc: Global, file: u32, len: u64, out: &mut LazyHandle) -> i32
    requires places { Testable (as_mut_ptr out) }
    ensures text { result ≡ OK → IsSourceRange file 0 len (cord_of out.new) }
    ensures kept { (result ≡ OK) ⊎ (cord_of out.new ≡ cord_of out.old) }
    ensures too_long { result ≡ TOO_LONG → MAX_LEN < len }
    ensures within_limit { result ≡ OK → len ≤ MAX_LEN }
    ensures code { MayBeTooLong result }
{
    if missing(out) {
        return NULL_POINTER;
    }
    if len > MAX_LEN {
        return TOO_LONG;
    }
    out.hold_within(alloc, Cord::from_fn(alloc, SourceId(file), 0, len))
}

/// The part of `x` at `start`, at most as long as `bytes`: writes its length to `got`, and its bytes to `bytes`, or,
/// with `IN_FILE`, which file has them from which place on. At or past the end the length is 0.
#[unsafe(no_mangle)]
pub extern "C" fn zc_lazy_part(
    x: &mut LazyHandle,
    start: u64,
    bytes: &mut [u8],
    got: &mut usize,
    file: &mut u32,
    place: &mut u64,
) -> i32
    requires places { Testable (as_mut_ptr x) × Testable (as_mut_ptr got) × Testable (as_mut_ptr file)
        × Testable (as_mut_ptr place) }
    ensures copied { (t : Table) → CordFits t (cord_of x.old) → result ≡ OK →
        take got.new bytes.new ≡ take got.new (drop start (bytes_of t (cord_of x.old))) }
    ensures in_file { (t : Table) → CordFits t (cord_of x.old) → result ≡ IN_FILE →
        take got.new (drop place.new (t file.new)) ≡ take got.new (drop start (bytes_of t (cord_of x.old))) }
    ensures inside { (lengths : Lengths) → CordFitsIn lengths (cord_of x.old) → result ≡ IN_FILE →
        place.new + got.new ≤ length_at lengths file.new }
    ensures some { start < text_len (cord_of x.old) → 0 < length bytes.old → 0 < got.new }
    ensures room { got.new ≤ length bytes.old }
    ensures rest { drop got.new bytes.new ≡ drop got.new bytes.old }
    ensures unwritten { result ≡ IN_FILE → bytes.new ≡ bytes.old }
    ensures code { (result ≡ OK) ⊎ (result ≡ IN_FILE) }
    ensures x { cord_of x.new ≡ cord_of x.old }
{
    if either_missing(x, got) || either_missing(file, place) {
        return NULL_POINTER;
    }
    let none = Cord::empty();
    let ahead = Position::set(x.cord(&none), start).ahead();
    let mut code = OK;
    *got = 0;
    if let Some(span) = ahead {
        let count = span.len().min(bytes.len() as u64);
        *got = count as usize;
        match span.up_to(count) {
            Span::Bytes(own) => bytes[..count as usize].copy_from_slice(own),
            Span::Run { byte, .. } => bytes[..count as usize].fill(byte),
            Span::Func { id, start, .. } => {
                *file = id.0;
                *place = start;
                code = IN_FILE;
            }
        }
    }
    code
}
