// Texts that are gone over a chunk at a time, from the front, from the back, and from any place.
ghost use Rattle.std.specs.Prelude.{◌≡◌, ◌⊎◌, ◌++◌, [], length, take, drop};
ghost use Rattle.cord_c.specs.Codes.{MayLackMemory};
ghost use Rattle.cord_c.specs.Chunks.{before_of, chunk_of, left_of};
ghost use denote.RawPtr.{Testable};
ghost use Rattle.core.specs.Ptr.{as_mut_ptr};

use crate::chunks::CHUNK;
use crate::code::{NO_MEMORY, NULL_POINTER, OK};
use crate::pointer::{either_missing, missing};
use crate::referent::Referent;
use crate::{Chunks, Handle, Loan};
use std::alloc::Global;

/// Goes over the bytes of `x` from `start` on from now on. `zc_chunks_next` gives the first chunk.
#[unsafe(no_mangle)]
pub extern "C" fn zc_chunks_set(
    alloc: Global,
    x: &mut Handle,
    start: u64,
    chunks: &mut Chunks,
) -> i32
    requires places { Testable (as_mut_ptr x) × Testable (as_mut_ptr chunks) }
    ensures before { result ≡ OK → before_of chunks.new ≡ take start x.old.text }
    ensures left { result ≡ OK → left_of chunks.new ≡ drop start x.old.text }
    ensures none { result ≡ OK → chunk_of chunks.new ≡ [] }
    ensures before_kept { (result ≡ OK) ⊎ (before_of chunks.new ≡ before_of chunks.old) }
    ensures left_kept { (result ≡ OK) ⊎ (left_of chunks.new ≡ left_of chunks.old) }
    ensures chunk_kept { (result ≡ OK) ⊎ (chunk_of chunks.new ≡ chunk_of chunks.old) }
    ensures code { MayLackMemory result }
    ensures x { x.new.text ≡ x.old.text }
{
    if either_missing(x, chunks) {
        return NULL_POINTER;
    }
    let Ok(text) = x.read(alloc) else {
        return NO_MEMORY;
    };
    let len = text.len();
    let Ok(shared) = text.share(alloc) else {
        return NO_MEMORY;
    };
    let Ok(loan) = Loan::make(alloc, shared) else {
        return NO_MEMORY;
    };
    if chunks.text.keep(alloc, Referent::Text(text)) != OK {
        return NO_MEMORY;
    }
    chunks.loan = loan;
    chunks.len = len;
    chunks.next = start.min(len);
    chunks.count = 0;
    OK
}

/// Goes to the next chunk, and answers how many bytes it has: 0 where no bytes are left.
#[unsafe(no_mangle)]
pub extern "C" fn zc_chunks_next(alloc: Global, chunks: &mut Chunks) -> usize
    requires places { Testable (as_mut_ptr chunks) }
    ensures before { before_of chunks.new ≡ before_of chunks.old ++ chunk_of chunks.old }
    ensures chunk { chunk_of chunks.new ++ left_of chunks.new ≡ left_of chunks.old }
    ensures count { result ≡ length (chunk_of chunks.new) }
    ensures end { result ≡ 0 → left_of chunks.old ≡ [] }
{
    if missing(chunks) {
        return 0;
    }
    chunks.loan.move_to(alloc, chunks.next);
    let mut count = chunks.loan.count;
    if count == 0 {
        count = chunks.text.copy_to(chunks.next, &mut chunks.room);
    }
    chunks.count = count;
    chunks.next += count as u64;
    count
}

/// Goes to the chunk before the one that is looked at, and answers how many bytes it has: 0 where no bytes are before
/// it.
#[unsafe(no_mangle)]
pub extern "C" fn zc_chunks_prev(alloc: Global, chunks: &mut Chunks) -> usize
    requires places { Testable (as_mut_ptr chunks) }
    ensures left { left_of chunks.new ≡ chunk_of chunks.old ++ left_of chunks.old }
    ensures chunk { before_of chunks.new ++ chunk_of chunks.new ≡ before_of chunks.old }
    ensures count { result ≡ length (chunk_of chunks.new) }
    ensures end { result ≡ 0 → before_of chunks.old ≡ [] }
{
    if missing(chunks) {
        return 0;
    }
    let end = chunks.next - chunks.count as u64;
    let start = end.saturating_sub(CHUNK as u64);
    chunks.loan.move_to(alloc, chunks.len);
    chunks.text.copy_to(start, &mut chunks.room);
    chunks.next = end;
    chunks.count = (end - start) as usize;
    chunks.count
}

/// Goes to the place in front of the byte `place`, or to the end where there is no such byte. There is no chunk yet.
#[unsafe(no_mangle)]
pub extern "C" fn zc_chunks_move(chunks: &mut Chunks, place: u64)
    requires places { Testable (as_mut_ptr chunks) }
    ensures before { before_of chunks.new ≡ take place (before_of chunks.old ++ chunk_of chunks.old
        ++ left_of chunks.old) }
    ensures left { left_of chunks.new ≡ drop place (before_of chunks.old ++ chunk_of chunks.old ++ left_of chunks.old) }
    ensures none { chunk_of chunks.new ≡ [] }
{
    if missing(chunks) {
        return;
    }
    chunks.next = place.min(chunks.len);
    chunks.count = 0;
}

/// Frees what `chunks` owns, of which then no bytes are left.
#[unsafe(no_mangle)]
pub extern "C" fn zc_chunks_free(alloc: Global, chunks: &mut Chunks)
    requires places { Testable (as_mut_ptr chunks) }
    ensures before { before_of chunks.new ≡ [] }
    ensures left { left_of chunks.new ≡ [] }
    ensures none { chunk_of chunks.new ≡ [] }
{
    if missing(chunks) {
        return;
    }
    chunks.clear(alloc);
}

impl Chunks {
    // Frees the text, and forgets the chunk.
    fn clear(&mut self, alloc: Global)
        ensures before { before_of self.new ≡ [] }
        ensures left { left_of self.new ≡ [] }
        ensures none { chunk_of self.new ≡ [] }
    {
        self.text = Handle::empty(alloc);
        self.loan = Loan::empty(alloc);
        self.len = 0;
        self.next = 0;
        self.count = 0;
    }
}
