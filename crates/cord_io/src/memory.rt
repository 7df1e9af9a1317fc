// Files in memory.
ghost use Rattle.std.specs.Prelude.{◌≡◌, ◌<◌, ◌≤◌, ℕ, None, length, take, drop, IfSome, IfNone, IsTrue, ◌-◌, min};
ghost use Rattle.std.specs.Prelude.{is_err, IsOk, IfOk, IsSomeAnd, ⊤};
ghost use Rattle.std.specs.Vec.{vec_len};
ghost use Rattle.cord_io.specs.Device.{FileSystem, file_at, bytes_at, count_after};
ghost use Rattle.cord_io.specs.Memory.{file_system_of, paths_differ};
ghost use Rattle.cord_io.specs.inner.Memory.{IsAt, MarksOpen, Rewrites};

mod adding;

use crate::{FileNo, Files, OpenFault, ReadFault};
pub use adding::keeps_what_was_added;

#[derive(Drop)]
struct Entry {
    path: String,
    bytes: Vec<u8>,
    is_open: bool,
}

/// Files in memory: they are consistent with the map that was added, and no other. No call but `add` takes memory, and
/// none fails.
#[derive(Drop)]
pub struct MemFiles {
    entries: Vec<Entry>,
    ghost few: { vec_len entries ≤ 65536 },
    ghost distinct: { IsTrue (paths_differ (file_system_of entries.items)) },
}

// The entry at a path.
fn place_of(entries: &[Entry], path: &str) -> Option<usize>
    ensures found { IfSome result (λ n. (e : _) × IsAt entries.now path.now n e) }
    ensures none { IfNone result (file_at (file_system_of entries.now) path.now ≡ None) }
{
    for (i, entry) in entries.iter().enumerate() {
        if entry.path.as_str() == path {
            return Some(i);
        }
    }
    None
}

// Marks an entry as open, and reports its length.
fn mark(entries: &mut [Entry], place: usize) -> usize
    requires { place < length entries.old }
    ensures { MarksOpen entries.old entries.new place result }
{
    let entry = &mut entries[place];
    entry.is_open = true;
    entry.bytes.len()
}

// Gives an entry new bytes.
fn rewrite(entries: &mut [Entry], place: usize, bytes: Vec<u8>)
    requires { place < length entries.old }
    ensures { Rewrites entries.old entries.new place bytes.items }
{
    let entry = &mut entries[place];
    entry.bytes = bytes;
}

// Copies what fits of the bytes from `start` on.
pub(crate) fn copy_from(bytes: &[u8], start: usize, out: &mut [u8]) -> usize
    requires inside { start < length bytes.now }
    requires room { 0 < length out.old }
    ensures fills { result ≡ min (length out.new) (length bytes.now - start) }
    ensures bytes { take result out.new ≡ take result (drop start bytes.now) }
{
    let rest = &bytes[start..];
    let count = rest.len().min(out.len());
    out[..count].copy_from_slice(&rest[..count]);
    count
}

impl Files for MemFiles {
    ghost use Rattle.cord_io.specs.Memory.{file_system_of, opened_of};

    // The map that was added.
    ghost consistent = { λ s file_system. file_system ≡ file_system_of s.entries.items };

    ghost steady = { ⊤ };

    ghost opened = { λ s. opened_of s.entries.items };

    ghost failures = { λ _. 0 };

    fn failures(&self) -> u64 {
        0
    }

    fn open(&mut self, path: &str) -> Result<(FileNo, u64), OpenFault> {
        match place_of(&self.entries, path) {
            None => Err(OpenFault::NotFound),
            Some(place) => {
                let len = mark(&mut self.entries, place);
                Ok((FileNo(place as u32), len as u64))
            }
        }
    }

    fn read_at(&mut self, no: FileNo, start: u64, out: &mut [u8]) -> Result<usize, ReadFault>
        requires inside { IsSomeAnd (⟦<MemFiles as Files>⟧.opened self.old no.0) (λ reported. start < reported.1) }
        requires room { 0 < length out.old }
        ensures earlier { (file_system : FileSystem) → ⟦<MemFiles as Files>⟧.consistent self.new file_system →
            ⟦<MemFiles as Files>⟧.consistent self.old file_system }
        ensures later { (file_system : FileSystem) → ⟦<MemFiles as Files>⟧.consistent self.old file_system →
            ⟦<MemFiles as Files>⟧.consistent self.new file_system }
        ensures ok { IsOk result }
        ensures count { ⟦<MemFiles as Files>⟧.failures self.new
            ≡ count_after (is_err result) (⟦<MemFiles as Files>⟧.failures self.old) }
        ensures opened { (n : ℕ) → ⟦<MemFiles as Files>⟧.opened self.new n ≡ ⟦<MemFiles as Files>⟧.opened self.old n }
        ensures some { IfOk result (λ k. (0 < k) × (k ≤ length out.new)) }
        ensures bytes { (file_system : FileSystem) → ⟦<MemFiles as Files>⟧.consistent self.new file_system → IfOk result
            (λ k.
            IsSomeAnd (⟦<MemFiles as Files>⟧.opened self.old no.0) (λ reported.
            take k out.new ≡ take k (drop start (bytes_at file_system reported.0)))) }

        // It fills as much of `out` as lies inside the file.
        ensures fills { IfOk result (λ k. IsSomeAnd (⟦<MemFiles as Files>⟧.opened self.old no.0) (λ reported.
            k ≡ min (length out.new) (reported.1 - start))) }
    {
        let bytes = self.entries[no.0 as usize].bytes.as_slice();
        Ok(copy_from(bytes, start as usize, out))
    }
}
