// Files that are read by number and place.
ghost use Rattle.std.specs.Prelude.{◌≡◌, ◌<◌, ◌≤◌, ℕ, List, length, take, drop, is_err, IfOk, OnErr, IsErrOf};
ghost use Rattle.std.specs.Prelude.{IsSomeAnd};
ghost use Rattle.std.specs.declared.option.Option.{Option};
ghost use Rattle.cord_io.specs.Device.{FileSystem, file_at, bytes_at, count_after, open_failed, HandsOut};

use crate::{OpenFault, ReadFault};

/// The number of an opened file.
#[derive(Clone, Copy, Debug, PartialEq, Eq)]
pub struct FileNo(pub u32);

/// Files by path. What a call answers is judged by the maps from path to bytes that fit all answers so far.
pub trait Files {
    /// All that the device has answered so far is what the file system holds.
    ghost consistent: { Self → FileSystem → Type 0 };

    /// It has no answer but those of the file systems that are consistent with it, so these stay consistent. Files in
    /// memory are so; of files that change, or of which nothing is known, it isn't claimed.
    ghost steady: { Type 0 } = { ⊥ };

    /// The path and the length reported of each number that was handed out.
    ghost opened: { Self → ℕ → Option (List ℕ × ℕ) };

    /// How often a call has failed: at 2^64 - 1 the count stays.
    ghost failures: { Self → ℕ };

    /// How often a call has failed.
    fn failures(&self) -> u64
        ensures { result ≡ failures self.now };

    /// Opens the file at a path, and answers its number and its length in bytes. A fault is `NotFound`, where there is
    /// no such file, or `Failed`, which reports nothing and raises the count.
    fn open(&mut self, path: &str) -> Result<(FileNo, u64), OpenFault>
        ensures earlier { (file_system : FileSystem) → consistent self.new file_system →
            consistent self.old file_system }
        ensures later { steady → (file_system : FileSystem) → consistent self.old file_system → consistent self.new
            file_system }
        ensures count { failures self.new ≡ count_after (open_failed result) (failures self.old) }
        ensures opened { IfOk result (λ r. HandsOut (opened self.old) (opened self.new) r.0.0 path.now r.1) }
        ensures none_opened { OnErr result ((n : ℕ) → opened self.new n ≡ opened self.old n) }
        ensures found { (file_system : FileSystem) → consistent self.new file_system → IfOk result (λ r.
            IsSomeAnd (file_at file_system path.now) (λ bytes. r.1 ≡ length bytes)) }
        ensures not_found { (file_system : FileSystem) → consistent self.new file_system → IsErrOf result
            OpenFault.NotFound →
            file_at file_system path.now ≡ None };

    /// Reads at least one byte of an opened file into the prefix of `out`, from place `start` on, and answers how many.
    /// What else `out` holds is open, also after a fault, which reports nothing and raises the count.
    fn read_at(&mut self, no: FileNo, start: u64, out: &mut [u8]) -> Result<usize, ReadFault>
        requires inside { IsSomeAnd (opened self.old no.0) (λ reported. start < reported.1) }
        requires room { 0 < length out.old }
        ensures earlier { (file_system : FileSystem) → consistent self.new file_system →
            consistent self.old file_system }
        ensures later { steady → (file_system : FileSystem) → consistent self.old file_system → consistent self.new
            file_system }
        ensures count { failures self.new ≡ count_after (is_err result) (failures self.old) }
        ensures opened { (n : ℕ) → opened self.new n ≡ opened self.old n }
        ensures some { IfOk result (λ k. (0 < k) × (k ≤ length out.new)) }
        ensures bytes { (file_system : FileSystem) → consistent self.new file_system → IfOk result (λ k.
            IsSomeAnd (opened self.old no.0) (λ reported.
            take k out.new ≡ take k (drop start (bytes_at file_system reported.0)))) };
}
