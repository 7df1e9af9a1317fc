// Files that pass so many calls to the files inside, and then fail each.
ghost use Rattle.std.specs.Prelude.{◌≡◌, ◌-◌, ◌<◌, length, is_err, IsErr, IsSomeAnd};
ghost use Rattle.cord_io.specs.Device.{FileSystem, count_after, open_failed};
ghost use Rattle.cord_io.specs.Passing.{ReportsOpening, ReportsReading};

use crate::failures::Failures;
use crate::{FileNo, Files, OpenFault, ReadFault};

/// Files that pass `k` calls of `open` and `read_at` to the files inside, and then fail each. Until then they are the
/// files inside, whose failures are failures of their own.
#[derive(Drop)]
pub struct FuseFiles<F> {
    inner: F,
    passes: u64,
    failures: Failures,
}

impl<F: Files> FuseFiles<F> {
    ghost use Rattle.cord_io.specs.FusedFiles.{files_inside, passes_left};

    /// Files that pass `k` calls to `inner`.
    pub fn new(inner: F, k: u64) -> Self
        ensures inner { files_inside result ≡ inner }
        ensures consistent { (file_system : FileSystem) → (⟦<FuseFiles<F> as Files>⟧.consistent result file_system →
            F.consistent inner file_system)
            × (F.consistent inner file_system → ⟦<FuseFiles<F> as Files>⟧.consistent result file_system) }
        ensures opened { ⟦<FuseFiles<F> as Files>⟧.opened result ≡ F.opened inner }
        ensures passes { passes_left result ≡ k }
        ensures count { ⟦<FuseFiles<F> as Files>⟧.failures result ≡ 0 }
    {
        FuseFiles {
            inner,
            passes: k,
            failures: Failures::none(),
        }
    }

    /// The files inside: it is consistent with what they are.
    pub fn inner(&self) -> &F
        ensures value { result.now ≡ files_inside self.now }
        ensures consistent { (file_system : FileSystem) → (⟦<FuseFiles<F> as Files>⟧.consistent self.now file_system →
            F.consistent result.now file_system)
            × (F.consistent result.now file_system → ⟦<FuseFiles<F> as Files>⟧.consistent self.now file_system) }
        ensures opened { ⟦<FuseFiles<F> as Files>⟧.opened self.now ≡ F.opened result.now }
    {
        &self.inner
    }
}

impl<F: Files> Files for FuseFiles<F> {
    ghost use Rattle.cord_io.specs.FusedFiles.{files_inside, passes_left};

    ghost consistent = { λ s. F.consistent s.inner };

    ghost steady = { F.steady };

    ghost opened = { λ s. F.opened s.inner };

    ghost failures = { λ s. s.failures };

    fn failures(&self) -> u64 {
        self.failures.count()
    }

    fn open(&mut self, path: &str) -> Result<(FileNo, u64), OpenFault>
        ensures reported { ReportsOpening ⟦<FuseFiles<F> as Files>⟧ self.old self.new path.now result }

        // A call that passes is a call of the files inside, one that doesn't is none.
        ensures left { passes_left self.new ≡ passes_left self.old - 1 }
        ensures passed { 0 < passes_left self.old → F.failures (files_inside self.new)
            ≡ count_after (open_failed result) (F.failures (files_inside self.old)) }
        ensures spent { passes_left self.old ≡ 0 → result ≡ Err OpenFault.Failed }
        ensures kept { passes_left self.old ≡ 0 → files_inside self.new ≡ files_inside self.old }
    {
        if self.passes == 0 {
            self.failures.raise();
            return Err(OpenFault::Failed);
        }
        self.passes -= 1;
        match self.inner.open(path) {
            Ok(opened) => Ok(opened),
            Err(OpenFault::NotFound) => Err(OpenFault::NotFound),
            Err(OpenFault::Failed) => {
                self.failures.raise();
                Err(OpenFault::Failed)
            }
        }
    }

    fn read_at(&mut self, no: FileNo, start: u64, out: &mut [u8]) -> Result<usize, ReadFault>
        requires inside { IsSomeAnd (F.opened (files_inside self.old) no.0) (λ reported. start < reported.1) }
        requires room { 0 < length out.old }
        ensures reported { ReportsReading ⟦<FuseFiles<F> as Files>⟧ self.old self.new no.0 start out.new result }

        // A call that passes is a call of the files inside, one that doesn't is none.
        ensures left { passes_left self.new ≡ passes_left self.old - 1 }
        ensures passed { 0 < passes_left self.old → F.failures (files_inside self.new)
            ≡ count_after (is_err result) (F.failures (files_inside self.old)) }
        ensures spent { passes_left self.old ≡ 0 → IsErr result }
        ensures kept { passes_left self.old ≡ 0 → files_inside self.new ≡ files_inside self.old }
    {
        if self.passes == 0 {
            self.failures.raise();
            return Err(ReadFault);
        }
        self.passes -= 1;
        match self.inner.read_at(no, start, out) {
            Ok(count) => Ok(count),
            Err(ReadFault) => {
                self.failures.raise();
                Err(ReadFault)
            }
        }
    }
}
