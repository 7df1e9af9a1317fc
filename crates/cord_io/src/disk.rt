// The machine's files.
ghost use Rattle.std.specs.Prelude.{◌≡◌, ◌<◌, ◌≤◌, ◌∷◌, ◌++◌, ℕ, [], None, length, take, drop, is_err, IfOk, OnErr};
ghost use Rattle.std.specs.Prelude.{IsErrOf, IsSomeAnd, IfSome, IfNone};
ghost use Rattle.std.specs.String.{string_bytes};
ghost use Rattle.cord_io.specs.Device.{FileSystem, file_at, bytes_at, count_after, open_failed, HandsOut};
ghost use Rattle.cord_io.specs.Given.{IsGiven, IsGiven-prop};
ghost use Rattle.cord_io.specs.Reported.{has_len};
ghost use Rattle.cord_io.specs.inner.Missing.{after_finding};

use crate::failures::Failures;
use crate::machine::Machine;
use crate::opened::OpenedFile;
use crate::trace::{Answer, Trace};
use crate::{FileNo, Files, OpenFault, ReadFault};
use std::alloc::{AllocError, Global};
use std::os::unix::fs::FileExt;
use std::rt;

/// The machine's files. They are consistent with each file system with which all that they reported agrees: a trace,
/// which only proofs read and which costs nothing, holds each answer once and nothing else. Every fault of the machine
/// but a missing path is a failure, which reports nothing: a read of 0 bytes inside the length reported, a call that
/// was interrupted, a directory, and out of memory in `open` too, where it was refused twice. A file that is read on is
/// read ahead, by 4 KiB and then by twice as much each time up to 64 KiB, and one that is read elsewhere by as much as
/// was read in order before, into memory that it does without where none is found: what fails there is met when its
/// bytes are asked for. A read gives at most 128 KiB.
#[derive(Drop)]
pub struct DiskFiles<R: rt::Files> {
    answers: Answers<R, R::File>,
    alloc: Global,
    failures: Failures,
}

// The machine, its files that are open, and all that was reported of them, which is what the machine gave.
#[derive(Drop)]
struct Answers<R, F> {
    machine: Machine<R>,
    opened: Vec<OpenedFile<F>>,
    trace: Trace,
    ghost given: { IsGiven machine.trace.reported opened.items trace.reported } by { IsGiven-prop machine.trace.reported opened.items trace.reported },
}

impl<R, F: Drop> Answers<R, F> {
    // Opens one more file under the next number, and reports its length. There is none where memory was refused.
    fn keep(&mut self, path: &str, file: OpenedFile<F>) -> Option<FileNo>
        requires { file.reader.trace.reported ≡ has_len path.now file.len ∷ [] }
        ensures machine { self.new.machine.trace.reported ≡ self.old.machine.trace.reported }
        ensures number { IfSome result (λ no. no.0 ≡ length self.old.opened.items) }
        ensures opened { IfSome result (λ _. self.new.opened.items ≡ self.old.opened.items ++ file ∷ []) }
        ensures reported { IfSome result (λ _. self.new.trace.reported ≡ has_len path.now file.len
            ∷ self.old.trace.reported) }
        ensures none_opened { IfNone result (self.new.opened.items ≡ self.old.opened.items) }
        ensures none_reported { IfNone result (self.new.trace.reported ≡ self.old.trace.reported) }
    {
        let no = u32::try_from(self.opened.len()).ok()?;
        let len = file.len;
        self.opened.push(file).ok()?;
        self.trace = self.trace.then(&Answer::Len(path, len));
        Some(FileNo(no))
    }
}

impl<R: rt::Files> DiskFiles<R>
where
    R::File: FileExt,
{
    ghost use Rattle.cord_io.specs.DiskReported.{reported_by};

    /// The machine's files, as the runtime opens them, with none opened yet.
    pub fn new(runtime: R, alloc: Global) -> Self
        ensures opened { (n : ℕ) → ⟦<DiskFiles<R> as Files>⟧.opened result n ≡ None }
        ensures reported { reported_by result ≡ [] }
        ensures count { ⟦<DiskFiles<R> as Files>⟧.failures result ≡ 0 }
    {
        DiskFiles {
            answers: Answers {
                machine: Machine::new(runtime),
                opened: Vec::new(alloc),
                trace: Trace::new(),
            },
            alloc,
            failures: Failures::none(),
        }
    }

    // Room for one more file, and its path to keep.
    fn room_for(&mut self, path: &str) -> Result<String, AllocError>
        ensures path { IfOk result (λ p. string_bytes p ≡ path.now) }
        ensures opened { self.new.answers.opened.items ≡ self.old.answers.opened.items }
        ensures missing { self.new.answers.machine.trace.reported ≡ self.old.answers.machine.trace.reported }
        ensures reported { self.new.answers.trace.reported ≡ self.old.answers.trace.reported }
        ensures count { self.new.failures ≡ self.old.failures }
    {
        self.answers.opened.reserve(1)?;
        String::from_str(self.alloc, path)
    }

    // Opens a file. Where memory was refused it is asked for once more, so that a want that passes is no fault.
    fn opened_file(&mut self, path: &str) -> Result<OpenedFile<R::File>, OpenFault>
        ensures path { IfOk result (λ f. string_bytes f.reader.path ≡ path.now) }
        ensures len { IfOk result (λ f. f.reader.trace.reported ≡ has_len path.now f.len ∷ []) }
        ensures opened { self.new.answers.opened.items ≡ self.old.answers.opened.items }
        ensures missing { self.new.answers.machine.trace.reported ≡ after_finding path.now result
            self.old.answers.machine.trace.reported }
        ensures reported { self.new.answers.trace.reported ≡ self.old.answers.trace.reported }
        ensures count { self.new.failures ≡ self.old.failures }
    {
        let room = match self.room_for(path) {
            Err(_) => self.room_for(path),
            room => room,
        };
        let path_kept = room.map_err(|_| OpenFault::Failed)?;
        let file = self.answers.machine.open(path)?;
        OpenedFile::new(self.alloc, file, path_kept).map_err(|_| OpenFault::Failed)
    }
}

impl<R: rt::Files> Files for DiskFiles<R>
where
    R::File: FileExt,
{
    ghost use Rattle.cord_io.specs.Disk.{opened_of};
    ghost use Rattle.cord_io.specs.DiskReported.{reported_by, after_opening, after_reading, AgreesWithMachine};
    ghost use Rattle.cord_io.specs.Reported.{Agrees};

    // The file system holds what each answer reported.
    ghost consistent = { λ s file_system. Agrees file_system s.answers.trace.reported };

    ghost opened = { λ s. opened_of s.answers.opened.items };

    ghost failures = { λ s. s.failures };

    fn failures(&self) -> u64 {
        self.failures.count()
    }

    fn open(&mut self, path: &str) -> Result<(FileNo, u64), OpenFault>
        ensures earlier { (file_system : FileSystem) → Agrees file_system (reported_by self.new) → Agrees file_system
            (reported_by self.old) }
        ensures count { ⟦<DiskFiles<R> as Files>⟧.failures self.new
            ≡ count_after (open_failed result) (⟦<DiskFiles<R> as Files>⟧.failures self.old) }
        ensures opened { IfOk result (λ r. HandsOut (⟦<DiskFiles<R> as Files>⟧.opened self.old)
            (⟦<DiskFiles<R> as Files>⟧.opened self.new) r.0.0 path.now r.1) }
        ensures none_opened { OnErr result ((n : ℕ) →
            ⟦<DiskFiles<R> as Files>⟧.opened self.new n ≡ ⟦<DiskFiles<R> as Files>⟧.opened self.old n) }
        ensures found { (file_system : FileSystem) → Agrees file_system (reported_by self.new) → IfOk result (λ r.
            IsSomeAnd (file_at file_system path.now) (λ bytes. r.1 ≡ length bytes)) }
        ensures not_found { (file_system : FileSystem) → Agrees file_system (reported_by self.new) →
            IsErrOf result OpenFault.NotFound → file_at file_system path.now ≡ None }

        // Each answer is reported once, and nothing else is.
        ensures reported { reported_by self.new ≡ after_opening path.now result (reported_by self.old) }

        // What the machine gave stays. The length is what it answered, and only its own "no such file" is `NotFound`.
        ensures machine_earlier { (file_system : FileSystem) → AgreesWithMachine file_system self.new →
            AgreesWithMachine file_system self.old }
        ensures machine_found { (file_system : FileSystem) → AgreesWithMachine file_system self.new → IfOk result (λ r.
            IsSomeAnd (file_at file_system path.now) (λ bytes. r.1 ≡ length bytes)) }
        ensures machine_not_found { (file_system : FileSystem) → AgreesWithMachine file_system self.new →
            IsErrOf result OpenFault.NotFound → file_at file_system path.now ≡ None }
    {
        match self.opened_file(path) {
            Err(OpenFault::NotFound) => {
                self.answers.trace = self.answers.trace.then(&Answer::Missing(path));
                return Err(OpenFault::NotFound);
            }
            Err(OpenFault::Failed) => {}
            Ok(file) => {
                let len = file.len;
                if let Some(no) = self.answers.keep(path, file) {
                    return Ok((no, len));
                }
            }
        }
        self.failures.raise();
        Err(OpenFault::Failed)
    }

    fn read_at(&mut self, no: FileNo, start: u64, out: &mut [u8]) -> Result<usize, ReadFault>
        requires inside { IsSomeAnd (⟦<DiskFiles<R> as Files>⟧.opened self.old no.0) (λ reported. start < reported.1) }
        requires room { 0 < length out.old }
        ensures earlier { (file_system : FileSystem) → Agrees file_system (reported_by self.new) → Agrees file_system
            (reported_by self.old) }
        ensures count { ⟦<DiskFiles<R> as Files>⟧.failures self.new
            ≡ count_after (is_err result) (⟦<DiskFiles<R> as Files>⟧.failures self.old) }
        ensures opened { (n : ℕ) →
            ⟦<DiskFiles<R> as Files>⟧.opened self.new n ≡ ⟦<DiskFiles<R> as Files>⟧.opened self.old n }
        ensures some { IfOk result (λ k. (0 < k) × (k ≤ length out.new)) }
        ensures bytes { (file_system : FileSystem) → Agrees file_system (reported_by self.new) → IfOk result (λ k.
            IsSomeAnd (⟦<DiskFiles<R> as Files>⟧.opened self.old no.0) (λ reported.
            take k out.new ≡ take k (drop start (bytes_at file_system reported.0)))) }

        // Each answer is reported once, and nothing else is.
        ensures reported { reported_by self.new
            ≡ after_reading (⟦<DiskFiles<R> as Files>⟧.opened self.old no.0) start out.new result
            (reported_by self.old) }

        // The bytes are those that the machine gave of the file, now or ahead.
        ensures machine_earlier { (file_system : FileSystem) → AgreesWithMachine file_system self.new →
            AgreesWithMachine file_system self.old }
        ensures machine_bytes { (file_system : FileSystem) → AgreesWithMachine file_system self.new → IfOk result (λ k.
            IsSomeAnd (⟦<DiskFiles<R> as Files>⟧.opened self.old no.0) (λ reported.
            take k out.new ≡ take k (drop start (bytes_at file_system reported.0)))) }
    {
        let opened = &mut self.answers.opened[no.0 as usize];
        match opened.read(self.alloc, start, out) {
            Ok(count) => {
                let path = opened.reader.path.as_str();
                self.answers.trace = self
                    .answers
                    .trace
                    .then(&Answer::Bytes(path, start, &out[..count]));
                Ok(count)
            }
            Err(_) => {
                self.failures.raise();
                Err(ReadFault)
            }
        }
    }
}
