// Opening paths.
ghost use Rattle.std.specs.Prelude.{◌≡◌, ◌+◌, ◌<◌, ℕ, [], ◌∷◌, ◌++◌, IfOk, OnErr, IfErr, None, IsSome, length};
ghost use Rattle.cord_io.specs.Device.{FileSystem, count_after};
ghost use Rattle.cord_file.specs.FileTable.{id_in};
ghost use Rattle.cord_file.specs.Faults.{has_failed};
ghost use Rattle.cord_file.specs.Opening.{Grows, Opens, HoldsFile, IsOpenRefusal, IsRefusalOver};
ghost use Rattle.cord_file.specs.Opening.{OpensNone, OpensOne, IsUnopened};

use crate::files::{OpenFile, place_of};
use crate::{FileError, MAX_FILES, Sources};
use cord_io::{Files, MAX_LEN, SourceId};
use std::alloc::Global;

impl<F: Files> Sources<F> {
    ghost use Rattle.cord_file.specs.Sources.{device_in, opened_in};

    /// Opens the file at a path, and answers its source and its length: a path that is open keeps its source, and
    /// another one becomes the source after all others. Every other source stays. Refused, by the first of these that
    /// applies, with `TooManyFiles` where `MAX_FILES` other paths are open, `NoFile` where no file is there,
    /// `ReadFailed` where the device failed, and `TooLong` where the file is longer than `MAX_LEN`; `NoMemory` may
    /// come in the place of any answer. After a refusal the sources are as before, and the path may be tried again.
    /// The device opens no path that is open, and the file of a new source once. After a refusal it has opened a file
    /// only where that is too long or found no memory.
    pub fn open(&mut self, alloc: Global, path: &str) -> Result<(SourceId, u64), FileError>
        ensures earlier { (file_system : FileSystem) →
            F.consistent (device_in self.new) file_system → F.consistent (device_in self.old) file_system }
        ensures count { F.failures (device_in self.new)
            ≡ count_after (has_failed result) (F.failures (device_in self.old)) }
        ensures grows { Grows (opened_in self.old) (opened_in self.new) }
        ensures opens { IfOk result (λ r. Opens (opened_in self.old) (opened_in self.new) path.now r.0.0 r.1) }
        ensures file { (file_system : FileSystem) → F.consistent (device_in self.new) file_system →
            IfOk result (λ r. HoldsFile file_system (opened_in self.new) path.now r.0.0 r.1) }
        ensures refused { IfErr result (IsOpenRefusal (opened_in self.old) path.now) }
        ensures cause { (file_system : FileSystem) → F.consistent (device_in self.new) file_system →
            IfErr result (IsRefusalOver file_system path.now) }
        ensures unopened { OnErr result (opened_in self.new ≡ opened_in self.old) }
        ensures again { IsSome (id_in (opened_in self.old) path.now) →
            OpensNone (F.opened (device_in self.old)) (F.opened (device_in self.new)) }
        ensures once { (len : ℕ) → opened_in self.new ≡ opened_in self.old ++ (path.now, len) ∷ [] →
            OpensOne (F.opened (device_in self.old)) (F.opened (device_in self.new)) path.now len }
        ensures none_opened { IfErr result
            (IsUnopened (F.opened (device_in self.old)) (F.opened (device_in self.new))) }
    {
        match place_of(&self.open_files, path) {
            Some(place) => Ok((SourceId(place as u32 + 2), self.open_files[place].len)),
            None => self.add(alloc, path),
        }
    }

    // Opens the file at a path that isn't open.
    fn add(&mut self, alloc: Global, path: &str) -> Result<(SourceId, u64), FileError>
        requires { id_in (opened_in self.old) path.now ≡ None }
        ensures earlier { (file_system : FileSystem) →
            F.consistent (device_in self.new) file_system → F.consistent (device_in self.old) file_system }
        ensures count { F.failures (device_in self.new)
            ≡ count_after (has_failed result) (F.failures (device_in self.old)) }
        ensures opens { IfOk result (λ r. Opens (opened_in self.old) (opened_in self.new) path.now r.0.0 r.1) }
        ensures file { (file_system : FileSystem) → F.consistent (device_in self.new) file_system →
            IfOk result (λ r. HoldsFile file_system (opened_in self.new) path.now r.0.0 r.1) }
        ensures refused { IfErr result (IsOpenRefusal (opened_in self.old) path.now) }
        ensures cause { (file_system : FileSystem) → F.consistent (device_in self.new) file_system →
            IfErr result (IsRefusalOver file_system path.now) }
        ensures unopened { OnErr result (opened_in self.new ≡ opened_in self.old) }
        ensures once { IfOk result (λ r.
            OpensOne (F.opened (device_in self.old)) (F.opened (device_in self.new)) path.now r.1) }
        ensures none_opened { IfErr result
            (IsUnopened (F.opened (device_in self.old)) (F.opened (device_in self.new))) }
    {
        if self.open_files.len() >= MAX_FILES {
            return Err(FileError::TooManyFiles);
        }
        let kept = String::from_str(alloc, path)?;
        let (no, len) = self.files.open(path)?;
        if len > MAX_LEN {
            return Err(FileError::TooLong);
        }
        let id = SourceId(self.open_files.len() as u32 + 2);
        let file = OpenFile {
            path: kept,
            no,
            len,
        };
        self.open_files.push(file)?;
        Ok((id, len))
    }
}
