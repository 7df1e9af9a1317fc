// Cords over files.
ghost use Rattle.std.specs.Prelude.{◌≡◌, ◌+◌, ◌<◌, ◌≤◌, IfOk, IfErr, IsOkUnless, Some};
ghost use Rattle.cord_io.specs.Device.{FileSystem};
ghost use Rattle.cord_core.specs.Cord.{bytes_of};
ghost use Rattle.cord_file.specs.Faults.{has_failed};
ghost use Rattle.cord_file.specs.FileTable.{lengths_in, table_in};
ghost use Rattle.cord_file.specs.FileCords.{IsLeafOver, IsFuncOver, IsWhole, IsLazy, IsWholeOrLazy};
ghost use Rattle.cord_file.specs.FileCords.{IsReadRefusal, IsWholeRefusal, IsLazyRefusal, IsWholeOrLazyRefusal};
ghost use Rattle.cord_file.specs.Handing.{HandsOver};
ghost use Rattle.cord_file.specs.inner.Reading.{LeavesFiles};

use crate::{FileError, SHORT_FILE, Sources};
use cord_core::Cord;
use cord_io::{Files, SourceId};
use std::alloc::Global;
use std::rc::RcSlice;

impl<F: Files> Sources<F> {
    ghost use Rattle.cord_file.specs.Sources.{device_in, opened_in};

    /// The file at a path as a cord whose bytes are all read now, into one leaf. The path is opened as by `open`.
    /// Refused as `open` is, or after it with `ReadFailed` where the device failed, or `NoMemory`: then the path
    /// stays open.
    pub fn eager(&mut self, alloc: Global, path: &str) -> Result<Cord, FileError>
        ensures files { HandsOver self.old self.new path.now result }
        ensures cord { IfOk result (IsWhole (opened_in self.old) (opened_in self.new) path.now) }
        ensures refused { IfErr result (IsWholeRefusal (opened_in self.old) (opened_in self.new) path.now) }
    {
        let (id, len) = self.open(alloc, path)?;
        self.read_whole(alloc, id, len)
    }

    // An opened file as one leaf, for which its bytes are read where they stay.
    fn read_whole(&mut self, alloc: Global, id: SourceId, len: u64) -> Result<Cord, FileError>
        requires file { 2 ≤ id.0 }
        requires len { lengths_in (opened_in self.old) id.0 ≡ Some len }
        ensures files { LeavesFiles (has_failed result) self.old self.new }
        ensures cord { IfOk result (IsLeafOver len) }
        ensures text { (file_system : FileSystem) → F.consistent (device_in self.new) file_system →
            IfOk result (λ cord.
            bytes_of (table_in (opened_in self.old) file_system) cord
            ≡ table_in (opened_in self.old) file_system id.0) }
        ensures refused { IfErr result IsReadRefusal }
    {
        let bytes = self.read_file_whole(alloc, id.0 as usize - 2, len)?;
        let shared = RcSlice::from_vec(bytes)?;
        Ok(Cord::from_shared(alloc, shared)?)
    }

    /// The file at a path as a cord of which no byte is read now, one function part over its source. The path is
    /// opened as by `open`. Refused as `open` is, or after it with `NoMemory`: then the path stays open.
    pub fn lazy(&mut self, alloc: Global, path: &str) -> Result<Cord, FileError>
        ensures files { HandsOver self.old self.new path.now result }
        ensures cord { IfOk result (IsLazy (opened_in self.old) (opened_in self.new) path.now) }
        ensures refused { IfErr result (IsLazyRefusal (opened_in self.old) (opened_in self.new) path.now) }
    {
        let (id, len) = self.open(alloc, path)?;
        self.function_over(alloc, id, len)
    }

    // An opened file as one function part.
    fn function_over(&self, alloc: Global, id: SourceId, len: u64) -> Result<Cord, FileError>
        requires len { lengths_in (opened_in self.now) id.0 ≡ Some len }
        ensures cord { IfOk result (IsFuncOver (opened_in self.now) id.0 len) }
        ensures text { (file_system : FileSystem) → F.consistent (device_in self.now) file_system →
            IfOk result (λ cord.
            bytes_of (table_in (opened_in self.now) file_system) cord
            ≡ table_in (opened_in self.now) file_system id.0) }
        ensures refused { IsOkUnless result FileError.NoMemory }
    {
        Ok(Cord::from_fn(alloc, id, 0, len)?)
    }

    /// The file at a path as a cord: `eager` where it is short, of at most `SHORT_FILE` bytes, else `lazy`. Refused
    /// as that one is.
    pub fn from_file(&mut self, alloc: Global, path: &str) -> Result<Cord, FileError>
        ensures files { HandsOver self.old self.new path.now result }
        ensures cord { IfOk result (IsWholeOrLazy (opened_in self.old) (opened_in self.new) path.now) }
        ensures refused { IfErr result (IsWholeOrLazyRefusal (opened_in self.old) (opened_in self.new) path.now) }
    {
        let (id, len) = self.open(alloc, path)?;
        if len <= SHORT_FILE {
            self.read_whole(alloc, id, len)
        } else {
            self.function_over(alloc, id, len)
        }
    }
}
