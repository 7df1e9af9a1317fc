// What the machine's files report is what the machine gave.
ghost use Rattle.cord_io.specs.Device.{FileSystem};
ghost use Rattle.cord_io.specs.DiskReported.{reported_by, AgreesWithMachine};
ghost use Rattle.cord_io.specs.Reported.{Agrees};

use crate::DiskFiles;
use std::rt;

/// All that the machine's files report is what the machine answered: each file system with which all its answers agree
/// (the lengths, the bytes, and the paths at which it found no file) agrees with all that was reported.
pub fn reports_what_the_machine_gave<R: rt::Files>(files: &DiskFiles<R>)
    ensures { (file_system : FileSystem) → AgreesWithMachine file_system files.now → Agrees file_system
        (reported_by files.now) }
{
    let _ = files;
}
