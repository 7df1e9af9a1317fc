// A file of the machine that is read.
ghost use Rattle.std.specs.Prelude.{◌≡◌, ◌<◌, ◌≤◌, [], length, IfOk};
ghost use Rattle.std.specs.String.{string_bytes};
ghost use Rattle.cord_io.specs.Device.{FileSystem};
ghost use Rattle.cord_io.specs.Reported.{Agrees};
ghost use Rattle.cord_io.specs.ReadAhead.{after_asking, after_measuring};

use crate::trace::{Answer, Trace};
use std::fs::OpenFile;
use std::io::{self, ErrorKind, Seek, SeekFrom};
use std::os::unix::fs::FileExt;

// An opened file of the machine: its path, and all that it gave, which only proofs read.
#[derive(Drop)]
pub(crate) struct Reader<F> {
    file: F,
    pub(crate) path: String,
    pub(crate) trace: Trace,
}

impl<F: Seek + OpenFile> Reader<F> {
    // A file that has given nothing.
    pub(crate) fn new(file: F, path: String) -> Self
        ensures path { result.path ≡ path }
        ensures trace { result.trace.reported ≡ [] }
    {
        Reader {
            file,
            path,
            trace: Trace::new(),
        }
    }

    // Asks the machine for the length of the file, which isn't a directory.
    pub(crate) fn measure(&mut self) -> io::Result<u64>
        ensures path { self.new.path ≡ self.old.path }
        ensures trace { self.new.trace.reported
            ≡ after_measuring (string_bytes self.old.path) result self.old.trace.reported }
    {
        let len = self.end()?;
        self.trace = self.trace.then(&Answer::Len(self.path.as_str(), len));
        Ok(len)
    }

    // The machine's own answer: the place that a seek to the end answers.
    fn end(&mut self) -> io::Result<u64>
        ensures path { self.new.path ≡ self.old.path }
        ensures trace { self.new.trace.reported ≡ self.old.trace.reported }
    {
        if self.file.metadata()?.is_dir() {
            return Err(io::Error::from(ErrorKind::IsADirectory));
        }
        self.file.seek(SeekFrom::End(0))
    }
}

impl<F: FileExt> Reader<F> {
    // Asks the machine for bytes from a place on, of which it gives at least one.
    pub(crate) fn ask(&mut self, start: u64, out: &mut [u8]) -> io::Result<usize>
        ensures some { IfOk result (λ k. (0 < k) × (k ≤ length out.new)) }
        ensures path { self.new.path ≡ self.old.path }
        ensures earlier { (file_system : FileSystem) → Agrees file_system self.new.trace.reported → Agrees file_system
            self.old.trace.reported }

        // Each answer of the machine is given once, and nothing else is.
        ensures trace { self.new.trace.reported
            ≡ after_asking (string_bytes self.old.path) start out.new result self.old.trace.reported }
    {
        let count = self.read_some(start, out)?;
        self.trace = self
            .trace
            .then(&Answer::Bytes(self.path.as_str(), start, &out[..count]));
        Ok(count)
    }

    // Asks the machine for at most so many bytes from a place on, into the prefix of a buffer.
    pub(crate) fn ask_prefix(
        &mut self,
        start: u64,
        wanted: usize,
        out: &mut [u8],
    ) -> io::Result<usize>
        requires room { wanted ≤ length out.old }
        ensures some { IfOk result (λ k. (0 < k) × (k ≤ length out.new)) }
        ensures path { self.new.path ≡ self.old.path }
        ensures earlier { (file_system : FileSystem) → Agrees file_system self.new.trace.reported → Agrees file_system
            self.old.trace.reported }
        ensures trace { self.new.trace.reported
            ≡ after_asking (string_bytes self.old.path) start out.new result self.old.trace.reported }
        ensures len { length out.new ≡ length out.old }
    {
        self.ask(start, &mut out[..wanted])
    }

    // The machine's own answer, by one system call.
    fn read_some(&self, start: u64, out: &mut [u8]) -> io::Result<usize>
        ensures some { IfOk result (λ k. (0 < k) × (k ≤ length out.new)) }
    {
        let count = self.file.read_at(out, start)?;
        if count == 0 {
            return Err(io::Error::from(ErrorKind::UnexpectedEof));
        }
        Ok(count)
    }
}
