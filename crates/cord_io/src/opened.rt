// A file of the machine that is read ahead.
ghost use Rattle.std.specs.Prelude.{◌≡◌, ◌<◌, ◌≤◌, [], ◌∷◌, length, take, drop, IfOk, IfSome};
ghost use Rattle.std.specs.String.{string_bytes};
ghost use Rattle.cord_io.specs.Device.{FileSystem, bytes_at};
ghost use Rattle.cord_io.specs.Reported.{Agrees, has_len};
ghost use Rattle.cord_io.specs.inner.ReadAhead.{IsAhead};

use crate::memory::copy_from;
use crate::reader::Reader;
use crate::span::Span;
use std::alloc::Global;
use std::fs::OpenFile;
use std::io::{self, Seek};
use std::os::unix::fs::FileExt;

// How many bytes the machine is asked for at once at most, where they are many: so few that the processor still has
// them at hand where they are used next.
const MAX_READ: usize = 131_072;

// A file of the machine that was opened, with its length, and the span of it that is read. The first `count` of `bytes`
// are those that the machine gave of it ahead, from `start` on.
#[derive(Drop)]
pub(crate) struct OpenedFile<F> {
    pub(crate) reader: Reader<F>,
    pub(crate) len: u64,
    bytes: Vec<u8>,
    start: u64,
    count: usize,
    span: Span,
    ghost ahead: { IsAhead reader.trace.reported (string_bytes reader.path) start count bytes.items },
}

impl<F: Seek + OpenFile + Drop> OpenedFile<F> {
    // A file that was opened, whose length the machine gave, and of which nothing is read.
    pub(crate) fn new(alloc: Global, file: F, path: String) -> io::Result<Self>
        ensures path { IfOk result (λ f. f.reader.path ≡ path) }
        ensures trace { IfOk result (λ f. f.reader.trace.reported ≡ has_len (string_bytes path) f.len ∷ []) }
    {
        let mut reader = Reader::new(file, path);
        let len = reader.measure()?;
        Ok(OpenedFile {
            reader,
            len,
            bytes: Vec::new(alloc),
            start: 0,
            count: 0,
            span: Span::new(),
        })
    }
}

impl<F: FileExt> OpenedFile<F> {
    // Reads at least one byte from a place on: of those that were read ahead, or else from the machine.
    pub(crate) fn read(&mut self, alloc: Global, start: u64, out: &mut [u8]) -> io::Result<usize>
        requires room { 0 < length out.old }
        ensures some { IfOk result (λ k. (0 < k) × (k ≤ length out.new)) }
        ensures path { self.new.reader.path ≡ self.old.reader.path }
        ensures len { self.new.len ≡ self.old.len }
        ensures earlier { (file_system : FileSystem) →
            Agrees file_system self.new.reader.trace.reported → Agrees file_system self.old.reader.trace.reported }
        ensures bytes { (file_system : FileSystem) → Agrees file_system self.new.reader.trace.reported → IfOk result
            (λ k.
            take k out.new ≡ take k (drop start (bytes_at file_system (string_bytes self.old.reader.path)))) }
    {
        self.span.turn_to(start);
        if let Some(count) = self.take_ahead(alloc, start, out) {
            self.span.grow(count);
            return Ok(count);
        }
        let wanted = out.len().min(MAX_READ);
        let count = self.reader.ask_prefix(start, wanted, out)?;
        self.span.grow(count);
        Ok(count)
    }

    // Gives bytes that were read ahead, from a place on. Where there are none, and more are worth asking for than are
    // asked for, it reads ahead.
    fn take_ahead(&mut self, alloc: Global, start: u64, out: &mut [u8]) -> Option<usize>
        requires room { 0 < length out.old }
        ensures some { IfSome result (λ k. (0 < k) × (k ≤ length out.new)) }
        ensures path { self.new.reader.path ≡ self.old.reader.path }
        ensures len { self.new.len ≡ self.old.len }
        ensures earlier { (file_system : FileSystem) →
            Agrees file_system self.new.reader.trace.reported → Agrees file_system self.old.reader.trace.reported }
        ensures bytes { (file_system : FileSystem) → Agrees file_system self.new.reader.trace.reported → IfSome result
            (λ k.
            take k out.new ≡ take k (drop start (bytes_at file_system (string_bytes self.old.reader.path)))) }
    {
        if let Some(count) = self.copy_ahead(start, out) {
            return Some(count);
        }
        let wanted = self
            .len
            .saturating_sub(start)
            .min(self.span.wanted() as u64) as usize;
        if wanted <= out.len() {
            return None;
        }
        self.span.ask();
        self.read_ahead(alloc, start, wanted);
        self.copy_ahead(start, out)
    }

    // Copies bytes that were read ahead, from a place on, where there are any.
    fn copy_ahead(&self, start: u64, out: &mut [u8]) -> Option<usize>
        requires room { 0 < length out.old }
        ensures some { IfSome result (λ k. (0 < k) × (k ≤ length out.new)) }
        ensures bytes { (file_system : FileSystem) → Agrees file_system self.now.reader.trace.reported → IfSome result
            (λ k.
            take k out.new ≡ take k (drop start (bytes_at file_system (string_bytes self.now.reader.path)))) }
    {
        let skipped = start.checked_sub(self.start)?;
        if skipped >= self.count as u64 {
            return None;
        }
        Some(copy_from(&self.bytes[..self.count], skipped as usize, out))
    }

    // Reads ahead from a place on, as many bytes as the machine gives of those that are wanted. Where memory is
    // refused, or the machine fails, nothing is read ahead: what fails is met when its bytes are asked for.
    fn read_ahead(&mut self, alloc: Global, start: u64, wanted: usize)
        ensures path { self.new.reader.path ≡ self.old.reader.path }
        ensures len { self.new.len ≡ self.old.len }
        ensures earlier { (file_system : FileSystem) →
            Agrees file_system self.new.reader.trace.reported → Agrees file_system self.old.reader.trace.reported }
    {
        self.count = 0;
        if self.bytes.len() < wanted {
            match vec![in alloc; 0; wanted] {
                Ok(bytes) => self.bytes = bytes,
                Err(_) => return,
            }
        }
        self.start = start;
        if let Ok(count) = self.reader.ask_prefix(start, wanted, &mut self.bytes) {
            self.count = count;
        }
    }
}
