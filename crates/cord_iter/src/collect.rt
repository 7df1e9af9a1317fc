// The text of a cord in a vector.
ghost use Rattle.std.specs.Prelude.{◌≡◌, ◌<◌, length, is_err, IfOk, refl};
ghost use Rattle.cord_io.specs.Device.{FileSystem, failed_calls};
ghost use Rattle.cord_io.specs.Frames.{LeavesSource};
ghost use Rattle.cord_core.specs.Cord.{text_len, bytes_of, CordFitsIn};
ghost use Rattle.cord_iter.specs.Output.{CountsReads};

use crate::put;
use cord_core::Cord;
use cord_io::{CordError, Sink, Source, WriteFault};
use std::alloc::Global;

/// The text of a cord over a source, in a vector of that length. Refused with `ReadFailed` where a read failed, and
/// with `NoMemory` where the vector was refused memory. The text is that over the table of each file system that is
/// consistent with `src` after the call, and as many bytes are there whatever it answers.
///
/// Each function part lies inside a source of `src`: so it is with every cord over no files, with those that `src` made
/// where it is a `Sources`, and with what `cat`, `substr` and the others make of them.
///
/// ```rust head
/// use cord_core::Cord;
/// use cord_io::{CordError, Source};
/// use cord_iter::to_vec;
/// use std::alloc::Global;
///
/// /// The first bytes of a text, at most so many.
/// pub fn head<S: Source>(
///     alloc: Global,
///     text: &Cord,
///     count: u64,
///     src: &mut S,
/// ) -> Result<Vec<u8>, CordError> {
///     let head = text.substr(alloc, 0, count)?;
///     to_vec(alloc, &head, src)
/// }
/// ```
pub fn to_vec<S: Source>(alloc: Global, cord: &Cord, src: &mut S) -> Result<Vec<u8>, CordError>
    requires fits { CordFitsIn (S.lengths src.old) cord.now }
    ensures text { (file_system : FileSystem) → S.consistent src.new file_system →
        IfOk result (λ v. v.items ≡ bytes_of (S.table src.old file_system) cord.now) }
    ensures len { IfOk result (λ v. length v.items ≡ text_len cord.now) }
    ensures reads { CountsReads (S.failures src.old) (S.failures src.new) result }
    ensures source { LeavesSource ⟦<S as Source>⟧ src.old src.new }
{
    let mut sink = Collector {
        bytes: Vec::with_capacity(alloc, cord.len() as usize)?,
        failed_puts: 0,
        failed_finishes: 0,
    };
    put(cord, src, &mut sink).map_err(|error| match error {
        CordError::WriteFailed => CordError::NoMemory,
        other => other,
    })?;
    Ok(sink.bytes)
}

// A sink that collects what it takes in a vector: it fails where the vector is refused memory.
#[derive(Drop)]
struct Collector {
    bytes: Vec<u8>,
    failed_puts: u64,
    failed_finishes: u64,
}

impl Sink for Collector {
    ghost taken = { λ s. s.bytes.items };

    ghost finished = { λ s. record { ended = 0; failed = s.failed_finishes } };

    ghost failed_puts = { λ s. s.failed_puts };

    ghost failures = { λ s. failed_calls s.failed_puts (record { ended = 0; failed = s.failed_finishes }) };

    ghost failures_are = { λ s. refl };

    fn failures(&self) -> u64 {
        self.failed_puts.saturating_add(self.failed_finishes)
    }

    fn put(&mut self, bytes: &[u8]) -> Result<usize, WriteFault> {
        if self.bytes.extend_from_slice(bytes).is_err() {
            self.failed_puts = self.failed_puts.saturating_add(1);
            return Err(WriteFault);
        }
        Ok(bytes.len())
    }

    // It has no end.
    fn finish(&mut self) -> Result<(), WriteFault> {
        self.failed_finishes = self.failed_finishes.saturating_add(1);
        Err(WriteFault)
    }
}
