// A sink over any writer, as a standard stream.
ghost use Rattle.std.specs.Prelude.{◌≡◌, ◌<◌, ◌≤◌, ◌++◌, [], length, take, is_err, is_ok, IfOk, OnErr, refl};
ghost use Rattle.std.specs.Io.KnownBytes.{WriteAppends, Keeps};
ghost use Rattle.cord_io.specs.Device.{count_after, failed_calls, finished_after, never_finished};

use crate::failures::SinkFailures;
use crate::writer::Writer;
use crate::{Sink, WriteFault};
use std::io::Write;

/// A sink over a writer: it took the bytes that the writer answered it took, and where the writer reports its contents
/// they grow by the same bytes. A write that takes 0 bytes and one that was interrupted are failures. `finish` flushes
/// the writer.
#[derive(Drop)]
pub struct StdSink<W> {
    writer: Writer<W>,
    failures: SinkFailures,
}

impl<W: Write> StdSink<W> {
    ghost use Rattle.cord_io.specs.Standard.{writer_in, flushes_of};

    /// A sink over a writer.
    pub fn new(writer: W) -> Self
        ensures count { ⟦<StdSink<W> as Sink>⟧.failures result ≡ 0 }
        ensures taken { ⟦<StdSink<W> as Sink>⟧.taken result ≡ [] }
        ensures finished { ⟦<StdSink<W> as Sink>⟧.finished result ≡ never_finished }
        ensures failed { ⟦<StdSink<W> as Sink>⟧.failed_puts result ≡ 0 }
        ensures flushed { flushes_of result ≡ never_finished }
        ensures writer { writer_in result ≡ writer }
    {
        StdSink {
            writer: Writer::new(writer),
            failures: SinkFailures::none(),
        }
    }
}

impl<W: Write> Sink for StdSink<W> {
    ghost use Rattle.cord_io.specs.Standard.{writer_in, flushes_of};

    // What the writer answered that it took, whether or not it reports its bytes.
    ghost taken = { λ s. s.writer.tally.bytes };

    // The flushes of the writer that worked, and the calls that failed.
    ghost finished = { λ s. record { ended = s.writer.tally.ends.ended; failed = s.failures.finishes } };

    ghost failed_puts = { λ s. s.failures.puts };

    ghost failures = { λ s. failed_calls s.failures.puts
        (record { ended = s.writer.tally.ends.ended; failed = s.failures.finishes }) };

    ghost failures_are = { λ s. refl };

    fn failures(&self) -> u64 {
        self.failures.count()
    }

    fn put(&mut self, bytes: &[u8]) -> Result<usize, WriteFault>
        requires { 0 < length bytes.now }
        ensures some { IfOk result (λ k. (0 < k) × (k ≤ length bytes.now)) }
        ensures taken { IfOk result (λ k. ⟦<StdSink<W> as Sink>⟧.taken self.new
            ≡ ⟦<StdSink<W> as Sink>⟧.taken self.old ++ take k bytes.now) }
        ensures refused { OnErr result (⟦<StdSink<W> as Sink>⟧.taken self.new ≡ ⟦<StdSink<W> as Sink>⟧.taken self.old) }
        ensures finished { ⟦<StdSink<W> as Sink>⟧.finished self.new ≡ ⟦<StdSink<W> as Sink>⟧.finished self.old }
        ensures failed { ⟦<StdSink<W> as Sink>⟧.failed_puts self.new
            ≡ count_after (is_err result) (⟦<StdSink<W> as Sink>⟧.failed_puts self.old) }
        ensures count { ⟦<StdSink<W> as Sink>⟧.failures self.new
            ≡ count_after (is_err result) (⟦<StdSink<W> as Sink>⟧.failures self.old) }

        // Where the writer reports its bytes, they grow by those that are reported to be taken.
        ensures written { WriteAppends (W.contents (writer_in self.old)) (W.contents (writer_in self.new)) result
            bytes.now }

        // It flushes nothing.
        ensures flushed { flushes_of self.new ≡ flushes_of self.old }
    {
        match self.writer.offer(bytes) {
            Ok(count) => Ok(count),
            Err(WriteFault) => {
                self.failures.puts.raise();
                Err(WriteFault)
            }
        }
    }

    fn finish(&mut self) -> Result<(), WriteFault>
        ensures taken { ⟦<StdSink<W> as Sink>⟧.taken self.new ≡ ⟦<StdSink<W> as Sink>⟧.taken self.old }
        ensures finished { ⟦<StdSink<W> as Sink>⟧.finished self.new
            ≡ finished_after (is_ok result) (⟦<StdSink<W> as Sink>⟧.finished self.old) }
        ensures failed { ⟦<StdSink<W> as Sink>⟧.failed_puts self.new ≡ ⟦<StdSink<W> as Sink>⟧.failed_puts self.old }
        ensures count { ⟦<StdSink<W> as Sink>⟧.failures self.new
            ≡ count_after (is_err result) (⟦<StdSink<W> as Sink>⟧.failures self.old) }
        ensures written { Keeps (W.contents (writer_in self.old)) (W.contents (writer_in self.new)) }

        // It flushes the writer by one call, and answers what that did.
        ensures flushed { flushes_of self.new ≡ finished_after (is_ok result) (flushes_of self.old) }
    {
        match self.writer.flush() {
            Ok(()) => Ok(()),
            Err(WriteFault) => {
                self.failures.finishes.raise();
                Err(WriteFault)
            }
        }
    }
}
