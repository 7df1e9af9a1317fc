// A writer, and what it answered.
ghost use Rattle.std.specs.Prelude.{◌≡◌, ◌≤◌, ◌<◌, [], length, is_ok, IfOk};
ghost use Rattle.std.specs.Io.KnownBytes.{WriteAppends, Keeps};
ghost use Rattle.cord_io.specs.Device.{finished_after, never_finished};
ghost use Rattle.cord_io.specs.inner.SinkAnswers.{after_offering};

use crate::WriteFault;
use crate::tally::{SinkAnswer, Tally};
use std::io::Write;

// A writer: the bytes that it answered it took, and how often it was flushed, which only proofs read.
#[derive(Drop)]
pub(crate) struct Writer<W> {
    stream: W,
    pub(crate) tally: Tally,
}

impl<W: Write> Writer<W> {
    // A writer that was asked nothing.
    pub(crate) fn new(stream: W) -> Self
        ensures stream { result.stream ≡ stream }
        ensures bytes { result.tally.bytes ≡ [] }
        ensures ends { result.tally.ends ≡ never_finished }
    {
        Writer {
            stream,
            tally: Tally::new(),
        }
    }

    // Offers bytes by one call, of which the writer takes at least one.
    pub(crate) fn offer(&mut self, bytes: &[u8]) -> Result<usize, WriteFault>
        ensures some { IfOk result (λ k. (0 < k) × (k ≤ length bytes.now)) }
        ensures bytes { self.new.tally.bytes ≡ after_offering bytes.now result self.old.tally.bytes }
        ensures ends { self.new.tally.ends ≡ self.old.tally.ends }
        ensures written { WriteAppends (W.contents self.old.stream) (W.contents self.new.stream) result bytes.now }
    {
        match self.stream.write(bytes) {
            Ok(count) if count > 0 => {
                self.tally = self.tally.then(&SinkAnswer::Took(&bytes[..count]));
                Ok(count)
            }
            _ => Err(WriteFault),
        }
    }

    // Flushes by one call.
    pub(crate) fn flush(&mut self) -> Result<(), WriteFault>
        ensures bytes { self.new.tally.bytes ≡ self.old.tally.bytes }
        ensures ends { self.new.tally.ends ≡ finished_after (is_ok result) self.old.tally.ends }
        ensures written { Keeps (W.contents self.old.stream) (W.contents self.new.stream) }
    {
        match self.stream.flush() {
            Ok(()) => {
                self.tally = self.tally.then(&SinkAnswer::Ended);
                Ok(())
            }
            Err(_) => {
                self.tally = self.tally.then(&SinkAnswer::Failed);
                Err(WriteFault)
            }
        }
    }
}
