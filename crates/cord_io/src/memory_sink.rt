// A sink in memory.
ghost use Rattle.std.specs.Prelude.{◌≡◌, ◌<◌, ◌+◌, ◌++◌, [], length, take, true, is_err, IsOk, IfOk, OnErr, refl};
ghost use Rattle.cord_io.specs.Device.{count_after, failed_calls, finished_after, never_finished};

use crate::failures::SinkFailures;
use crate::tally::{SinkAnswer, Tally};
use crate::{Sink, WriteFault};
use std::alloc::Global;

/// A sink in memory, which reports its bytes: a `put` takes all that it is offered, or fails where its growth is
/// refused.
#[derive(Drop)]
pub struct MemSink {
    bytes: Vec<u8>,
    tally: Tally,
    failures: SinkFailures,
}

impl MemSink {
    /// A sink that has taken nothing.
    pub fn new(alloc: Global) -> Self
        ensures taken { ⟦<MemSink as Sink>⟧.taken result ≡ [] }
        ensures finished { ⟦<MemSink as Sink>⟧.finished result ≡ never_finished }
        ensures failed { ⟦<MemSink as Sink>⟧.failed_puts result ≡ 0 }
        ensures count { ⟦<MemSink as Sink>⟧.failures result ≡ 0 }
    {
        MemSink {
            bytes: Vec::new(alloc),
            tally: Tally::new(),
            failures: SinkFailures::none(),
        }
    }

    /// The bytes taken.
    pub fn bytes(&self) -> &[u8]
        ensures { ⟦<MemSink as Sink>⟧.taken self.now ≡ result.now }
    {
        &self.bytes
    }
}

impl Sink for MemSink {
    ghost taken = { λ s. s.bytes.items };

    ghost finished = { λ s. record { ended = s.tally.ends.ended; failed = s.failures.finishes } };

    ghost failed_puts = { λ s. s.failures.puts };

    ghost failures = { λ s. failed_calls s.failures.puts
        (record { ended = s.tally.ends.ended; failed = s.failures.finishes }) };

    ghost failures_are = { λ s. refl };

    fn failures(&self) -> u64 {
        self.failures.count()
    }

    fn put(&mut self, bytes: &[u8]) -> Result<usize, WriteFault>
        requires { 0 < length bytes.now }
        ensures whole { IfOk result (λ k. k ≡ length bytes.now) }
        ensures taken { IfOk result (λ k. ⟦<MemSink as Sink>⟧.taken self.new ≡ ⟦<MemSink as Sink>⟧.taken self.old
            ++ take k bytes.now) }
        ensures refused { OnErr result (⟦<MemSink as Sink>⟧.taken self.new ≡ ⟦<MemSink as Sink>⟧.taken self.old) }
        ensures finished { ⟦<MemSink as Sink>⟧.finished self.new ≡ ⟦<MemSink as Sink>⟧.finished self.old }
        ensures failed { ⟦<MemSink as Sink>⟧.failed_puts self.new
            ≡ count_after (is_err result) (⟦<MemSink as Sink>⟧.failed_puts self.old) }
        ensures count { ⟦<MemSink as Sink>⟧.failures self.new
            ≡ count_after (is_err result) (⟦<MemSink as Sink>⟧.failures self.old) }
    {
        if self.bytes.extend_from_slice(bytes).is_err() {
            self.failures.puts.raise();
            return Err(WriteFault);
        }
        Ok(bytes.len())
    }

    fn finish(&mut self) -> Result<(), WriteFault>
        ensures ok { IsOk result }
        ensures taken { ⟦<MemSink as Sink>⟧.taken self.new ≡ ⟦<MemSink as Sink>⟧.taken self.old }
        ensures finished { ⟦<MemSink as Sink>⟧.finished self.new
            ≡ finished_after true (⟦<MemSink as Sink>⟧.finished self.old) }
        ensures failed { ⟦<MemSink as Sink>⟧.failed_puts self.new ≡ ⟦<MemSink as Sink>⟧.failed_puts self.old }
        ensures count { ⟦<MemSink as Sink>⟧.failures self.new ≡ ⟦<MemSink as Sink>⟧.failures self.old }
    {
        self.tally = self.tally.then(&SinkAnswer::Ended);
        Ok(())
    }
}
