// A sink that passes so many calls to the sink inside, and then fails each.
ghost use Rattle.std.specs.Prelude.{◌≡◌, ◌-◌, ◌<◌, ◌≤◌, ◌++◌, length, take, is_err, is_ok, IfOk, IsErr, OnErr, refl};
ghost use Rattle.cord_io.specs.Device.{count_after, failed_calls, finished_after};

use crate::failures::SinkFailures;
use crate::{Sink, WriteFault};

/// A sink that passes `k` calls of `put` and `finish` to the sink inside, offers it at most `most` bytes in each `put`,
/// and then fails each call. Until then it is the sink inside, whose failures are failures of its own.
#[derive(Drop)]
pub struct FuseSink<S> {
    inner: S,
    passes: u64,
    most: u64,
    failures: SinkFailures,
    ghost some: { 1 ≤ most },
}

impl<S: Sink> FuseSink<S> {
    ghost use Rattle.cord_io.specs.FusedSink.{sink_inside, passes_left, most_offered};

    /// A sink that passes `k` calls to `inner`, with at most `most` bytes each.
    pub fn new(inner: S, k: u64, most: u64) -> Self
        requires { 1 ≤ most }
        ensures inner { sink_inside result ≡ inner }
        ensures passes { passes_left result ≡ k }
        ensures most { most_offered result ≡ most }
        ensures taken { ⟦<FuseSink<S> as Sink>⟧.taken result ≡ S.taken inner }
        ensures finished { ⟦<FuseSink<S> as Sink>⟧.finished result
            ≡ (record { ended = (S.finished inner).ended; failed = 0 }) }
        ensures failed { ⟦<FuseSink<S> as Sink>⟧.failed_puts result ≡ 0 }
        ensures count { ⟦<FuseSink<S> as Sink>⟧.failures result ≡ 0 }
    {
        FuseSink {
            inner,
            passes: k,
            most,
            failures: SinkFailures::none(),
        }
    }

    /// The sink inside: it took and finished what that one did.
    pub fn inner(&self) -> &S
        ensures value { result.now ≡ sink_inside self.now }
        ensures taken { ⟦<FuseSink<S> as Sink>⟧.taken self.now ≡ S.taken result.now }
        ensures finished { (⟦<FuseSink<S> as Sink>⟧.finished self.now).ended ≡ (S.finished result.now).ended }
    {
        &self.inner
    }
}

impl<S: Sink> Sink for FuseSink<S> {
    ghost use Rattle.cord_io.specs.FusedSink.{sink_inside, passes_left, most_offered};

    ghost taken = { λ s. S.taken s.inner };

    ghost finished = { λ s. record { ended = (S.finished s.inner).ended; failed = s.failures.finishes } };

    ghost failed_puts = { λ s. s.failures.puts };

    ghost failures = { λ s. failed_calls s.failures.puts
        (record { ended = (S.finished s.inner).ended; failed = s.failures.finishes }) };

    ghost failures_are = { λ s. refl };

    fn failures(&self) -> u64 {
        self.failures.count()
    }

    fn put(&mut self, bytes: &[u8]) -> Result<usize, WriteFault>
        requires { 0 < length bytes.now }
        ensures some { IfOk result (λ k. (0 < k) × (k ≤ length bytes.now)) }
        ensures taken { IfOk result (λ k. S.taken (sink_inside self.new)
            ≡ S.taken (sink_inside self.old) ++ take k bytes.now) }
        ensures refused { OnErr result (S.taken (sink_inside self.new) ≡ S.taken (sink_inside self.old)) }
        ensures finished { ⟦<FuseSink<S> as Sink>⟧.finished self.new ≡ ⟦<FuseSink<S> as Sink>⟧.finished self.old }
        ensures failed { ⟦<FuseSink<S> as Sink>⟧.failed_puts self.new
            ≡ count_after (is_err result) (⟦<FuseSink<S> as Sink>⟧.failed_puts self.old) }
        ensures count { ⟦<FuseSink<S> as Sink>⟧.failures self.new
            ≡ count_after (is_err result) (⟦<FuseSink<S> as Sink>⟧.failures self.old) }

        // A call that passes is a call of the sink inside, one that doesn't is none.
        ensures most { IfOk result (λ k. k ≤ most_offered self.old) }
        ensures most_kept { most_offered self.new ≡ most_offered self.old }
        ensures left { passes_left self.new ≡ passes_left self.old - 1 }
        ensures passed { 0 < passes_left self.old → S.failures (sink_inside self.new)
            ≡ count_after (is_err result) (S.failures (sink_inside self.old)) }
        ensures passed_puts { 0 < passes_left self.old → S.failed_puts (sink_inside self.new)
            ≡ count_after (is_err result) (S.failed_puts (sink_inside self.old)) }
        ensures unfinished { S.finished (sink_inside self.new) ≡ S.finished (sink_inside self.old) }
        ensures spent { passes_left self.old ≡ 0 → IsErr result }
        ensures kept { passes_left self.old ≡ 0 → sink_inside self.new ≡ sink_inside self.old }
    {
        if self.passes == 0 {
            self.failures.puts.raise();
            return Err(WriteFault);
        }
        self.passes -= 1;
        let offered = self.most.min(bytes.len() as u64) as usize;
        match self.inner.put(&bytes[..offered]) {
            Ok(count) => Ok(count),
            Err(WriteFault) => {
                self.failures.puts.raise();
                Err(WriteFault)
            }
        }
    }

    fn finish(&mut self) -> Result<(), WriteFault>
        ensures taken { S.taken (sink_inside self.new) ≡ S.taken (sink_inside self.old) }
        ensures finished { ⟦<FuseSink<S> as Sink>⟧.finished self.new
            ≡ finished_after (is_ok result) (⟦<FuseSink<S> as Sink>⟧.finished self.old) }
        ensures failed { ⟦<FuseSink<S> as Sink>⟧.failed_puts self.new ≡ ⟦<FuseSink<S> as Sink>⟧.failed_puts self.old }
        ensures count { ⟦<FuseSink<S> as Sink>⟧.failures self.new
            ≡ count_after (is_err result) (⟦<FuseSink<S> as Sink>⟧.failures self.old) }

        // A call that passes is a call of the sink inside, one that doesn't is none.
        ensures most_kept { most_offered self.new ≡ most_offered self.old }
        ensures left { passes_left self.new ≡ passes_left self.old - 1 }
        ensures passed { 0 < passes_left self.old → S.failures (sink_inside self.new)
            ≡ count_after (is_err result) (S.failures (sink_inside self.old)) }
        ensures passed_finishes { 0 < passes_left self.old → S.finished (sink_inside self.new)
            ≡ finished_after (is_ok result) (S.finished (sink_inside self.old)) }
        ensures spent { passes_left self.old ≡ 0 → IsErr result }
        ensures kept { passes_left self.old ≡ 0 → sink_inside self.new ≡ sink_inside self.old }
    {
        if self.passes == 0 {
            self.failures.finishes.raise();
            return Err(WriteFault);
        }
        self.passes -= 1;
        match self.inner.finish() {
            Ok(()) => Ok(()),
            Err(WriteFault) => {
                self.failures.finishes.raise();
                Err(WriteFault)
            }
        }
    }
}
