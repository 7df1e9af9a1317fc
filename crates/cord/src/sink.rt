// A sink whose bytes become a text.
ghost use Rattle.std.specs.Prelude.{◌≡◌, ◌<◌, ◌≤◌, ◌++◌, [], length, take, is_err, is_ok, IfOk, OnErr, refl};
ghost use Rattle.cord_io.specs.Device.{count_after, failed_calls, finished_after, never_finished};

use crate::{Text, TextBuilder};
use cord_io::{Sink, WriteFault};
use std::alloc::{AllocError, Global};

/// A sink that keeps what it takes as a text, gathered to leaves of up to 4,096 bytes. A `put` takes all that it is
/// offered; it fails where memory is refused or the text would be longer than `MAX_LEN`.
///
/// ```rust in_memory
/// use cord::{Cord, CordError, Source, Text, TextSink, put};
/// use std::alloc::Global;
///
/// /// The text of a cord, for whose bytes no file is read any more.
/// pub fn in_memory<S: Source>(
///     alloc: Global,
///     cord: &Cord,
///     src: &mut S,
/// ) -> Result<Text, CordError> {
///     let mut sink = TextSink::new(alloc)?;
///     put(cord, src, &mut sink)?;
///     Ok(sink.to_text()?)
/// }
/// ```
#[derive(Drop)]
pub struct TextSink {
    alloc: Global,
    text: TextBuilder,
    ends: u64,
    failed_puts: u64,
    failed_finishes: u64,
}

impl TextSink {
    /// The sink that has taken nothing. Refused only when out of memory.
    pub fn new(alloc: Global) -> Result<TextSink, AllocError>
        ensures taken { IfOk result (λ made. ⟦<TextSink as Sink>⟧.taken made ≡ []) }
        ensures finished { IfOk result (λ made. ⟦<TextSink as Sink>⟧.finished made ≡ never_finished) }
        ensures failed { IfOk result (λ made. ⟦<TextSink as Sink>⟧.failed_puts made ≡ 0) }
        ensures count { IfOk result (λ made. ⟦<TextSink as Sink>⟧.failures made ≡ 0) }
    {
        let text = TextBuilder::new(alloc)?;
        Ok(TextSink {
            alloc,
            text,
            ends: 0,
            failed_puts: 0,
            failed_finishes: 0,
        })
    }

    /// The bytes that it has taken as a text, which shares its tree with the sink. The sink stays, and can take more.
    /// Refused only when out of memory.
    pub fn to_text(&mut self) -> Result<Text, AllocError>
        ensures text { IfOk result (λ t. t ≡ ⟦<TextSink as Sink>⟧.taken self.old) }
        ensures taken { ⟦<TextSink as Sink>⟧.taken self.new ≡ ⟦<TextSink as Sink>⟧.taken self.old }
        ensures finished { ⟦<TextSink as Sink>⟧.finished self.new ≡ ⟦<TextSink as Sink>⟧.finished self.old }
        ensures failed { ⟦<TextSink as Sink>⟧.failed_puts self.new ≡ ⟦<TextSink as Sink>⟧.failed_puts self.old }
        ensures count { ⟦<TextSink as Sink>⟧.failures self.new ≡ ⟦<TextSink as Sink>⟧.failures self.old }
    {
        self.text.to_text(self.alloc)
    }
}

impl Sink for TextSink {
    ghost taken = { λ s. s.text };

    ghost finished = { λ s. record { ended = s.ends; failed = s.failed_finishes } };

    ghost failed_puts = { λ s. s.failed_puts };

    ghost failures = { λ s. failed_calls s.failed_puts (record { ended = s.ends; failed = s.failed_finishes }) };

    ghost failures_are = { λ s. refl };

    fn failures(&self) -> u64 {
        self.failed_puts.saturating_add(self.failed_finishes)
    }

    fn put(&mut self, bytes: &[u8]) -> Result<usize, WriteFault>
        requires { 0 < length bytes.now }
        ensures some { IfOk result (λ k. (0 < k) × (k ≤ length bytes.now)) }
        ensures taken { IfOk result (λ k. ⟦<TextSink as Sink>⟧.taken self.new
            ≡ ⟦<TextSink as Sink>⟧.taken self.old ++ take k bytes.now) }
        ensures refused { OnErr result (⟦<TextSink as Sink>⟧.taken self.new ≡ ⟦<TextSink as Sink>⟧.taken self.old) }
        ensures finished { ⟦<TextSink as Sink>⟧.finished self.new ≡ ⟦<TextSink as Sink>⟧.finished self.old }
        ensures failed { ⟦<TextSink as Sink>⟧.failed_puts self.new
            ≡ count_after (is_err result) (⟦<TextSink as Sink>⟧.failed_puts self.old) }
        ensures count { ⟦<TextSink as Sink>⟧.failures self.new
            ≡ count_after (is_err result) (⟦<TextSink as Sink>⟧.failures self.old) }

        // It takes all that it is offered.
        ensures whole { IfOk result (λ k. k ≡ length bytes.now) }
    {
        if self.text.push_bytes(self.alloc, bytes).is_err() {
            self.failed_puts = self.failed_puts.saturating_add(1);
            return Err(WriteFault);
        }
        Ok(bytes.len())
    }

    fn finish(&mut self) -> Result<(), WriteFault>
        ensures taken { ⟦<TextSink as Sink>⟧.taken self.new ≡ ⟦<TextSink as Sink>⟧.taken self.old }
        ensures finished { ⟦<TextSink as Sink>⟧.finished self.new
            ≡ finished_after (is_ok result) (⟦<TextSink as Sink>⟧.finished self.old) }
        ensures failed { ⟦<TextSink as Sink>⟧.failed_puts self.new ≡ ⟦<TextSink as Sink>⟧.failed_puts self.old }
        ensures count { ⟦<TextSink as Sink>⟧.failures self.new
            ≡ count_after (is_err result) (⟦<TextSink as Sink>⟧.failures self.old) }

        // It can be reported 2^64 - 1 times.
        ensures ends { OnErr result ((⟦<TextSink as Sink>⟧.finished self.old).ended ≡ u64.MAX) }
    {
        if self.ends == u64::MAX {
            self.failed_finishes = self.failed_finishes.saturating_add(1);
            return Err(WriteFault);
        }
        self.ends += 1;
        Ok(())
    }
}
