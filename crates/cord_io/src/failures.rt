// How often a device failed.
ghost use Rattle.std.specs.Prelude.{◌≡◌, ◌+◌, ◌-◌, ◌^◌, ℕ, min};
ghost use Rattle.cord_io.specs.Device.{raised};

use std::marker::Model;

// A count of failures: it rises by one with each, and stays at its greatest value.
#[derive(Drop)]
pub(crate) struct Failures {
    count: u64,
}

impl Model for Failures {
    ghost Value = { ℕ };

    ghost view = { λ f. f.count };
}

impl Failures {
    // No failure yet.
    pub(crate) fn none() -> Self
        ensures { result ≡ 0 }
    {
        Failures { count: 0 }
    }

    // How many there were.
    pub(crate) fn count(&self) -> u64
        ensures { result ≡ self.now }
    {
        self.count
    }

    // One more.
    pub(crate) fn raise(&mut self)
        ensures { self.new ≡ raised self.old }
    {
        let count = &mut self.count;
        *count = count.saturating_add(1);
    }
}

// The failures of a sink: those of `put`, and those of `finish`.
#[derive(Drop)]
pub(crate) struct SinkFailures {
    pub(crate) puts: Failures,
    pub(crate) finishes: Failures,
}

impl SinkFailures {
    // No failure yet.
    pub(crate) fn none() -> Self
        ensures { (result.puts ≡ 0) × (result.finishes ≡ 0) }
    {
        SinkFailures {
            puts: Failures::none(),
            finishes: Failures::none(),
        }
    }

    // How many there were of both.
    pub(crate) fn count(&self) -> u64
        ensures { result ≡ min (self.now.puts + self.now.finishes) (2 ^ 64 - 1) }
    {
        self.puts.count().saturating_add(self.finishes.count())
    }
}
