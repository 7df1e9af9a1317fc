// The source of texts over no files.
use cord_io::{ReadFault, Source, SourceId};

/// A table whose sources are all empty: what is read for a cord over no files.
#[derive(Clone, Copy)]
pub struct NoSource;

impl Source for NoSource {
    ghost use Rattle.std.specs.Prelude.{⊤};
    ghost use Rattle.std.proofs.Common.{refl};
    ghost use Rattle.cord.specs.Plain.{no_lengths, no_table};

    ghost lengths = { λ _. no_lengths };

    ghost consistent = { λ _ _. ⊤ };

    ghost table = { λ _ _. no_table };

    ghost failures = { λ _. 0 };

    ghost lengths_of_table = { λ _ _ _ _. refl };

    fn failures(&self) -> u64 {
        0
    }

    fn entry_len(&self, _id: SourceId) -> Option<u64> {
        Some(0)
    }

    fn read(&mut self, _id: SourceId, _start: u64, _out: &mut [u8]) -> Result<(), ReadFault> {
        Ok(())
    }
}
