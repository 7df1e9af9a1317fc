// A table of one source, which reads so often and so far.
ghost use Rattle.std.specs.Prelude.{◌≡◌, ◌≤◌, length};

use cord_io::{ReadFault, Source, SourceId};

// A table whose source 2 is these bytes: it reads so often, and then every read fails, as does one that goes past
// `cut`.
#[derive(Drop)]
pub(super) struct ByteSource<'a> {
    pub(super) bytes: &'a [u8],
    pub(super) cut: u64,
    pub(super) reads: u64,
    pub(super) failures: u64,
}

impl<'a> Source for ByteSource<'a> {
    ghost use Rattle.std.specs.Prelude.{Some, None, ⊤, [], length, if◌then◌else◌, nat_eq};
    ghost use Rattle.std.proofs.Common.{arith};
    ghost use Rattle.std.proofs.lemmas.Bool.Decides.{nat_tests};

    ghost lengths = { λ s id. if nat_eq id 2 then Some (length s.bytes.now) else None };

    ghost consistent = { λ _ _. ⊤ };

    ghost table = { λ s _ id. if nat_eq id 2 then s.bytes.now else [] };

    ghost failures = { λ s. s.failures };

    ghost lengths_of_table = { λ s file_system agrees id. Prim.grind (arith, nat_tests) };

    fn failures(&self) -> u64 {
        self.failures
    }

    fn entry_len(&self, id: SourceId) -> Option<u64> {
        if id.0 == 2 {
            Some(self.bytes.len() as u64)
        } else {
            None
        }
    }

    fn read(&mut self, id: SourceId, start: u64, out: &mut [u8]) -> Result<(), ReadFault> {
        if self.reads == 0 || id.0 != 2 || self.cut < start + out.len() as u64 {
            self.failures = self.failures.saturating_add(1);
            return Err(ReadFault);
        }
        self.reads -= 1;
        let start = start as usize;
        out.copy_from_slice(&self.bytes[start..start + out.len()]);
        Ok(())
    }
}

// Six hundred bytes, which can be read so often, and those before a place alone.
pub(super) fn six_hundred(given: (u64, u64)) -> ByteSource<'static>
    ensures { 600 ≤ length result.bytes.now }
{
    let (reads, cut) = given;
    ByteSource {
        bytes: &[120; 600],
        cut,
        reads,
        failures: 0,
    }
}
