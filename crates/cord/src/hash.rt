// A hash of a text by its bytes.
ghost use Rattle.std.specs.Prelude.{◌≡◌, replicate};
ghost use Rattle.cord.specs.Chunks.{chunk_bytes};
ghost use Rattle.cord.specs.Hashes.{fnv1a, fnv1a_from, fnv1a_step};

use crate::{Chunk, Text};

// Where FNV-1a of 64 bits begins, and what it multiplies by.
const BASIS: u64 = 14_695_981_039_346_656_037;

const PRIME: u64 = 1_099_511_628_211;

impl Text {
    /// FNV-1a of 64 bits of its bytes: texts with the same bytes have the same hash, whatever their trees. It looks at
    /// each byte, also of a run. It is no safeguard where others choose the texts.
    pub fn fnv1a(&self) -> u64
        ensures { result ≡ fnv1a self.now }
    {
        let mut state = BASIS;
        let mut chunks = self.chunks();
        while let Some(chunk) = chunks.next() {
            state = hash_chunk(state, chunk);
        }
        state
    }
}

// The hash after the bytes of a chunk.
fn hash_chunk(state: u64, chunk: Chunk<'_>) -> u64
    ensures { result ≡ fnv1a_from state (chunk_bytes chunk.entry) }
{
    match chunk {
        Chunk::Bytes(bytes) => hash_bytes(state, bytes),
        Chunk::Run { byte, count } => hash_run(state, byte, count),
    }
}

// After some bytes.
fn hash_bytes(before: u64, bytes: &[u8]) -> u64
    ensures { result ≡ fnv1a_from before bytes.now }
{
    let mut state = before;
    for byte in bytes {
        state = hash_byte(state, *byte);
    }
    state
}

// After one byte so many times.
fn hash_run(before: u64, byte: u8, count: u64) -> u64
    ensures { result ≡ fnv1a_from before (replicate count byte) }
{
    let mut state = before;
    for _done in 0..count {
        state = hash_byte(state, byte);
    }
    state
}

// After one byte.
fn hash_byte(state: u64, byte: u8) -> u64
    ensures { result ≡ fnv1a_step state byte }
{
    (state ^ u64::from(byte)).wrapping_mul(PRIME)
}
