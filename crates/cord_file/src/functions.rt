// The sources that are functions.
ghost use Rattle.std.specs.Prelude.{◌≡◌, ◌+◌, ◌<◌, ◌≤◌, ℕ, length, slice_index};
ghost use Rattle.cord_io.specs.inner.Functions.{function_byte};

use cord_io::{MAX_LEN, SourceId};

// The byte at a place of a source.
fn byte_of(id: SourceId, place: u64) -> u8
    ensures { result ≡ function_byte id.0 place }
{
    match id.0 {
        0 => 48 + (place % 10) as u8,
        _ => (place % 256) as u8,
    }
}

// After how many places the bytes of a source come again.
fn period_of(id: SourceId) -> usize
    ensures some { 0 < result }
    ensures again { (k : ℕ) → function_byte id.0 (k + result) ≡ function_byte id.0 k }
{
    match id.0 {
        0 => 10,
        _ => 256,
    }
}

// Fills a slice with a source's bytes from a place on, each one by itself.
fn fill_each(id: SourceId, start: u64, out: &mut [u8])
    requires { start + length out.old ≤ MAX_LEN }
    ensures { (k : ℕ) → k < length out.new → slice_index out.new k ≡ function_byte id.0 (start + k) }
{
    for i in 0..out.len() {
        out[i] = byte_of(id, start + i as u64);
    }
}

// Copies the first `count` bytes to after the first `done`.
fn copy_after(out: &mut [u8], done: usize, count: usize)
    requires few { count ≤ done }
    requires inside { done + count ≤ length out.old }
    ensures prefix { (k : ℕ) → k < done → slice_index out.new k ≡ slice_index out.old k }
    ensures beyond { (k : ℕ) → k < count → slice_index out.new (done + k) ≡ slice_index out.old k }
{
    let (prefix, rest) = out.split_at_mut(done);
    rest[..count].copy_from_slice(&prefix[..count]);
}

// Fills a slice with a source's bytes from a place on: those up to where they come again, and then copies of what is
// filled, each one as long as all before it.
pub(crate) fn fill(id: SourceId, start: u64, out: &mut [u8])
    requires { start + length out.old ≤ MAX_LEN }
    ensures { (k : ℕ) → k < length out.new → slice_index out.new k ≡ function_byte id.0 (start + k) }
{
    let mut done = period_of(id).min(out.len());
    fill_each(id, start, &mut out[..done]);
    while done < out.len() {
        let count = done.min(out.len() - done);
        copy_after(out, done, count);
        done += count;
    }
}
