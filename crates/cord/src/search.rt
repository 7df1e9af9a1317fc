// What stands where in a text.
ghost use Rattle.std.specs.Prelude.{◌≡◌, ◌↔◌, ◌+◌, ◌<◌, ◌≤◌, [], ◌∷◌, IfOk, IfSome, IsOk};
ghost use Rattle.std.specs.Prelude.{IsTrue, Some, take, drop, length, slice_get};
ghost use Rattle.cord_core.specs.Texts.{first};
ghost use Rattle.cord_search.specs.LastTexts.{last_text};
ghost use Rattle.cord.specs.Places.{last_before, BeginsWith, EndsWith};

use crate::memory::within_memory;
use crate::{NoSource, Text};
use cord_io::MAX_LEN;
use cord_search::{MOST_BYTES, chr, fetch, find_bytes_in, rchr, rstr, str, str_in};
use std::alloc::{AllocError, Global};

impl Text {
    /// The byte at `place`, none at or past the end.
    pub fn get(&self, place: u64) -> Option<u8>
        ensures { result ≡ slice_get self.now place }
    {
        if place >= self.len() {
            return None;
        }
        let Ok(byte) = fetch(&self.cord, place, &mut NoSource) else {
            unreachable!()
        };
        Some(byte)
    }

    /// The first place from `start` on where the bytes of `pattern` stand. No bytes stand at each place up to the end.
    pub fn find_text(&self, pattern: &Text, start: u64) -> Option<u64>
        ensures first { result ≡ first self.now start pattern.now }
        ensures from { IfSome result (λ place. start ≤ place) }
        ensures inside { IfSome result (λ place. place + length pattern.now ≤ length self.now) }
    {
        let Ok(place) = str(&self.cord, start, &pattern.cord, &mut NoSource) else {
            unreachable!()
        };
        place
    }

    /// As `find_text`, in the first `end` bytes: the first place from `start` on where the bytes of `pattern` stand and
    /// end at `end` or before.
    pub fn find_text_in(&self, pattern: &Text, start: u64, end: u64) -> Option<u64>
        ensures first { result ≡ first (take end self.now) start pattern.now }
        ensures from { IfSome result (λ place. start ≤ place) }
        ensures before { IfSome result (λ place. place + length pattern.now ≤ end) }
        ensures inside { IfSome result (λ place. place + length pattern.now ≤ length self.now) }
    {
        let Ok(place) = str_in(&self.cord, start, end, &pattern.cord, &mut NoSource) else {
            unreachable!()
        };
        place
    }

    /// The last place where the bytes of `pattern` stand and end at `end` or before. No bytes stand last at `end`, or
    /// at the end of the text. It takes a time linear in the pattern and in how far the place lies before `end`.
    pub fn rfind_text(&self, pattern: &Text, end: u64) -> Option<u64>
        ensures last { result ≡ last_text self.now end pattern.now }
        ensures before { IfSome result (λ place. place + length pattern.now ≤ end) }
        ensures inside { IfSome result (λ place. place + length pattern.now ≤ length self.now) }
    {
        let Ok(place) = rstr(&self.cord, end, &pattern.cord, &mut NoSource) else {
            unreachable!()
        };
        place
    }

    /// As `rfind_text`, of some bytes, which are copied: so memory may be refused. A pattern that is longer than the
    /// text isn't.
    pub fn rfind(&self, alloc: Global, pattern: &[u8], end: u64) -> Result<Option<u64>, AllocError>
        ensures last { IfOk result (λ found. found ≡ last_text self.now end pattern.now) }
        ensures before { IfOk result (λ found. IfSome found (λ place. place + length pattern.now ≤ end)) }
        ensures inside { IfOk result (λ found. IfSome found (λ place. place + length pattern.now ≤ length self.now)) }
    {
        if self.len() < pattern.len() as u64 {
            return Ok(None);
        }
        let pattern = within_memory(Text::from_bytes(alloc, pattern))?;
        Ok(self.rfind_text(&pattern, end))
    }

    /// The first place from `start` on where `pattern` stands. No bytes stand at each place up to the end. Only a
    /// pattern of more than `MOST_BYTES`, 16,384, that isn't longer than this text is copied, which takes memory and
    /// may be refused.
    pub fn find(&self, alloc: Global, pattern: &[u8], start: u64) -> Result<Option<u64>, AllocError>
        ensures first { IfOk result (λ found. found ≡ first self.now start pattern.now) }
        ensures from { IfOk result (λ found. IfSome found (λ place. start ≤ place)) }
        ensures inside { IfOk result (λ found. IfSome found (λ place. place + length pattern.now ≤ length self.now)) }
        ensures short { length pattern.now ≤ MOST_BYTES → IsOk result }
    {
        self.find_in(alloc, pattern, start, self.len())
    }

    /// As `find`, in the first `end` bytes: the first place from `start` on where `pattern` stands and ends at `end` or
    /// before.
    pub fn find_in(
        &self,
        alloc: Global,
        pattern: &[u8],
        start: u64,
        end: u64,
    ) -> Result<Option<u64>, AllocError>
        ensures first { IfOk result (λ found. found ≡ first (take end self.now) start pattern.now) }
        ensures from { IfOk result (λ found. IfSome found (λ place. start ≤ place)) }
        ensures before { IfOk result (λ found. IfSome found (λ place. place + length pattern.now ≤ end)) }
        ensures inside { IfOk result (λ found. IfSome found (λ place. place + length pattern.now ≤ length self.now)) }
        ensures short { length pattern.now ≤ MOST_BYTES → IsOk result }
    {
        if pattern.is_empty() {
            return Ok(self.find_text_in(&Text::empty(), start, end));
        }
        if pattern.len() as u64 > self.len().min(end) {
            return Ok(None);
        }
        if MOST_BYTES < pattern.len() {
            let pattern = within_memory(Text::from_bytes(alloc, pattern))?;
            return Ok(self.find_text_in(&pattern, start, end));
        }
        let Ok(place) = find_bytes_in(&self.cord, start, end, pattern, &mut NoSource) else {
            unreachable!()
        };
        Ok(place)
    }

    /// The first place from `start` on that has this byte.
    pub fn find_byte(&self, byte: u8, start: u64) -> Option<u64>
        ensures first { result ≡ first self.now start (byte ∷ []) }
        ensures from { IfSome result (λ place. start ≤ place) }
        ensures inside { IfSome result (λ place. place < length self.now) }
    {
        if start >= self.len() {
            return None;
        }
        let Ok(place) = chr(&self.cord, start, byte, &mut NoSource) else {
            unreachable!()
        };
        place
    }

    /// The last place before `end` that has this byte.
    pub fn rfind_byte(&self, byte: u8, end: u64) -> Option<u64>
        ensures last { result ≡ last_before self.now end byte }
        ensures before { IfSome result (λ place. place < end) }
        ensures inside { IfSome result (λ place. place < length self.now) }
    {
        let end = end.min(self.len());
        if end == 0 {
            return None;
        }
        let Ok(place) = rchr(&self.cord, end - 1, byte, &mut NoSource) else {
            unreachable!()
        };
        place
    }

    /// Whether it begins with these bytes.
    pub fn starts_with(&self, bytes: &[u8]) -> bool
        ensures { IsTrue result ↔ BeginsWith self.now bytes.now }
    {
        self.stands_at(0, bytes)
    }

    /// Whether it ends with these bytes.
    pub fn ends_with(&self, bytes: &[u8]) -> bool
        ensures { IsTrue result ↔ EndsWith self.now bytes.now }
    {
        let count = bytes.len() as u64;
        count <= self.len() && self.stands_at(self.len() - count, bytes)
    }

    // Whether these bytes stand at a place.
    fn stands_at(&self, place: u64, bytes: &[u8]) -> bool
        requires { place ≤ MAX_LEN }
        ensures { IsTrue result ↔ BeginsWith (drop place self.now) bytes.now }
    {
        for offset in 0..bytes.len() {
            if !self.has(place + offset as u64, bytes[offset]) {
                return false;
            }
        }
        true
    }

    // Whether the byte at a place is this one.
    fn has(&self, place: u64, byte: u8) -> bool
        ensures { IsTrue result ↔ (slice_get self.now place ≡ Some byte) }
    {
        match self.get(place) {
            Some(own) => own == byte,
            None => false,
        }
    }
}
