// Reading ranges of files.
ghost use Rattle.std.specs.Prelude.{◌≡◌, ◌+◌, ◌*◌, ◌%◌, ◌<◌, ◌≤◌, length, take, drop, is_err, slice_get, vec_len};
ghost use Rattle.std.specs.Prelude.{IfErr};
ghost use Rattle.std.specs.Prelude.{IfOk, OnOk, IsSomeAnd};
ghost use Rattle.cord_io.specs.Device.{FileSystem, bytes_at};
ghost use Rattle.cord_file.specs.inner.Blocks.{AreRead, BeginsWithFile, IsBlockIn};
ghost use Rattle.cord_file.specs.Faults.{has_failed};
ghost use Rattle.cord_file.specs.FileCords.{IsReadRefusal};
ghost use Rattle.cord_file.specs.inner.Reading.{IsInsideFile, IsInsideBlock, LeavesDevice, LeavesFiles, Reads};
ghost use Rattle.cord_file.specs.declared.blocks.TheConstants.{BLOCK};

use crate::blocks::{BLOCK, BlockKey, MAX_BLOCKS, copy_kept, keep, read_block, room_for};
use crate::{FileError, Sources};
use cord_io::{FileNo, Files, MAX_LEN, ReadFault};
use std::alloc::{AllocError, Global};

// For how many bytes room is made where a whole file is read: at first, and later at least.
const FIRST_ROOM: usize = 1_048_576;

const LEAST_ROOM: usize = 65_536;

// How many bytes of new room are cleared by one call: so few that they are cleared by plain stores, since the one
// instruction that clears more of them is slow where pages of memory are new.
const CLEARED: usize = 2_048;

// How the blocks of a range are read.
#[derive(Clone, Copy)]
enum Way {
    // They are more than can be kept, so whole ones go past those that are.
    Past,
    // From the one of this number on none is kept yet, so none is looked for.
    NewFrom(u64),
}

// How many of the bytes that are left from a place on are read at once: those of one block, or all whole blocks where
// they go past those that are kept.
fn size_of(way: Way, from: u64, left: usize) -> usize
    requires { 0 < left }
    ensures some { 0 < result }
    ensures inside { result ≤ left }
    ensures part { result ≤ BLOCK → from % BLOCK + result ≤ BLOCK }
{
    let at = (from % BLOCK as u64) as usize;
    match way {
        Way::Past if at == 0 && BLOCK <= left => left - left % BLOCK,
        _ => left.min(BLOCK - at),
    }
}

// Fills `out` with the bytes of an opened file from a place on. The range lies inside the file.
pub(crate) fn read_range<F: Files>(
    files: &mut F,
    no: FileNo,
    start: u64,
    out: &mut [u8],
) -> Result<(), ReadFault>
    requires inside { IsSomeAnd (F.opened files.old no.0) (λ reported. start + length out.old ≤ reported.1) }
    requires limit { start + length out.old ≤ MAX_LEN }
    ensures device { LeavesDevice ⟦<F as Files>⟧ (is_err result) files.old files.new }
    ensures bytes { (file_system : FileSystem) → F.consistent files.new file_system → OnOk result
        (IsSomeAnd (F.opened files.old no.0) (λ reported.
        out.new ≡ take (length out.new) (drop start (bytes_at file_system reported.0)))) }
{
    let mut done = 0;
    while done < out.len() {
        done += files.read_at(no, start + done as u64, &mut out[done..])?;
    }
    Ok(())
}

// Reads at least one byte of an opened file into `out`, after the first `done` bytes of both, and answers how many.
fn read_after<F: Files>(
    files: &mut F,
    no: FileNo,
    done: usize,
    out: &mut [u8],
) -> Result<usize, ReadFault>
    requires room { done < length out.old }
    requires inside { IsSomeAnd (F.opened files.old no.0) (λ reported. done < reported.1) }
    ensures some { IfOk result (λ k. (0 < k) × (done + k ≤ length out.new)) }
    ensures len { length out.new ≡ length out.old }
    ensures device { LeavesDevice ⟦<F as Files>⟧ (is_err result) files.old files.new }
    ensures bytes { (file_system : FileSystem) → F.consistent files.new file_system →
        BeginsWithFile file_system (F.opened files.old no.0) done out.old →
        IfOk result (λ k. BeginsWithFile file_system (F.opened files.old no.0) (done + k) out.new) }
{
    files.read_at(no, done as u64, &mut out[done..])
}

// Makes room in a vector after its first `done` bytes, for `room` more: what was made before is used first.
fn make_room(bytes: &mut Vec<u8>, done: usize, room: usize, len: usize) -> Result<(), AllocError>
    requires done { done ≤ vec_len bytes.old }
    requires some { 0 < room }
    requires inside { done + room ≤ len }
    requires most { vec_len bytes.old ≤ len }
    ensures prefix { take done bytes.new.items ≡ take done bytes.old.items }
    ensures some { OnOk result (done < vec_len bytes.new) }
    ensures most { vec_len bytes.new ≤ len }
{
    if done < bytes.len() {
        return Ok(());
    }
    let end = done + room;
    while bytes.len() < end {
        let more = CLEARED.min(end - bytes.len());
        bytes.resize(bytes.len() + more, 0)?;
    }
    Ok(())
}

// Fills a vector with the bytes of an opened file, by calls that have room for more than the device gave last. So what
// is cleared for a device that gives little at once is still near the processor where the device writes over it.
fn read_all<F: Files>(
    files: &mut F,
    no: FileNo,
    len: usize,
    bytes: &mut Vec<u8>,
) -> Result<(), FileError>
    requires inside { IsSomeAnd (F.opened files.old no.0) (λ reported. len ≤ reported.1) }
    requires empty { vec_len bytes.old ≡ 0 }
    ensures device { LeavesDevice ⟦<F as Files>⟧ (has_failed result) files.old files.new }
    ensures len { OnOk result (vec_len bytes.new ≡ len) }
    ensures bytes { (file_system : FileSystem) → F.consistent files.new file_system →
        OnOk result (BeginsWithFile file_system (F.opened files.old no.0) len bytes.new.items) }
    ensures refused { IfErr result IsReadRefusal }
{
    let mut done = 0;
    let mut room = FIRST_ROOM;
    while done < len {
        make_room(bytes, done, room.min(len - done), len)?;
        let count = read_after(files, no, done, bytes)?;
        done += count;
        room = count.saturating_mul(2).max(LEAST_ROOM);
    }
    Ok(())
}

impl<F: Files> Sources<F> {
    ghost use Rattle.cord_file.specs.Sources.{device_in};

    // The bytes of an opened file, past the kept blocks.
    pub(crate) fn read_file_whole(
        &mut self,
        alloc: Global,
        place: usize,
        len: u64,
    ) -> Result<Vec<u8>, FileError>
        requires file { IsSomeAnd (slice_get self.old.open_files.items place) (λ file. file.len ≡ len) }
        ensures files { LeavesFiles (has_failed result) self.old self.new }
        ensures len { IfOk result (λ bytes. length bytes.items ≡ len) }
        ensures bytes { (file_system : FileSystem) → F.consistent (device_in self.new) file_system →
            IfOk result (λ bytes. AreRead file_system (slice_get self.old.open_files.items place) 0 bytes.items) }
        ensures refused { IfErr result IsReadRefusal }
    {
        let mut bytes = Vec::with_capacity(alloc, len as usize)?;
        let file = &self.open_files[place];
        read_all(&mut self.files, file.no, len as usize, &mut bytes)?;
        Ok(bytes)
    }

    // How a range of a file is read.
    fn way_of(&self, place: usize, start: u64, len: usize) -> Way {
        if len > MAX_BLOCKS * BLOCK {
            return Way::Past;
        }
        let first = start / BLOCK as u64;
        let last = start.saturating_add(len as u64).saturating_sub(1) / BLOCK as u64;
        Way::NewFrom(self.slots.new_from(place, first, last))
    }

    // Fills `out` with an opened file's bytes from a place on.
    pub(crate) fn read_file(
        &mut self,
        place: usize,
        start: u64,
        out: &mut [u8],
    ) -> Result<(), ReadFault>
        requires inside { IsInsideFile (slice_get self.old.open_files.items place) start (length out.old) }
        ensures { Reads place start self.old self.new out.new result }
    {
        let left = BLOCK - (start % BLOCK as u64) as usize;
        if !out.is_empty() && out.len() <= left {
            self.read_part(place, start, out)
        } else {
            self.read_blocks(place, start, out)
        }
    }

    // Fills `out` with an opened file's bytes from a place on, block by block. Where they are more than all kept blocks
    // hold, the whole blocks among them go at once past those that are kept, which stay. It stands apart, so that a
    // read inside one block needs nothing of it.
    #[inline(never)]
    fn read_blocks(&mut self, place: usize, start: u64, out: &mut [u8]) -> Result<(), ReadFault>
        requires inside { IsInsideFile (slice_get self.old.open_files.items place) start (length out.old) }
        ensures { Reads place start self.old self.new out.new result }
    {
        let way = self.way_of(place, start, out.len());
        let mut done = 0;
        while done < out.len() {
            let from = start + done as u64;
            let size = size_of(way, from, out.len() - done);
            self.read_one(place, from, &mut out[done..done + size], way)?;
            done += size;
        }
        Ok(())
    }

    // Fills `out` with an opened file's bytes from a place on, past the kept blocks, by as few calls as the device
    // allows.
    pub(crate) fn read_past_blocks(
        &mut self,
        place: usize,
        start: u64,
        out: &mut [u8],
    ) -> Result<(), ReadFault>
        requires inside { IsInsideFile (slice_get self.old.open_files.items place) start (length out.old) }
        ensures { Reads place start self.old self.new out.new result }
    {
        let file = &self.open_files[place];
        read_range(&mut self.files, file.no, start, out)
    }

    // Fills `out` with bytes of one block of an opened file, or with more that go past the kept blocks.
    fn read_one(
        &mut self,
        place: usize,
        start: u64,
        out: &mut [u8],
        way: Way,
    ) -> Result<(), ReadFault>
        requires inside { IsInsideFile (slice_get self.old.open_files.items place) start (length out.old) }
        requires some { 0 < length out.old }
        requires part { length out.old ≤ BLOCK → start % BLOCK + length out.old ≤ BLOCK }
        ensures { Reads place start self.old self.new out.new result }
    {
        if BLOCK < out.len() {
            return self.read_past_blocks(place, start, out);
        }
        match way {
            Way::Past if out.len() == BLOCK => self.read_past_blocks(place, start, out),
            Way::NewFrom(number) if number <= start / BLOCK as u64 => {
                self.read_new(place, start, out)
            }
            _ => self.read_part(place, start, out),
        }
    }

    // Fills `out` with bytes of one block of an opened file: of the block that is kept, or else of one that is read
    // and then kept.
    fn read_part(&mut self, place: usize, start: u64, out: &mut [u8]) -> Result<(), ReadFault>
        requires { IsInsideBlock (slice_get self.old.open_files.items place) start (length out.old) }
        ensures { Reads place start self.old self.new out.new result }
    {
        let number = start / BLOCK as u64;
        let from = (start % BLOCK as u64) as usize;
        let key = BlockKey { place, number };
        if copy_kept(&mut self.cache, &mut self.slots, key, from, out) {
            return Ok(());
        }
        self.read_new(place, start, out)
    }

    // Fills `out` with bytes of one block of an opened file, which is read and then kept.
    fn read_new(&mut self, place: usize, start: u64, out: &mut [u8]) -> Result<(), ReadFault>
        requires { IsInsideBlock (slice_get self.old.open_files.items place) start (length out.old) }
        ensures { Reads place start self.old self.new out.new result }
    {
        let number = start / BLOCK as u64;
        let from = (start % BLOCK as u64) as usize;
        let Some(mut block) = room_for(&mut self.spare, *self.cache.allocator()) else {
            return self.read_unkept(place, start, out);
        };
        self.read_block(place, number, &mut block)?;
        out.copy_from_slice(&block[from..from + out.len()]);
        let key = BlockKey { place, number };
        self.spare = keep(&mut self.cache, &mut self.slots, key, block);
        Ok(())
    }

    // Fills `out` with bytes of one block of an opened file, which is read and not kept.
    fn read_unkept(&mut self, place: usize, start: u64, out: &mut [u8]) -> Result<(), ReadFault>
        requires { IsInsideBlock (slice_get self.old.open_files.items place) start (length out.old) }
        ensures { Reads place start self.old self.new out.new result }
    {
        let from = (start % BLOCK as u64) as usize;
        let mut block = [0; BLOCK];
        self.read_block(place, start / BLOCK as u64, &mut block)?;
        out.copy_from_slice(&block[from..from + out.len()]);
        Ok(())
    }

    // Reads one block of an opened file into the room for one.
    fn read_block(
        &mut self,
        place: usize,
        number: u64,
        block: &mut [u8; BLOCK],
    ) -> Result<(), ReadFault>
        requires inside { IsSomeAnd (slice_get self.old.open_files.items place) (λ file. number * BLOCK < file.len) }
        ensures files { LeavesFiles (is_err result) self.old self.new }
        ensures block { (file_system : FileSystem) → F.consistent (device_in self.new) file_system →
            OnOk result (IsBlockIn file_system (slice_get self.old.open_files.items place) number block.new) }
    {
        let file = &self.open_files[place];
        read_block(&mut self.files, file.no, file.len, number, block)
    }
}
