// A table of sources: two functions, and the files that were opened.
ghost use Rattle.std.specs.Prelude.{◌≡◌, ◌+◌, ◌<◌, ◌≤◌, ℕ, length, take, drop, [], MatchResult, vec_len, is_err, OnOk};
ghost use Rattle.std.specs.Prelude.{IsSomeAnd, IsOk};
ghost use Rattle.cord_io.specs.Device.{FileSystem, count_after};
ghost use Rattle.cord_file.specs.declared.TheConstants.{MAX_FILES};
ghost use Rattle.cord_file.specs.Opening.{OpensNone};
ghost use Rattle.cord_file.specs.Soundness.{IsSound};

use crate::blocks::{Block, Blocks, MAX_BLOCKS};
use crate::files::OpenFile;
use crate::functions::fill;
use crate::slots::Slots;
use cord_io::{CordError, Files, MAX_LEN, ReadFault, Source, SourceId};
use lru::LruCache;
use std::alloc::Global;
use std::num::NonZeroUsize;

/// Sources of bytes by id: 0 is the function `digits` (byte `48 + i mod 10` at place i) and 1 the function `bytes`
/// (`i mod 256`), both `MAX_LEN` long, and from 2 on stand the files that were opened, at most `MAX_FILES` of them.
/// Files are read by blocks of 512 bytes, of which the 32 used last are kept, but `eager` reads past them, and so do
/// the whole blocks of a read of more bytes than all of them hold. No read is refused when out of memory: a block for
/// which none is found isn't kept.
#[derive(Drop)]
pub struct Sources<F: Files> {
    pub(crate) files: F,
    pub(crate) open_files: Vec<OpenFile>,
    pub(crate) cache: Blocks,
    pub(crate) slots: Slots,
    pub(crate) spare: Option<Block>,
    ghost few: { vec_len open_files ≤ MAX_FILES },
    ghost sound: { IsSound (F.consistent files) (F.opened files) open_files.items cache.entries },
}

impl<F: Files> Sources<F> {
    ghost use Rattle.cord_file.specs.Sources.{device_in, opened_in};

    /// The functions alone, over files of which none is open here. Refused with `NoMemory` alone, and then the files
    /// are given back. It has no condition, and the cords that these sources make can be read over them as long as they
    /// live.
    ///
    /// ```rust both_files
    /// use cord_core::Cord;
    /// use cord_file::{FileError, Sources};
    /// use cord_io::MemFiles;
    /// use cord_iter::to_vec;
    /// use std::alloc::Global;
    ///
    /// /// Two files, one after the other. Nothing of them is read before the last line.
    /// pub fn both_files(alloc: Global, files: MemFiles) -> Result<Vec<u8>, FileError> {
    ///     let Ok(mut sources) = Sources::new(alloc, files) else {
    ///         return Err(FileError::NoMemory);
    ///     };
    ///     let first = sources.lazy(alloc, "first.txt")?;
    ///     let second = sources.lazy(alloc, "second.txt")?;
    ///     let both = Cord::cat(alloc, &first, &second)?;
    ///     let bytes = to_vec(alloc, &both, &mut sources)?;
    ///     Ok(bytes)
    /// }
    /// ```
    pub fn new(alloc: Global, files: F) -> Result<Sources<F>, (CordError, F)>
        ensures made { MatchResult result
            (λ sources. (device_in sources ≡ files) × (opened_in sources ≡ []))
            (λ refusal. (refusal.0 ≡ CordError.NoMemory) × (refusal.1 ≡ files)) }
    {
        let most = NonZeroUsize::new(MAX_BLOCKS).unwrap();
        let Ok(cache) = LruCache::new(alloc, most) else {
            return Err((CordError::NoMemory, files));
        };
        let open_files = Vec::new(alloc);
        Ok(Sources {
            files,
            open_files,
            cache,
            slots: Slots::new(),
            spare: None,
        })
    }

    /// The files, given back.
    pub fn close(self) -> F
        ensures { result ≡ device_in self }
    {
        let Sources {
            files,
            open_files: _,
            cache: _,
            slots: _,
            spare: _,
        } = self;
        files
    }
}

impl<F: Files> Source for Sources<F> {
    ghost use Rattle.cord_file.specs.FileTable.{lengths_in, table_in};
    ghost use Rattle.cord_file.specs.Sources.{device_in, opened_in};
    ghost use Rattle.cord_file.specs.Files.{as_long_as_reported};

    ghost lengths = { λ s. lengths_in (opened_in s) };

    ghost consistent = { λ s. F.consistent (device_in s) };

    ghost table = { λ s. table_in (opened_in s) };

    ghost failures = { λ s. F.failures (device_in s) };

    ghost lengths_of_table = { λ s.
        as_long_as_reported (F.consistent (device_in s)) s.open_files.items s.sound.as_long };

    fn failures(&self) -> u64 {
        self.files.failures()
    }

    fn entry_len(&self, id: SourceId) -> Option<u64> {
        match id.0 {
            0 | 1 => Some(MAX_LEN),
            n => match self.open_files.get(n as usize - 2) {
                Some(file) => Some(file.len),
                None => None,
            },
        }
    }

    fn read(&mut self, id: SourceId, start: u64, out: &mut [u8]) -> Result<(), ReadFault>
        requires inside { IsSomeAnd (lengths_in (opened_in self.old) id.0) (λ len. start + length out.old ≤ len) }
        ensures lengths { lengths_in (opened_in self.new) ≡ lengths_in (opened_in self.old) }
        ensures table { table_in (opened_in self.new) ≡ table_in (opened_in self.old) }
        ensures earlier { (file_system : FileSystem) →
            F.consistent (device_in self.new) file_system → F.consistent (device_in self.old) file_system }
        ensures count { F.failures (device_in self.new)
            ≡ count_after (is_err result) (F.failures (device_in self.old)) }
        ensures bytes { (file_system : FileSystem) → F.consistent (device_in self.new) file_system → OnOk result
            (out.new ≡ take (length out.new) (drop start (table_in (opened_in self.old) file_system id.0))) }

        // The sources 0 and 1 never fail.
        ensures functions { id.0 < 2 → IsOk result }

        // A path that is open keeps its source, and the device opens no file.
        ensures opened { opened_in self.new ≡ opened_in self.old }
        ensures none_opened { OpensNone (F.opened (device_in self.old)) (F.opened (device_in self.new)) }
    {
        match id.0 {
            0 | 1 => {
                fill(id, start, out);
                Ok(())
            }
            n => self.read_file(n as usize - 2, start, out),
        }
    }
}
