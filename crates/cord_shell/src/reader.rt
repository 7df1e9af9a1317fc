//! Reads whole files.
ghost use Rattle.std.specs.Prelude.{◌≡◌, ◌<◌, ◌≤◌, ◌-◌, ◌^◌, ℕ, IfOk, IfErr, Some, IsSomeAnd, length};
ghost use Rattle.cord_io.specs.Device.{FileSystem, file_at, bytes_at, count_after};
ghost use Rattle.cord_shell.specs.inner.Files.{HasCause, IsFailedOrMemory, read_failed};

use cord_io::{FileNo, Files, OpenFault};
use std::alloc::Global;

/// Why a script can't be read.
#[derive(Drop)]
pub enum ReadError {
    NotFound,
    TooBig,
    NoMemory,
    Failed,
}

// How many bytes are asked for at once.
const BLOCK: usize = 512;

/// All bytes of a file that is not longer than `most`, as each file system holds them that is consistent with the files
/// then.
pub fn read_whole<F: Files>(
    alloc: Global,
    files: &mut F,
    path: &str,
    most: u64,
) -> Result<Vec<u8>, ReadError>
    ensures earlier { (file_system : FileSystem) → F.consistent files.new file_system → F.consistent files.old
        file_system }
    ensures found { (file_system : FileSystem) → F.consistent files.new file_system →
        IfOk result (λ v. file_at file_system path.now ≡ Some v.items) }
    ensures cause { (file_system : FileSystem) → F.consistent files.new file_system →
        IfErr result (λ e. HasCause (file_at file_system path.now) most e) }
    ensures count { F.failures files.new ≡ count_after (read_failed result) (F.failures files.old) }
{
    match files.open(path) {
        Err(OpenFault::NotFound) => Err(ReadError::NotFound),
        Err(OpenFault::Failed) => Err(ReadError::Failed),
        Ok((no, len)) => {
            if len > most {
                return Err(ReadError::TooBig);
            }
            read_opened(alloc, files, no, len)
        }
    }
}

// All bytes of an opened file.
fn read_opened<F: Files>(
    alloc: Global,
    files: &mut F,
    no: FileNo,
    len: u64,
) -> Result<Vec<u8>, ReadError>
    requires opened { IsSomeAnd (F.opened files.old no.0) (λ reported. reported.1 ≡ len) }
    ensures earlier { (file_system : FileSystem) → F.consistent files.new file_system → F.consistent files.old
        file_system }
    ensures read { (file_system : FileSystem) → F.consistent files.new file_system → IfOk result (λ v.
        IsSomeAnd (F.opened files.old no.0) (λ reported.
        length (bytes_at file_system reported.0) ≡ len → v.items ≡ bytes_at file_system reported.0)) }
    ensures count { F.failures files.new ≡ count_after (read_failed result) (F.failures files.old) }
    ensures why { IfErr result IsFailedOrMemory }
{
    let mut bytes = Vec::new(alloc);
    let mut block = [0u8; BLOCK];
    'reading: while (bytes.len() as u64) < len {
        let done = bytes.len() as u64;
        let room = (len - done).min(BLOCK as u64) as usize;
        match files.read_at(no, done, &mut block[..room]) {
            Err(_) => return Err(ReadError::Failed),
            Ok(count) => {
                if bytes.extend_from_slice(&block[..count]).is_err() {
                    return Err(ReadError::NoMemory);
                }
            }
        }
    }
    Ok(bytes)
}
