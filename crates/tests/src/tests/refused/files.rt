//! Files in memory: a file is added whole or not at all.
ghost use Rattle.std.specs.Prelude.{◌≡◌, ◌≤◌, ℕ, None, length};
ghost use Rattle.cord_io.specs.MemoryFileSystem.{file_system_in};

use cord_io::{CordError, Files, MemFiles};
use std::alloc::Global;
use std::process::Abort;

// Paths, and the bytes of the file at each, or none where there is no file.
type FileSystem<'a> = &'a [(&'a str, Option<&'a [u8]>)];

/// Whether the file at a path has these bytes, which are 8 at most; or none where there is no such file.
pub fn holds(files: &mut MemFiles, path: &str, bytes: Option<&[u8]>) -> bool {
    let Ok((no, len)) = files.open(path) else {
        return bytes.is_none();
    };
    let mut out = [0u8; 8];
    if len == 0 {
        return bytes == Some(b"".as_slice());
    }
    match files.read_at(no, 0, &mut out) {
        Ok(count) => count as u64 == len && bytes == Some(&out[..count]),
        Err(_) => false,
    }
}

// Whether these are the files.
fn are(files: &mut MemFiles, file_system: FileSystem) -> bool {
    for (path, bytes) in file_system {
        if !holds(files, path, *bytes) {
            return false;
        }
    }
    true
}

/// These files in memory, which nobody has opened.
pub fn two_files(rt: &impl Abort, alloc: Global, added: [(&str, &[u8]); 2]) -> MemFiles
    ensures unopened { (n : ℕ) → ⟦<MemFiles as Files>⟧.opened result n ≡ None }
    ensures few { length (file_system_in result) ≤ 4 }
{
    let [(first, first_bytes), (second, second_bytes)] = added;
    let mut files = MemFiles::new(alloc);
    again!(rt, files.add(alloc, first, first_bytes));
    again!(rt, files.add(alloc, second, second_bytes));
    files
}

const BEFORE: [(&str, &[u8]); 2] = [("a", b"old"), ("b", b"other")];

const UNCHANGED: FileSystem = &[("a", Some(b"old")), ("b", Some(b"other")), ("c", None)];

// A path where there is no file, and one where there is.
const ADDED: &[(&str, FileSystem)] = &[
    (
        "c",
        &[
            ("a", Some(b"old")),
            ("b", Some(b"other")),
            ("c", Some(b"newer")),
        ],
    ),
    (
        "a",
        &[("a", Some(b"newer")), ("b", Some(b"other")), ("c", None)],
    ),
];

// Adds `newer` at a path; the files are these then, and "a" and "b" as they were after a refusal. Files are added only
// before any is read: so one run looks at what a refusal left, and one makes the call again.
#[test]
fn refused_add(rt: HostRuntime) {
    let alloc = rt.alloc();
    for (path, after) in ADDED {
        let mut files = two_files(&rt, alloc, BEFORE);
        match files.add(alloc, path, b"newer") {
            Ok(()) => assert!(rt; are(&mut files, after)),
            Err(error) => {
                assert!(rt; error == CordError::NoMemory);
                assert!(rt; are(&mut files, UNCHANGED), "a file has changed");
            }
        }
        let mut files = two_files(&rt, alloc, BEFORE);
        again!(&rt, files.add(alloc, path, b"newer"));
        assert!(rt; are(&mut files, after));
    }
}
