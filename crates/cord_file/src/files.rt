// Files that were opened.
ghost use Rattle.std.specs.Prelude.{◌≡◌, ◌+◌, ◌<◌, length, IfSome, IfNone, None, Some};
ghost use Rattle.cord_file.specs.FileTable.{id_in};
ghost use Rattle.cord_file.specs.Files.{opened_of};

use cord_io::FileNo;

// An opened file: its path, the number that the device gave it, and its length in bytes.
#[derive(Drop)]
pub(crate) struct OpenFile {
    pub(crate) path: String,
    pub(crate) no: FileNo,
    pub(crate) len: u64,
}

// The place of a path.
pub(crate) fn place_of(files: &[OpenFile], path: &str) -> Option<usize>
    ensures found { IfSome result (λ n. id_in (opened_of files.now) path.now ≡ Some (n + 2)) }
    ensures inside { IfSome result (λ n. n < length files.now) }
    ensures none { IfNone result (id_in (opened_of files.now) path.now ≡ None) }
{
    for (i, file) in files.iter().enumerate() {
        if file.path.as_str() == path {
            return Some(i);
        }
    }
    None
}
