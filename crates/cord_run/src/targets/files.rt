// Cords and lengths of files.
ghost use Rattle.std.specs.Prelude.{◌≡◌, List, IfNone, IfSome, OnErr};
ghost use Rattle.cord_run.specs.inner.{device_in, opened_in, made_view, Asks, Entry, IsFileMade, IsLength, IsMade};
ghost use Rattle.cord_run.specs.inner.{IsUnmade, IsUnmeasured, OfFile, Opened, file_made};

use crate::stops::Stop;
use cord_core::Cord;
use cord_file::Sources;
use cord_io::Files;
use cord_plan::Made;
use cord_script::Path;
use std::alloc::Global;

/// How much of a file is read before it is looked at.
#[derive(Clone, Copy)]
pub(crate) enum Reading {
    /// All of a short file, and nothing of a longer one.
    ByLength,
    /// All.
    Eager,
    /// Nothing.
    Lazy,
}

/// The file that a name is made of, and how much of it is read before it is looked at. None where no file is needed.
#[inline(always)]
pub(crate) fn file_of(made: &Made) -> Option<(&Path, Reading)>
    ensures some { IfSome result (λ file. file_made file.1 file.0.now ≡ made_view made.now) }
    ensures none { IfNone result (IsFileMade (made_view made.now) → ⊥) }
{
    match made {
        Made::OfFile(path) => Some((path, Reading::ByLength)),
        Made::OfEager(path) => Some((path, Reading::Eager)),
        Made::OfLazy(path) => Some((path, Reading::Lazy)),
        Made::Joined(_)
        | Made::Literal(_)
        | Made::OfFunction(_, _)
        | Made::Balanced(_)
        | Made::OfExtensible(_)
        | Made::Printed(_, _, _) => None,
    }
}

/// The file at a path. Refused with `NoFile`, `TooLong`, `ReadFailed` or `NoMemory`.
pub(crate) fn file_cord<F: Files>(
    alloc: Global,
    sources: &mut Sources<F>,
    path: &Path,
    reading: Reading,
) -> Result<Cord, Stop>
    ensures { (old : Opened) (entries : List Entry) → Asks ⟦<F as Files>⟧ (device_in sources.old)
        (device_in sources.new) (opened_in sources.old) (opened_in sources.new)
        (IsMade (F.consistent (device_in sources.new)) old (opened_in sources.new) entries (file_made reading path.now))
        (IsUnmade (F.consistent (device_in sources.new)) old entries (file_made reading path.now)) result }
{
    match reading {
        Reading::ByLength => Ok(sources.from_file(alloc, path.as_str())?),
        Reading::Eager => Ok(sources.eager(alloc, path.as_str())?),
        Reading::Lazy => Ok(sources.lazy(alloc, path.as_str())?),
    }
}

/// The length of the file at a path, which is opened, and not read: after a refusal no file more is open. Refused as
/// `file_cord` is.
pub(crate) fn opened_length<F: Files>(
    alloc: Global,
    sources: &mut Sources<F>,
    path: &Path,
) -> Result<u64, Stop>
    ensures asked { (old : Opened) (entries : List Entry) → Asks ⟦<F as Files>⟧ (device_in sources.old)
        (device_in sources.new) (opened_in sources.old) (opened_in sources.new)
        (IsLength (F.consistent (device_in sources.new)) old entries (OfFile path.now))
        (IsUnmeasured (F.consistent (device_in sources.new)) old entries (OfFile path.now)) result }
    ensures unopened { OnErr result (opened_in sources.new ≡ opened_in sources.old) }
{
    let (_, len) = sources.open(alloc, path.as_str())?;
    Ok(len)
}
