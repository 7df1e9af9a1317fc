//! The program over the machine's devices.
ghost use Rattle.std.specs.Prelude.{◌≡◌, ℕ, List, Bool, true, false, Some, None, map};
ghost use Rattle.std.specs.String.{string_bytes};
ghost use Rattle.cord_io.specs.Device.{FileSystem, file_at};
ghost use Rattle.cord_io.specs.DiskReported.{reported_by};
ghost use Rattle.cord_io.specs.Reported.{Agrees};
ghost use Rattle.cord_script.specs.Script.{Reads};
ghost use Rattle.cord_syntax.specs.declared.statements.Statement.{Statement};
ghost use Rattle.cord_shell.specs.CommandLine.{AsksFor};
ghost use Rattle.cord_shell.specs.Drove.{Drove};
ghost use Rattle.cord_shell.specs.Headline.{MissesOver, RefusesOver, RunsOver, ShowsOver, answer_of};

use crate::program::drive;
use cord_io::{DiskFiles, Files, Sink, StdSink};
use cord_script::{bytes_are_one_script, read_scripts_have_no_error};
use std::alloc::Global;
use std::io::Write;
use std::os::unix::fs::FileExt;
use std::rt;

/// What came of the program: its exit status, and the machine's devices, which have reported all that they were asked.
#[derive(Drop)]
pub struct Ran<R: rt::Files, O, E> {
    /// The exit status.
    pub status: u8,
    /// The machine's files.
    pub files: DiskFiles<R>,
    /// Standard output.
    pub out: StdSink<O>,
    /// Standard error.
    pub err: StdSink<E>,
}

/// The program over the machine's files and its two streams, by the words after its name:
/// `[--unplanned] [--show-plan] SCRIPT`, as clap reads them. It is judged by what the machine reported: by each file
/// system with which all answers of the machine's files agree, and by the bytes that the streams reported they took.
///
/// `drove`: whatever the words are, and though no file system agrees, the status, the output and the line on standard
/// error are those of one of the things that the words can come to: help, a refused command line, a script that is run,
/// printed, refused, missing or can't be read, or out of memory. It is what `drive` says.
/// `run`: where the bytes at SCRIPT are read as a script, the script is run. Standard output took exactly the bytes
/// that the script puts over the file system, and the status and the line on standard error are those of the script's
/// end. Or it took a prefix of those bytes, and they are those of the cause that came: a failed read, a failed write,
/// or out of memory.
/// `printed`: with `--show-plan` standard output took the text of its plan, or a prefix where it failed, and nothing
/// was run.
/// `refused`: bytes that no script has are refused for their first error, and nothing is written.
/// `missing`: a SCRIPT that isn't in the file system is named as missing, and nothing is written.
pub fn run_on_machine<R: rt::Files, O: Write, E: Write>(
    runtime: R,
    alloc: Global,
    words: &[String],
    stdout: O,
    stderr: E,
) -> Ran<R, O, E>
where
    R::File: FileExt,
    ensures drove { Drove (λ file_system. Agrees file_system (reported_by result.files)) (map string_bytes words.now)
        (answer_of ⟦<DiskFiles<R> as Files>⟧ ⟦<StdSink<O> as Sink>⟧ ⟦<StdSink<E> as Sink>⟧
        result.status result.files result.out result.err) }
    ensures run { (file_system : FileSystem) → Agrees file_system (reported_by result.files) →
        (path b : List ℕ) (unplanned : Bool) (statements : List Statement) →
        AsksFor (map string_bytes words.now) path unplanned false → file_at file_system path ≡ Some b → Reads b
        statements →
        RunsOver b statements file_system
        (answer_of ⟦<DiskFiles<R> as Files>⟧ ⟦<StdSink<O> as Sink>⟧ ⟦<StdSink<E> as Sink>⟧
        result.status result.files result.out result.err) }
    ensures printed { (file_system : FileSystem) → Agrees file_system (reported_by result.files) →
        (path b : List ℕ) (unplanned : Bool) (statements : List Statement) →
        AsksFor (map string_bytes words.now) path unplanned true → file_at file_system path ≡ Some b → Reads b
        statements →
        ShowsOver unplanned b statements
        (answer_of ⟦<DiskFiles<R> as Files>⟧ ⟦<StdSink<O> as Sink>⟧ ⟦<StdSink<E> as Sink>⟧
        result.status result.files result.out result.err) }
    ensures refused { (file_system : FileSystem) → Agrees file_system (reported_by result.files) →
        (path b : List ℕ) (unplanned show_plan : Bool) →
        AsksFor (map string_bytes words.now) path unplanned show_plan → file_at file_system path ≡ Some b →
        ((statements : List Statement) → Reads b statements → ⊥) →
        RefusesOver b
        (answer_of ⟦<DiskFiles<R> as Files>⟧ ⟦<StdSink<O> as Sink>⟧ ⟦<StdSink<E> as Sink>⟧
        result.status result.files result.out result.err) }
    ensures missing { (file_system : FileSystem) → Agrees file_system (reported_by result.files) →
        (path : List ℕ) (unplanned show_plan : Bool) →
        AsksFor (map string_bytes words.now) path unplanned show_plan → file_at file_system path ≡ None →
        MissesOver
        (answer_of ⟦<DiskFiles<R> as Files>⟧ ⟦<StdSink<O> as Sink>⟧ ⟦<StdSink<E> as Sink>⟧
        result.status result.files result.out result.err) }
{
    bytes_are_one_script();
    read_scripts_have_no_error();
    drive_machine(runtime, alloc, words, stdout, stderr)
}

// Makes the machine's devices, and drives the program over them.
fn drive_machine<R: rt::Files, O: Write, E: Write>(
    runtime: R,
    alloc: Global,
    words: &[String],
    stdout: O,
    stderr: E,
) -> Ran<R, O, E>
where
    R::File: FileExt,
    ensures { Drove (λ file_system. Agrees file_system (reported_by result.files)) (map string_bytes words.now)
        (answer_of ⟦<DiskFiles<R> as Files>⟧ ⟦<StdSink<O> as Sink>⟧ ⟦<StdSink<E> as Sink>⟧
        result.status result.files result.out result.err) }
{
    let files = DiskFiles::new(runtime, alloc);
    let mut out = StdSink::new(stdout);
    let mut err = StdSink::new(stderr);
    let (status, files) = drive(alloc, words, files, &mut out, &mut err);
    Ran {
        status,
        files,
        out,
        err,
    }
}
