//! The program over any devices.
ghost use Rattle.std.specs.Prelude.{◌≡◌, ◌<◌, ◌-◌, ◌^◌, false, true, map, IfOk, IsOkUnless, OnOk, OnErr};
ghost use Rattle.std.specs.String.{string_bytes};
ghost use Rattle.cord_io.specs.Device.{FileSystem};
ghost use Rattle.cord_io.specs.SinkCounts.{sink_counts};
ghost use Rattle.cord_plan.specs.PlanText.{text_of_plan};
ghost use Rattle.cord_plan.specs.Views.{operation_view};
ghost use Rattle.cord_run.specs.Runs.{counts_over};
ghost use Rattle.cord_shell.specs.Drives.{ComesTo, IsHelp, IsPlan, IsRun, IsPlanPrinted, Serves};
ghost use Rattle.cord_shell.specs.Outcomes.{message_of, status_of_outcome};
ghost use Rattle.cord_shell.specs.Reports.{IsCut, IsWritten, Reports};
ghost use Rattle.cord_shell.specs.declared.outcome.Outcome.{Outcome};

use crate::outcome::{Outcome, report, write_text};
use crate::reader::{ReadError, read_whole};
use crate::words::{NoRequest, Request, read_words};
use cord_io::{CordError, Files, Sink, WriteFault};
use cord_plan::{Plan, plan};
use cord_run::{run_text, run_unplanned};
use cord_script::{MAX_SCRIPT, Refusal, RefusalKind, Script, parse};
use std::alloc::Global;

// Runs a script.
fn run_script<F: Files, S: Sink>(
    alloc: Global,
    unplanned: bool,
    script: &[u8],
    files: F,
    out: &mut S,
) -> (Outcome, F)
    requires files_count { F.failures files < 2 ^ 64 - 1 }
    requires out_count { S.failures out.old < 2 ^ 64 - 1 }
    ensures run { IsRun (F.consistent result.1) script.now (S.taken out.old) (S.taken out.new)
        (counts_over ⟦<F as Files>⟧ ⟦<S as Sink>⟧ files result.1 out.old out.new) result.0 }
    ensures earlier { (file_system : FileSystem) → F.consistent result.1 file_system → F.consistent files file_system }
{
    if unplanned {
        let (answer, files) = run_unplanned(alloc, script, files, out);
        (Outcome::of_run(answer), files)
    } else {
        let (answer, files) = run_text(alloc, script, files, out);
        (Outcome::of_run(answer), files)
    }
}

// The plan that is asked for. Refused only with `NoMemory`.
fn plan_of(alloc: Global, unplanned: bool, script: &Script) -> Result<Plan, CordError>
    ensures made { IfOk result (λ p. IsPlan unplanned script.now (map operation_view p)) }
    ensures refused { IsOkUnless result CordError.NoMemory }
{
    if unplanned {
        Plan::trivial(alloc, script)
    } else {
        plan(alloc, script)
    }
}

// Writes the plan's text, and ends it.
fn write_plan<S: Sink>(plan: &Plan, out: &mut S) -> Result<(), WriteFault>
    ensures ok { OnOk result (IsWritten (text_of_plan (map operation_view plan.now)) (S.taken out.old) (S.taken out.new)
        (sink_counts ⟦<S as Sink>⟧ out.old out.new)) }
    ensures err { OnErr result (IsCut (text_of_plan (map operation_view plan.now)) (S.taken out.old) (S.taken out.new)
        (sink_counts ⟦<S as Sink>⟧ out.old out.new)) }
{
    match plan.show(out) {
        Ok(()) => out.finish(),
        Err(_) => Err(WriteFault),
    }
}

// Shows the plan of a script.
fn show_script<S: Sink>(alloc: Global, unplanned: bool, script: &[u8], out: &mut S) -> Outcome
    requires out_count { S.failures out.old < 2 ^ 64 - 1 }
    ensures { IsPlanPrinted unplanned script.now (S.taken out.old) (S.taken out.new)
        (sink_counts ⟦<S as Sink>⟧ out.old out.new) result }
{
    let read = match parse(alloc, script) {
        Ok(read) => read,
        Err(refusal) => return Outcome::Refused(refusal),
    };
    let Ok(plan) = plan_of(alloc, unplanned, &read) else {
        return Outcome::NoMemory;
    };
    match write_plan(&plan, out) {
        Ok(()) => Outcome::PlanPrinted,
        Err(_) => Outcome::PlanUnwritten,
    }
}

// Reads the script of a request, and runs it or shows its plan.
fn serve<F: Files, S: Sink>(
    alloc: Global,
    request: &Request<'_>,
    mut files: F,
    out: &mut S,
) -> (Outcome, F)
    requires files_count { F.failures files < 2 ^ 64 - 1 }
    requires out_count { S.failures out.old < 2 ^ 64 - 1 }
    ensures run { Serves (F.consistent result.1) request.now.script.now request.now.unplanned request.now.show_plan
        (S.taken out.old) (S.taken out.new)
        (counts_over ⟦<F as Files>⟧ ⟦<S as Sink>⟧ files result.1 out.old out.new) result.0 }
    ensures earlier { (file_system : FileSystem) → F.consistent result.1 file_system → F.consistent files file_system }
{
    match read_whole(alloc, &mut files, request.script, MAX_SCRIPT as u64) {
        Err(ReadError::NotFound) => (Outcome::NoScript, files),
        Err(ReadError::TooBig) => {
            let refusal = Refusal {
                line: 0,
                kind: RefusalKind::TooBig,
            };
            (Outcome::Refused(refusal), files)
        }
        Err(ReadError::NoMemory) => (Outcome::NoMemory, files),
        Err(ReadError::Failed) => (Outcome::Unreadable, files),
        Ok(script) => {
            if request.show_plan {
                (show_script(alloc, request.unplanned, &script, out), files)
            } else {
                run_script(alloc, request.unplanned, &script, files, out)
            }
        }
    }
}

// Writes the help.
fn show_help<S: Sink>(text: &str, out: &mut S) -> Outcome
    requires out_count { S.failures out.old < 2 ^ 64 - 1 }
    ensures { IsHelp (S.taken out.old) (S.taken out.new)
        (sink_counts ⟦<S as Sink>⟧ out.old out.new) result }
{
    match write_text(text, out) {
        Ok(()) => Outcome::HelpPrinted,
        Err(_) => Outcome::HelpUnwritten,
    }
}

// Does what the words ask for.
fn answer<F: Files, S: Sink>(alloc: Global, words: &[String], files: F, out: &mut S) -> (Outcome, F)
    requires files_count { F.failures files < 2 ^ 64 - 1 }
    requires out_count { S.failures out.old < 2 ^ 64 - 1 }
    ensures run { ComesTo (F.consistent result.1) (map string_bytes words.now) (S.taken out.old) (S.taken out.new)
        (counts_over ⟦<F as Files>⟧ ⟦<S as Sink>⟧ files result.1 out.old out.new) result.0 }
    ensures earlier { (file_system : FileSystem) → F.consistent result.1 file_system → F.consistent files file_system }
{
    match read_words(alloc, words) {
        Ok(request) => serve(alloc, &request, files, out),
        Err(NoRequest::Help(text)) => (show_help(text.as_str(), out), files),
        Err(NoRequest::Refused) => (Outcome::BadCommandLine, files),
        Err(NoRequest::NoMemory) => (Outcome::NoMemory, files),
    }
}

/// Does what the words after the program's name ask for: `[--unplanned] [--show-plan] SCRIPT`, as clap reads them.
/// It runs the script, or shows its plan, or the help, on `out`.
/// It answers the exit status, reports on `err` what went wrong, and hands back the files.
pub fn drive<F: Files, S: Sink, T: Sink>(
    alloc: Global,
    words: &[String],
    files: F,
    out: &mut S,
    err: &mut T,
) -> (u8, F)
    requires files_count { F.failures files < 2 ^ 64 - 1 }
    requires out_count { S.failures out.old < 2 ^ 64 - 1 }
    ensures drives { (outcome : Outcome)
        × ComesTo (F.consistent result.1) (map string_bytes words.now) (S.taken out.old) (S.taken out.new)
        (counts_over ⟦<F as Files>⟧ ⟦<S as Sink>⟧ files result.1 out.old out.new) outcome
        × (result.0 ≡ status_of_outcome outcome)
        × Reports (T.taken err.old) (T.taken err.new) (sink_counts ⟦<T as Sink>⟧ err.old err.new) (message_of outcome) }
    ensures earlier { (file_system : FileSystem) → F.consistent result.1 file_system → F.consistent files file_system }
{
    let (outcome, files) = answer(alloc, words, files, out);
    report(&outcome, err);
    (outcome.status(), files)
}
