//! Runs plans, and scripts by their plans: steps through the operations, what each of them does, and the end.
mod ends;
mod known_lengths;
mod steps;

ghost use Rattle.std.specs.Prelude.{◌≡◌, ◌≢◌, ◌<◌, ◌-◌, ◌^◌, IfOk, IfErr, OnErr, List, ℕ, map};
ghost use Rattle.cord_file.specs.Sources.{device_in};
ghost use Rattle.cord_io.specs.Device.{FileSystem};
ghost use Rattle.cord_meaning.specs.Ends.{EndsFaithfully, FailsWhere, NamesCause, NamesDevice};
ghost use Rattle.cord_plan.specs.Meaning.{IsPlanOf};
ghost use Rattle.cord_plan.specs.Views.{operation_view};
ghost use Rattle.cord_run.specs.Failing.{FailsNowhereElse, NamesFinish};
ghost use Rattle.cord_run.specs.Runs.{IsPlanBy, NothingCalled, Runs, ReportsRun, Way, counts_over};
ghost use Rattle.cord_script.specs.FirstErrors.{FirstError};
ghost use Rattle.cord_script.specs.Forms.{Grammar};
ghost use Rattle.cord_script.specs.Script.{Reads, ReadsBy};
ghost use Rattle.cord_syntax.specs.declared.statements.Statement.{Statement};
ghost use Rattle.cord_run.specs.inner.{FailsAmong, FaithfulPlan, NoMoreConsistent};

use crate::runner::ends::{close_output, end_of_run};
use crate::runner::steps::run_plan;
use cord_file::Sources;
use cord_io::{CordError, Files, Sink};
use cord_meaning::End;
use cord_plan::{Plan, plan};
use cord_script::{Refusal, RefusalKind, Script, parse};
use std::alloc::Global;

// Runs a plan over sources, and ends the output.
fn run_over<F: Files, S: Sink>(
    alloc: Global,
    plan: &Plan,
    sources: &mut Sources<F>,
    sink: &mut S,
) -> End
    requires files_count { F.failures (device_in sources.old) < 2 ^ 64 - 1 }
    requires sink_count { S.failures sink.old < 2 ^ 64 - 1 }
    ensures earlier { NoMoreConsistent ⟦<F as Files>⟧ (device_in sources.old) (device_in sources.new) }
    ensures faithful { (file_system : FileSystem) → F.consistent (device_in sources.new) file_system →
        FaithfulPlan file_system (map operation_view plan.now) (S.taken sink.old) (S.taken sink.new) result }
    ensures fails { FailsAmong (map operation_view plan.now) result }
    ensures cause { NamesDevice
        (counts_over ⟦<F as Files>⟧ ⟦<S as Sink>⟧ (device_in sources.old) (device_in sources.new) sink.old sink.new)
        result }
    ensures finish { NamesFinish (map operation_view plan.now)
        (counts_over ⟦<F as Files>⟧ ⟦<S as Sink>⟧ (device_in sources.old) (device_in sources.new) sink.old sink.new)
        result }
{
    let own = end_of_run(run_plan(alloc, plan, sources, sink));
    close_output(own, sink)
}

/// Runs a plan over files, ends the output with one `finish`, unless writing failed, and hands the files back. Where a
/// script is read from some bytes, and this is a plan of it, the end is a faithful one of the script's run, over each
/// file system that is consistent with the files then. Which device failed, and where one may fail, is said over any
/// files.
pub fn run<F: Files, S: Sink>(alloc: Global, plan: &Plan, files: F, sink: &mut S) -> (End, F)
    requires files_count { F.failures files < 2 ^ 64 - 1 }
    requires sink_count { S.failures sink.old < 2 ^ 64 - 1 }
    ensures faithful { (statements : List Statement) → IsPlanOf statements (map operation_view plan.now) →
        FailsNowhereElse statements (map operation_view plan.now) →
        (g : Grammar) (script : List ℕ) → ReadsBy g script statements → (file_system : FileSystem) → F.consistent
        result.1 file_system →
        EndsFaithfully statements file_system (S.taken sink.old) (S.taken sink.new)
        (counts_over ⟦<F as Files>⟧ ⟦<S as Sink>⟧ files result.1 sink.old sink.new) result.0 }
    ensures fails { (statements : List Statement) → FailsNowhereElse statements (map operation_view plan.now) →
        FailsWhere statements result.0 }
    ensures cause { NamesDevice
        (counts_over ⟦<F as Files>⟧ ⟦<S as Sink>⟧ files result.1 sink.old sink.new) result.0 }
    ensures finish { NamesFinish (map operation_view plan.now)
        (counts_over ⟦<F as Files>⟧ ⟦<S as Sink>⟧ files result.1 sink.old sink.new) result.0 }
    ensures earlier { (file_system : FileSystem) → F.consistent result.1 file_system → F.consistent files file_system }
{
    match Sources::new(alloc, files) {
        Ok(mut sources) => {
            let end = run_over(alloc, plan, &mut sources, sink);
            (end, sources.close())
        }
        Err((_, files)) => {
            let _ = sink.finish();
            (End::NoMemory(0), files)
        }
    }
}

// Runs a script by the plan that was made of it this way. Where there was no memory for one the end is `NoMemory(0)`.
fn run_by<F: Files, S: Sink>(
    alloc: Global,
    read: &Script,
    made: Result<Plan, CordError>,
    files: F,
    sink: &mut S,
) -> (End, F)
    ghost way: { Way }
    requires planned { IfOk made (λ plan. IsPlanBy way read.now (map operation_view plan) ×
        IsPlanOf read.now (map operation_view plan)) }
    requires files_count { F.failures files < 2 ^ 64 - 1 }
    requires sink_count { S.failures sink.old < 2 ^ 64 - 1 }
    ensures run { (script : List ℕ) → Reads script read.now →
        Runs script (F.consistent result.1) (S.taken sink.old) (S.taken sink.new)
        (counts_over ⟦<F as Files>⟧ ⟦<S as Sink>⟧ files result.1 sink.old sink.new) result.0 }
    ensures cause { (script : List ℕ) → Reads script read.now → NamesCause
        (counts_over ⟦<F as Files>⟧ ⟦<S as Sink>⟧ files result.1 sink.old sink.new) result.0 }
    ensures earlier { (file_system : FileSystem) → F.consistent result.1 file_system → F.consistent files file_system }
{
    match made {
        Ok(plan) => run(alloc, &plan, files, sink),
        Err(_) => {
            let _ = sink.finish();
            (End::NoMemory(0), files)
        }
    }
}

/// Parses a script and runs it by its plan. A script that is refused writes nothing, and the files are handed back.
/// Where no memory is found for the plan the end is `NoMemory(0)`.
pub fn run_text<F: Files, S: Sink>(
    alloc: Global,
    script: &[u8],
    files: F,
    sink: &mut S,
) -> (Result<End, Refusal>, F)
    requires files_count { F.failures files < 2 ^ 64 - 1 }
    requires sink_count { S.failures sink.old < 2 ^ 64 - 1 }
    ensures reported { ReportsRun ⟦<F as Files>⟧ ⟦<S as Sink>⟧ script.now files sink.old sink.new result.0 result.1 }
{
    match parse(alloc, script) {
        Err(refusal) => (Err(refusal), files),
        Ok(read) => {
            let (end, files) = run_by(alloc, &read, plan(alloc, &read), files, sink);
            (Ok(end), files)
        }
    }
}

/// The same as `run_text`, by the plan that does what the script says, statement by statement: it too ends with
/// `NoMemory(0)` where no memory is found for it.
pub fn run_unplanned<F: Files, S: Sink>(
    alloc: Global,
    script: &[u8],
    files: F,
    sink: &mut S,
) -> (Result<End, Refusal>, F)
    requires files_count { F.failures files < 2 ^ 64 - 1 }
    requires sink_count { S.failures sink.old < 2 ^ 64 - 1 }
    ensures reported { ReportsRun ⟦<F as Files>⟧ ⟦<S as Sink>⟧ script.now files sink.old sink.new result.0 result.1 }
{
    let read = match parse(alloc, script) {
        Ok(read) => read,
        Err(refusal) => return (Err(refusal), files),
    };
    let (end, files) = run_by(alloc, &read, Plan::trivial(alloc, &read), files, sink);
    (Ok(end), files)
}
