//! Devices that fail at each call: every end is faithful.
use super::super::puts::{END, FUSED, Run, are_put};
use super::super::trees::pattern;
use super::{line_and, run_way};
use cord_io::{Files, FuseFiles, FuseSink, MemSink, Sink};
use cord_run::End;
use std::process::Abort;

// Whether an end is faithful of a run that has no fault, where the files and the sink failed so often: it is done and
// all is written, or it stopped in a line or in the finish, and the device that is named has failed once and the other
// one never.
fn is_faithful(run: &Run, end: End, out: &[u8], failed: (u64, u64)) -> bool {
    match end {
        End::Done => are_put(run, END, out) && failed == (0, 0),
        End::WriteFailed(0) => are_put(run, END, out) && failed == (0, 1),
        End::ReadFailed(line) => {
            0 < line && line <= run.lines && are_put(run, line, out) && failed == (1, 0)
        }
        End::WriteFailed(line) => {
            line <= run.lines && are_put(run, line, out) && failed == (0, 1)
        }
        _ => false,
    }
}

// Runs a script over files that pass so many calls and a sink that passes so many of at most so many bytes; whether it
// was done.
fn run_fused(
    rt: &(impl AllocGlobal + Abort),
    run: &Run,
    is_planned: bool,
    passes: (u64, u64),
    most: u64,
) -> bool {
    assert!(rt; most >= 1);
    let files = FuseFiles::new(line_and(rt, "f", run.file), passes.0);
    let mut sink = FuseSink::new(MemSink::new(rt.alloc()), passes.1, most);
    let (result, files) = run_way(rt, run.script.as_bytes(), files, &mut sink, is_planned);
    let failed = (files.failures(), sink.failures());
    let Ok(end) = result else {
        panic!(rt; "refused");
    };
    assert!(rt;
        is_faithful(run, end, sink.inner().bytes(), failed),
        "{} with {} and {} calls of {most}",
        run.script,
        passes.0,
        passes.1
    );
    end == End::Done
}

// Lets the files, or the sink, fail at each call until the run is done, by its plan or without one.
fn fuse_each(rt: &(impl AllocGlobal + Abort), run: &Run, most: u64) {
    for (is_planned, by_sink) in [(true, false), (true, true), (false, false), (false, true)] {
        let mut is_done = false;
        for k in 0..1_000 {
            let passes = if by_sink {
                (u64::MAX, k)
            } else {
                (k, u64::MAX)
            };
            is_done = run_fused(rt, run, is_planned, passes, most);
            if is_done {
                break;
            }
        }
        assert!(rt; is_done, "not done");
    }
}

#[test]
fn fuses_at_each_call(rt: HostRuntime) {
    for (run, most) in FUSED {
        fuse_each(&rt, run, *most);
    }
    let bytes = pattern(&rt, rt.alloc(), 10_000);
    let lazy_twice = Run {
        script: "lazy x \"f\"\nput x\nput x\n",
        lines: 3,
        puts: &[(2, &bytes), (3, &bytes)],
        file: &bytes,
    };
    fuse_each(&rt, &lazy_twice, 4_096);
}
