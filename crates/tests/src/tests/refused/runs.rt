//! Runs of scripts: each is refused, ends when out of memory after a prefix of its output, or is done with all of it.
use super::super::puts::{END, FILE_TWICE, PADS, Run, SEAM, are_put};
use super::super::runs::{line_and, run_way};
use super::super::trees::pattern;
use super::files::holds;
use cord_io::{Files, MemSink, Sink};
use cord_run::End;
use cord_script::Refusal;
use std::process::Abort;

// Whether a line puts something.
fn is_put(run: &Run, line: u32) -> bool {
    for (at, _) in run.puts {
        if *at == line {
            return true;
        }
    }
    false
}

// Whether an end is faithful of a run without a fault where memory is refused. The sink failed only where it says so.
fn is_faithful(run: &Run, end: &Result<End, Refusal>, sink: &MemSink) -> bool {
    let bytes = sink.bytes();
    let failures = u64::from(matches!(end, Ok(End::WriteFailed(_))));
    let is_faithful = match end {
        Err(refusal) => {
            refusal.kind.code() == 16 && refusal.line <= run.lines && are_put(run, 0, bytes)
        }
        Ok(End::NoMemory(line)) => *line <= run.lines && are_put(run, *line, bytes),
        Ok(End::WriteFailed(line)) => is_put(run, *line) && are_put(run, *line, bytes),
        Ok(End::Done) => are_put(run, END, bytes),
        Ok(_) => false,
    };
    is_faithful && sink.failures() == failures
}

// Runs a script by its plan or line by line, and tells whether it was done.
fn is_done(rt: &(impl AllocGlobal + Abort), run: &Run, is_planned: bool) -> bool {
    let files = line_and(rt, "f", run.file);
    let mut sink = MemSink::new(rt.alloc());
    assert!(rt; files.failures() == 0 && sink.failures() == 0);
    let (end, mut files) = run_way(rt, run.script.as_bytes(), files, &mut sink, is_planned);
    assert!(rt; is_faithful(run, &end, &sink), "{end:?} of {}", run.script);
    assert!(rt; holds(&mut files, "p", Some(b"line\n")));
    end == Ok(End::Done)
}

// Runs a script both ways: a run that was refused memory is done when it is made again.
fn run_both(rt: &(impl AllocGlobal + Abort), run: &Run) {
    for is_planned in [true, false] {
        if !is_done(rt, run, is_planned) {
            assert!(rt; is_done(rt, run, is_planned), "{}", run.script);
        }
    }
}

const RUNS: &[Run<'static>] = &[
    // doubled-thirty-times
    Run {
        script: "let x \"ab\"\nrepeat 30\ncat x x x\nend\nlen n x\nfetch c x 2147483647\nsprintf z \"%d %c\" n c\n\
            put z",
        lines: 8,
        puts: &[(8, b"2147483648 b")],
        file: b"",
    },
    SEAM,
    PADS,
    // ec-goes-on-after-tocord
    Run {
        script: "ecinit e\nrepeat 129\necput e 65\nend\nectocord z e\necput e 66\nput z\nectocord y e\nlen n y\n\
            sprintf t \"%d\" n\nput t",
        lines: 11,
        puts: &[(7, &[b'A'; 129]), (11, b"130")],
        file: b"",
    },
    FILE_TWICE,
    // edits
    Run {
        script: "let x \"hello world\"\nlet a \"new \"\ncat y x a\nsubstr l x 0 6\nsubstr r x 6 9\ncatn x l a r\n\
            put x\nsubstr l x 0 2\nsubstr r x 9 9\ncat x l r\nput x\nput y",
        lines: 12,
        puts: &[
            (7, b"hello new world"),
            (11, b"he world"),
            (12, b"hello worldnew "),
        ],
        file: b"",
    },
];

#[test]
fn refused_runs(rt: HostRuntime) {
    for run in RUNS {
        run_both(&rt, run);
    }
}

#[test]
fn refused_lazy_twice(rt: HostRuntime) {
    let bytes = pattern(&rt, rt.alloc(), 10_000);
    let run = Run {
        script: "lazy x \"f\"\nput x\nput x",
        lines: 3,
        puts: &[(2, &bytes), (3, &bytes)],
        file: &bytes,
    };
    run_both(&rt, &run);
}
