//! The program with one allocation refused, which whoever runs a test names: it stops where it says, and serves when it
//! is called again.
use super::super::puts::{END, FILE_TWICE, Run, SEAM, are_put};
use super::failing::expect_stopped;
use super::{ALL, Come, WAYS, come_of};
use cord_io::Sink;
use std::io::Print;
use std::process::Abort;

const PAST_END: Run<'static> = Run {
    script: "let x \"ab\"\nput x\nfetch n x 2\n",
    lines: 3,
    puts: &[(2, b"ab")],
    file: b"",
};

// Whether a run has come to its end: the status, the whole output and the message. Where the growth of `err` was
// refused a prefix of the message stands there, and nothing else is changed.
fn is_served(run: &Run, come: &Come, status: u8, reported: &[u8]) -> bool {
    let err = come.err.bytes();
    let all_reported = err == reported && come.err.failures() == 0;
    let cut = reported.starts_with(err) && come.err.failures() == 1;
    come.status == status && are_put(run, END, come.out.inner().bytes()) && (all_reported || cut)
}

// Drives a script both ways. A run that was refused memory, in its work or on `out`, reports it whole, since only one
// allocation is refused; after it the next one is served. Its status is printed, for whoever refuses each allocation in
// turn and looks for both.
fn expect_refusable(
    rt: &(impl AllocGlobal + Abort + Print),
    run: &Run,
    status: u8,
    reported: &[u8],
) {
    for &words in WAYS {
        let come = come_of(rt, run, words, (ALL, ALL), 4_096);
        if is_served(run, &come, status, reported) {
            continue;
        }
        let seen = match come.status {
            3 => "saw: status 3",
            5 => "saw: status 5",
            other => panic!(rt; "status {other}"),
        };
        let _ = rt.println(seen);
        assert!(rt; (come.out.failures() == 1) == (come.status == 5));
        let _ = expect_stopped(rt, run, &come);
        let next = come_of(rt, run, words, (ALL, ALL), 4_096);
        assert!(rt; is_served(run, &next, status, reported) && next.err.failures() == 0);
    }
}

// Of the three the last one tells something where nothing is refused.
#[test]
fn refused_scripts(rt: HostRuntime) {
    expect_refusable(&rt, &SEAM, 0, b"");
    expect_refusable(&rt, &FILE_TWICE, 0, b"");
    expect_refusable(&rt, &PAST_END, 1, b"cordsh: line 3: index out of range\n");
}
