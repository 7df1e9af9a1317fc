//! Devices that fail after some calls, under `drive`: the status, the line that is reported, and what is written until
//! then.
use super::super::puts::{END, FUSED, Run, are_put};
use super::super::trees::pattern;
use super::{ALL, Come, WAYS, come_of};
use cord_io::Sink;
use std::process::Abort;

// The line that is reported with a cause, where nothing else is reported.
fn reported_line(reported: &[u8], cause: &[u8]) -> Option<u32> {
    let rest = reported.strip_prefix(b"cordsh: line ".as_slice())?;
    let (digit, rest) = rest.split_first()?;
    if rest == cause && digit.is_ascii_digit() {
        Some(u32::from(*digit - b'0'))
    } else {
        None
    }
}

/// Compares a run that stopped by refused memory or a failing device: the line is reported with the cause that the
/// status says, and what is written ends there. It is all where the failure was that of the end, and nothing where
/// memory was refused to the reading of a line; the line is answered.
pub(super) fn expect_stopped(rt: &impl Abort, run: &Run, come: &Come) -> u32 {
    let cause = match come.status {
        3 => b": no memory\n".as_slice(),
        4 => b": read failed\n".as_slice(),
        5 => b": write failed\n".as_slice(),
        status => panic!(rt; "status {status}"),
    };
    let Some(line) = reported_line(come.err.bytes(), cause) else {
        panic!(rt; "another message");
    };
    let out = come.out.inner().bytes();
    if come.status == 5 && line == 0 {
        assert!(rt; are_put(run, END, out));
    } else if come.status != 3 || !out.is_empty() {
        assert!(rt; are_put(run, line, out));
    }
    line
}

// What is known of a run that the output, or the files, stopped at call `k`. Each call of the output that was served
// has taken a byte at least, and so many at most, and the last one is that of the end. The first two calls of the files
// open and read the script.
fn expect_failed(rt: &impl Abort, run: &Run, come: &Come, k: u64, most: u64, by_out: bool) {
    let line = expect_stopped(rt, run, come);
    let failed = (come.files_failed, come.out.failures());
    let out = come.out.inner().bytes();
    if by_out {
        let (is_all, count) = (are_put(run, END, out), out.len() as u64);
        assert!(rt; come.status == 5 && failed == (0, 1));
        assert!(rt; (line == 0) == is_all);
        assert!(rt; (is_all || count >= k) && count <= k.saturating_mul(most));
    } else {
        assert!(rt; come.status == 4 && failed == (1, 0));
        assert!(rt; (line == 0) == (k < 2));
    }
}

// Lets the files, or the output, fail at each call until the run is done.
fn fuse(rt: &(impl AllocGlobal + Abort), run: &Run, words: &[&str], most: u64, by_out: bool) {
    for k in 0..1_000 {
        let passes = if by_out { (ALL, k) } else { (k, ALL) };
        let come = come_of(rt, run, words, passes, most);
        if come.status == 0 {
            assert!(rt; come.err.bytes().is_empty() && are_put(run, END, come.out.inner().bytes()));
            assert!(rt; (come.files_failed, come.out.failures()) == (0, 0));
            assert!(rt; by_out || k >= 2);
            return;
        }
        expect_failed(rt, run, &come, k, most, by_out);
    }
    panic!(rt; "not done");
}

fn fuse_each(rt: &(impl AllocGlobal + Abort), run: &Run, most: u64) {
    for &words in WAYS {
        fuse(rt, run, words, most, false);
        fuse(rt, run, words, most, true);
    }
}

#[test]
fn fuses_at_each_call(rt: HostRuntime) {
    for (run, most) in FUSED {
        fuse_each(&rt, run, *most);
    }
    let file = pattern(&rt, rt.alloc(), 10_040);
    let lazy_twice = Run {
        script: "lazy x \"p\"\nput x\nput x\n",
        lines: 3,
        puts: &[(2, &file), (3, &file)],
        file: &file,
    };
    fuse_each(&rt, &lazy_twice, 4_096);
}

// Of the file not more is written than its first block.
#[test]
fn drive_files_fail(rt: HostRuntime) {
    let file = pattern(&rt, rt.alloc(), 200_000);
    let lazy = Run {
        script: "lazy x \"p\"\nput x\n",
        lines: 2,
        puts: &[(2, &file)],
        file: &file,
    };
    for &words in WAYS {
        for k in 0..5 {
            let come = come_of(&rt, &lazy, words, (k, ALL), 4_096);
            expect_failed(&rt, &lazy, &come, k, 4_096, false);
            assert!(rt; come.out.inner().bytes().len() <= 512);
        }
    }
}

// Of a file that no one reads the plan reads no byte, and the run without a plan does. The calls that pass are the
// opening and the reading of the script, and the opening of the file.
#[test]
fn unplanned_reads_what_is_not_live(rt: HostRuntime) {
    let eager = Run {
        script: "eager x \"p\"\nlet y \"a\"\nput y\n",
        lines: 3,
        puts: &[(3, b"a")],
        file: b"line\n",
    };
    for (words, status) in [(["--", "s"], 0), (["--unplanned", "s"], 4)] {
        let come = come_of(&rt, &eager, &words, (3, ALL), 4_096);
        assert!(rt; come.status == status);
    }
}
