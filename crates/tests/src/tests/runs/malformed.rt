//! Scripts that are cut off, and scripts with a byte changed: each is refused and nothing is written, or it runs to its
//! end.
ghost use Rattle.std.specs.Prelude.{◌≡◌, ◌<◌, length};

use super::super::trees::pattern;
use super::cases::{BLOCKS, CORDS, FAULTS, SEARCHES};
use super::refusals::REFUSALS;
use super::{line_and, lines, run_way, substrings};
use cord_io::{FuseSink, MemSink, Sink};
use cord_run::End;
use std::process::Abort;

// Runs a script; where it is refused nothing is written, and over a sink that fails at each call no finish is called;
// else it is done or has a fault.
fn run_any(rt: &(impl AllocGlobal + Abort), script: &[u8], big: &[u8]) {
    let mut sink = MemSink::new(rt.alloc());
    match run_way(rt, script, line_and(rt, "big", big), &mut sink, true).0 {
        Ok(end) => assert!(rt; matches!(end, End::Done | End::Fault(..))),
        Err(_) => {
            assert!(rt; sink.bytes().is_empty());
            let mut failing = FuseSink::new(MemSink::new(rt.alloc()), 0, 1);
            let (_, _) = run_way(rt, script, line_and(rt, "big", big), &mut failing, true);
            assert!(rt; failing.failures() == 0);
        }
    }
}

// Runs the prefix of a script up to a place, and the script with the byte at the place made 0, 10, 34 or 255.
fn run_at(rt: &(impl AllocGlobal + Abort), script: &mut [u8], at: usize, big: &[u8])
    requires { at < length script.old }
    ensures { length script.new ≡ length script.old }
{
    run_any(rt, &script[..at], big);
    let kept = script[at];
    for byte in [0, 10, 34, 255] {
        if byte != kept {
            script[at] = byte;
            run_any(rt, script, big);
        }
    }
    script[at] = kept;
}

// Runs each prefix of a script, and the script with each byte made 0, 10, 34 or 255.
fn run_malformed(rt: &(impl AllocGlobal + Abort), whole: Vec<u8>, big: &[u8]) {
    let mut script = whole;
    for at in 0..script.len() {
        run_at(rt, &mut script, at, big);
    }
}

#[test]
fn cases_over_no_files(rt: HostRuntime) {
    for (name, script, _, _) in CORDS.iter().chain(SEARCHES).chain(FAULTS).chain(BLOCKS) {
        if !name.starts_with("turns") {
            run_malformed(&rt, lines(&rt, script), b"");
        }
    }
    for (_, script, _, _) in REFUSALS {
        run_malformed(&rt, lines(&rt, script), b"");
    }
}

#[test]
fn cases_with_all_turns(rt: HostRuntime) {
    for (name, script, _, _) in BLOCKS {
        if name.starts_with("turns") {
            run_malformed(&rt, lines(&rt, script), b"");
        }
    }
}

#[test]
fn cases_with_devices(rt: HostRuntime) {
    for script in [
        r#"let x "a" ; put x"#,
        r#"file x "p" ; put x ; put x"#,
        r#"eager x "p" ; let y "a" ; put y"#,
    ] {
        run_malformed(&rt, lines(&rt, script), b"");
    }
    let big = pattern(&rt, rt.alloc(), 2_000);
    run_malformed(&rt, lines(&rt, r#"lazy x "big" ; put x"#), &big);
}

// How many tests share the places of the script of 200 substrings.
const SHARES: usize = 8;

// Does the same at one share of the places of the script of 200 substrings.
fn run_share(rt: &(impl AllocGlobal + Abort), share: usize) {
    let mut script = substrings(rt);
    for at in 0..script.len() {
        if at % SHARES == share {
            run_at(rt, &mut script, at, b"");
        }
    }
}

#[test]
fn substrings_first_share(rt: HostRuntime) {
    run_share(&rt, 0);
}

#[test]
fn substrings_second_share(rt: HostRuntime) {
    run_share(&rt, 1);
}

#[test]
fn substrings_third_share(rt: HostRuntime) {
    run_share(&rt, 2);
}

#[test]
fn substrings_fourth_share(rt: HostRuntime) {
    run_share(&rt, 3);
}

#[test]
fn substrings_fifth_share(rt: HostRuntime) {
    run_share(&rt, 4);
}

#[test]
fn substrings_sixth_share(rt: HostRuntime) {
    run_share(&rt, 5);
}

#[test]
fn substrings_seventh_share(rt: HostRuntime) {
    run_share(&rt, 6);
}

#[test]
fn substrings_eighth_share(rt: HostRuntime) {
    run_share(&rt, 7);
}
