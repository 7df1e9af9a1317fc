//! Help and printed plans, over an output that fails too.
use super::{ALL, HELLO, come_of};

const HELPS: &[&[&str]] = &[
    &["--help"],
    &["-h"],
    &["--help", "s"],
    &["--show-plan", "--help"],
];

#[test]
fn help_asked(rt: HostRuntime) {
    for &words in HELPS {
        let come = come_of(&rt, &HELLO, words, (ALL, ALL), 4_096);
        assert!(rt; come.status == 0 && come.err.bytes().is_empty());
        let help = come.out.inner().bytes();
        assert!(rt; help.starts_with(b"Usage: cordsh [OPTIONS] <SCRIPT>\n"));
    }
}

const CUT: &[&[&str]] = &[
    &["--show-plan", "s"],
    &["--unplanned", "--show-plan", "s"],
    &["--help"],
];

// Where the output fails, a prefix of the text stands on it, until all of it and the end were taken.
#[test]
fn plans_and_help_cut(rt: HostRuntime) {
    for &words in CUT {
        let come = come_of(&rt, &HELLO, words, (ALL, ALL), 4_096);
        assert!(rt; come.status == 0);
        let whole = come.out.inner().bytes();
        let mut held = 0;
        for passes in 0..1_000 {
            let cut = come_of(&rt, &HELLO, words, (ALL, passes), 3);
            let taken = cut.out.inner().bytes();
            assert!(rt; whole.starts_with(taken));
            if cut.status == 0 {
                break;
            }
            assert!(rt; cut.status == 5);
            assert!(rt; cut.err.bytes() == b"cordsh: line 0: write failed\n".as_slice());
            held = taken.len();
        }
        // The last fault was that of the end.
        assert!(rt; held == whole.len());
    }
}
