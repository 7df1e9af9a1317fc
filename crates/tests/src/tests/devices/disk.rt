// The machine's files, real ones and those of a machine that fails on purpose.
ghost use Rattle.std.specs.Prelude.{IsErr};

use super::Ask::{self, Failures, Fault, Open, Read as Reads};
use super::{expect_answer, expect_answers, expect_no_file, opened};
use cord_io::{DiskFiles, Files, OpenFault};
use std::alloc::Allocator;
use std::cell::Cell;
use std::fs::{self, Metadata, OpenFile};
use std::io::{self, ErrorKind, Read, Seek, SeekFrom, Write};
use std::os::unix::fs::FileExt;
use std::rt;

const DIGITS: [u8; 10] = *b"0123456789";

// How a machine fails.
#[derive(Clone, Copy)]
pub(super) enum Trouble {
    Nothing,
    Missing,
    Forbidden,
    Directory,
    NoSeek,
    // A call moves no byte.
    Empty,
    Interrupted,
    InterruptedOnce,
    Full,
}

// A machine that has ten digits at each path, and each of its files: it can be sought in or not, and fails after so
// many calls that move bytes. A write takes at most two.
#[derive(Drop)]
pub(super) struct Machine {
    trouble: Trouble,
    calls: Cell<u8>,
}

fn unsupported<T>() -> io::Result<T>
    ensures { IsErr result }
{
    Err(io::Error::from(ErrorKind::Unsupported))
}

impl Machine {
    pub(super) fn new(trouble: Trouble, calls: u8) -> Machine {
        Machine {
            trouble,
            calls: Cell::new(calls),
        }
    }

    // Whether one more call passes; where none does, what it answers.
    fn passes(&self) -> io::Result<bool> {
        let calls = self.calls.get();
        if calls > 0 {
            self.calls.set(calls - 1);
            return Ok(true);
        }
        let kind = match self.trouble {
            Trouble::Empty => return Ok(false),
            Trouble::Full => ErrorKind::StorageFull,
            _ => ErrorKind::Interrupted,
        };
        if matches!(self.trouble, Trouble::InterruptedOnce) {
            self.calls.set(1);
        }
        Err(io::Error::from(kind))
    }
}

impl FileExt for Machine {
    fn read_at(&self, buf: &mut [u8], offset: u64) -> io::Result<usize> {
        if !self.passes()? {
            return Ok(0);
        }
        let place = offset.min(DIGITS.len() as u64) as usize;
        let rest = &DIGITS[place..];
        let count = rest.len().min(buf.len());
        buf[..count].copy_from_slice(&rest[..count]);
        Ok(count)
    }

    fn write_at(&self, _buf: &[u8], _offset: u64) -> io::Result<usize> {
        unsupported()
    }
}

// Files are read by their places alone.
impl Read for Machine {
    fn read(&mut self, _buf: &mut [u8]) -> io::Result<usize> {
        unsupported()
    }
}

impl Write for Machine {
    fn write(&mut self, buf: &[u8]) -> io::Result<usize> {
        let most = if self.passes()? { 2 } else { 0 };
        Ok(buf.len().min(most))
    }

    fn flush(&mut self) -> io::Result<()> {
        if self.calls.get() > 0 {
            return Ok(());
        }
        Err(io::Error::from(ErrorKind::StorageFull))
    }
}

impl Seek for Machine {
    fn seek(&mut self, to: SeekFrom) -> io::Result<u64> {
        match to {
            SeekFrom::End(0) if !matches!(self.trouble, Trouble::NoSeek) => Ok(10),
            _ => unsupported(),
        }
    }
}

impl OpenFile for Machine {
    fn metadata(&self) -> io::Result<Metadata> {
        match self.trouble {
            Trouble::Directory => Ok(Metadata::of_dir()),
            _ => Ok(Metadata::of_file(10)),
        }
    }

    fn set_len(&self, _size: u64) -> io::Result<()> {
        unsupported()
    }

    fn sync_all(&self) -> io::Result<()> {
        unsupported()
    }

    fn sync_data(&self) -> io::Result<()> {
        unsupported()
    }
}

impl rt::Files for Machine {
    type File = Machine;

    type Dir = Machine;

    fn open_file(&self, _how: &fs::OpenOptions, _path: &str) -> io::Result<Machine> {
        match self.trouble {
            Trouble::Missing => Err(io::Error::from(ErrorKind::NotFound)),
            Trouble::Forbidden => Err(io::Error::from(ErrorKind::PermissionDenied)),
            trouble => Ok(Machine::new(trouble, self.calls.get())),
        }
    }

    fn open_dir(&self, _path: &str) -> io::Result<Machine> {
        unsupported()
    }

    fn metadata(&self, _path: &str) -> io::Result<Metadata> {
        unsupported()
    }

    fn symlink_metadata(&self, _path: &str) -> io::Result<Metadata> {
        unsupported()
    }

    fn copy(&self, _from: &str, _to: &str) -> io::Result<u64> {
        unsupported()
    }

    fn rename(&self, _from: &str, _to: &str) -> io::Result<()> {
        unsupported()
    }

    fn remove_file(&self, _path: &str) -> io::Result<()> {
        unsupported()
    }

    fn create_dir(&self, _path: &str) -> io::Result<()> {
        unsupported()
    }

    fn remove_dir(&self, _path: &str) -> io::Result<()> {
        unsupported()
    }

    fn remove_dir_all<B: Allocator>(&self, _alloc: B, _path: &str) -> io::Result<()> {
        unsupported()
    }
}

const MID_STREAM: &[Ask] = &[Reads(2, 4, b"2345"), Fault(6), Fault(6), Failures(2)];

// The trouble of a machine whose files fail after so many reads, and what is asked of one of them. A name is its path.
const ASKED: &[(&str, Trouble, u8, &[Ask])] = &[
    // Reading on needs no call for each part: a read and one of the rest.
    (
        "reads_on_ahead",
        Trouble::Nothing,
        2,
        &[
            Reads(0, 3, b"012"),
            Reads(3, 3, b"345"),
            Reads(6, 3, b"678"),
            Reads(9, 3, b"9"),
            Reads(5, 3, b"567"),
            Failures(0),
        ],
    ),
    // A read elsewhere, no shorter than what was read in order before, and one of all that is left are read as they
    // are, in one call: where it fails they fail.
    (
        "reads_elsewhere_as_they_are",
        Trouble::InterruptedOnce,
        2,
        &[
            Reads(6, 2, b"67"),
            Reads(2, 2, b"23"),
            Failures(0),
            Fault(4),
            Failures(1),
        ],
    ),
    // A read elsewhere asks for as many bytes as were read in order before, so what follows there takes no call.
    (
        "reads_a_range_elsewhere_in_one_call",
        Trouble::Nothing,
        2,
        &[
            Reads(5, 5, b"56789"),
            Reads(0, 2, b"01"),
            Reads(2, 2, b"23"),
            Failures(0),
        ],
    ),
    // A file that is read with short gaps is read ahead, as one that is read in order.
    (
        "reads_ahead_over_gaps",
        Trouble::Nothing,
        2,
        &[
            Reads(0, 2, b"01"),
            Reads(4, 2, b"45"),
            Reads(8, 2, b"89"),
            Failures(0),
        ],
    ),
    // A call that fails while it reads ahead is made again for the bytes that were asked for.
    (
        "a_fault_ahead_is_no_fault",
        Trouble::InterruptedOnce,
        1,
        &[Reads(0, 4, b"0123"), Reads(4, 4, b"4567"), Failures(0)],
    ),
    // A read after a fault asks the machine again.
    (
        "faults_in_mid_stream_are_counted",
        Trouble::Empty,
        1,
        MID_STREAM,
    ),
    (
        "faults_in_mid_stream_are_counted",
        Trouble::Interrupted,
        1,
        MID_STREAM,
    ),
];

// The trouble of a machine whose paths can't be opened, why, and how often a call has failed then.
const UNOPENED: &[(Trouble, OpenFault, u64)] = &[
    (Trouble::Missing, OpenFault::NotFound, 0),
    (Trouble::Forbidden, OpenFault::Failed, 1),
    (Trouble::Directory, OpenFault::Failed, 1),
    (Trouble::NoSeek, OpenFault::Failed, 1),
];

// Only a missing path is not found. Two files that are read on in turn are each read ahead, by two reads.
#[test]
fn cases_of_machines(rt: HostRuntime) {
    let alloc = rt.alloc();
    for &(path, trouble, calls, asks) in ASKED {
        let mut files = DiskFiles::new(Machine::new(trouble, calls), alloc);
        let no = opened(&rt, &mut files, path);
        expect_answers(&rt, &mut files, no, asks);
    }
    for &(trouble, fault, failures) in UNOPENED {
        let mut files = DiskFiles::new(Machine::new(trouble, 0), alloc);
        expect_no_file(&rt, &mut files, "digits", fault);
        assert!(rt; files.failures() == failures);
    }
    let mut files = DiskFiles::new(Machine::new(Trouble::Nothing, 2), alloc);
    let one = opened(&rt, &mut files, "one");
    let other = opened(&rt, &mut files, "other");
    expect_answer(&rt, &mut files, one, Reads(0, 4, b"0123"));
    expect_answer(&rt, &mut files, other, Reads(0, 4, b"0123"));
    expect_answer(&rt, &mut files, one, Reads(4, 4, b"4567"));
    expect_answer(&rt, &mut files, other, Reads(4, 4, b"4567"));
    expect_answer(&rt, &mut files, one, Reads(8, 4, b"89"));
    expect_answer(&rt, &mut files, other, Reads(8, 4, b"89"));
    assert!(rt; files.failures() == 0);
}

const REAL_PATH: &str = "cord_calls_digits";

// What is asked of the opened file when the machine has none there any more.
const REMOVED: &[Ask] = &[
    Reads(7, 4, b"789"),
    Reads(1, 4, b"1234"),
    Open(REAL_PATH, OpenFault::NotFound),
    Failures(0),
    Open(".", OpenFault::Failed),
    Open("out\0side", OpenFault::Failed),
    Failures(2),
];

// Opens a real file, which is removed before it is read. Directories and bad paths are no files.
#[test]
fn real_files(rt: HostRuntime) {
    fs::write(&rt, REAL_PATH, DIGITS.as_slice()).expect(&rt, "not written");
    let mut files = DiskFiles::new(rt.clone().expect(&rt, "no runtime"), rt.alloc());
    let no = opened(&rt, &mut files, REAL_PATH);
    fs::remove_file(&rt, REAL_PATH).expect(&rt, "not removed");
    expect_answers(&rt, &mut files, no, REMOVED);
}
