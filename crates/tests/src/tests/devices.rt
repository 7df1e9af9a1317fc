// Files, sources and sinks, and the files in memory that several cases use.
mod disk;
mod standard;

ghost use Rattle.std.specs.Prelude.{◌≡◌, ◌<◌, ◌≤◌, ℕ, length, IsSome, IsSomeAnd};

use super::cases::expect_case;
use cord_io::{FileNo, Files, OpenFault, ReadFault, Sink, WriteFault};
use std::process::Abort;

// What is asked of files of which one of ten bytes is opened, and what they answer.
#[derive(Clone, Copy)]
enum Ask {
    // A path that can't be opened.
    Open(&'static str, OpenFault),
    // At most so many bytes of the opened file from a place on: these come.
    Read(u64, usize, &'static [u8]),
    // A read from a place on, which fails.
    Fault(u64),
    // How often a call has failed.
    Failures(u64),
}

// Opens a file of ten bytes.
fn opened<F: Files>(rt: &impl Abort, files: &mut F, path: &str) -> FileNo
    ensures long { IsSomeAnd (F.opened files.new result.0) (λ reported. 10 ≤ reported.1) }
    ensures grows { (n : ℕ) → IsSome (F.opened files.old n) → F.opened files.new n ≡ F.opened files.old n }
{
    let found = files.open(path);
    expect_case(rt, found.is_ok(), path, 10);
    let Ok((no, len)) = found else {
        panic!(rt; "not opened");
    };
    assert!(rt; len == 10);
    no
}

fn expect_no_file<F: Files>(rt: &impl Abort, files: &mut F, path: &str, fault: OpenFault)
    ensures { (n : ℕ) → F.opened files.new n ≡ F.opened files.old n }
{
    let Err(found) = files.open(path) else {
        panic!(rt; "{path} is opened");
    };
    expect_case(rt, found == fault, path, 0);
}

fn expect_answer<F: Files>(rt: &impl Abort, files: &mut F, no: FileNo, ask: Ask)
    requires { IsSomeAnd (F.opened files.old no.0) (λ reported. 10 ≤ reported.1) }
    ensures { (n : ℕ) → F.opened files.new n ≡ F.opened files.old n }
{
    match ask {
        Ask::Open(path, fault) => expect_no_file(rt, files, path, fault),
        Ask::Read(start, count, bytes) => {
            let mut room = [0; 8];
            assert!(rt; start < 10 && 0 < count && count <= 8);
            let read = files.read_at(no, start, &mut room[..count]);
            expect_case(rt, read == Ok(bytes.len()), "the count from", start);
            expect_case(rt, room.starts_with(bytes), "the bytes from", start);
        }
        Ask::Fault(start) => {
            assert!(rt; start < 10);
            let read = files.read_at(no, start, &mut [0; 6]);
            expect_case(rt, read == Err(ReadFault), "a fault from", start);
        }
        Ask::Failures(count) => expect_case(rt, files.failures() == count, "failures", count),
    }
}

// Asks one after another.
fn expect_answers<F: Files>(rt: &impl Abort, files: &mut F, no: FileNo, asks: &[Ask])
    requires { IsSomeAnd (F.opened files.old no.0) (λ reported. 10 ≤ reported.1) }
{
    for ask in asks {
        expect_answer(rt, files, no, *ask);
    }
}

// What is asked of a sink, and what it answers.
enum Offer {
    // Of these bytes it takes so many.
    Taken(&'static [u8], usize),
    // Of these it takes none.
    Refused(&'static [u8]),
    Finished,
    Unfinished,
    // How often a call has failed.
    Failed(u64),
}

// Offers one after another.
fn expect_offers<S: Sink>(rt: &impl Abort, sink: &mut S, offers: &[Offer]) {
    for offer in offers {
        match offer {
            Offer::Taken(bytes, count) => {
                assert!(rt; !bytes.is_empty());
                expect_case(
                    rt,
                    sink.put(bytes) == Ok(*count),
                    "bytes",
                    bytes.len() as u64,
                );
            }
            Offer::Refused(bytes) => {
                assert!(rt; !bytes.is_empty());
                expect_case(
                    rt,
                    sink.put(bytes) == Err(WriteFault),
                    "none",
                    bytes.len() as u64,
                );
            }
            Offer::Finished => assert!(rt; sink.finish() == Ok(())),
            Offer::Unfinished => assert!(rt; sink.finish() == Err(WriteFault)),
            Offer::Failed(count) => expect_case(rt, sink.failures() == *count, "failures", *count),
        }
    }
}
