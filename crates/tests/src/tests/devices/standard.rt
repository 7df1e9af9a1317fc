// What a sink over a writer takes.
use super::Offer::{self, Failed, Finished, Refused, Taken, Unfinished};
use super::disk::{Machine, Trouble};
use super::expect_offers;
use cord_io::StdSink;

const HELLO: &[Offer] = &[Taken(b"hel", 3), Taken(b"lo", 2), Finished, Failed(0)];

// Over a writer that takes one part.
const ONE_PART: &[Offer] = &[
    Finished,
    Taken(b"hello", 2),
    Failed(0),
    Refused(b"llo"),
    Refused(b"llo"),
    Unfinished,
    Failed(3),
];

// Each way to fail is counted.
#[test]
fn takes_all_bytes(rt: HostRuntime) {
    let mut bytes: Vec<u8> = Vec::new(rt.alloc());
    expect_offers(&rt, &mut StdSink::new(&mut bytes), HELLO);
    assert!(rt; bytes.as_slice() == b"hello".as_slice());
    for last in [Trouble::Empty, Trouble::Interrupted, Trouble::Full] {
        expect_offers(&rt, &mut StdSink::new(Machine::new(last, 1)), ONE_PART);
    }
}
