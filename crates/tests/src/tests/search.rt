// Cases of worked examples, a read that fails, and what needs no read or one step for many bytes.
use super::byte_source::six_hundred;
use super::cases::expect_case;
use super::made::{Part, Parts, longer, made};
use Part::{Func, Leaf, Run, Twice};
use cord_io::{CordError, MAX_LEN};
use cord_search::{cmp, ncmp, str};

// What a source gives: how many reads, and only bytes before this place.
type Reads = (u64, u64);

// No read, for cords that need none.
const NONE: Reads = (0, u64::MAX);

// What a call over a table of one source answers.
type Answer<T> = Result<T, CordError>;

const FAILED: CordError = CordError::ReadFailed;

// The first 600 bytes of source 2.
const SOURCE: Parts = &[Func(0, 600)];

// Where a pattern begins in a cord, from a place on.
const STR: &[(&str, Parts, u64, Parts, u64, Answer<Option<u64>>)] = &[
    ("cases_of_str", ABABC, 0, &[Leaf(b"abc")], 0, Ok(Some(2))),
    ("cases_of_str", ABABC, 3, &[Leaf(b"abc")], 0, Ok(None)),
    ("cases_of_str", ABABC, 5, &[], 0, Ok(Some(5))),
    ("cases_of_str", ABABC, 6, &[], 0, Ok(None)),
    (
        "str_over_a_seam",
        &[Run(b'a', 2), Leaf(b"ab")],
        0,
        &[Leaf(b"aab")],
        0,
        Ok(Some(1)),
    ),
    (
        "str_passes_over_the_longest_run",
        RUN_AND_LEAF,
        0,
        &[Leaf(b"aab")],
        0,
        Ok(Some(MAX_LEN - 3)),
    ),
    (
        "str_passes_over_the_longest_run",
        RUN_AND_LEAF,
        0,
        &[Leaf(b"ba")],
        0,
        Ok(None),
    ),
    (
        "str_finds_the_byte_of_a_run",
        RUN_AND_LEAF,
        5,
        &[Leaf(b"aaa")],
        0,
        Ok(Some(5)),
    ),
    (
        "str_finds_the_byte_of_a_run",
        RUN_AND_LEAF,
        MAX_LEN - 3,
        &[Leaf(b"aaa")],
        0,
        Ok(None),
    ),
    (
        "str_of_520_bytes_over_a_seam",
        &[Leaf(b"b"), Run(b'a', 300), Leaf(&[b'a'; 300])],
        0,
        &[Leaf(&[b'a'; 520])],
        0,
        Ok(Some(1)),
    ),
    (
        "a_read_fails_in_the_middle",
        SOURCE,
        0,
        &[Leaf(b"xy")],
        1,
        Err(FAILED),
    ),
    (
        "str_of_601_bytes_over_seams",
        &[
            Run(b'b', 65),
            Leaf(&[b'a'; 300]),
            Run(b'a', 300),
            Leaf(b"c"),
        ],
        0,
        &[Run(b'a', 600), Leaf(b"c")],
        0,
        Ok(Some(65)),
    ),
    (
        "str_of_more_than_its_prefix",
        &[Run(b'a', 19_998), Leaf(b"b"), Run(b'a', 40_000), Leaf(b"b")],
        0,
        &[Run(b'a', 19_999), Leaf(b"b")],
        0,
        Ok(Some(40_000)),
    ),
    (
        "str_of_more_than_its_prefix",
        &[Run(b'a', 19_998), Leaf(b"b"), Twice(1)],
        0,
        &[Run(b'a', 19_999), Leaf(b"b")],
        0,
        Ok(None),
    ),
    (
        "str_of_one_byte_many_times",
        &[Run(b'a', 19_999), Leaf(b"b"), Run(b'a', 20_000)],
        0,
        &[Run(b'a', 20_000)],
        0,
        Ok(Some(20_000)),
    ),
    (
        "str_of_two_bytes_many_times",
        &[Leaf(b"ab"), Twice(15), Leaf(b"c")],
        0,
        &[Leaf(b"ab"), Twice(14), Leaf(b"c")],
        0,
        Ok(Some(32_768)),
    ),
    (
        "str_passes_over_runs_in_runs",
        RUN_AND_LEAF,
        0,
        &[Run(b'a', 1 << 39), Leaf(b"b")],
        0,
        Ok(Some(MAX_LEN - 1 - (1 << 39))),
    ),
    (
        "str_passes_over_runs_in_runs",
        RUN_AND_LEAF,
        0,
        &[Run(b'a', 1 << 39), Leaf(b"c")],
        0,
        Ok(None),
    ),
];

// The text "ababc" of three parts.
const ABABC: Parts = &[Leaf(b"ab"), Twice(1), Leaf(b"c")];

const RUN_AND_LEAF: Parts = &[Run(b'a', MAX_LEN - 2), Leaf(b"ab")];

// A leaf of 64 bytes, 2^32 times.
const DOUBLED: Parts = &[Leaf(&[b'a'; 64]), Twice(32)];

const DOUBLED_LEN: u64 = 64 << 32;

// Twice what stands before, and then a byte: a concatenation of its own each time.
const THEN_X: Parts = &[Twice(1), Leaf(b"x")];

const THEN_Y: Parts = &[Twice(1), Leaf(b"y")];

const LONGEST_RUN: Parts = &[Run(b'a', MAX_LEN)];

const SHORTER_RUN: Parts = &[Run(b'a', MAX_LEN - 1)];

// What two cords share, and what each of them has after it: with nothing both are one cord.
type Pair = (Parts, Parts, Parts);

// Two cords, and which of them is greater: of all their bytes, or from a place of each on so many.
type Comparison = (
    &'static str,
    Pair,
    Option<(u64, u64, u64)>,
    Reads,
    Answer<i8>,
);

const CMP: &[Comparison] = &[
    (
        "cases_of_cmp",
        (&[], &[Leaf(b"\x80")], &[Leaf(b"a")]),
        None,
        NONE,
        Ok(1),
    ),
    (
        "cases_of_cmp",
        (&[], &[Leaf(b"ab")], &[Leaf(b"abc")]),
        None,
        NONE,
        Ok(-1),
    ),
    (
        "a_run_of_the_longest_length_is_compared_at_once",
        (LONGEST_RUN, &[], &[]),
        None,
        NONE,
        Ok(0),
    ),
    (
        "a_run_of_the_longest_length_is_compared_at_once",
        (&[], SHORTER_RUN, LONGEST_RUN),
        None,
        NONE,
        Ok(-1),
    ),
    (
        "a_run_of_the_longest_length_is_compared_at_once",
        (&[], LONGEST_RUN, SHORTER_RUN),
        None,
        NONE,
        Ok(1),
    ),
    (
        "a_read_of_two_ranges_fails_in_the_middle",
        (&[], &[Func(0, 590)], &[Func(10, 590)]),
        None,
        (2, u64::MAX),
        Err(FAILED),
    ),
    (
        "a_read_of_two_ranges_fails_in_the_middle",
        (&[], &[Func(0, 590)], &[Func(10, 590)]),
        None,
        (4, u64::MAX),
        Ok(0),
    ),
    (
        "what_both_share_is_passed_over",
        (DOUBLED, THEN_X, THEN_Y),
        None,
        NONE,
        Ok(-1),
    ),
    (
        "what_both_share_is_passed_over",
        (DOUBLED, THEN_Y, THEN_X),
        None,
        NONE,
        Ok(1),
    ),
    (
        "what_both_share_is_passed_over",
        (&[Leaf(&[b'a'; 64]), Twice(33), Leaf(b"x")], &[], &[]),
        None,
        NONE,
        Ok(0),
    ),
    (
        "equal_ranges_of_a_source_need_no_read",
        (&[], &[Func(7, 500)], &[Func(7, 500)]),
        None,
        NONE,
        Ok(0),
    ),
    (
        "equal_ranges_of_a_source_need_no_read",
        (&[], &[Func(7, 499)], &[Func(7, 500)]),
        None,
        NONE,
        Ok(-1),
    ),
    (
        "nothing_is_read_past_a_prefix",
        (&[], SOURCE, &[Leaf(b"xxy")]),
        None,
        (u64::MAX, 3),
        Ok(-1),
    ),
    (
        "nothing_is_read_past_a_prefix",
        (&[], &[Leaf(b"xxy")], SOURCE),
        None,
        (u64::MAX, 3),
        Ok(1),
    ),
    (
        "cases_of_ncmp",
        (&[], &[Leaf(b"abcx")], &[Leaf(b"zabcy")]),
        Some((0, 1, 3)),
        NONE,
        Ok(0),
    ),
    (
        "cases_of_ncmp",
        (&[], &[Leaf(b"abcx")], &[Leaf(b"zabcy")]),
        Some((0, 1, 4)),
        NONE,
        Ok(-1),
    ),
    (
        "what_both_share_is_passed_over",
        (DOUBLED, THEN_X, THEN_Y),
        Some((0, 0, DOUBLED_LEN)),
        NONE,
        Ok(0),
    ),
    (
        "what_both_share_is_passed_over",
        (DOUBLED, THEN_X, THEN_Y),
        Some((5, DOUBLED_LEN + 5, MAX_LEN)),
        NONE,
        Ok(-1),
    ),
    (
        "unequal_places_of_a_shared_node_differ",
        (ABABC, &[], &[]),
        Some((0, 1, 2)),
        NONE,
        Ok(-1),
    ),
    (
        "unequal_places_of_a_shared_node_differ",
        (ABABC, &[], &[]),
        Some((2, 0, 3)),
        NONE,
        Ok(1),
    ),
    (
        "unequal_places_of_a_shared_node_differ",
        (ABABC, &[], &[]),
        Some((2, 0, 2)),
        NONE,
        Ok(0),
    ),
    (
        "equal_ranges_of_a_source_need_no_read",
        (&[], &[Func(7, 500)], &[Func(7, 499)]),
        Some((3, 3, MAX_LEN)),
        NONE,
        Ok(1),
    ),
    (
        "nothing_is_read_past_what_is_compared",
        (SOURCE, &[], &[]),
        Some((300, 0, 5)),
        (u64::MAX, 305),
        Ok(0),
    ),
    (
        "nothing_is_read_past_what_is_compared",
        (SOURCE, &[], &[]),
        Some((300, 0, 5)),
        (u64::MAX, 304),
        Err(FAILED),
    ),
];

#[test]
fn cases_of_str(rt: HostRuntime) {
    for &(name, parts, from, pattern, reads, answer) in STR {
        let cord = made(&rt, rt.alloc(), parts);
        let pattern = made(&rt, rt.alloc(), pattern);
        let found = str(&cord, from, &pattern, &mut six_hundred((reads, u64::MAX)));
        expect_case(&rt, found == answer, name, from);
    }
}

#[test]
fn cases_of_cmp(rt: HostRuntime) {
    for &(name, (shared, left, right), range, reads, answer) in CMP {
        let shared = made(&rt, rt.alloc(), shared);
        let left = longer(&rt, rt.alloc(), &shared, left);
        let right = longer(&rt, rt.alloc(), &shared, right);
        let mut source = six_hundred(reads);
        let compared = match range {
            None => cmp(&left, &right, &mut source),
            Some((i, j, count)) => ncmp(&left, i, &right, j, count, &mut source),
        };
        expect_case(&rt, compared == answer, name, left.len());
    }
}
