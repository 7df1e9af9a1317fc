// Cases of worked examples.
use super::cases::expect_case;
use super::refused::nodes::leaf_of;
use super::trees::{Shape, is_node};
use cord_balance::{balance_parts, fib, slot_of};
use cord_io::MAX_LEN;
use cord_node::run;

// A length and its slot.
const SLOTS: &[(u64, u32)] = &[
    (1, 2),
    (2, 3),
    (4, 4),
    (4_294_967_295, 47),
    (1_099_511_627_775, 59),
];

// An index and its Fibonacci number.
const NUMBERS: &[(u32, u64)] = &[
    (2, 1),
    (3, 2),
    (10, 55),
    (59, 956_722_026_041),
    (60, 1_548_008_755_920),
];

#[test]
fn slots_and_balance(rt: HostRuntime) {
    for &(len, slot) in SLOTS {
        assert!(rt; 0 < len && len <= MAX_LEN);
        expect_case(&rt, slot_of(len) == slot, "the slot", len);
    }
    for &(index, number) in NUMBERS {
        assert!(rt; index <= 60);
        expect_case(&rt, fib(index) == number, "the number", number);
    }
    let alloc = rt.alloc();
    let ropes = [
        leaf_of(&rt, alloc, &[5; 100]),
        leaf_of(&rt, alloc, &[5; 100]),
        leaf_of(&rt, alloc, &[5; 100]),
    ];
    let rope = balance_parts(alloc, &ropes).expect(&rt, "no memory");
    assert!(rt; rope.len() == 300);
    assert!(rt; rope.depth() <= 13);
    let longest = [run(alloc, 9, MAX_LEN).expect(&rt, "no memory")];
    let one_part = balance_parts(alloc, &longest).expect(&rt, "no memory");
    assert!(rt; is_node(&one_part, &Shape::Run(9, MAX_LEN)));
}
