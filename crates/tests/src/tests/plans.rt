// Plans of worked scripts, as they are printed, against texts that were written by hand.
use super::refused::plans::{expect_printed, plan_of};
use super::refused::scripts::parsed;
use cord_io::{MemFiles, MemSink};
use cord_run::{End, run};

const HELLO: &[u8] = b"let x \"hello\"\nput x\n";

const SEAM: &[u8] = b"let a \"abc\"\nlet b \"def\"\ncat t a b\nsubstr z t 2 3\nput z\n";

// A name, a script, and what its plan shows.
const PLANNED: &[(&str, &[u8], &[u8])] = &[
    ("hello", HELLO, b"1 build x literal(5)\n2 write x\n"),
    (
        "substr-over-seam",
        SEAM,
        b"1 build a literal(3)\n2 build b literal(3)\n3 measure t cat(a b)\n4 measure z sub(cat(a b) 2 3)\n\
            5 write sub(cat(a b) 2 3)\n",
    ),
    (
        "loop-reads-next-turn",
        b"let x \"\"\nrepeat 3\nput x\ncatc x x 65\nend\n",
        b"1 build x literal(0)\n2 repeat 3\n3 write x\n4 build x cat(x run(65 1))\n5 end\n",
    ),
    (
        "substr-of-unread-cat-too-long",
        b"chars a 0 1099511627775\nlet b \"b\"\ncat t a b\nsubstr z t 0 1\nput b\n",
        b"1 measure a run(0 1099511627775)\n2 build b literal(1)\n3 measure t cat(run(0 1099511627775) b)\n\
            4 measure z sub(cat(run(0 1099511627775) b) 0 1)\n5 write b\n",
    ),
    (
        "operand-assigned-between",
        b"let a \"a\"\nlet b \"b\"\ncat t a b\nlet a \"z\"\nsubstr z t 0 2\nput z\n",
        b"1 build a literal(1)\n2 build b literal(1)\n3 build t cat(a b)\n4 measure a literal(1)\n\
            5 measure z sub(t 0 2)\n6 write sub(t 0 2)\n",
    ),
    (
        "eager-unread-planned",
        b"eager x \"p\"\nlet y \"a\"\nput y\n",
        b"1 measure x eager(\"p\")\n2 build y literal(1)\n3 write y\n",
    ),
    (
        "if-else-both-assign",
        b"let x \"a\"\nlen n x\nif n eq 1\nlet x \"b\"\nelse\nlet x \"c\"\nend\nput x\n",
        b"1 measure x literal(1)\n2 number n len(x)\n3 if n eq 1\n4 build x literal(1)\n5 else\n\
            6 build x literal(1)\n7 end\n8 write x\n",
    ),
    (
        "if-without-else-keeps",
        b"let x \"a\"\nlen n x\nif n gt 1\nlet x \"b\"\nend\nput x\n",
        b"1 build x literal(1)\n2 number n len(x)\n3 if n gt 1\n4 build x literal(1)\n5 end\n6 write x\n",
    ),
    (
        "paths-and-negative-numbers",
        b"file f \"a\\\"\\\\\xc3\x88\"\nset n -9223372036854775808\nadd n -1 0\n",
        b"1 measure f file(\"a\\x22\\x5c\\xc3\\x88\")\n2 number n set(-9223372036854775808)\n3 number n add(-1 0)\n",
    ),
];

// A name, a script, and what its trivial plan shows.
const UNPLANNED: &[(&str, &[u8], &[u8])] = &[
    ("hello", HELLO, b"1 build x literal(5)\n2 write x\n"),
    (
        "substr-over-seam",
        SEAM,
        b"1 build a literal(3)\n2 build b literal(3)\n3 build t cat(a b)\n4 build z sub(t 2 3)\n5 write z\n",
    ),
    (
        "loop-reads-next-turn",
        b"let x \"\"\nrepeat 3\nput x\ncatc x x 65\nend\n",
        b"1 build x literal(0)\n2 repeat 3\n3 write x\n4 build x cat(x run(65 1))\n5 end\n",
    ),
    (
        "a-loop-and-a-branch",
        b"let x \"a\"\nrepeat 3\nput x\ncatc x x 65\nend\nlen n x\nif n gt 1\nelse\nend\n",
        b"1 build x literal(1)\n2 repeat 3\n3 write x\n4 build x cat(x run(65 1))\n5 end\n6 number n len(x)\n\
            7 if n gt 1\n8 else\n9 end\n",
    ),
];

#[test]
fn plans_of_cases(rt: HostRuntime) {
    for (cases, is_planned) in [(PLANNED, true), (UNPLANNED, false)] {
        for &(name, script, printed) in cases {
            let script = parsed(&rt, rt.alloc(), script, usize::MAX);
            let plan = plan_of(rt.alloc(), &script, is_planned).expect(&rt, "no memory");
            expect_printed(&rt, rt.alloc(), name, &plan, printed);
        }
    }
}

#[test]
fn parse_plan_run(rt: HostRuntime) {
    let alloc = rt.alloc();
    let script = parsed(&rt, alloc, HELLO, 2);
    assert!(rt; script.statements().len() == 2);
    for is_planned in [true, false] {
        let plan = plan_of(alloc, &script, is_planned).expect(&rt, "no memory");
        let mut written = MemSink::new(alloc);
        let end = run(alloc, &plan, MemFiles::new(alloc), &mut written).0;
        assert!(rt; end == End::Done && written.bytes() == b"hello".as_slice());
    }
}
