//! Plans: made, printed, and their jumps.
use super::super::cases::expect_equal;
use super::answers::expect_no_memory;
use super::scripts::read;
use cord_io::{CordError, MemSink, Sink};
use cord_plan::{Plan, plan};
use cord_script::Script;
use std::alloc::Global;
use std::process::Abort;

// A script, how many lines it has, and what its plan and its trivial plan show.
#[derive(Drop)]
struct Planned {
    script: &'static str,
    lines: usize,
    planned: &'static [u8],
    unplanned: &'static [u8],
}

const SEAM: Planned = Planned {
    script: "let a \"abc\"\nlet b \"def\"\ncat t a b\nsubstr z t 2 3\nput z",
    lines: 5,
    planned: b"1 build a literal(3)\n2 build b literal(3)\n3 measure t cat(a b)\n4 measure z sub(cat(a b) 2 3)\n\
        5 write sub(cat(a b) 2 3)\n",
    unplanned: b"1 build a literal(3)\n2 build b literal(3)\n3 build t cat(a b)\n4 build z sub(t 2 3)\n5 write z\n",
};

const NEXT_TURN: Planned = Planned {
    script: "let x \"\"\nrepeat 3\nput x\ncatc x x 65\nend",
    lines: 5,
    planned: b"1 build x literal(0)\n2 repeat 3\n3 write x\n4 build x cat(x run(65 1))\n5 end\n",
    unplanned: b"1 build x literal(0)\n2 repeat 3\n3 write x\n4 build x cat(x run(65 1))\n5 end\n",
};

const BOTH_ASSIGN: Planned = Planned {
    script: "let x \"a\"\nlen n x\nif n eq 1\nlet x \"b\"\nelse\nlet x \"c\"\nend\nput x",
    lines: 8,
    planned: b"1 measure x literal(1)\n2 number n len(x)\n3 if n eq 1\n4 build x literal(1)\n5 else\n\
        6 build x literal(1)\n7 end\n8 write x\n",
    unplanned: b"1 build x literal(1)\n2 number n len(x)\n3 if n eq 1\n4 build x literal(1)\n5 else\n\
        6 build x literal(1)\n7 end\n8 write x\n",
};

/// That a plan shows a text to a new sink.
pub fn expect_printed(rt: &impl Abort, alloc: Global, name: &str, plan: &Plan, text: &[u8]) {
    let mut sink = MemSink::new(alloc);
    assert!(rt;
        plan.show(&mut sink) == Ok(()) && sink.bytes() == text,
        "{name}"
    );
}

// That the plan of a case, or its trivial plan, shows a text, to another sink where the first one found no memory and
// has taken a prefix of it.
fn expect_shows(rt: &impl Abort, alloc: Global, case: &Planned, plan: &Plan, text: &[u8]) {
    let mut sink = MemSink::new(alloc);
    let answer = plan.show(&mut sink);
    if answer.is_ok() {
        expect_equal(rt, sink.bytes(), text);
    } else {
        assert!(rt; answer == Err(CordError::WriteFailed) && sink.failures() == 1);
        assert!(rt; text.starts_with(sink.bytes()));
        expect_printed(rt, alloc, case.script, plan, text);
    }
}

/// The plan of a script, or the one that has each line as it stands.
pub fn plan_of(alloc: Global, script: &Script, is_planned: bool) -> Result<Plan, CordError> {
    if is_planned {
        plan(alloc, script)
    } else {
        Plan::trivial(alloc, script)
    }
}

// Makes the plan of a script, or the trivial one. A script of which a plan was refused still has all of its statements,
// as its trivial plan shows them.
fn expect_plan(rt: &impl Abort, alloc: Global, case: &Planned, is_planned: bool) {
    let script = read(rt, alloc, case.script, case.lines);
    let made = match plan_of(alloc, &script, is_planned) {
        Ok(made) => made,
        Err(error) => {
            expect_no_memory(rt, error);
            assert!(rt; script.statements().len() == case.lines);
            let unplanned = Plan::trivial(alloc, &script).expect(rt, "memory");
            expect_printed(rt, alloc, case.script, &unplanned, case.unplanned);
            plan_of(alloc, &script, is_planned).expect(rt, "memory")
        }
    };
    let text = if is_planned {
        case.planned
    } else {
        case.unplanned
    };
    expect_shows(rt, alloc, case, &made, text);
}

#[test]
fn refused_plans(rt: HostRuntime) {
    for case in &[SEAM, NEXT_TURN, BOTH_ASSIGN] {
        expect_plan(&rt, rt.alloc(), case, true);
        expect_plan(&rt, rt.alloc(), case, false);
    }
}

const BLOCKS: Planned = Planned {
    script: "let x \"a\"\nrepeat 2\nlen n x\nif n eq 1\nlet x \"b\"\nelse\nlet x \"c\"\nend\nif n gt 1\nput x\nend\nend\n\
        put x",
    lines: 13,
    planned: b"",
    unplanned: b"1 build x literal(1)\n2 repeat 2\n3 number n len(x)\n4 if n eq 1\n5 build x literal(1)\n6 else\n\
        7 build x literal(1)\n8 end\n9 if n gt 1\n10 write x\n11 end\n12 end\n13 write x\n",
};

// A `repeat` leads after its `end`, an `if` after its `else` or to its `end`, an `else` to its `end`, and any other to
// the next place.
#[test]
fn refused_jumps(rt: HostRuntime) {
    let alloc = rt.alloc();
    let script = read(&rt, alloc, BLOCKS.script, BLOCKS.lines);
    let made = again!(&rt, Plan::trivial(alloc, &script));
    let jumps = match made.jumps(alloc) {
        Ok(jumps) => jumps,
        Err(error) => {
            expect_no_memory(&rt, error);
            expect_printed(&rt, alloc, BLOCKS.script, &made, BLOCKS.unplanned);
            made.jumps(alloc).expect(&rt, "memory")
        }
    };
    let expected: [usize; 13] = [1, 12, 3, 6, 5, 7, 7, 8, 10, 10, 11, 12, 13];
    assert!(rt; jumps.as_slice() == expected.as_slice());
}
