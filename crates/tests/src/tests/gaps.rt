// What the tree of a text with a gap shows of the gap.
use super::cases::expect_case;
use super::trees::{expect_text, part_of, run_of};
use cord_edit::EditBuffer;

// How many bytes are typed one after another into a run, from the place 5 on, and how deep they are: a gap is one leaf,
// and one that is full moves on.
const TYPED: &[(u64, u32)] = &[(4_096, 0), (4_097, 1)];

#[test]
fn typed_bytes(rt: HostRuntime) {
    let alloc = rt.alloc();
    for &(count, depth) in TYPED {
        let run = run_of(&rt, alloc, 65, 10);
        let mut buffer = EditBuffer::of(alloc, &run).expect(&rt, "no memory");
        for turn in 0..count {
            let place = turn.saturating_add(5);
            buffer.insert(alloc, place, b"a").expect(&rt, "no memory");
        }
        let cord = buffer.to_cord(alloc).expect(&rt, "no memory");
        let part = part_of(&rt, alloc, &cord, 5, count);
        let bytes = Vec::from_elem(alloc, 97, count as usize).expect(&rt, "no memory");
        expect_case(&rt, cord.len() == count.saturating_add(10), "typed", count);
        expect_case(&rt, part.depth() == depth, "depth", count);
        expect_text(&rt, &part, &bytes);
    }
}
