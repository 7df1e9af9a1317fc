//! Scripts: each is read whole, or refused at a line of it.
use cord_script::{RefusalKind, Script, parse};
use std::alloc::Global;
use std::process::Abort;

/// What a script of at most so many lines says: where it was refused when out of memory, that was at one of them.
pub fn parsed(rt: &impl Abort, alloc: Global, script: &[u8], lines: usize) -> Script {
    match parse(alloc, script) {
        Ok(read) => read,
        Err(refusal) => {
            assert!(rt; refusal.kind == RefusalKind::NoMemory && refusal.kind.code() == 16);
            assert!(rt; refusal.line >= 1 && refusal.line as usize <= lines);
            parse(alloc, script).expect(rt, "memory")
        }
    }
}

/// What a script says that has so many lines, each a statement.
pub fn read(rt: &impl Abort, alloc: Global, script: &str, lines: usize) -> Script {
    let read = parsed(rt, alloc, script.as_bytes(), lines);
    assert!(rt; read.statements().len() == lines);
    read
}

// Scripts, and how many lines each has: of blocks, numbers, prints, files, searches and extensible cords.
const SCRIPTS: &[(&str, usize)] = &[
    (
        "let x \"a\"\nrepeat 2\nlen n x\nif n eq 1\nlet x \"b\"\nelse\nlet x \"c\"\nend\nend\nput x",
        10,
    ),
    (
        "set n 9223372036854775807\nadd n n 1\nsub m n -1\nchars a 65 3\nnul b 2\nfn d digits 12\nsubstr z d 8 3",
        7,
    ),
    (
        "let h \"hello\"\nsprintf z \"%5.2r|%-4d|%05d|%.0d|%%\" h 7 -7 0\nput z",
        3,
    ),
    (
        "file x \"p\"\neager y \"q\"\nlazy z \"p\"\ncatn a x y z\ncatc a a 33\nbalance a a\nput a",
        7,
    ),
    (
        "let x \"abcx\"\nlet y \"zabcy\"\nfetch n x 0\ncmp n x y\nncmp n x 0 y 1 3\nstr n x 0 y\nchr n x 0 99\n\
            rchr n x 3 99",
        8,
    ),
    (
        "ecinit e\necstr e \"ab\"\necput e 67\nectocord z e\neccat e z\ncat z z z\nput z",
        7,
    ),
];

#[test]
fn refused_parse(rt: HostRuntime) {
    for &(script, lines) in SCRIPTS {
        read(&rt, rt.alloc(), script, lines);
    }
}
