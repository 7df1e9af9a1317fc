//! Scripts of which it is known what each line puts, for runs that stop on their way.

/// A script in which no loop puts, how many lines it has, the line and the bytes of each `put`, and the bytes of the
/// file beside it.
#[derive(Drop)]
pub struct Run<'a> {
    pub script: &'a str,
    pub lines: u32,
    pub puts: &'a [(u32, &'a [u8])],
    pub file: &'a [u8],
}

// sprintf-pads
pub const PADS: Run<'static> = Run {
    script: "let h \"hello\"\nsprintf z \"%5.2r|%-4d|%05d|%.0d|%%\" h 7 -7 0\nput z\n",
    lines: 3,
    puts: &[(3, b"   he|7   |-0007||%")],
    file: b"",
};

// file-twice
pub const FILE_TWICE: Run<'static> = Run {
    script: "file x \"p\"\nput x\nput x\n",
    lines: 3,
    puts: &[(2, b"line\n"), (3, b"line\n")],
    file: b"line\n",
};

// ec-statements
const EXTENSIBLE: Run<'static> = Run {
    script: "ecinit e\necstr e \"ab\"\necput e 67\nectocord z e\necput e 68\nput z\nectocord y e\nput y\n",
    lines: 8,
    puts: &[(6, b"abC"), (8, b"abCD")],
    file: b"",
};

// substr-over-seam
pub const SEAM: Run<'static> = Run {
    script: "let a \"abc\"\nlet b \"def\"\ncat t a b\nsubstr z t 2 3\nput z\n",
    lines: 5,
    puts: &[(5, b"cde")],
    file: b"",
};

/// Runs in which a device fails at each of its calls, and the most bytes of a call.
pub const FUSED: &[(Run<'static>, u64)] = &[
    (PADS, 1),
    (PADS, 3),
    (PADS, 4_096),
    (FILE_TWICE, 1),
    (FILE_TWICE, 3),
    (FILE_TWICE, 4_096),
    (EXTENSIBLE, 1),
    (EXTENSIBLE, 3),
    (EXTENSIBLE, 4_096),
];

/// A line after all others: before it all is put.
pub const END: u32 = u32::MAX;

/// Whether bytes are what the lines before this one put, and then a prefix of what it puts itself.
pub fn are_put(run: &Run, line: u32, bytes: &[u8]) -> bool {
    let mut rest = bytes;
    for (at, text) in run.puts {
        if *at >= line {
            return rest.is_empty() || (*at == line && text.starts_with(rest));
        }
        match rest.strip_prefix(*text) {
            Some(after) => rest = after,
            None => return false,
        }
    }
    rest.is_empty()
}
