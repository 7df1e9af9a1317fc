//! A text assembler: it puts a text together from a template, files and values, and writes a part of it.
//!
//! `examples assembler TEMPLATE FROM COUNT [NAME=VALUE]..` writes COUNT bytes of the text, from byte FROM on. The
//! template is a text in which braces stand for something else:
//!
//! | in the template | in the text |
//! |---|---|
//! | `{NAME}` | the value that is given for NAME |
//! | `{include PATH}` | the file at PATH |
//! | `{repeat TIMES PATH}` | the file at PATH, so many times |
//!
//! `data` has a template whose text is 560 gigabytes long, and the words in the file `args` ask for the
//! last lines of it. `rt ci` runs that; by hand it is
//!
//! ```text
//! rt try --data letter.txt=data/letter.txt --data line.txt=data/line.txt --data foot.txt=data/foot.txt \
//!     -- assembler letter.txt 0 200 name=Ada station=7 count=10000000000
//! ```
//!
//! What it shows of the library, and how it scales:
//!
//! - `Sources` gives files as sources by number, of which nothing is read before it is wanted. A cord over a source is
//!   one node, whatever the length of the file.
//! - A text that stands n times is made by doubling and shares itself: at most two nodes for each bit of n. So the text
//!   of 560 gigabytes is about fifty nodes.
//! - A range of it is cut by going down from the root once, and `put` writes it in pieces of at most 128 KiB, so memory
//!   stays the same whether a line is written or all.
//! - The contract of `write_range` says what is written, over any files: that range of the meaning of the template's
//!   segments.

mod assemble;
mod template;

use anyhow::{Result, bail};
use assemble::write_range;
use cord::{DiskFiles, Files, Sources, StdSink};
use std::fs;
use template::parse;

/// Writes COUNT bytes of the text of a template, from byte FROM on.
fn write_part<F: Files>(
    rt: &HostRuntime,
    sources: &mut Sources<F>,
    path: &str,
    values: &[String],
    from: u64,
    count: u64,
) -> Result<()> {
    let alloc = rt.alloc();
    let template = fs::read_to_string(rt, path)?;
    let segments = parse(alloc, template.as_str(), values, sources)?;
    let mut out = StdSink::new(rt.stdout());
    write_range(alloc, sources, &segments, from, count, &mut out)?;
    Ok(())
}

/// Does what the words of the command line say.
pub fn run(rt: &HostRuntime, words: &[String]) -> Result<()> {
    let [path, from, count, values @ ..] = words else {
        bail!("usage: examples assembler TEMPLATE FROM COUNT [NAME=VALUE]..");
    };
    let (from, count) = (from.parse::<u64>()?, count.parse::<u64>()?);
    let files = DiskFiles::new(rt.clone()?, rt.alloc());
    let Ok(mut sources) = Sources::new(rt.alloc(), files) else {
        bail!("no memory");
    };
    write_part(rt, &mut sources, path.as_str(), values, from, count)
}
