//! Three programs over the library, each to be read by itself: an [editor](editor.rt), a [report](report.rt) and a text
//! [assembler](assembler.rt).
//!
//! `examples editor`, `examples report` and `examples assembler WORD..` run one of them. With other words all three are
//! run, one after the other: the editor takes the lines of standard input up to `quit`, the report takes those after
//! it, and the assembler the words.
#![tactic(auto)]

mod assembler;
mod editor;
mod report;

use anyhow::Result;
use std::env;

/// Runs the program that the first word names, and all three where it names none.
fn run(rt: &HostRuntime, words: &[String]) -> Result<()> {
    match words {
        [name] if name.as_str() == "editor" => editor::run(rt),
        [name] if name.as_str() == "report" => report::run(rt),
        [name, others @ ..] if name.as_str() == "assembler" => assembler::run(rt, others),
        _ => run_all(rt, words),
    }
}

/// Runs all three programs, one after the other.
fn run_all(rt: &HostRuntime, words: &[String]) -> Result<()> {
    editor::run(rt)?;
    report::run(rt)?;
    assembler::run(rt, words)
}

fn main(rt: HostRuntime) -> Result<()> {
    let words: Vec<String> = env::args(&rt)?.skip(1).collect(rt.alloc())?;
    run(&rt, &words)
}
