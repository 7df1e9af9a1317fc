//! A report: records as an aligned table, in pages, with a total.
//!
//! `examples report` takes records from standard input. A record is a line `NAME,COUNT,PRICE`, the price in cents:
//!
//! ```text
//! apples,120,35
//! ```
//!
//! The report has five rows a page. Each page has a head with its number and that of all pages, and ends with the sum
//! so far; the last one ends with the total, and after it come the lines that are no records, each with what is wrong.
//!
//! What it shows of the library:
//!
//! - A `Format` is read once and printed as often as there are rows. `%-19.19s` cuts and fills a text, so columns stand
//!   in line whatever the names are.
//! - A `TextBuilder` gathers many small pieces, at about a byte of memory for a byte.
//! - The head of the first page has the number of all pages, which is known at the end alone. That is no trouble for a
//!   text of shared parts: the pages are joined to their heads then, and no row is copied.
//! - Contracts say what a row is: `Layout::row` ensures that it is the text of its format with the record's values, and
//!   `Report::add` that the total grows by the record's amount.

mod layout;
mod pages;
mod record;

use anyhow::Result;
use cord::StdSink;
use pages::Report;

/// Takes all lines of standard input, and writes their report.
fn take_input(rt: &HostRuntime, report: &mut Report) -> Result<()> {
    let alloc = rt.alloc();
    for line in rt.lines(alloc) {
        let line = line?;
        report.take(alloc, line.as_str())?;
    }
    let text = report.finish(alloc)?;
    text.put(&mut StdSink::new(rt.stdout()))?;
    Ok(())
}

/// Reports the records of standard input.
pub fn run(rt: &HostRuntime) -> Result<()> {
    let mut report = Report::new(rt.alloc())?;
    take_input(rt, &mut report)
}
