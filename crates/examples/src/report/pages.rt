//! Reports that grow by records.
ghost use Rattle.std.specs.Prelude.{◌≡◌, ◌+◌, ◌≤◌, OnOk};
ghost use Rattle.examples.specs.Records.{amount_of};
ghost use Rattle.examples.specs.declared.report.pages.TheConstants.{ROWS_PER_PAGE};

use super::layout::Layout;
use super::record::{FirstError, Record};
use anyhow::{Context, Result};
use cord::{CordError, Text, TextBuilder};
use std::alloc::Global;

const ROWS_PER_PAGE: u32 = 5;

/// The pages of a report, and the page that grows.
#[derive(Drop)]
pub struct Report {
    layout: Layout,
    pages: Vec<Text>,
    page: TextBuilder,
    rows: u32,
    total: u64,
    notes: TextBuilder,
    ghost fits_a_page: { rows ≤ ROWS_PER_PAGE },
}

impl Report {
    /// The report of no records. Refused only when out of memory.
    pub fn new(alloc: Global) -> Result<Report> {
        Ok(Report {
            pages: Vec::new(alloc),
            page: TextBuilder::new(alloc)?,
            rows: 0,
            total: 0,
            notes: TextBuilder::new(alloc)?,
            layout: Layout::new(alloc)?,
        })
    }

    /// Takes a line: a record becomes a row, and any other line is kept, to be reported at the end.
    pub fn take(&mut self, alloc: Global, line: &str) -> Result<()> {
        match Record::parse(line) {
            Ok(record) => self.add(alloc, &record)?,
            Err(first_error) => self.note(alloc, line, &first_error)?,
        }
        Ok(())
    }

    /// Adds a row, on a new page where this one is full.
    fn add(&mut self, alloc: Global, entry: &Record<'_>) -> Result<()>
        ensures { OnOk result (self.new.total ≡ self.old.total + amount_of entry.now) }
    {
        if self.rows == ROWS_PER_PAGE {
            self.end_page(alloc, "Carried forward")?;
        }
        let total = self.total.checked_add(entry.amount());
        self.page.push_text(alloc, &self.layout.row(alloc, entry)?)?;
        self.rows += 1;
        self.total = total.context("the total is too great")?;
        Ok(())
    }

    /// Keeps a line that is no record.
    fn note(
        &mut self,
        alloc: Global,
        line: &str,
        first_error: &FirstError,
    ) -> Result<(), CordError> {
        let note = format!(in alloc; "{line}: {first_error}\n")?;
        self.notes.push_bytes(alloc, note.as_bytes())
    }

    /// Ends the page with the sum so far, and begins another one.
    fn end_page(&mut self, alloc: Global, label: &str) -> Result<()>
        ensures total { self.new.total ≡ self.old.total }
        ensures rows { OnOk result (self.new.rows ≡ 0) }
    {
        let sum = self.layout.sum(alloc, label, self.total)?;
        self.page.push_text(alloc, &sum)?;
        self.pages.push(self.page.to_text(alloc)?)?;
        self.page = TextBuilder::new(alloc)?;
        self.rows = 0;
        Ok(())
    }

    /// The whole report: each page under its head, and then the notes.
    pub fn finish(&mut self, alloc: Global) -> Result<Text> {
        self.end_page(alloc, "Total")?;
        self.whole(alloc)
    }

    /// The text of all pages that have ended.
    fn whole(&mut self, alloc: Global) -> Result<Text> {
        let mut report = TextBuilder::new(alloc)?;
        self.put_all(alloc, &mut report)?;
        Ok(report.to_text(alloc)?)
    }

    /// Adds each page under its head, and then the notes, to a report.
    fn put_all(&mut self, alloc: Global, report: &mut TextBuilder) -> Result<()> {
        let pages = u32::try_from(self.pages.len())?;
        for (page, number) in self.pages.iter().zip(1..=pages) {
            report.push_text(alloc, &self.layout.head(alloc, number, pages)?)?;
            report.push_text(alloc, page)?;
        }
        let notes = self.notes.to_text(alloc)?;
        report.push_text(alloc, &notes)?;
        Ok(())
    }
}
