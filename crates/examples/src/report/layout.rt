//! The lines of a report, by their formats.
ghost use Rattle.std.specs.Prelude.{◌≡◌, IfOk};
ghost use Rattle.cord_printf.specs.PieceText.{printed};
ghost use Rattle.examples.specs.Records.{row_arguments};

use super::record::Record;
use anyhow::Result;
use cord::{Format, FormatError, PrintError, Text, TextArg};
use std::alloc::Global;

const HEAD: &[u8] = b"Fruit sold                           page %2u of %2u\n\
    Name                 Count      Price       Amount\n\
    --------------------------------------------------\n";

const ROW: &[u8] = b"%-19.19s %6u %7u.%02u %9u.%02u\n";

const SUM: &[u8] = b"--------------------------------------------------\n\
    %-36s %10u.%02u\n\
    \n";

/// The formats of the lines, each of 50 bytes. An amount is printed as its whole part and its hundredths.
#[derive(Drop)]
pub struct Layout {
    pub head: Format,
    pub row: Format,
    pub sum: Format,
}

impl Layout {
    /// Reads the formats. Refused only when out of memory.
    pub fn new(alloc: Global) -> Result<Layout, FormatError> {
        Ok(Layout {
            head: Format::parse(alloc, HEAD)?,
            row: Format::parse(alloc, ROW)?,
            sum: Format::parse(alloc, SUM)?,
        })
    }

    /// The head of a page, and of how many: three lines.
    pub fn head(&self, alloc: Global, page: u32, pages: u32) -> Result<Text, PrintError> {
        let args = [TextArg::Num(page.into()), TextArg::Num(pages.into())];
        Text::print(alloc, &self.head, &args)
    }

    /// The row of a record.
    pub fn row(&self, alloc: Global, entry: &Record<'_>) -> Result<Text>
        ensures { IfOk result (λ t. t ≡ printed (λ b. b) self.now.row (row_arguments entry.now)) }
    {
        let name = Text::from_str(alloc, entry.name)?;
        let amount = entry.amount();
        let args = [
            TextArg::Text(&name),
            TextArg::Num(entry.count.into()),
            TextArg::Num((entry.price / 100).into()),
            TextArg::Num((entry.price % 100).into()),
            TextArg::Num((amount / 100) as i64),
            TextArg::Num((amount % 100) as i64),
        ];
        Ok(Text::print(alloc, &self.row, &args)?)
    }

    /// The end of a page: a sum of cents under a rule, and an empty line.
    pub fn sum(&self, alloc: Global, label: &str, cents: u64) -> Result<Text> {
        let label = Text::from_str(alloc, label)?;
        let args = [
            TextArg::Text(&label),
            TextArg::Num((cents / 100) as i64),
            TextArg::Num((cents % 100) as i64),
        ];
        Ok(Text::print(alloc, &self.sum, &args)?)
    }
}
