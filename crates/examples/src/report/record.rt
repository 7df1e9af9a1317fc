//! Records.
ghost use Rattle.std.specs.Prelude.{◌≡◌};
ghost use Rattle.examples.specs.Records.{amount_of};

use thiserror::Error;

/// So many of something, each at a price in cents.
#[derive(Clone, Copy)]
pub struct Record<'a> {
    pub name: &'a str,
    pub count: u32,
    pub price: u32,
}

/// What is wrong with a line that is no record.
#[derive(Clone, Copy, Debug, Error)]
pub enum FirstError {
    #[error("NAME,COUNT,PRICE is wanted")]
    Fields,
    #[error("the count is no number")]
    Count,
    #[error("the price is no number of cents")]
    Price,
}

impl<'a> Record<'a> {
    /// Reads a line `NAME,COUNT,PRICE`.
    pub fn parse(line: &'a str) -> Result<Record<'a>, FirstError> {
        let (name, numbers) = line.split_once(',').ok_or(FirstError::Fields)?;
        let (count, price) = numbers.split_once(',').ok_or(FirstError::Fields)?;
        Ok(Record {
            name,
            count: count.parse().map_err(|_| FirstError::Count)?,
            price: price.parse().map_err(|_| FirstError::Price)?,
        })
    }

    /// What all of it costs, in cents.
    pub fn amount(&self) -> u64
        ensures { result ≡ amount_of self.now }
    {
        u64::from(self.count) * u64::from(self.price)
    }
}
