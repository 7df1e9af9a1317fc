//! Worked examples of the library's calls, of scripts, of their plans and of runs, through the public calls of the
//! crates that they try, and the calls of all crates with each allocation refused. They stand in a crate of their own,
//! since tests inside a crate have all of it proved a second time.
#![tactic(auto)]

ghost use Rattle.std.specs.Prelude.{◌≡◌, ◌++◌, replicate, IfOk};

use cord::Text;
use cord_io::CordError;
use std::alloc::{AllocError, Global};

/// A text of these bytes. Refused where no memory is found.
pub fn text_of(alloc: Global, bytes: &[u8]) -> Result<Text, CordError>
    ensures text { IfOk result (λ t. t ≡ bytes.now) }
{
    Text::from_bytes(alloc, bytes)
}

/// A text, and so many copies of a byte after it. Refused where no memory is found.
pub fn filled(alloc: Global, text: &[u8], byte: u8, count: usize) -> Result<Vec<u8>, AllocError>
    ensures { IfOk result (λ bytes. bytes.items ≡ text.now ++ replicate count byte) }
{
    let copies = Vec::from_elem(alloc, byte, count)?;
    let mut bytes = Vec::from_slice(alloc, text)?;
    bytes.extend_from_slice(&copies)?;
    Ok(bytes)
}

#[cfg(test)]
mod tests;
