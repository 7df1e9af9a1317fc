//! What a `zc_arg` of C is: a number, or a cord.
ghost use Rattle.std.specs.Prelude.{◌≡◌};
ghost use Rattle.cord.specs.Prints as of_texts;
ghost use Rattle.cord_c.specs.Prints.{piece_argument};

use crate::Handle;
use cord::{Text, TextArg};

/// What a conversion of a format is given: the text where `is_text` isn't 0, else the number.
#[repr(C)]
#[derive(Drop)]
pub struct Argument {
    pub(crate) text: Handle,
    pub(crate) number: i64,
    pub(crate) is_text: u32,
}

impl Argument {
    /// The argument as a print takes it, whose text is this one.
    pub(crate) fn with<'a>(&self, text: &'a Text) -> TextArg<'a>
        requires { text.now ≡ self.now.text.text }
        ensures { of_texts.piece_argument result ≡ piece_argument self.now }
    {
        if self.is_text == 0 {
            TextArg::Num(self.number)
        } else {
            TextArg::Text(text)
        }
    }
}
