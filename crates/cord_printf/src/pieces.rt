// The pieces of a format.
ghost use Rattle.std.specs.Prelude.{◌≡◌, List, ℕ};

use std::marker::Model;

/// The bytes of a format that stand for themselves.
#[derive(Clone, Drop)]
pub struct Literal {
    bytes: Vec<u8>,
}

impl Model for Literal {
    ghost Value = { List ℕ };

    ghost view = { λ l. l.bytes.items };
}

impl Literal {
    /// The literal of these bytes. It takes no memory.
    pub fn of(bytes: Vec<u8>) -> Self
        ensures { result ≡ bytes.items }
    {
        Literal { bytes }
    }

    /// The bytes.
    pub fn as_slice(&self) -> &[u8]
        ensures { result.now ≡ self.now }
    {
        &self.bytes
    }

    /// The bytes, given back. It takes no memory.
    pub fn into_vec(self) -> Vec<u8>
        ensures { result.items ≡ self }
    {
        self.bytes
    }
}

/// The flags of a conversion: `-`, `0` and `+`.
#[derive(Clone, Copy, Debug, PartialEq, Eq)]
pub struct Flags {
    /// `-`: blanks follow the text.
    pub left: bool,
    /// `0`: zeros fill the width.
    pub zero: bool,
    /// `+`: a number of at least 0 has a sign.
    pub plus: bool,
}

/// How an unsigned conversion writes its number: `u`, `o`, `x` or `X`.
#[derive(Clone, Copy, Debug, PartialEq, Eq)]
pub enum Radix {
    Decimal,
    Octal,
    LowerHex,
    UpperHex,
}

/// A piece of a format: a text, or a conversion.
///
/// A width is the least length of the text, 0 where none is given. Both width and precision are at most 9,999.
#[derive(Clone, Drop)]
pub enum Piece {
    /// Bytes without `%`.
    Text(Literal),
    /// `%d`, `%i`: a number in decimal, with its sign.
    Signed {
        flags: Flags,
        width: u16,
        precision: Option<u16>,
    },
    /// `%u`, `%o`, `%x`, `%X`: a number of at least 0. It has no flag `+`.
    Unsigned {
        radix: Radix,
        flags: Flags,
        width: u16,
        precision: Option<u16>,
    },
    /// `%c`: one byte. Its only flag is `-`.
    Byte {
        flags: Flags,
        width: u16,
    },
    /// `%s`, `%r`: a cord, or its first bytes. Its only flag is `-`.
    Cord {
        flags: Flags,
        width: u16,
        precision: Option<u16>,
    },
    /// `%%`: a percent sign.
    Percent,
}

/// What a conversion takes: a number or a cord.
#[derive(Clone, Copy, Debug, PartialEq, Eq)]
pub enum ArgKind {
    Number,
    Cord,
}

impl Piece {
    ghost use Rattle.cord_printf.specs.Pieces.{wants};

    /// The kind of argument that the piece takes, if it takes one.
    pub fn wants(&self) -> Option<ArgKind>
        ensures { result ≡ wants self.now }
    {
        match self {
            Piece::Text(_) | Piece::Percent => None,
            Piece::Signed { .. } | Piece::Unsigned { .. } | Piece::Byte { .. } => {
                Some(ArgKind::Number)
            }
            Piece::Cord { .. } => Some(ArgKind::Cord),
        }
    }
}
