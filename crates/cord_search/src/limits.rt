// The limits as numerals, which no contract takes from the code.
ghost use Rattle.std.specs.Prelude.{◌≡◌};

use crate::MOST_BYTES;

/// The most bytes that `find_bytes` looks for, as a numeral.
pub fn limits_are()
    ensures bytes { MOST_BYTES ≡ 16384 }
{}
