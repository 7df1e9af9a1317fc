// The limits as numerals, which no contract takes from the code.
ghost use Rattle.std.specs.Prelude.{◌≡◌};
ghost use Rattle.cord_raw.specs.declared.buffer.TheConstants.RawBuf.{CAP};

/// The most bytes of a buffer, as a numeral.
pub fn limits_are()
    ensures cap { CAP ≡ 4096 }
{}
