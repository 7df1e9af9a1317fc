// The limits as numerals, which no contract takes from the code.
ghost use Rattle.std.specs.Prelude.{◌≡◌};
ghost use Rattle.cord_meaning.specs.declared.TheConstants.{MAX_TURNS};

/// The limit of turns, as a numeral.
pub fn limits_are()
    ensures turns { MAX_TURNS ≡ 1000000 }
{}
