// The limits as numerals, which no contract takes from the code.
ghost use Rattle.std.specs.Prelude.{◌≡◌};
ghost use Rattle.cord_io.specs.declared.TheConstants.{MAX_LEN, MAX_DEPTH};

/// The limits of cords, as numerals.
pub fn limits_are()
    ensures length { MAX_LEN ≡ 1099511627775 }
    ensures depth { MAX_DEPTH ≡ 60 }
{}
