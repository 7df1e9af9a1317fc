// The limits as numerals, which no contract takes from the code.
ghost use Rattle.std.specs.Prelude.{◌≡◌};
ghost use Rattle.cord_balance.specs.declared.TheConstants.{MAX_INDEX};

/// The greatest slot, as a numeral.
pub fn limits_are()
    ensures index { MAX_INDEX ≡ 60 }
{}
