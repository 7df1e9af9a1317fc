// The limits as numerals, which no contract takes from the code.
ghost use Rattle.std.specs.Prelude.{◌≡◌};
ghost use Rattle.cord_node.specs.declared.TheConstants.{SMALL_LEN};

/// The limit of leaves that are joined into one, as a numeral.
pub fn limits_are()
    ensures small { SMALL_LEN ≡ 64 }
{}
