// The limits as numerals, which no contract takes from the code.
ghost use Rattle.std.specs.Prelude.{◌≡◌};
ghost use Rattle.cord_file.specs.declared.TheConstants.{MAX_FILES, SHORT_FILE};

/// The limits of sources, as numerals.
pub fn limits_are()
    ensures files { MAX_FILES ≡ 64 }
    ensures short { SHORT_FILE ≡ 131072 }
{}
