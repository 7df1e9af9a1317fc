// The limits as numerals, which no contract takes from the code.
ghost use Rattle.std.specs.Prelude.{◌≡◌};
ghost use Rattle.cord_plan.specs.declared.TheConstants.{MAX_EXPR_PARTS};

/// The limit of an expression, as a numeral.
pub fn limits_are()
    ensures parts { MAX_EXPR_PARTS ≡ 64 }
{}
