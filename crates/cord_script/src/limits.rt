// The limits as numerals, which no contract takes from the code.
ghost use Rattle.std.specs.Prelude.{◌≡◌};
ghost use Rattle.cord_script.specs.declared.TheConstants.{MAX_SCRIPT, MAX_LINES, MAX_NAMES, MAX_NAME, MAX_PATHS};
ghost use Rattle.cord_script.specs.declared.TheConstants.{MAX_PATH, MAX_BLOCKS, MAX_TEXT, MIN_PARTS, MAX_PARTS};

/// The limits of scripts, as numerals.
pub fn limits_are()
    ensures script { MAX_SCRIPT ≡ 1048576 }
    ensures lines { MAX_LINES ≡ 65536 }
    ensures names { MAX_NAMES ≡ 256 }
    ensures name { MAX_NAME ≡ 32 }
    ensures paths { MAX_PATHS ≡ 64 }
    ensures path { MAX_PATH ≡ 4095 }
    ensures blocks { MAX_BLOCKS ≡ 8 }
    ensures text { MAX_TEXT ≡ 65535 }
    ensures fewest_parts { MIN_PARTS ≡ 2 }
    ensures most_parts { MAX_PARTS ≡ 16 }
{}
