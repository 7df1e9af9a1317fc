// The limits as numerals, which no contract takes from the code.
ghost use Rattle.std.specs.Prelude.{◌≡◌};
ghost use Rattle.cord_c.specs.declared.chunks.TheConstants.{CHUNK};
ghost use Rattle.cord_c.specs.declared.extensible.TheConstants.{ROOM};
ghost use Rattle.cord_c.specs.declared.position.TheConstants.{WINDOW};

/// The most bytes of a chunk, the most that are gathered, and the most that a position copies, as numerals.
pub fn limits_are()
    ensures chunk { CHUNK ≡ 4096 }
    ensures room { ROOM ≡ 4096 }
    ensures window { WINDOW ≡ 256 }
{}
