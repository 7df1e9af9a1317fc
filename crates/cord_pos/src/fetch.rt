// The byte at a position.
ghost use Rattle.std.specs.Prelude.{◌≡◌, is_err, IfOk, IfErr, IsSome};
ghost use Rattle.cord_io.specs.Device.{FileSystem, count_after};
ghost use Rattle.cord_io.specs.Frames.{LeavesSource};
ghost use Rattle.cord_core.specs.Cord.{CordFitsIn};
ghost use Rattle.cord_pos.specs.Position.{IsByteAt};

use crate::Position;
use cord_io::{CordError, Source};

impl<'a> Position<'a> {
    /// The byte at the index, from the cord or, in a function part, by one read of one byte of `src`, of which nothing
    /// is kept. The position is valid, and each function part of its cord lies inside a source of `src`. Refused with
    /// `ReadFailed` where that read failed; the position is as before in either case.
    pub fn fetch<S: Source>(&mut self, src: &mut S) -> Result<u8, CordError>
        requires valid { IsSome self.old.index }
        requires fits { CordFitsIn (S.lengths src.old) self.old.cord }
        ensures stays { self.new ≡ self.old }
        ensures byte { (file_system : FileSystem) → S.consistent src.new file_system →
            IfOk result (λ b. IsByteAt (S.table src.old file_system) self.old.cord self.old.index b) }
        ensures refused { IfErr result (λ e. e ≡ CordError.ReadFailed) }
        ensures count { S.failures src.new ≡ count_after (is_err result) (S.failures src.old) }
        ensures source { LeavesSource ⟦<S as Source>⟧ src.old src.new }
    {
        let Some(spot) = self.spot else {
            unreachable!()
        };
        Ok(spot.part.node.byte(spot.index - spot.part.start, src)?)
    }
}
