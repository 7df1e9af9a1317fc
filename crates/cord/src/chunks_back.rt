// The chunks of a text from its end to its beginning.
use crate::Chunk;
use cord_pos::Position;
use std::marker::Model;

/// The bytes of a text that are left, whose chunks come from the last to the first.
#[derive(Drop)]
pub struct ChunksBack<'a> {
    pub(crate) position: Position<'a>,
}

impl<'a> Model for ChunksBack<'a> {
    ghost use Rattle.std.specs.Prelude.{List, ℕ};
    ghost use Rattle.cord.specs.Plain.{IsPlain};
    ghost use Rattle.cord.specs.inner.Chunks.{left_to};

    ghost Value = { List ℕ };

    ghost view = { λ c. left_to c.position.cord c.position.index };

    ghost invariant = { λ c. IsPlain c.position.cord };
}

impl<'a> Iterator for ChunksBack<'a> {
    ghost use Rattle.std.specs.Iterator.{item_count};
    ghost use Rattle.cord.specs.Chunks.{GivesChunkBefore};

    type Item = Chunk<'a>;

    ghost next_gives = { GivesChunkBefore };

    ghost remaining = { item_count (λ left. left) };

    fn next(&mut self) -> Option<Chunk<'a>> {
        let index = self.position.index()?;
        let span = self.position.behind()?;
        self.position.move_to(index + 1 - span.len());
        self.position.prev();
        Some(Chunk::of(span))
    }
}
