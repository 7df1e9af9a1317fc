//! A text with its versions.
ghost use Rattle.std.specs.Prelude.{◌≡◌, ◌+◌, ◌<◌, [], ◌∷◌, ◌++◌, take, Some, Err, OnOk, OnErr, slice_get, vec_len};

use super::refusal::Refusal;
use cord::Text;
use std::alloc::{AllocError, Global};

/// All versions of a text, from the empty one on, and which of them is the present one.
#[derive(Drop)]
pub struct Buffer {
    versions: Vec<Text>,
    present: usize,
    ghost is_there: { present < vec_len versions },
}

impl Buffer {
    /// The empty text, and no other version. Refused only when out of memory.
    pub fn new(alloc: Global) -> Result<Buffer, AllocError> {
        let mut versions = Vec::new(alloc);
        versions.push(Text::empty())?;
        Ok(Buffer {
            versions,
            present: 0,
        })
    }

    /// The present version.
    pub fn text(&self) -> &Text
        ensures { slice_get self.now.versions.items self.now.present ≡ Some result.now }
    {
        &self.versions[self.present]
    }

    /// Makes a text the version after the present one. Those that were undone are forgotten.
    pub fn keep(&mut self, text: Text) -> Result<(), AllocError>
        ensures ok { OnOk result (self.new.versions.items
            ≡ take (self.old.present + 1) self.old.versions.items ++ text ∷ []) }
        ensures present { OnOk result (self.new.present ≡ self.old.present + 1) }
        ensures err { OnErr result (self.new.versions.items ≡ self.old.versions.items) }
        ensures stays { OnErr result (self.new.present ≡ self.old.present) }
    {
        self.versions.reserve(1)?;
        self.versions.truncate(self.present + 1);
        self.versions.push(text)?;
        self.present += 1;
        Ok(())
    }

    /// Goes back to the version before, which is the text as it was before the last edit.
    pub fn undo(&mut self) -> Result<(), Refusal>
        ensures back { OnOk result (self.new.present + 1 ≡ self.old.present) }
        ensures first { OnErr result (self.old.present ≡ 0) }
        ensures stays { OnErr result (self.new.present ≡ self.old.present) }
        ensures versions { self.new.versions ≡ self.old.versions }
    {
        if self.present == 0 {
            return Err(Refusal::NothingToUndo);
        }
        self.present -= 1;
        Ok(())
    }

    /// Goes on to the version after, which an undo left.
    pub fn redo(&mut self) -> Result<(), Refusal>
        ensures on { OnOk result (self.new.present ≡ self.old.present + 1) }
        ensures last { OnErr result (self.old.present + 1 ≡ vec_len self.old.versions) }
        ensures stays { OnErr result (self.new.present ≡ self.old.present) }
        ensures versions { self.new.versions ≡ self.old.versions }
    {
        if self.present + 1 == self.versions.len() {
            return Err(Refusal::NothingToRedo);
        }
        self.present += 1;
        Ok(())
    }
}
