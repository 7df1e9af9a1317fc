// A mark of one byte.
ghost use Rattle.std.specs.Prelude.{◌≡◌, List, true};
ghost use base.Fml.{fex};
ghost use Rattle.cord_mark.specs.Part.{Part, coded_parts};
ghost use Rattle.cord_mark.specs.inner.Ownership.{mark_shares};

use std::marker::{Move, Owns};

/// Stands for the parts of a text. It holds none of them: one byte, whose value means nothing.
#[derive(Drop)]
pub struct Mark {
    flag: bool,
}

impl Owns for Mark {
    ghost Value = { List Part };

    ghost coded = { coded_parts };

    ghost shr_at = { λ parts. mark_shares Fields parts };
}

impl Move for Mark {
    ghost own_val = { λ _ vs. fex Inside (λ i. Fields.own_val i vs) };
}

impl Mark {
    /// A new mark, for the parts that these two values tell.
    pub fn new<A, B>(_one: &A, _other: &B) -> Mark
        ghost parts: { List Part }
        ensures { result ≡ parts }
    {
        Mark { flag: false }
    }

    /// Whether the two are one mark. Then they stand for the same parts. The byte of `self` is turned, and
    /// that of `other` is read before and after.
    pub fn same(&self, other: &Mark) -> bool
        ensures { result ≡ true → self.now ≡ other.now }
    {
        let mine = &raw const self.flag as *mut bool;
        let others = &raw const other.flag as *mut bool;
        unsafe {
            let before = others.read();
            mine.write(!before);
            others.read() != before
        }
    }
}
