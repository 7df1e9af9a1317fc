// Laws of searches and comparisons: a function that does nothing, whose contract is the law.
ghost use Rattle.std.specs.Prelude.{ℕ, List};
ghost use Rattle.cord_core.specs.Texts.{first, IsFirst, last, IsLast, order, IsOrder};

/// Searches answer places, and comparisons the first place of difference.
pub fn searches_answer_places()
    ensures first { (x : List ℕ) (i : ℕ) (s : List ℕ) → IsFirst x i s (first x i s) }
    ensures last { (x : List ℕ) (i c : ℕ) → IsLast x i c (last x i c) }
    ensures order { (x y : List ℕ) → IsOrder x y (order x y) }
{}
