// Sets of names by words: bit i of a word of a group stands for the name whose number is 128 times the group and i.
ghost use Rattle.std.specs.Prelude.{◌≡◌, ◌<◌, ℕ, List, Option, Some};
ghost use Rattle.cord_plan.specs.inner.Numbering.{bit, Marks, names_of, number_in, number_of};
ghost use Rattle.cord_plan.specs.inner.Places.{AreNumbers};
ghost use Rattle.cord_plan.specs.Operands.{has, is_this_name};
ghost use Rattle.std.specs.Str.{bytes_eq};
ghost use Rattle.cord_plan.specs.declared.flow.numbering.Numbering.{Numbering};

/// How many names a word stands for.
pub(crate) const GROUP: usize = 128;

/// Whether a word has a bit.
pub(crate) fn has_bit(word: u128, i: usize) -> bool
    requires { i < 128 }
    ensures { result ≡ bit word i }
{
    (word >> i) & 1 == 1
}

// The word of the name of a number alone.
fn mark_number(group: usize, number: usize) -> u128
    ensures { (t : Numbering) (y : List ℕ) → number_of t y ≡ Some number → Marks t group (λ x. bytes_eq x y) result }
{
    if number / GROUP == group {
        1 << (number % GROUP)
    } else {
        0
    }
}

/// The word of the names of these numbers.
pub(crate) fn mark_all(group: usize, numbers: &[u32]) -> u128
    ensures { (t : Numbering) (xs : List (List ℕ)) → AreNumbers (names_of t) xs numbers.now →
        Marks t group (λ x. has xs x) result }
{
    let mut word = 0;
    for number in numbers {
        word |= mark_number(group, *number as usize);
    }
    word
}

/// The word of the name of a number, where there is one.
pub(crate) fn mark_target(group: usize, number: Option<usize>) -> u128
    ensures { (t : Numbering) (o : Option (List ℕ)) → number ≡ number_in t o →
        Marks t group (λ x. is_this_name o x) result }
{
    match number {
        Some(number) => mark_number(group, number),
        None => 0,
    }
}
