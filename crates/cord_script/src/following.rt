// Fields that follow one another in a line. What follows a refused one isn't asked for.
#![tactic(auto, using(crate::proofs::LineReading::one_field, crate::proofs::LineReading::first_field, crate::proofs::LineReading::all_given,))]

ghost use Rattle.std.specs.Prelude.{◌≡◌, [], ◌∷◌, ◌++◌, IfSome};
ghost use Rattle.cord_script.specs.Forms.Term.{Target, Operand, Value, Literal, FilePath, Applies, Compares};
ghost use Rattle.cord_script.specs.inner.LineReading.{IsFresh, GivesAll};

use crate::fields::{function_of, relation_of};
use crate::kinds::Kind;
use crate::remaining_words::LineWords;
use crate::{Function, Name, Number, Path, Relation, Shared, Text};

/// A field that is no target, or several in a row.
pub trait Fields: Copy {
    ghost use Rattle.std.specs.Prelude.{List};
    ghost use Rattle.cord_script.specs.Forms.{Term};

    /// What is read.
    type Found: Drop;

    /// The terms of what is read.
    ghost terms: { Self → Self.Found → List Term };

    /// Reads the words.
    fn read(self, words: &mut LineWords) -> Option<Self::Found>
        ensures { IfSome result (λ found. GivesAll words.old (terms self found) words.new) };
}

/// A name that is used, of this kind.
#[derive(Clone, Copy)]
pub struct Operand(pub Kind);

/// A number operand.
#[derive(Clone, Copy)]
pub struct Value;

/// A number operand, on the heap.
#[derive(Clone, Copy)]
pub struct SharedValue;

/// A text.
#[derive(Clone, Copy)]
pub struct Literal;

/// A function.
#[derive(Clone, Copy)]
pub struct Applied;

/// A relation.
#[derive(Clone, Copy)]
pub struct Compared;

impl Fields for Operand {
    type Found = Name;

    ghost terms = { λ field name. Operand field.0 name ∷ [] };

    #[inline(always)]
    fn read(self, words: &mut LineWords) -> Option<Name> {
        words.operand(self.0)
    }
}

impl Fields for Value {
    type Found = Number;

    ghost terms = { λ _ number. Value number ∷ [] };

    #[inline(always)]
    fn read(self, words: &mut LineWords) -> Option<Number> {
        words.number()
    }
}

impl Fields for SharedValue {
    type Found = Shared<Number>;

    ghost terms = { λ _ number. Value number ∷ [] };

    #[inline(always)]
    fn read(self, words: &mut LineWords) -> Option<Shared<Number>> {
        words.shared_number()
    }
}

impl Fields for Literal {
    type Found = Text;

    ghost terms = { λ _ text. Literal text ∷ [] };

    #[inline(always)]
    #[tactic(auto, using(crate::proofs::LineReading::literal_given))]
    fn read(self, words: &mut LineWords) -> Option<Text> {
        words.quoted()
    }
}

impl Fields for Applied {
    type Found = Function;

    ghost terms = { λ _ function. Applies function ∷ [] };

    #[inline(always)]
    #[tactic(auto, using(crate::proofs::LineReading::applied_given))]
    fn read(self, words: &mut LineWords) -> Option<Function> {
        function_of(words.plain()?)
    }
}

impl Fields for Compared {
    type Found = Relation;

    ghost terms = { λ _ relation. Compares relation ∷ [] };

    #[inline(always)]
    #[tactic(auto, using(crate::proofs::LineReading::compared_given))]
    fn read(self, words: &mut LineWords) -> Option<Relation> {
        relation_of(words.plain()?)
    }
}

impl<A: Fields, B: Fields> Fields for (A, B) {
    type Found = (A::Found, B::Found);

    ghost terms = { λ fields values. A.terms fields.0 values.0 ++ B.terms fields.1 values.1 };

    #[inline(always)]
    fn read(self, words: &mut LineWords) -> Option<(A::Found, B::Found)> {
        let (first, others) = self;
        let value = first.read(words)?;
        Some((value, others.read(words)?))
    }
}

/// The target, of this kind, and the fields after it.
#[inline(always)]
pub fn with_target<F: Fields>(
    kind: Kind,
    fields: F,
    words: &mut LineWords,
) -> Option<(Name, F::Found)>
    requires { IsFresh words.old }
    ensures { IfSome result (λ all. GivesAll words.old (Target kind all.0 ∷ F.terms fields all.1) words.new) }
{
    let target = words.target(kind)?;
    Some((target, fields.read(words)?))
}

/// The target, a cord, and a path.
#[inline(always)]
pub fn target_and_path(words: &mut LineWords) -> Option<(Name, Path)>
    requires { IsFresh words.old }
    ensures { IfSome result (λ all. GivesAll words.old
        (Target Kind.Cord all.0 ∷ FilePath all.1 ∷ []) words.new) }
{
    let target = words.target(Kind::Cord)?;
    Some((target, words.path()?))
}
