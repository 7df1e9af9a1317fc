// The statements' words, and what the words after them have to be.
ghost use Rattle.std.specs.Prelude.{◌≡◌, nat_eq, nat_le, MatchOption, Some, None};
ghost use Rattle.cord_script.specs.Forms.{form_of};
ghost use Rattle.cord_script.specs.Forms.Shape.{Words};
ghost use Rattle.cord_script.specs.inner.Verbal.{verb_word, verb_effect, FindsVerb};

use crate::kinds::Kind::{self, Cord, Extensible};
use crate::kinds::Want::{self, Function, Number, Operand, Path, Relation, Target, Text};
use crate::verbs::{Composition, Computation, Control, FixedVerb, Growth, Look, Origin, Verb};

// The verb of a word of two letters.
#[inline(always)]
fn verb_of_two(word: &[u8]) -> Option<Verb>
    ensures { FindsVerb (nat_eq 2) word.now result }
{
    match word {
        b"fn" => Some(Verb::Fixed(FixedVerb::Origin(Origin::FromFn))),
        b"if" => Some(Verb::Fixed(FixedVerb::Control(Control::If))),
        _ => None,
    }
}

// The verb of a word of three letters.
#[inline(always)]
fn verb_of_three(word: &[u8]) -> Option<Verb>
    ensures { FindsVerb (nat_eq 3) word.now result }
{
    match word {
        b"add" => Some(Verb::Fixed(FixedVerb::Computation(Computation::Add))),
        b"cat" => Some(Verb::Fixed(FixedVerb::Composition(Composition::Cat))),
        b"chr" => Some(Verb::Fixed(FixedVerb::Look(Look::Chr))),
        b"cmp" => Some(Verb::Fixed(FixedVerb::Look(Look::Cmp))),
        b"end" => Some(Verb::Fixed(FixedVerb::Control(Control::End))),
        b"len" => Some(Verb::Fixed(FixedVerb::Computation(Computation::Len))),
        b"let" => Some(Verb::Fixed(FixedVerb::Origin(Origin::Let))),
        b"nul" => Some(Verb::Fixed(FixedVerb::Composition(Composition::Nul))),
        b"put" => Some(Verb::Fixed(FixedVerb::Put)),
        b"set" => Some(Verb::Fixed(FixedVerb::Computation(Computation::Assign))),
        b"str" => Some(Verb::Fixed(FixedVerb::Look(Look::Str))),
        b"sub" => Some(Verb::Fixed(FixedVerb::Computation(Computation::Sub))),
        _ => None,
    }
}

// The verb of a word of four letters.
#[inline(always)]
fn verb_of_four(word: &[u8]) -> Option<Verb>
    ensures { FindsVerb (nat_eq 4) word.now result }
{
    match word {
        b"catc" => Some(Verb::Fixed(FixedVerb::Composition(Composition::Catc))),
        b"catn" => Some(Verb::Catn),
        b"else" => Some(Verb::Fixed(FixedVerb::Control(Control::Else))),
        b"file" => Some(Verb::Fixed(FixedVerb::Origin(Origin::File))),
        b"lazy" => Some(Verb::Fixed(FixedVerb::Origin(Origin::Lazy))),
        b"ncmp" => Some(Verb::Fixed(FixedVerb::Look(Look::Ncmp))),
        b"rchr" => Some(Verb::Fixed(FixedVerb::Look(Look::Rchr))),
        _ => None,
    }
}

// The verb of a word of five letters.
#[inline(always)]
fn verb_of_five(word: &[u8]) -> Option<Verb>
    ensures { FindsVerb (nat_eq 5) word.now result }
{
    match word {
        b"chars" => Some(Verb::Fixed(FixedVerb::Composition(Composition::Chars))),
        b"eager" => Some(Verb::Fixed(FixedVerb::Origin(Origin::Eager))),
        b"eccat" => Some(Verb::Fixed(FixedVerb::Growth(Growth::EcCat))),
        b"ecput" => Some(Verb::Fixed(FixedVerb::Growth(Growth::EcPut))),
        b"ecstr" => Some(Verb::Fixed(FixedVerb::Growth(Growth::EcStr))),
        b"fetch" => Some(Verb::Fixed(FixedVerb::Look(Look::Fetch))),
        _ => None,
    }
}

// The verb of a word of six letters or more.
#[inline(always)]
fn verb_of_long(word: &[u8]) -> Option<Verb>
    ensures { FindsVerb (nat_le 6) word.now result }
{
    match word {
        b"ecinit" => Some(Verb::Fixed(FixedVerb::Growth(Growth::EcInit))),
        b"repeat" => Some(Verb::Fixed(FixedVerb::Control(Control::Repeat))),
        b"substr" => Some(Verb::Fixed(FixedVerb::Composition(Composition::Substr))),
        b"balance" => Some(Verb::Fixed(FixedVerb::Composition(Composition::Balance))),
        b"sprintf" => Some(Verb::Sprintf),
        b"ectocord" => Some(Verb::Fixed(FixedVerb::Composition(Composition::EcToCord))),
        _ => None,
    }
}

/// The verb of a word, if it is a statement's word.
#[inline(always)]
pub fn verb_of(word: &[u8]) -> Option<Verb>
    ensures { MatchOption result (form_of word.now ≡ None) (λ verb. word.now ≡ verb_word verb) }
{
    match word.len() {
        2 => verb_of_two(word),
        3 => verb_of_three(word),
        4 => verb_of_four(word),
        5 => verb_of_five(word),
        6.. => verb_of_long(word),
        _ => None,
    }
}

const SUBSTR: [Want; 4] = [Target(Cord), Operand(Cord), Number, Number];

const NCMP: [Want; 6] = [
    Target(Kind::Number),
    Operand(Cord),
    Number,
    Operand(Cord),
    Number,
    Number,
];

const STR: [Want; 4] = [Target(Kind::Number), Operand(Cord), Number, Operand(Cord)];

const CHR: [Want; 4] = [Target(Kind::Number), Operand(Cord), Number, Number];

const ADD: [Want; 3] = [Target(Kind::Number), Number, Number];

/// What the words after a statement's word have to be, where their number is fixed.
#[tactic(auto, unfolding(crate::specs::Forms::form_of))]
#[inline(always)]
pub fn wants_of(verb: FixedVerb) -> &'static [Want]
    ensures { form_of (verb_word (Verb.Fixed verb))
        ≡ Some (record { shape = Words result.now; effect = verb_effect (Verb.Fixed verb) }) }
{
    match verb {
        FixedVerb::Origin(Origin::Let) => &[Target(Cord), Text],
        FixedVerb::Put => &[Operand(Cord)],
        FixedVerb::Origin(Origin::File | Origin::Eager | Origin::Lazy) => &[Target(Cord), Path],
        FixedVerb::Composition(Composition::Chars) => &[Target(Cord), Number, Number],
        FixedVerb::Composition(Composition::Nul) => &[Target(Cord), Number],
        FixedVerb::Origin(Origin::FromFn) => &[Target(Cord), Function, Number],
        FixedVerb::Composition(Composition::Cat) => &[Target(Cord), Operand(Cord), Operand(Cord)],
        FixedVerb::Composition(Composition::Catc) => &[Target(Cord), Operand(Cord), Number],
        FixedVerb::Composition(Composition::Substr) => &SUBSTR,
        FixedVerb::Composition(Composition::Balance) => &[Target(Cord), Operand(Cord)],
        FixedVerb::Composition(Composition::EcToCord) => &[Target(Cord), Operand(Extensible)],
        FixedVerb::Computation(Computation::Len) => &[Target(Kind::Number), Operand(Cord)],
        FixedVerb::Look(Look::Fetch) => &[Target(Kind::Number), Operand(Cord), Number],
        FixedVerb::Look(Look::Cmp) => &[Target(Kind::Number), Operand(Cord), Operand(Cord)],
        FixedVerb::Look(Look::Ncmp) => &NCMP,
        FixedVerb::Look(Look::Str) => &STR,
        FixedVerb::Look(Look::Chr) | FixedVerb::Look(Look::Rchr) => &CHR,
        FixedVerb::Computation(Computation::Assign) => &[Target(Kind::Number), Number],
        FixedVerb::Computation(Computation::Add) | FixedVerb::Computation(Computation::Sub) => &ADD,
        FixedVerb::Growth(Growth::EcInit) => &[Target(Extensible)],
        FixedVerb::Growth(Growth::EcPut) => &[Operand(Extensible), Number],
        FixedVerb::Growth(Growth::EcCat) => &[Operand(Extensible), Operand(Cord)],
        FixedVerb::Growth(Growth::EcStr) => &[Operand(Extensible), Text],
        FixedVerb::Control(Control::Repeat) => &[Number],
        FixedVerb::Control(Control::If) => &[Number, Relation, Number],
        FixedVerb::Control(Control::Else) | FixedVerb::Control(Control::End) => &[],
    }
}
