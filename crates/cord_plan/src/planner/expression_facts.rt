// What is known of the expressions of lines without a walk over them: how many parts they have, and since which line
// their names are read.
ghost use Rattle.std.specs.Prelude.{◌≡◌, ◌+◌, ◌++◌, ◌∷◌, [], ℕ, List, Option, Some, All, pos, IfOk, IfSome};
ghost use Rattle.std.specs.Prelude.{map};
ghost use Rattle.cord_operands.specs.declared.operands.Number.TheVariants.{Numeral};
ghost use Rattle.cord_syntax.specs.declared.statements.Statement.{Statement};
ghost use Rattle.cord_plan.specs.Exprs as plain;
ghost use Rattle.cord_plan.specs.Exprs.{members, parts};
ghost use Rattle.cord_plan.specs.Inlined.{expr_of, expr_with};
ghost use Rattle.cord_plan.specs.inner.Choices.{choice_view, expression_in, HasFacts, IsFacts, IsChoiceOf};
ghost use Rattle.cord_plan.specs.inner.Choices.{IsKnown, AreFactsOf};

use crate::flow::number_at;
use crate::planner::operand_choices::{Choice, Line};
use cord_script::{Number, Statement};
use std::alloc::{AllocError, Global};

/// How many parts an expression has, and a place since which lines read each name that stands in it.
#[derive(Clone, Copy)]
pub(crate) struct Facts {
    pub(crate) parts: u32,
    pub(crate) since: usize,
}

/// What is known of the expression of the line at a place.
#[derive(Clone, Copy)]
struct Entry {
    place: usize,
    facts: Facts,
}

/// For each number of a name what is known of the expression of a line that assigned the name.
#[derive(Drop)]
pub(crate) struct ExpressionFacts {
    entries: Vec<Option<Entry>>,
}

impl Facts {
    // Of one copy of a byte, where that is no name, in the line at a place.
    fn of_byte(byte: &Number, place: usize) -> Option<Self>
        ensures { (s : List Statement) (b : ℕ) →
            IfSome result (λ f. IsFacts s b (plain.run byte.now (Numeral (pos 1))) f) }
    {
        match byte {
            Number::Numeral(_) => Some(Facts {
                parts: 1,
                since: place,
            }),
            Number::Named(_) => None,
        }
    }

    // Of members, and those of another expression after them.
    fn with(&self, other: Facts) -> Option<Facts>
        ensures { (s : List Statement) (b : ℕ) (es : List plain.Expr) (e : plain.Expr) →
            IsFacts s b (plain.cat (members es)) self.now → IsFacts s b e other →
            IfSome result (λ f. IsFacts s b (plain.cat (members (es ++ e ∷ []))) f) }
    {
        let parts = self.parts.checked_add(other.parts)?;
        let since = self.since.min(other.since);
        Some(Facts { parts, since })
    }
}

impl ExpressionFacts {
    /// Before the first line.
    pub(crate) fn of(alloc: Global, count: usize) -> Result<Self, AllocError>
        ensures { IfOk result (λ k. (s : List Statement) (b : ℕ) (table : List (Option plain.Expr)) →
            AreFactsOf s b table k) }
    {
        let entries = vec![in alloc; None; count]?;
        Ok(ExpressionFacts { entries })
    }

    /// What is known of the expression of the line at a place, which assigns a name that may have a number.
    pub(crate) fn at(&self, number: Option<usize>, place: usize) -> Option<Facts>
        ensures { (s : List Statement) (b : ℕ) (table : List (Option plain.Expr)) (e : plain.Expr) →
            AreFactsOf s b table self.now → expression_in table place ≡ Some e → IfSome result (λ f. IsFacts s b e f) }
    {
        match self.entries.get(number?) {
            Some(Some(entry)) if entry.place == place => Some(entry.facts),
            _ => None,
        }
    }

    // What is known of what stands for an operand, whose name has this number, in the line at a place.
    fn of_choice(&self, choice: &Choice, number: Option<usize>, place: usize) -> Option<Facts>
        ensures { (s : List Statement) (table : List (Option plain.Expr)) → AreFactsOf s place table self.now →
            IsChoiceOf s place table (choice_view choice.now) →
            IfSome result (λ f. IsFacts s (place + 1) (expr_of (choice_view choice.now)) f) }
    {
        match choice {
            Choice::Named(_) => Some(Facts {
                parts: 1,
                since: place,
            }),
            Choice::Replaced(source, _) => self.at(number, *source),
        }
    }

    // What is known of the members that these choices for the operands of a line give to a `cat`.
    #[inline(always)]
    fn of_members(&self, line: &Line, choices: &[Choice]) -> Option<Facts>
        ensures { (s : List Statement) (table : List (Option plain.Expr)) → AreFactsOf s line.now.place table self.now →
            All (IsChoiceOf s line.now.place table) (map choice_view choices.now) → IfSome result (λ f.
            IsFacts s (line.now.place + 1) (plain.cat (members (map expr_of (map choice_view choices.now)))) f) }
    {
        let mut facts = Facts {
            parts: 0,
            since: line.place,
        };
        for (index, choice) in choices.iter().enumerate() {
            let number = number_at(line.numbers.read, index);
            let more = self.of_choice(choice, number, line.place)?;
            facts = facts.with(more)?;
        }
        Some(facts)
    }

    // What is known of the expression of a line with these choices.
    #[inline(always)]
    fn of_line(&self, line: &Line, choices: &[Choice]) -> Option<Facts>
        ensures { (s : List Statement) (table : List (Option plain.Expr)) → AreFactsOf s line.now.place table self.now →
            All (IsChoiceOf s line.now.place table) (map choice_view choices.now) → IfSome result (λ f.
            HasFacts s (line.now.place + 1) (expr_with line.now.statement.now
            (map expr_of (map choice_view choices.now))) f) }
    {
        match line.statement {
            Statement::Cat { .. } => self.of_members(line, choices),
            Statement::Catn { .. } => self.of_members(line, choices),
            Statement::Catc { byte, .. } => {
                match (
                    self.of_members(line, choices),
                    Facts::of_byte(byte, line.place),
                ) {
                    (Some(facts), Some(last)) => facts.with(last),
                    _ => None,
                }
            }
            _ => None,
        }
    }

    // Puts what is known of the expression of the line at a place, which assigns the name of a number.
    fn put(&mut self, target: Option<usize>, place: usize, facts: Option<Facts>)
        ensures { (s : List Statement) (b : ℕ) (table : List (Option plain.Expr)) → AreFactsOf s b table self.old →
            IfSome facts (λ f. HasFacts s b (expression_in table place) f) → AreFactsOf s b table self.new }
    {
        match (target, facts) {
            (Some(number), Some(facts)) => {
                if number < self.entries.len() {
                    self.entries[number] = Some(Entry { place, facts });
                }
            }
            _ => {}
        }
    }

    /// Notes the expression of a line with these choices.
    #[inline(always)]
    pub(crate) fn note(&mut self, line: &Line, choices: &[Choice])
        ensures { (s : List Statement) (table : List (Option plain.Expr)) → IsKnown s line.now.place table self.old →
            All (IsChoiceOf s line.now.place table) (map choice_view choices.now) → IsKnown s (line.now.place + 1)
            (table ++ expr_with line.now.statement.now (map expr_of (map choice_view choices.now)) ∷ []) self.new }
    {
        let facts = self.of_line(line, choices);
        self.put(line.numbers.target, line.place, facts);
    }
}
