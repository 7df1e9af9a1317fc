// Laws of plans: each is a function that does nothing, whose contract is the law.
ghost use Rattle.std.specs.Prelude.{◌≡◌, ℕ, List, Bool, true, false, Some, slice_get};
ghost use Rattle.cord_syntax.specs.declared.statements.Statement.{Statement};
ghost use Rattle.cord_plan.specs.Liveness.{ReadBy, ReadLater, IsLater, IsFixed, live, later_within};
ghost use Rattle.cord_plan.specs.Planned.{Made, Operation, Build, planned};
ghost use Rattle.cord_plan.specs.Flat.{IsFlatOperation};

/// What a backwards fixed point over the lines tells: a name that it doesn't have at a place is read by no path from
/// there before it is assigned, a name that so many steps found is read by a path, and where those steps leave a fixed
/// point they tell exactly what is read later.
pub fn fixed_points_report_what_is_read()
    ensures not_live { (s : List Statement) (table : List ℕ → ℕ → Bool) (x : List ℕ) (p : ℕ) → IsFixed s table →
        table x p ≡ false → (path : List ℕ) → ReadBy s x p path → ⊥ }
    ensures read { (s : List Statement) (k : ℕ) (x : List ℕ) (p : ℕ) → live s k x p ≡ true → (path : List ℕ) ×
        ReadBy s x p path }
    ensures later { (s : List Statement) (k : ℕ) → IsFixed s (λ x p. live s k x p) →
        IsLater s (λ x p. later_within s k x p) }
{}

/// What is read later is one thing: two tables that tell it exactly are the same.
pub fn what_is_read_later_is_one()
    ensures { (s : List Statement) (one other : List ℕ → ℕ → Bool) (x : List ℕ) (p : ℕ) → IsLater s one →
        IsLater s other → one x p ≡ other x p }
{}

/// A script has one plan: two tables that tell exactly what is read later give the same operations.
pub fn plans_are_one()
    ensures { (s : List Statement) (one other : List ℕ → ℕ → Bool) → IsLater s one → IsLater s other →
        planned s one ≡ planned s other }
{}

/// No plan builds a dead target: where an operation builds a name, some path after its line reads that name before it
/// is assigned again.
pub fn dead_targets_are_not_built()
    ensures { (s : List Statement) (later : List ℕ → ℕ → Bool) (p line : ℕ) (x : List ℕ) (made : Made) →
        IsLater s later → slice_get (planned s later) p ≡ Some (Build line x made) → ReadLater s x p }
{}

/// No `cat` is a member of a `cat` in the expressions of a plan.
pub fn no_cat_stands_in_a_cat()
    ensures { (s : List Statement) (later : List ℕ → ℕ → Bool) (p : ℕ) (o : Operation) →
        slice_get (planned s later) p ≡ Some o → IsFlatOperation o }
{}
