// Laws of inlined pairs: each is a function that does nothing, whose contract is the law.
ghost use Rattle.std.specs.Prelude.{◌≡◌, ◌≤◌, ℕ, List, Bool, false, Some, codes, slice_get};
ghost use Rattle.cord_syntax.specs.declared.statements.Statement.{Statement};
ghost use Rattle.cord_script.specs.Forms.{Grammar};
ghost use Rattle.cord_script.specs.Script.{ReadsBy};
ghost use Rattle.cord_plan.specs.declared.TheConstants.{MAX_EXPR_PARTS};
ghost use Rattle.cord_plan.specs.Exprs.{Expr, parts, names};
ghost use Rattle.cord_plan.specs.Operands.{has};
ghost use Rattle.cord_plan.specs.Planned.{Operation, Measure, Joined, planned};
ghost use Rattle.cord_plan.specs.Examples;
ghost use Rattle.cord_plan.specs.Liveness.{later_within};
ghost use Rattle.cord_plan.specs.Pairs.{IsPair, IsNoNumber, expression_of};

/// No expression that an operand was replaced in has more than `MAX_EXPR_PARTS` parts.
pub fn replacements_keep_expressions_small()
    ensures { (s : List Statement) (later : List ℕ → ℕ → Bool) (a b : ℕ) (t : List ℕ) (e : Expr) →
        IsPair s later a b t e → parts e ≤ MAX_EXPR_PARTS }
{}

/// At an inlined pair for a name the later line's expression doesn't name it: wherever no line names a number so, and
/// so in every script that is read.
pub fn pairs_leave_their_name_out()
    ensures of_cords { (s : List Statement) (later : List ℕ → ℕ → Bool) (a b : ℕ) (t : List ℕ) (e : Expr) →
        IsPair s later a b t e → IsNoNumber s t → has (names e) t ≡ false }
    ensures of_scripts { (g : Grammar) (text : List ℕ) (s : List Statement) (later : List ℕ → ℕ → Bool) (a b : ℕ)
        (t : List ℕ) (e : Expr) → ReadsBy g text s → IsPair s later a b t e → has (names e) t ≡ false }
{}

/// An inlined pair in a plan: the earlier line computes the name's length alone, and the later operation has the pair's
/// expression.
pub fn pairs_are_planned()
    ensures earlier { (s : List Statement) (later : List ℕ → ℕ → Bool) (a b : ℕ) (t : List ℕ) (e : Expr) →
        (pair : IsPair s later a b t e) → (line : ℕ) ×
        (slice_get (planned s later) a ≡ Some (Measure line t (Joined pair.earlier))) }
    ensures later { (s : List Statement) (later : List ℕ → ℕ → Bool) (a b : ℕ) (t : List ℕ) (e : Expr) →
        IsPair s later a b t e → (o : Operation) × (slice_get (planned s later) b ≡ Some o) ×
        (expression_of o ≡ Some e) }
    ensures seam { IsPair Examples.substr_over_seam (λ x p. later_within Examples.substr_over_seam 5 x p) 2 3
        (codes "t") Examples.part_over_seam }
{}
