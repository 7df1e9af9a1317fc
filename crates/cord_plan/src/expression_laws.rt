// Laws of expressions: each is a function that does nothing, whose contract is the law.
ghost use Rattle.std.specs.Prelude.{◌≡◌, ℕ, List, [], ◌∷◌, map, pos, codes, Some, None, Ok};
ghost use Rattle.cord_io.specs.Device.{FileSystem};
ghost use Rattle.cord_operands.specs.declared.operands.Number.TheVariants.{Numeral};
ghost use Rattle.cord_syntax.specs.declared.statements.Statement.{Statement};
ghost use Rattle.cord_meaning.specs.State.{State};
ghost use Rattle.cord_meaning.specs.Statements.{act};
ghost use Rattle.cord_plan.specs.Exprs.{Expr, name, cat, sub, Exprs, nothing, member, members};
ghost use Rattle.cord_plan.specs.Operands.{read_by, target_of};
ghost use Rattle.cord_plan.specs.Inlined.{defining, expr_with};
ghost use Rattle.cord_plan.specs.Values.{text_in, length_in, length_of, gives_text, puts_text};
ghost use Rattle.cord_plan.specs.Flattening.{nested, HaveTexts};
ghost use Rattle.cord_plan.specs.Resolved.{resolved, HaveLengths};

/// A line does what its defining expression means: its target gets the expression's text, `put` puts it, or the line
/// meets its fault.
pub fn defining_expressions_mean_their_lines()
    ensures gives { (limit : ℕ) (files : FileSystem) (l : Statement) (s : State) (e : Expr) (target : List ℕ) →
        defining l ≡ Some e → target_of l ≡ Some target →
        act limit files l s ≡ gives_text s target (text_in limit s e) }
    ensures puts { (limit : ℕ) (files : FileSystem) (l : Statement) (s : State) (e : Expr) → defining l ≡ Some e →
        target_of l ≡ None → act limit files l s ≡ puts_text s (text_in limit s e) }
{}

/// Where only the lengths of texts are known, an expression has the length of its text, or the same fault.
pub fn measures_are_lengths()
    ensures { (limit : ℕ) (s : State) (e : Expr) → length_in limit s e ≡ length_of (text_in limit s e) }
{}

/// A `cat` flattened means what the nested one means, wherever the nested one has no fault. So a line's expression
/// means what its own one means, text or fault, where each operand stands as an expression that has the operand's text.
pub fn flattened_cats_mean_the_nested()
    ensures flattened { (limit : ℕ) (s : State) (es : List Expr) (text : List ℕ) →
        text_in limit s (cat (nested es)) ≡ Ok text → text_in limit s (cat (members es)) ≡ Ok text }
    ensures replaced { (limit : ℕ) (s : State) (l : Statement) (es : List Expr) (e o : Expr) →
        HaveTexts limit s es (map s.texts (read_by l)) → expr_with l es ≡ Some e → defining l ≡ Some o →
        text_in limit s e ≡ text_in limit s o }
{}

/// A `sub` over a `cat`, resolved by the lengths of the members, means what it means over the joined text.
pub fn subs_over_cats_are_resolved_by_lengths()
    ensures resolves { (limit : ℕ) (s : State) (es : Exprs) (lens text : List ℕ) (i n : ℕ) →
        HaveLengths limit s es lens → text_in limit s (cat es) ≡ Ok text → text_in limit s (cat (resolved es lens i n))
        ≡ text_in limit s (sub (cat es) (Numeral (pos i)) (Numeral (pos n))) }
    ensures seam { resolved (member (name (codes "a")) (member (name (codes "b")) nothing)) (3 ∷ 3 ∷ []) 2 3
        ≡ member (sub (name (codes "a")) (Numeral (pos 2)) (Numeral (pos 1)))
        (member (sub (name (codes "b")) (Numeral (pos 0)) (Numeral (pos 2))) nothing) }
    ensures untouched { resolved (member (name (codes "a")) (member (name (codes "b")) nothing)) (3 ∷ 3 ∷ []) 3 1
        ≡ member (sub (name (codes "b")) (Numeral (pos 0)) (Numeral (pos 1))) nothing }
{}
