// Plans keep the meaning of their scripts: each is a function that does nothing, whose contract is the law.
ghost use Rattle.std.specs.Prelude.{◌≡◌, ℕ, Bool, false, None, List, [], map};
ghost use Rattle.cord_io.specs.Device.{FileSystem};
ghost use Rattle.cord_syntax.specs.declared.statements.Statement.{Statement};
ghost use Rattle.cord_script.specs.Forms.{Grammar};
ghost use Rattle.cord_script.specs.Script.{ReadsBy};
ghost use Rattle.cord_meaning.specs.Blocks.{IsNested};
ghost use Rattle.cord_meaning.specs.Statements.{shape_of};
ghost use Rattle.cord_meaning.specs.Machine.{reported};
ghost use Rattle.cord_meaning.specs.Meaning.{trace_within, end_within};
ghost use Rattle.cord_plan.specs.Liveness.{IsLater};
ghost use Rattle.cord_plan.specs.Planned.{planned, trivial};
ghost use Rattle.cord_plan.specs.Meaning.{plan_trace, plan_end, IsNeverStuck};
ghost use Rattle.cord_plan.specs.Conditions.{Decisions, HasKinds, MeetsConditions, decided};

/// The trivial plan of a script whose blocks are closed is never stuck, and has, over all files and with all limits,
/// member by member the lines and the puts of the script, and its end.
pub fn trivial_plans_keep_the_meaning()
    ensures never_stuck { (limit most : ℕ) (s : List Statement) (files : FileSystem) → IsNested [] (map shape_of s) →
        IsNeverStuck limit most (trivial s) files }
    ensures members { (limit most : ℕ) (s : List Statement) (files : FileSystem) → IsNested [] (map shape_of s) →
        map reported (plan_trace limit most (trivial s) files) ≡ map reported (trace_within limit most s files) }
    ensures end { (limit most : ℕ) (s : List Statement) (files : FileSystem) → IsNested [] (map shape_of s) →
        plan_end limit most (trivial s) files ≡ end_within limit most s files }
{}

/// Each plan that meets the conditions on dead targets, on lengths alone and on inlined pairs is never stuck, and
/// has, over all files and with all limits, member by member the lines and the puts of its script, and its end.
pub fn plans_keep_the_meaning()
    ensures never_stuck { (limit most : ℕ) (s : List Statement) (files : FileSystem) (d : Decisions) →
        IsNested [] (map shape_of s) → MeetsConditions s d → IsNeverStuck limit most (decided d s) files }
    ensures members { (limit most : ℕ) (s : List Statement) (files : FileSystem) (d : Decisions) →
        IsNested [] (map shape_of s) → MeetsConditions s d → map reported (plan_trace limit most (decided d s) files)
        ≡ map reported (trace_within limit most s files) }
    ensures end { (limit most : ℕ) (s : List Statement) (files : FileSystem) (d : Decisions) →
        IsNested [] (map shape_of s) → MeetsConditions s d →
        plan_end limit most (decided d s) files ≡ end_within limit most s files }
{}

/// The plan of a script, given what is read later, is one that meets the conditions, wherever no name that is assigned
/// as a number or an extensible cord is read as a cord; so it is in every script that is read. The trivial plan is the
/// one without pairs and lengths alone.
pub fn planned_scripts_meet_the_conditions()
    ensures meets { (s : List Statement) (later : List ℕ → ℕ → Bool) → IsLater s later → HasKinds s → (d : Decisions) ×
        MeetsConditions s d × (planned s later ≡ decided d s) }
    ensures trivial { (s : List Statement) → HasKinds s → (d : Decisions) × MeetsConditions s d ×
        (trivial s ≡ decided d s) × ((p : ℕ) (x : List ℕ) → (d.dead p ≡ false) × (d.paired p ≡ false) ×
        (d.source p x ≡ None)) }
    ensures kinds { (g : Grammar) (text : List ℕ) (s : List Statement) → ReadsBy g text s → HasKinds s }
{}

/// The plan of a script that is read, given what is read later, is never stuck, and has, over all files and with all
/// limits, member by member the lines and the puts of the script, and its end.
pub fn planned_scripts_keep_the_meaning()
    ensures never_stuck { (limit most : ℕ) (g : Grammar) (text : List ℕ) (s : List Statement) (files : FileSystem)
        (later : List ℕ → ℕ → Bool) → ReadsBy g text s → IsLater s later →
        IsNeverStuck limit most (planned s later) files }
    ensures members { (limit most : ℕ) (g : Grammar) (text : List ℕ) (s : List Statement) (files : FileSystem)
        (later : List ℕ → ℕ → Bool) → ReadsBy g text s → IsLater s later →
        map reported (plan_trace limit most (planned s later) files) ≡ map reported (trace_within limit most s files) }
    ensures end { (limit most : ℕ) (g : Grammar) (text : List ℕ) (s : List Statement) (files : FileSystem)
        (later : List ℕ → ℕ → Bool) → ReadsBy g text s → IsLater s later → plan_end limit most (planned s later) files
        ≡ end_within limit most s files }
{}
