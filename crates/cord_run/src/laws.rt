// A law of plans that are run: a function that does nothing, whose contract is the law.
ghost use Rattle.std.specs.Prelude.{List};
ghost use Rattle.cord_plan.specs.Planned.{Operation};
ghost use Rattle.cord_run.specs.Failing.{FailsNowhereElse};
ghost use Rattle.cord_run.specs.Runs.{IsPlanBy, Way};
ghost use Rattle.cord_syntax.specs.declared.statements.Statement.{Statement};

/// The plan of a script, and its trivial plan, read and put only where the script's statements do. So `run` of a plan
/// that `plan` or `Plan::trivial` made names a failed device only at such a line, and its end is a faithful one.
pub fn plans_fail_where_their_scripts_do()
    ensures { (way : Way) (statements : List Statement) (operations : List Operation) →
        IsPlanBy way statements operations → FailsNowhereElse statements operations }
{}
