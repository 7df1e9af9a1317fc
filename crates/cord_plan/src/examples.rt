// Scripts whose plans are computed: each clause is a worked example.
ghost use Rattle.std.specs.Prelude.{◌≡◌, ◌++◌, [], Some, None, IsSome, codes};
ghost use Rattle.cord_meaning.specs.Machine.{output};
ghost use Rattle.cord_meaning.specs.declared.ends.End.TheVariants.{Done, Fault};
ghost use Rattle.cord_meaning.specs.declared.ends.FaultKind.TheVariants.{NoFile, TooLong};
ghost use Rattle.cord_meaning.specs.Examples as scripts;
ghost use Rattle.cord_plan.specs.Examples;
ghost use Rattle.cord_plan.specs.Examples.{plan_of, plan_text, plan_after};
ghost use Rattle.cord_plan.specs.Planned.{trivial};
ghost use Rattle.cord_plan.specs.PlanText.{text_of_plan};

/// What the plans of worked scripts show.
pub fn plans_are_computed()
    ensures hello { plan_text 2 scripts.hello ≡ codes "1 build x literal(5)\n2 write x\n" }
    ensures hello_trivial { text_of_plan (trivial scripts.hello) ≡ codes "1 build x literal(5)\n2 write x\n" }
    ensures substr_over_seam { plan_text 5 Examples.substr_over_seam ≡
        codes "1 build a literal(3)\n2 build b literal(3)\n3 measure t cat(a b)\n"
        ++ codes "4 measure z sub(cat(a b) 2 3)\n5 write sub(cat(a b) 2 3)\n" }
    ensures show_trivial_plan { text_of_plan (trivial Examples.substr_over_seam) ≡
        codes "1 build a literal(3)\n2 build b literal(3)\n3 build t cat(a b)\n4 build z sub(t 2 3)\n"
        ++ codes "5 write z\n" }
    ensures substr_of_unread_cat_too_long { plan_text 5 Examples.substr_of_unread_cat_too_long ≡
        codes "1 measure a run(0 1099511627775)\n2 build b literal(1)\n"
        ++ codes "3 measure t cat(run(0 1099511627775) b)\n4 measure z sub(cat(run(0 1099511627775) b) 0 1)\n"
        ++ codes "5 write b\n" }
    ensures cat_in_cat { plan_text 5 Examples.cat_in_cat ≡
        codes "1 build a literal(1)\n2 build b literal(1)\n3 measure t cat(a b)\n4 measure u cat(a b b)\n"
        ++ codes "5 write cat(a b b)\n" }
    ensures path_is_escaped { plan_text 1 Examples.path_with_quote ≡ Examples.text_of_path_with_quote }
    ensures operand_assigned_between { plan_text 6 scripts.operand_assigned_between ≡
        codes "1 build a literal(1)\n2 build b literal(1)\n3 build t cat(a b)\n4 measure a literal(1)\n"
        ++ codes "5 measure z sub(t 0 2)\n6 write sub(t 0 2)\n" }
    ensures loop_reads_next_turn { plan_text 5 scripts.loop_reads_next_turn ≡
        codes "1 build x literal(0)\n2 repeat 3\n3 write x\n4 build x cat(x run(65 1))\n5 end\n" }
    ensures if_else_both_assign { plan_text 8 scripts.if_else_both_assign ≡
        codes "1 measure x literal(1)\n2 number n len(x)\n3 if n eq 1\n4 build x literal(1)\n5 else\n"
        ++ codes "6 build x literal(1)\n7 end\n8 write x\n" }
    ensures if_without_else_keeps { plan_text 6 scripts.if_without_else_keeps ≡
        codes "1 build x literal(1)\n2 number n len(x)\n3 if n gt 1\n4 build x literal(1)\n5 end\n6 write x\n" }
{}

/// What plans do: the plan of a worked script, a plan that is stuck where it puts a name of which it only computed the
/// length, and operations for the length alone that meet the faults of their lines.
pub fn runs_of_plans_are_computed()
    ensures seam_puts { output (plan_after (plan_of 5 Examples.substr_over_seam) [] 6).seen ≡ codes "cde" }
    ensures seam_ends { (plan_after (plan_of 5 Examples.substr_over_seam) [] 6).ended ≡ Some Done }
    ensures seam_stands { IsSome (plan_after (plan_of 5 Examples.substr_over_seam) [] 6).state }
    ensures len_serves { IsSome (plan_after Examples.measured_and_put [] 2).state }
    ensures stuck { (plan_after Examples.measured_and_put [] 3).state ≡ None }
    ensures missing { (plan_after Examples.missing_file_measured [] 1).ended ≡ Some (Fault 1 NoFile) }
    ensures too_long { (plan_after Examples.too_long_measured [] 2).ended ≡ Some (Fault 2 TooLong) }
{}
