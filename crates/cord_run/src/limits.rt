// What a run can't meet: a function that does nothing, whose contract is the law.
ghost use Rattle.std.specs.Prelude.{◌≤◌, ℕ, List, length};
ghost use Rattle.cord_file.specs.declared.TheConstants.{MAX_FILES};
ghost use Rattle.cord_script.specs.declared.TheConstants.{MAX_PATHS};
ghost use Rattle.cord_script.specs.Forms.{Grammar};
ghost use Rattle.cord_script.specs.Script.{ReadsBy, after_all, start};
ghost use Rattle.cord_syntax.specs.declared.statements.Statement.{Statement};

/// A script that is read has no more paths than a run opens, so that a run never has too many files.
pub fn runs_have_few_files()
    ensures limits { MAX_PATHS ≤ MAX_FILES }
    ensures paths { (g : Grammar) (b : List ℕ) (statements : List Statement) → ReadsBy g b statements →
        length (after_all statements start).paths ≤ MAX_FILES }
{}
