// Laws of the meaning of scripts: each is a function that does nothing, whose contract is the law.
ghost use Rattle.std.specs.Prelude.{◌≡◌, ◌≢◌, ◌≤◌, ◌<◌, ℕ, ◌+◌, ◌-◌, ◌^◌, List, [], map, suc, None, All, take, IsSome};
ghost use Rattle.std.specs.Prelude.{unwrap_or};
ghost use Rattle.cord_io.specs.Device.{FileSystem};
ghost use Rattle.cord_io.specs.FunctionTexts.{digits, byte_values};
ghost use Rattle.cord_script.specs.Script.{Reads};
ghost use Rattle.cord_syntax.specs.declared.statements.Statement.{Statement};
ghost use Rattle.cord_operands.specs.declared.operands.Function.TheVariants.{Digits, Bytes};
ghost use Rattle.cord_meaning.specs.Blocks.{IsNested};
ghost use Rattle.cord_meaning.specs.Paths.{Next};
ghost use Rattle.cord_meaning.specs.Machine.{Begins, enough};
ghost use Rattle.cord_meaning.specs.State.{start_state};
ghost use Rattle.cord_meaning.specs.Statements.{rules, shape_of, line_of, function_text};
ghost use Rattle.cord_meaning.specs.Unrolled.{Parts, IsWell, flat, unrolled};
ghost use Rattle.cord_meaning.specs.Leads.{LeadsTo};
ghost use Rattle.cord_meaning.specs.Ends.{IsMeant};
ghost use Rattle.cord_meaning.specs.Meaning.{trace, end_of, output, trace_within, end_within, run_within};
ghost use Rattle.cord_meaning.specs.declared.ends.End.TheVariants.{Done, Fault};
ghost use Rattle.cord_meaning.specs.declared.ends.FaultKind.TheVariants.{TooLong};

use crate::MAX_TURNS;
use cord_io::MAX_LEN;

/// Every run ends, after at most so many steps: one more than the statements, for each turn that may begin and once
/// more.
pub fn every_run_ends()
    ensures ends { (limit most : ℕ) (statements : List Statement) (files : FileSystem) →
        IsSome (run_within limit most statements files (enough most statements)).ended }
    ensures meant { (limit most : ℕ) (statements : List Statement) (files : FileSystem) →
        IsMeant (end_within limit most statements files) }
{}

/// What was run stays: the events of a run after some steps are the first ones after more steps, and of the whole run.
pub fn what_was_run_stays()
    ensures more { (limit most : ℕ) (statements : List Statement) (files : FileSystem) (k j : ℕ) →
        Begins (run_within limit most statements files k).seen (run_within limit most statements files (k + j)).seen }
    ensures whole { (limit most : ℕ) (statements : List Statement) (files : FileSystem) (k : ℕ) →
        Begins (run_within limit most statements files k).seen (trace_within limit most statements files) }
{}

/// The law of the limit: where a run with a smaller limit doesn't end with the fault `TooLong`, a greater limit changes
/// nothing. So it is with the limit of 32 bits and with `MAX_LEN`.
pub fn limits_only_refuse()
    ensures trace { (small great most : ℕ) (statements : List Statement) (files : FileSystem) → small ≤ great →
        ((line : ℕ) → end_within small most statements files ≢ Fault line TooLong) →
        trace_within great most statements files ≡ trace_within small most statements files }
    ensures end { (small great most : ℕ) (statements : List Statement) (files : FileSystem) → small ≤ great →
        ((line : ℕ) → end_within small most statements files ≢ Fault line TooLong) →
        end_within great most statements files ≡ end_within small most statements files }
    ensures output_of_32_bits { (statements : List Statement) (files : FileSystem) →
        ((line : ℕ) → end_within (2 ^ 32 - 1) MAX_TURNS statements files ≢ Fault line TooLong) →
        output (trace statements files) ≡ output (trace_within (2 ^ 32 - 1) MAX_TURNS statements files) }
    ensures end_of_32_bits { (statements : List Statement) (files : FileSystem) →
        ((line : ℕ) → end_within (2 ^ 32 - 1) MAX_TURNS statements files ≢ Fault line TooLong) →
        end_of statements files ≡ end_within (2 ^ 32 - 1) MAX_TURNS statements files }
{}

/// A run is the unrolled run: a `repeat` that reads n is its body n times, each after the beginning of its turn, and an
/// `if` is the branch that its numbers choose. Statements whose blocks are closed are such parts.
pub fn runs_are_unrolled()
    ensures trace { (limit most : ℕ) (parts : Parts Statement) (files : FileSystem) → IsWell shape_of parts →
        trace_within limit most (flat parts) files ≡ (unrolled (rules limit files) most parts 0 start_state).members }
    ensures end { (limit most : ℕ) (parts : Parts Statement) (files : FileSystem) → IsWell shape_of parts →
        end_within limit most (flat parts) files ≡ unwrap_or
        (unrolled (rules limit files) most parts 0 start_state).ended Done }
    ensures parts { (statements : List Statement) → IsNested [] (map shape_of statements) → (parts : Parts Statement) ×
        IsWell shape_of parts × (flat parts ≡ statements) }
{}

/// A run follows paths: of a script whose blocks are closed, each step that doesn't end the run leads to a place that
/// may come next.
pub fn runs_follow_paths()
    ensures { (limit most : ℕ) (statements : List Statement) (files : FileSystem) (k : ℕ) →
        IsNested [] (map shape_of statements) → (run_within limit most statements files (suc k)).ended ≡ None →
        Next (map shape_of statements) (run_within limit most statements files k).place
        (run_within limit most statements files (suc k)).place }
{}

/// What may come next is what the blocks give, and nothing more: each statement leads to the places that `leads` lists
/// for it.
pub fn paths_follow_blocks()
    ensures no_more { (parts : Parts Statement) (p q : ℕ) → IsWell shape_of parts →
        Next (map shape_of (flat parts)) p q → LeadsTo parts p q }
    ensures no_less { (parts : Parts Statement) (p q : ℕ) → IsWell shape_of parts →
        LeadsTo parts p q → Next (map shape_of (flat parts)) p q }
{}

/// The blocks of a script that is read are closed, and its lines are numbered from 1.
pub fn read_scripts_are_closed()
    ensures nested { (script : List ℕ) (statements : List Statement) → Reads script statements →
        IsNested [] (map shape_of statements) }
    ensures numbered { (script : List ℕ) (statements : List Statement) → Reads script statements →
        All (λ s. 0 < line_of s) statements }
{}

/// What `fn` takes is the prefix of a source that is `MAX_LEN` long.
pub fn functions_are_sources()
    ensures digits { (n : ℕ) → n ≤ MAX_LEN → function_text Digits n ≡ take n (digits MAX_LEN) }
    ensures bytes { (n : ℕ) → n ≤ MAX_LEN → function_text Bytes n ≡ take n (byte_values MAX_LEN) }
{}
