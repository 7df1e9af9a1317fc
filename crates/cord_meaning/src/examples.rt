// Scripts whose runs are computed: each clause is a worked example, whose bytes and end the check computes.
ghost use Rattle.std.specs.Prelude.{◌≡◌, ◌<◌, ◌+◌, ℕ, [], ◌∷◌, codes};
ghost use Rattle.cord_io.specs.declared.TheConstants.{MAX_LEN};
ghost use Rattle.cord_meaning.specs.Ends.{Counts, EndsFaithfully};
ghost use Rattle.cord_meaning.specs.Meaning.{Means, MeansWithin};
ghost use Rattle.cord_meaning.specs.Examples;
ghost use Rattle.cord_meaning.specs.declared.ends.End.TheVariants.{Done, Fault, NoMemory, ReadFailed, WriteFailed};
ghost use Rattle.cord_meaning.specs.declared.ends.FaultKind.TheVariants.{Negative, BadByte, OutOfRange, NoFile};
ghost use Rattle.cord_meaning.specs.declared.ends.FaultKind.TheVariants.{TooLong, Overflow, TooManyTurns};

use crate::MAX_TURNS;

/// Texts, numbers, files and faults: what worked scripts put and how they end.
pub fn examples_are_computed()
    ensures hello { Means Examples.hello [] (codes "hello") Done }
    ensures substr_past_end { Means Examples.substr_past_end [] (codes "ef") Done }
    ensures substr_negative_index { Means Examples.substr_negative_index [] [] (Fault 2 Negative) }
    ensures chars_byte_too_great { Means Examples.chars_byte_too_great [] [] (Fault 1 BadByte) }
    ensures catn_catc_balance { Means Examples.catn_catc_balance [] (codes "aba!") Done }
    ensures ec_statements { Means Examples.ec_statements [] (codes "abCabCD") Done }
    ensures fetch_past_end { Means Examples.fetch_past_end [] (codes "ab") (Fault 3 OutOfRange) }
    ensures operand_assigned_between { Means Examples.operand_assigned_between [] (codes "ab") Done }
    ensures add_overflows { Means Examples.add_overflows [] [] (Fault 2 Overflow) }
    ensures dead_file_missing { Means Examples.dead_file_missing [] (codes "a") (Fault 3 NoFile) }
    ensures file_twice { Means Examples.file_twice Examples.one_file (codes "line\nline\n") Done }
    ensures at_the_limit { MeansWithin 4 MAX_TURNS Examples.four_bytes [] [] Done }
    ensures past_the_limit { MeansWithin 3 MAX_TURNS Examples.four_bytes [] [] (Fault 2 TooLong) }
{}

/// Searches, comparisons and prints: what worked scripts put and how they end.
pub fn examples_of_searches_are_computed()
    ensures str_at_later_place { Means (Examples.found_in_joined (codes "abc") 0) [] (codes "2") Done }
    ensures str_from_past_it { Means (Examples.found_in_joined (codes "abc") 3) [] (codes "-1") Done }
    ensures str_empty_at_end { Means (Examples.found_in_joined [] 5) [] (codes "5") Done }
    ensures str_empty_past_end { Means (Examples.found_in_joined [] 6) [] (codes "-1") Done }
    ensures str_over_seam { Means Examples.str_over_seam [] (codes "1") Done }
    ensures rchr_from_end { Means Examples.rchr_from_end [] (codes "3") Done }
    ensures chr_from_start { Means (Examples.chr_in_hello 0 108) [] (codes "2") Done }
    ensures chr_absent { Means (Examples.chr_in_hello 0 122) [] (codes "-1") Done }
    ensures chr_past_end { Means (Examples.chr_in_hello 5 111) [] [] (Fault 2 OutOfRange) }
    ensures cmp_unsigned { Means (Examples.compared (128 ∷ []) (codes "a")) [] (codes "1") Done }
    ensures cmp_prefix_is_less { Means (Examples.compared (codes "ab") (codes "abc")) [] (codes "-1") Done }
    ensures ncmp_equal_part { Means (Examples.parts_compared 3) [] (codes "0") Done }
    ensures ncmp_one_byte_more { Means (Examples.parts_compared 4) [] (codes "-1") Done }
    ensures sprintf_pads { Means Examples.sprintf_pads [] (codes "   he|7   |-0007||%") Done }
    ensures sprintf_numbers { Means Examples.sprintf_numbers [] (codes "000000ff|+5|10|FF|A") Done }
    ensures sprintf_negative_hex { Means Examples.sprintf_negative_hex [] [] (Fault 1 Negative) }
{}

/// Loops and branches: what worked scripts put and how they end.
pub fn examples_with_blocks_are_computed()
    ensures loop_reads_next_turn { Means Examples.loop_reads_next_turn [] (codes "AAA") Done }
    ensures repeat_zero { Means Examples.repeat_zero [] [] Done }
    ensures repeat_count_read_once { Means Examples.repeat_count_read_once [] (codes "aa") Done }
    ensures if_else_both_assign { Means Examples.if_else_both_assign [] (codes "b") Done }
    ensures if_without_else_keeps { Means Examples.if_without_else_keeps [] (codes "a") Done }
    ensures turns_at_the_limit { MeansWithin MAX_LEN 3 (Examples.empty_turns 3) [] [] Done }
    ensures turns_one_too_many { MeansWithin MAX_LEN 3 (Examples.empty_turns 4) [] [] (Fault 1 TooManyTurns) }
{}

/// Ends that are faithful: of a whole run, and of one whose sink failed inside a `put`.
pub fn right_ends_are_faithful()
    ensures whole { EndsFaithfully Examples.hello [] [] (codes "hello") Examples.nothing_failed Done }
    ensures cut { EndsFaithfully Examples.hello [] [] (codes "hel") Examples.sink_failed (WriteFailed 2) }
{}

/// Ends that aren't faithful: what was put, which line is named, and which cause.
pub fn wrong_ends_are_not_faithful()
    ensures too_little_put { (n : Counts) → EndsFaithfully Examples.hello [] [] (codes "hell") n Done → ⊥ }
    ensures put_too_early { (n : Counts) → EndsFaithfully Examples.hello [] [] (codes "h") n (NoMemory 1) → ⊥ }
    ensures later_line { (n : Counts) → EndsFaithfully Examples.fetch_past_end [] [] (codes "ab") n
        (Fault 4 OutOfRange) → ⊥ }
    ensures another_fault { (n : Counts) → EndsFaithfully Examples.fetch_past_end [] [] (codes "ab") n
        (Fault 3 Negative) → ⊥ }
    ensures done_without_finish { (n : Counts) → n.sink_after ≡ n.sink_before + 1 →
        EndsFaithfully Examples.hello [] [] (codes "hello") n Done → ⊥ }
    ensures fault_without_finish { (n : Counts) → n.finished_after ≡ n.finished_before →
        EndsFaithfully Examples.fetch_past_end [] [] (codes "ab") n (Fault 3 OutOfRange) → ⊥ }
    ensures finish_after_write_failed { (n : Counts) → n.finished_after ≡ n.finished_before + 1 →
        EndsFaithfully Examples.hello [] [] (codes "hel") n (WriteFailed 2) → ⊥ }
    ensures no_read_failed { (n : Counts) → n.files_after ≡ n.files_before →
        EndsFaithfully Examples.file_twice Examples.one_file [] [] n (ReadFailed 1) → ⊥ }
    ensures read_failure_as_no_memory { (n : Counts) → n.files_after ≡ n.files_before + 1 →
        EndsFaithfully Examples.file_twice Examples.one_file [] [] n (NoMemory 1) → ⊥ }
    ensures write_failure_as_no_memory { (n : Counts) → n.puts_before < n.puts_after →
        EndsFaithfully Examples.hello [] [] [] n (NoMemory 2) → ⊥ }
    ensures write_failure_as_read_failure { (n : Counts) → n.puts_before < n.puts_after →
        EndsFaithfully Examples.file_twice Examples.one_file [] [] n (ReadFailed 1) → ⊥ }
    ensures failed_and_finished { (n : Counts) → n.sink_after ≡ n.sink_before + 1 →
        n.finished_after ≡ n.finished_before + 1 → EndsFaithfully Examples.hello [] [] [] n (NoMemory 2) → ⊥ }
    ensures no_put_failed { (n : Counts) → n.puts_after ≡ n.puts_before →
        EndsFaithfully Examples.hello [] [] (codes "hel") n (WriteFailed 2) → ⊥ }
    ensures put_failure_as_finish { (n : Counts) → n.puts_before < n.puts_after →
        EndsFaithfully Examples.hello [] [] (codes "hello") n (WriteFailed 0) → ⊥ }
    ensures nothing_reads_there { (n : Counts) → EndsFaithfully Examples.hello [] [] [] n (ReadFailed 1) → ⊥ }
    ensures nothing_puts_there { (n : Counts) → EndsFaithfully Examples.hello [] [] [] n (WriteFailed 1) → ⊥ }
{}
