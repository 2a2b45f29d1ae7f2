//! Texts of scripts and their first stated faults, each as the line and the number of the fault.

ghost use Rattle.std.specs.Prelude.{◌≡◌, ◌∷◌, [], ◌++◌, codes, replicate, None, Some};
ghost use Rattle.thr_syntax.specs.Canon.{canon};
ghost use Rattle.thr_text.specs.Reading.{Reads};
ghost use Rattle.thr_examples.specs.Pasted.{script_of};
ghost use Rattle.thr_examples.specs.Texts.{fault_of, fault_in, in_main, lines_text, with_main};

/// Bytes that may not stand in a line, and lines that are too long.
#[tactic(auto, unfolding(crate::specs::Words::example_words))]
pub fn bytes_and_lengths()
    ensures control { fault_of (codes "dcethr 1" ++ 10 ∷ codes "say " ++ 1 ∷ 10 ∷ []) ≡ Some (2, 1) }
    ensures control_in_comment { fault_of (codes "dcethr 1" ++ 10 ∷ codes "# " ++ 7 ∷ 10 ∷ []) ≡ Some (2, 1) }
    ensures nul { fault_of (0 ∷ codes "dcethr 1" ++ 10 ∷ []) ≡ Some (1, 1) }
    ensures delete { fault_of (codes "dcethr 1" ++ 10 ∷ 127 ∷ 10 ∷ []) ≡ Some (2, 1) }
    ensures above_ascii { fault_of (codes "dcethr 1" ++ 10 ∷ codes "# " ++ 195 ∷ 169 ∷ 10 ∷ []) ≡ Some (2, 1) }
    ensures second_return { fault_of (codes "dcethr 1" ++ 13 ∷ 13 ∷ 10 ∷ []) ≡ Some (1, 1) }
    ensures return_within { fault_of (codes "dcethr" ++ 13 ∷ codes " 1" ++ 10 ∷ []) ≡ Some (1, 1) }
    ensures return_at_the_end { fault_of (codes "dcethr 1" ++ 13 ∷ []) ≡ Some (1, 1) }
    ensures tab_and_return { fault_of (codes "dcethr 1" ++ 13 ∷ 10 ∷ codes "# note" ++ 10 ∷ 9 ∷ codes "routine  main a" ++ 10 ∷ codes " say -007" ++ 10 ∷ codes "end") ≡ None }
    ensures blanks_241 { fault_of (codes "dcethr 1" ++ 10 ∷ replicate 241 32 ++ 10 ∷ []) ≡ Some (2, 2) }
    ensures comment_241 { fault_of (codes "dcethr 1" ++ 10 ∷ replicate 241 35 ++ 10 ∷ []) ≡ Some (2, 2) }
    ensures first_241 { fault_of (codes "dcethr 1" ++ replicate 233 32 ++ 10 ∷ []) ≡ Some (1, 2) }
    ensures last_241 { fault_of (codes "dcethr 1" ++ 10 ∷ replicate 241 32) ≡ Some (2, 2) }
    ensures blanks_240 { fault_of (codes "dcethr 1" ++ 10 ∷ replicate 240 32 ++ 10 ∷ codes "routine main a" ++ 10 ∷ codes "end" ++ 10 ∷ []) ≡ None }
    ensures return_is_no_byte { fault_of (codes "dcethr 1" ++ 10 ∷ replicate 240 32 ++ 13 ∷ 10 ∷ codes "routine main a" ++ 10 ∷ codes "end" ++ 10 ∷ []) ≡ None }
{}

/// Numbers that are too large, too many words, and first lines.
#[tactic(auto, unfolding(crate::specs::Words::example_words))]
pub fn words_and_first_lines()
    ensures large { fault_in (in_main ("say 9223372036854775808" ∷ [])) ≡ Some (3, 3) }
    ensures small { fault_in (in_main ("say -9223372036854775809" ∷ [])) ≡ Some (3, 3) }
    ensures large_at_a_name { fault_in (in_main ("local 9223372036854775808" ∷ [])) ≡ Some (3, 3) }
    ensures large_in_first { fault_in ("dcethr 9223372036854775808" ∷ []) ≡ Some (1, 3) }
    ensures largest { fault_in (in_main ("say 9223372036854775807" ∷ [])) ≡ None }
    ensures smallest { fault_in (in_main ("say -9223372036854775808" ∷ [])) ≡ None }
    ensures zeros { fault_in (in_main ("say 0000000000000000000000000001" ∷ [])) ≡ None }
    ensures large_in_comment { fault_in (in_main ("say 1 # 9223372036854775808" ∷ [])) ≡ None }
    ensures words_25 { fault_in (in_main ("x x x x x x x x x x x x x x x x x x x x x x x x x" ∷ [])) ≡ Some (3, 4) }
    ensures words_25_in_first { fault_in ("dcethr 1 x x x x x x x x x x x x x x x x x x x x x x x x" ∷ []) ≡ Some (1, 4) }
    ensures words_25_elsewhere { fault_in ("dcethr 1" ∷ "mutex x x x x x x x x x x x x x x x x x x x x x x x x" ∷ []) ≡ Some (2, 4) }
    ensures words_24 { fault_in (in_main ("say + + + + + + + + + + + 1 2 3 4 5 6 7 8 9 0 1 2" ∷ [])) ≡ None }
    ensures words_25_in_comment { fault_in (in_main ("say 1 # x x x x x x x x x x x x x x x x x x x x x x x x" ∷ [])) ≡ None }
    ensures nothing { fault_in [] ≡ Some (1, 5) }
    ensures blank_lines { fault_in ("" ∷ "# dcethr 1" ∷ []) ≡ Some (3, 5) }
    ensures version_2 { fault_in ("dcethr 2" ∷ []) ≡ Some (1, 5) }
    ensures no_version { fault_in ("dcethr" ∷ []) ≡ Some (1, 5) }
    ensures more_after_version { fault_in ("dcethr 1 1" ∷ []) ≡ Some (1, 5) }
    ensures another_word { fault_in ("routine main a" ∷ "end" ∷ []) ≡ Some (1, 5) }
    ensures first_after_blank { fault_in ("" ∷ "# note" ∷ "  dcethr  01 # one" ∷ "routine main a" ∷ "end" ∷ []) ≡ None }
{}

/// Words that can't stand at their place, and lines that are too short or too long.
#[tactic(auto, unfolding(crate::specs::Words::example_words))]
pub fn lines_without_form()
    ensures no_first_word { fault_in (in_main ("frobnicate 1" ∷ [])) ≡ Some (3, 6) }
    ensures first_line_again { fault_in ("dcethr 1" ∷ "dcethr 1" ∷ []) ≡ Some (2, 6) }
    ensures this_alone { fault_in (in_main ("say this" ∷ [])) ≡ Some (3, 6) }
    ensures number_for_a_receiver { fault_in (in_main ("call main 1 5" ∷ [])) ≡ Some (3, 6) }
    ensures reserved_name { fault_in (in_main ("local pthread_yield" ∷ [])) ≡ Some (3, 6) }
    ensures name_of_25_bytes { fault_in (in_main ("local abcdefghijklmnopqrstuvwxy" ∷ [])) ≡ Some (3, 6) }
    ensures word_that_stands_nowhere { fault_in (in_main ("set 5" ∷ [])) ≡ Some (3, 6) }
    ensures too_short { fault_in (in_main ("say" ∷ [])) ≡ Some (3, 7) }
    ensures too_short_within { fault_in (in_main ("say + 1 * 2" ∷ [])) ≡ Some (3, 7) }
    ensures too_long { fault_in (in_main ("say 1 2" ∷ [])) ≡ Some (3, 7) }
    ensures too_long_whatever_follows { fault_in (in_main ("say 1 this" ∷ [])) ≡ Some (3, 7) }
    ensures too_long_at_the_end { fault_in (in_main ("say 1" ∷ "end end" ∷ [])) ≡ Some (4, 7) }
{}

/// Lines in blocks in which they can't stand, and blocks that are left open.
#[tactic(auto, unfolding(crate::specs::Words::example_words))]
pub fn blocks_and_places()
    ensures declaration_inside { fault_in (in_main ("mutex m" ∷ [])) ≡ Some (3, 8) }
    ensures setting_inside { fault_in (in_main ("limit 5" ∷ [])) ≡ Some (3, 8) }
    ensures interface_inside { fault_in (in_main ("say 1" ∷ "interface exc" ∷ [])) ≡ Some (4, 8) }
    ensures routine_inside { fault_in (in_main ("if 1" ∷ "routine r b" ∷ "end" ∷ "end" ∷ [])) ≡ Some (4, 8) }
    ensures open_routine { fault_in ("dcethr 1" ∷ "routine main a" ∷ []) ≡ Some (3, 8) }
    ensures open_if { fault_in ("dcethr 1" ∷ "routine main a" ∷ "if 1" ∷ "end" ∷ []) ≡ Some (5, 8) }
    ensures open_try { fault_in ("dcethr 1" ∷ "routine main a" ∷ "try" ∷ "finally" ∷ []) ≡ Some (5, 8) }
    ensures open_after_blank_lines { fault_in ("dcethr 1" ∷ "routine main a" ∷ "" ∷ "# end" ∷ []) ≡ Some (5, 8) }
    ensures statement_outside { fault_in ("dcethr 1" ∷ "say 1" ∷ []) ≡ Some (2, 9) }
    ensures local_outside { fault_in ("dcethr 1" ∷ "local v" ∷ []) ≡ Some (2, 9) }
    ensures end_outside { fault_in ("dcethr 1" ∷ "end" ∷ []) ≡ Some (2, 9) }
    ensures reraise_outside { fault_in ("dcethr 1" ∷ "reraise" ∷ []) ≡ Some (2, 9) }
    ensures local_after_statement { fault_in (in_main ("say 1" ∷ "local v" ∷ [])) ≡ Some (4, 9) }
    ensures local_in_block { fault_in (in_main ("while 1" ∷ "local v" ∷ "end" ∷ [])) ≡ Some (4, 9) }
    ensures end_of_try { fault_in (in_main ("try" ∷ "end" ∷ [])) ≡ Some (4, 9) }
    ensures end_of_finally { fault_in (in_main ("try" ∷ "finally" ∷ "end" ∷ [])) ≡ Some (5, 9) }
    ensures else_of_nothing { fault_in (in_main ("else" ∷ [])) ≡ Some (3, 9) }
    ensures else_of_while { fault_in (in_main ("while 1" ∷ "else" ∷ "end" ∷ [])) ≡ Some (4, 9) }
    ensures second_else { fault_in (in_main ("if 1" ∷ "else" ∷ "else" ∷ "end" ∷ [])) ≡ Some (5, 9) }
    ensures clause_of_nothing { fault_in (in_main ("catch cancel_e" ∷ [])) ≡ Some (3, 9) }
    ensures clause_in_if { fault_in (in_main ("try" ∷ "if 1" ∷ "catch_all" ∷ "end" ∷ "endtry" ∷ [])) ≡ Some (5, 9) }
    ensures finally_in_while { fault_in (in_main ("try" ∷ "while 1" ∷ "finally" ∷ "end" ∷ "endtry" ∷ [])) ≡ Some (5, 9) }
    ensures endtry_in_while { fault_in (in_main ("try" ∷ "catch_all" ∷ "while 1" ∷ "endtry" ∷ "end" ∷ [])) ≡ Some (6, 9) }
    ensures endtry_of_nothing { fault_in (in_main ("endtry" ∷ [])) ≡ Some (3, 9) }
{}

/// Clauses beside one another, and what may stand in them.
#[tactic(auto, unfolding(crate::specs::Words::example_words))]
pub fn clauses()
    ensures catch_after_all { fault_in (in_main ("try" ∷ "catch_all" ∷ "catch cancel_e" ∷ "endtry" ∷ [])) ≡ Some (5, 10) }
    ensures second_all { fault_in (in_main ("try" ∷ "catch_all" ∷ "say 1" ∷ "catch_all" ∷ "endtry" ∷ [])) ≡ Some (6, 10) }
    ensures catch_after_both { fault_in (in_main ("try" ∷ "catch pipe_e" ∷ "catch_all" ∷ "catch cancel_e" ∷ "endtry" ∷ [])) ≡ Some (6, 10) }
    ensures inner_all_is_closed { fault_in (in_main ("try" ∷ "try" ∷ "catch_all" ∷ "endtry" ∷ "catch cancel_e" ∷ "catch_all" ∷ "endtry" ∷ [])) ≡ None }
    ensures finally_after_catch { fault_in (in_main ("try" ∷ "catch cancel_e" ∷ "finally" ∷ "endtry" ∷ [])) ≡ Some (5, 11) }
    ensures finally_after_all { fault_in (in_main ("try" ∷ "catch_all" ∷ "finally" ∷ "endtry" ∷ [])) ≡ Some (5, 11) }
    ensures second_finally { fault_in (in_main ("try" ∷ "finally" ∷ "finally" ∷ "endtry" ∷ [])) ≡ Some (5, 11) }
    ensures catch_after_finally { fault_in (in_main ("try" ∷ "finally" ∷ "catch cancel_e" ∷ "endtry" ∷ [])) ≡ Some (5, 11) }
    ensures all_after_finally { fault_in (in_main ("try" ∷ "finally" ∷ "catch_all" ∷ "endtry" ∷ [])) ≡ Some (5, 11) }
    ensures no_clause { fault_in (in_main ("try" ∷ "endtry" ∷ [])) ≡ Some (4, 12) }
    ensures no_clause_with_body { fault_in (in_main ("try" ∷ "say 1" ∷ "say 2" ∷ "endtry" ∷ [])) ≡ Some (6, 12) }
    ensures no_clause_inside { fault_in (in_main ("try" ∷ "try" ∷ "endtry" ∷ "catch_all" ∷ "endtry" ∷ [])) ≡ Some (5, 12) }
    ensures return_in_try { fault_in (in_main ("try" ∷ "return 0" ∷ "finally" ∷ "endtry" ∷ [])) ≡ Some (4, 13) }
    ensures return_in_catch { fault_in (in_main ("try" ∷ "catch cancel_e" ∷ "return 0" ∷ "endtry" ∷ [])) ≡ Some (5, 13) }
    ensures return_in_finally { fault_in (in_main ("try" ∷ "finally" ∷ "return 0" ∷ "endtry" ∷ [])) ≡ Some (5, 13) }
    ensures return_in_inner_block { fault_in (in_main ("try" ∷ "catch_all" ∷ "while 1" ∷ "if 1" ∷ "return 0" ∷ "end" ∷ "end" ∷ "endtry" ∷ [])) ≡ Some (7, 13) }
    ensures return_after_try { fault_in (in_main ("try" ∷ "finally" ∷ "endtry" ∷ "return 0" ∷ [])) ≡ None }
    ensures reraise_alone { fault_in (in_main ("reraise" ∷ [])) ≡ Some (3, 14) }
    ensures this_outside { fault_in (in_main ("say exc_get_status this" ∷ [])) ≡ Some (3, 14) }
    ensures reraise_in_try { fault_in (in_main ("try" ∷ "reraise" ∷ "catch_all" ∷ "endtry" ∷ [])) ≡ Some (4, 14) }
    ensures this_in_finally { fault_in (in_main ("try" ∷ "finally" ∷ "if exc_matches this cancel_e" ∷ "end" ∷ "endtry" ∷ [])) ≡ Some (5, 14) }
    ensures reraise_after_catch { fault_in (in_main ("try" ∷ "catch_all" ∷ "endtry" ∷ "reraise" ∷ [])) ≡ Some (6, 14) }
    ensures reraise_in_catch { fault_in (in_main ("try" ∷ "catch cancel_e" ∷ "reraise" ∷ "catch_all" ∷ "say exc_get_status this" ∷ "endtry" ∷ [])) ≡ None }
    ensures reraise_in_inner_try { fault_in (in_main ("try" ∷ "catch_all" ∷ "while 1" ∷ "try" ∷ "reraise" ∷ "finally" ∷ "endtry" ∷ "end" ∷ "endtry" ∷ [])) ≡ None }
{}

/// Names that are declared again, and settings that stand again.
#[tactic(auto, unfolding(crate::specs::Words::example_words))]
pub fn declared_twice()
    ensures same_kind { fault_in (with_main ("mutex m" ∷ "mutex m" ∷ []) []) ≡ Some (3, 15) }
    ensures other_kind { fault_in (with_main ("mutex m" ∷ "cond m" ∷ []) ("pthread_mutex_lock m" ∷ [])) ≡ Some (3, 15) }
    ensures built_in { fault_in (with_main ("exception pipe_e" ∷ []) []) ≡ Some (2, 15) }
    ensures mutex_as_main { fault_in (with_main ("mutex main" ∷ []) []) ≡ Some (3, 15) }
    ensures main_twice { fault_in ("dcethr 1" ∷ "routine main a" ∷ "end" ∷ "routine main a" ∷ "end" ∷ []) ≡ Some (4, 15) }
    ensures parameter_as_object { fault_in (with_main ("mutex a" ∷ []) []) ≡ Some (3, 15) }
    ensures parameter_as_later_object { fault_in ("dcethr 1" ∷ "routine main m" ∷ "end" ∷ "mutex m" ∷ []) ≡ Some (2, 15) }
    ensures parameter_as_routine { fault_in ("dcethr 1" ∷ "routine main main" ∷ "end" ∷ []) ≡ Some (2, 15) }
    ensures parameter_as_built_in { fault_in ("dcethr 1" ∷ "routine main cancel_e" ∷ "end" ∷ []) ≡ Some (2, 15) }
    ensures local_as_parameter { fault_in (in_main ("local a" ∷ [])) ≡ Some (3, 15) }
    ensures local_as_local { fault_in (in_main ("local v" ∷ "local v" ∷ [])) ≡ Some (4, 15) }
    ensures local_as_object { fault_in (with_main ("shared s 0" ∷ []) ("local s" ∷ [])) ≡ Some (4, 15) }
    ensures local_as_routine { fault_in (in_main ("local main" ∷ [])) ≡ Some (3, 15) }
    ensures second_limit { fault_in (with_main ("limit 5" ∷ "limit 5" ∷ []) []) ≡ Some (3, 15) }
    ensures second_interface { fault_in (with_main ("interface exc" ∷ "interface status" ∷ []) []) ≡ Some (3, 15) }
    ensures locals_of_two_routines { fault_in ("dcethr 1" ∷ "routine r a" ∷ "local v" ∷ "end" ∷ "routine main a" ∷ "local v" ∷ "end" ∷ []) ≡ None }
{}

/// Names that aren't declared, and names of another kind.
#[tactic(auto, unfolding(crate::specs::Words::example_words))]
pub fn names_and_kinds()
    ensures no_variable { fault_in (in_main ("say x" ∷ [])) ≡ Some (3, 16) }
    ensures no_mutex { fault_in (in_main ("pthread_mutex_lock m" ∷ [])) ≡ Some (3, 16) }
    ensures no_exception { fault_in (in_main ("raise e" ∷ [])) ≡ Some (3, 16) }
    ensures no_receiver { fault_in (in_main ("call main 1 v" ∷ [])) ≡ Some (3, 16) }
    ensures no_routine_in_call { fault_in (in_main ("call r 1" ∷ [])) ≡ Some (3, 16) }
    ensures local_of_another { fault_in ("dcethr 1" ∷ "routine r b" ∷ "local v" ∷ "end" ∷ "routine main a" ∷ "say v" ∷ "end" ∷ []) ≡ Some (6, 16) }
    ensures parameter_of_another { fault_in ("dcethr 1" ∷ "routine r b" ∷ "end" ∷ "routine main a" ∷ "say b" ∷ "end" ∷ []) ≡ Some (5, 16) }
    ensures declared_below { fault_in ("dcethr 1" ∷ "routine main a" ∷ "say s" ∷ "raise e" ∷ "call r 1" ∷ "end" ∷ "exception e" ∷ "shared s 0" ∷ "routine r b" ∷ "end" ∷ []) ≡ None }
    ensures mutex_as_variable { fault_in (with_main ("mutex m" ∷ []) ("set m 1" ∷ [])) ≡ Some (4, 17) }
    ensures parameter_as_mutex { fault_in (in_main ("pthread_mutex_lock a" ∷ [])) ≡ Some (3, 17) }
    ensures routine_in_expression { fault_in (in_main ("say main" ∷ [])) ≡ Some (3, 17) }
    ensures variable_as_exception { fault_in (in_main ("try" ∷ "catch a" ∷ "endtry" ∷ [])) ≡ Some (4, 17) }
    ensures exception_as_mutex { fault_in (with_main ("cond c" ∷ "mutex m" ∷ []) ("pthread_cond_wait c cancel_e" ∷ [])) ≡ Some (5, 17) }
    ensures shared_receiver { fault_in (with_main ("shared s 0" ∷ []) ("call main 1 s" ∷ [])) ≡ Some (4, 17) }
    ensures shared_variable { fault_in (with_main ("shared s 0" ∷ []) ("set s + s 1" ∷ [])) ≡ None }
    ensures absent_objects { fault_in (with_main ("mutex m" ∷ "key k" ∷ []) ("pthread_mutex_init m default" ∷ "pthread_keycreate k none" ∷ [])) ≡ None }
{}

/// Numbers, names and blocks that pass a limit, and the routine `main`.
#[tactic(auto, unfolding(crate::specs::Words::example_words))]
pub fn limits()
    ensures limit_0 { fault_in (with_main ("limit 0" ∷ []) []) ≡ Some (2, 18) }
    ensures limit_negative { fault_in (with_main ("limit -1" ∷ []) []) ≡ Some (2, 18) }
    ensures limit_1 { fault_in (with_main ("limit 1" ∷ []) []) ≡ None }
    ensures limit_1000000 { fault_in (with_main ("limit 1000000" ∷ []) []) ≡ None }
    ensures limit_1000001 { fault_in (with_main ("limit 1000001" ∷ []) []) ≡ Some (2, 18) }
    ensures pipe_0 { fault_in (with_main ("pipe p 0" ∷ []) []) ≡ Some (2, 18) }
    ensures pipe_negative { fault_in (with_main ("pipe p -4" ∷ []) []) ≡ Some (2, 18) }
    ensures pipe_1 { fault_in (with_main ("pipe p 1" ∷ []) []) ≡ None }
    ensures pipe_4096 { fault_in (with_main ("pipe p 4096" ∷ []) []) ≡ None }
    ensures pipe_4097 { fault_in (with_main ("pipe p 4097" ∷ []) []) ≡ Some (2, 18) }
    ensures no_main { fault_in ("dcethr 1" ∷ []) ≡ Some (2, 18) }
    ensures no_main_among_others { fault_in ("dcethr 1" ∷ "mutex m" ∷ "routine r a" ∷ "end" ∷ []) ≡ Some (5, 18) }
    ensures main_is_no_routine { fault_in ("dcethr 1" ∷ "mutex main" ∷ []) ≡ Some (3, 18) }
    ensures locals_15 { fault_in (in_main ("local b" ∷ "local c" ∷ "local d" ∷ "local e" ∷ "local f" ∷ "local g" ∷ "local h" ∷ "local i" ∷ "local j" ∷ "local k" ∷ "local l" ∷ "local m" ∷ "local n" ∷ "local o" ∷ "local p" ∷ [])) ≡ None }
    ensures locals_16 { fault_in (in_main ("local b" ∷ "local c" ∷ "local d" ∷ "local e" ∷ "local f" ∷ "local g" ∷ "local h" ∷ "local i" ∷ "local j" ∷ "local k" ∷ "local l" ∷ "local m" ∷ "local n" ∷ "local o" ∷ "local p" ∷ "local q" ∷ [])) ≡ Some (18, 18) }
    ensures depth_32 { fault_in (in_main (replicate 31 "if 1" ++ replicate 31 "end")) ≡ None }
    ensures depth_33 { fault_in (in_main (replicate 32 "if 1" ++ replicate 32 "end")) ≡ Some (34, 18) }
{}

/// Texts with several faults, and the one that counts.
#[tactic(auto, unfolding(crate::specs::Words::example_words))]
pub fn first_of_several()
    ensures lesser_line { fault_in (in_main ("say this" ∷ "say" ∷ [])) ≡ Some (3, 6) }
    ensures lesser_line_of_greater_number { fault_in (in_main ("say" ∷ "say this" ∷ [])) ≡ Some (3, 7) }
    ensures byte_before_form { fault_of (codes "dcethr 1" ++ 10 ∷ codes "say " ++ 1 ∷ 10 ∷ codes "frobnicate" ++ 10 ∷ []) ≡ Some (2, 1) }
    ensures byte_before_length { fault_of (codes "dcethr 1" ++ 10 ∷ replicate 241 7 ++ 10 ∷ []) ≡ Some (2, 1) }
    ensures number_before_words { fault_in (in_main ("x x x x x x x x x x x x x x x x x x x x x x x x 9223372036854775808" ∷ [])) ≡ Some (3, 3) }
    ensures number_before_first { fault_in ("dcethr 9223372036854775808 1" ∷ []) ≡ Some (1, 3) }
    ensures first_from_the_left { fault_in (in_main ("set 5" ∷ [])) ≡ Some (3, 6) }
    ensures first_pass_before_second { fault_in ("dcethr 1" ∷ "say 1" ∷ "frobnicate" ∷ []) ≡ Some (3, 6) }
    ensures first_pass_before_third { fault_in ("dcethr 1" ∷ "mutex m" ∷ "mutex m" ∷ "say" ∷ []) ≡ Some (4, 7) }
    ensures second_pass_before_third { fault_in ("dcethr 1" ∷ "routine main a" ∷ "say x" ∷ "end" ∷ "end" ∷ []) ≡ Some (5, 9) }
    ensures place_before_caught { fault_in ("dcethr 1" ∷ "say exc_get_status this" ∷ []) ≡ Some (2, 9) }
    ensures return_before_caught { fault_in (in_main ("try" ∷ "return exc_get_status this" ∷ "catch_all" ∷ "endtry" ∷ [])) ≡ Some (4, 13) }
    ensures first_block_before_end { fault_in ("dcethr 1" ∷ "routine main a" ∷ "try" ∷ "return 0" ∷ []) ≡ Some (4, 13) }
    ensures clause_before_open { fault_in (in_main ("try" ∷ "catch_all" ∷ "catch cancel_e" ∷ [])) ≡ Some (5, 10) }
    ensures undeclared_before_kind { fault_in (in_main ("pthread_cond_wait a m" ∷ [])) ≡ Some (3, 16) }
    ensures twice_before_limit { fault_in (with_main ("limit 5" ∷ "limit 0" ∷ []) []) ≡ Some (3, 15) }
    ensures lesser_line_of_names { fault_in ("dcethr 1" ∷ "routine r a" ∷ "say x" ∷ "end" ∷ []) ≡ Some (3, 16) }
    ensures limit_on_lesser_line { fault_in (with_main ("limit 0" ∷ []) ("say x" ∷ [])) ≡ Some (2, 18) }
{}

/// Texts without a fault.
#[tactic(auto, unfolding(crate::specs::Words::example_words))]
pub fn right_texts()
    ensures empty_main { fault_in ("dcethr 1" ∷ "routine main a" ∷ "end" ∷ []) ≡ None }
    ensures say { fault_in (in_main ("say -7" ∷ [])) ≡ None }
    ensures every_declaration { fault_in (with_main ("interface status" ∷ "limit 5" ∷ "shared s -1" ∷ "exception e" ∷ "status x 5" ∷ "mutex m" ∷ "mutexattr b" ∷ "cond c" ∷ "attr f" ∷ "key k" ∷ "once o" ∷ "pipe p 4" ∷ []) ("local v" ∷ "set v s" ∷ "raise e" ∷ [])) ≡ None }
    ensures every_block { fault_in (with_main ("exception e" ∷ []) ("local v" ∷ "set v 10" ∷ "while > v 0" ∷ "if == v 5" ∷ "say v" ∷ "else" ∷ "try" ∷ "raise e" ∷ "catch e" ∷ "reraise" ∷ "catch_all" ∷ "endtry" ∷ "end" ∷ "set v - v 1" ∷ "end" ∷ "try" ∷ "finally" ∷ "endtry" ∷ "return v" ∷ [])) ≡ None }
{}

/// A text with a CR, blanks and a comment, what it is read as, and the canonical text of that.
#[tactic(auto, unfolding(crate::specs::Words::example_words))]
pub fn a_text_is_read()
    ensures read { Reads
        (codes "dcethr 1" ++ 13 ∷ 10 ∷ codes "# note" ++ 10 ∷ 9 ∷ codes "routine  main a" ++ 10 ∷ codes " say -007" ++ 10 ∷ codes "end")
        (script_of "dcethr 1 ; routine main a ; say -7 ; end") }
    ensures canonical { canon (script_of "dcethr 1 ; routine main a ; say -7 ; end") ≡ lines_text ("dcethr 1" ∷ "routine main a" ∷ "say -7" ∷ "end" ∷ []) }
{}
