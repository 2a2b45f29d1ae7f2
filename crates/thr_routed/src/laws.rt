//! Laws on routes: in the legal histories of scripts that keep the rules, and what they stand on.

ghost use Rattle.std.specs.Prelude.{◌≡◌, List, Option, ℕ, true};
ghost use Rattle.thr_values.specs.declared.history.What.{What};
ghost use Rattle.thr_values.specs.declared.event.Stop.{Stop};
ghost use Rattle.thr_values.specs.declared.history.Entry.{Entry};
ghost use Rattle.thr_syntax.specs.declared.tree.Script.{Script};
ghost use Rattle.thr_syntax.specs.declared.tree.Stmt.{Stmt};
ghost use Rattle.thr_syntax.specs.Lines.{lines_of, stmt_lines};
ghost use Rattle.thr_text.specs.Reading.{Formed};
ghost use Rattle.thr_remainder.specs.Places.{Left};
ghost use Rattle.thr_remainder.specs.Acts.{act_of};
ghost use Rattle.thr_remainder.specs.Standing.{StandAt};
ghost use Rattle.thr_laws.specs.Routed.{go_straight_on, keep_to_routes, numbers_count_up, only_made_are_carried, take_whole_routes, Routed};
ghost use Rattle.thr_laws.specs.Lines.{lines_of_thread};
ghost use Rattle.thr_model.specs.Histories.{Legal};
ghost use Rattle.thr_routed.specs.Reaching.{ReturnsLeaveNoScope, TellsWays};
ghost use Rattle.thr_routed.specs.Returns.{TriesHaveNoReturns};
ghost use Rattle.thr_routed.specs.Sound.{StaysSound};
ghost use Rattle.thr_routed.specs.Courses.{Outline, Course, HasClauses};

/// In each legal history of a script that keeps the rules each unwinding of each thread takes its route through the open scopes.
pub fn each_unwinding_takes_its_route()
    ensures { (s : Script) (n : ℕ) (entries : List Entry) (stop : Stop) → Formed s → Legal s n entries stop → Routed s entries }
{}

/// No try of a script that keeps the rules has a return among its lines (docs/script.md, "Blocks").
pub fn tries_have_no_returns()
    ensures { (s : Script) → Formed s → TriesHaveNoReturns s }
{}

/// Over the whole course of a thread its unwindings have the numbers 1, 2, 3 and so on.
pub fn courses_number_their_unwindings()
    ensures { (s : Script) (o : Option Outline) (lines : List What) → Course s (HasClauses s) ⊥ o lines → numbers_count_up lines ≡ true }
{}

/// Over the whole course of a thread only numbers that were made before are carried.
pub fn courses_carry_what_was_made()
    ensures { (s : Script) (o : Option Outline) (lines : List What) → Course s (HasClauses s) ⊥ o lines → only_made_are_carried lines ≡ true }
{}

/// Over the whole course of a thread the lines that carry an unwinding are a prefix of its route, in the route's order.
pub fn courses_keep_to_routes()
    ensures { (s : Script) (o : Option Outline) (lines : List What) → Course s (HasClauses s) ⊥ o lines → keep_to_routes s lines ≡ true }
{}

/// Over the whole course of a thread each unwinding goes straight on: where it is made, and where an entry of its route is done, the
/// next line but pauses is the next entry.
pub fn courses_go_straight_on()
    ensures { (s : Script) (o : Option Outline) (lines : List What) → Course s (HasClauses s) ⊥ o lines → go_straight_on s lines ≡ true }
{}

/// Over the whole course of a thread that ends each unwinding takes its whole route, or it was replaced.
pub fn courses_take_whole_routes()
    ensures { (s : Script) (o : Option Outline) (lines : List What) → Course s (HasClauses s) ⊥ o lines → take_whole_routes s lines ≡ true }
{}

/// In every history threads that run have something left to do, no unwinding is under way in threads that owe something, and
/// mutexes are given to such threads alone.
pub fn histories_stay_sound()
    ensures { (s : Script) (n : ℕ) → StaysSound s n }
{}

/// In every legal history the unwindings that each thread makes have the numbers 1, 2, 3 and so on, and only numbers that were made
/// before are carried.
pub fn legal_histories_number_their_unwindings()
    ensures { (s : Script) (n : ℕ) (entries : List Entry) (stop : Stop) → Legal s n entries stop → (t : ℕ) → (numbers_count_up (lines_of_thread t entries) ≡ true) × (only_made_are_carried (lines_of_thread t entries) ≡ true) }
{}

/// Where no try of a script has a return among its lines, no return that a thread can come to leaves a scope.
pub fn returns_leave_no_scope()
    ensures { (s : Script) → TriesHaveNoReturns s → ReturnsLeaveNoScope s }
{}

/// In each legal history of such a script each unwinding of each thread takes its route through the open scopes.
pub fn legal_histories_are_routed()
    ensures { (s : Script) (n : ℕ) (entries : List Entry) (stop : Stop) → TriesHaveNoReturns s → Legal s n entries stop → Routed s entries }
{}

/// The lines of a script tell the ways of each try that stands at its line.
pub fn lines_tell_the_ways_of_tries()
    ensures { (s : Script) (stmt : Stmt) (line : ℕ) (rest : Left) → StandAt (lines_of s) line (stmt_lines stmt) → TellsWays s line (act_of line stmt rest) }
{}
