//! What histories give to the events that go on from them.

ghost use Rattle.std.specs.Prelude.{◌≡◌, ◌≤◌, ◌<◌, ℕ, ℤ, true, None, Some, length};
ghost use Rattle.thr_values.specs.declared.number.Tid.{Tid};
ghost use Rattle.thr_values.specs.declared.event.Event.{Event};
ghost use Rattle.thr_syntax.specs.declared.tree.Script.{Script};
ghost use Rattle.thr_text.specs.Reading.{Formed};
ghost use Rattle.thr_remainder.specs.Remainders.{Remainder};
ghost use Rattle.thr_parts.specs.Tables.{Table, has};
ghost use Rattle.thr_parts.specs.Rows.{most, seat_of, is_running};
ghost use Rattle.thr_tables.specs.Places.{has_place};
ghost use Rattle.thr_model.specs.Turns.{Made};
ghost use Rattle.thr_model.specs.Events.{made_by};
ghost use Rattle.thr_model.specs.Histories.{Execution, History, stop_at};
ghost use Rattle.thr_frames.specs.Stacks.{StackView};
ghost use Rattle.thr_services.specs.Views.{ServicesView, state_with};
ghost use Rattle.thr_stacks.specs.Stacks.{StacksStand};
ghost use Rattle.thr_turns.specs.Ready.{IsReady};
ghost use Rattle.thr_machine.specs.Books.{settings_in, most_size};
ghost use Rattle.thr_machine.specs.Stepping.{IsOwn, CanMove, StandsIn};

use thr_beginnings::laws::{once_blocks_that_wait_have_room, what_begins_is_a_routine};
use thr_counts::laws::{
    arrivals_of_one_turn_are_few, counts_rise_with_the_lines, lines_stay_below_the_limit,
    stacks_keep_their_size,
};
use thr_model::laws::states_stay_canonical;
use thr_open_onces::laws::open_once_blocks_are_names;
use thr_services::laws::threads_owe_the_same_in_the_state;
use thr_stacks::laws::remainders_change_with_stacks;
use thr_waiting::laws::{mutexes_of_waits_are_names, parts_agree_on_who_waits};

/// After each history of a script that keeps the rules, where no stop holds, each thread that runs finds what its turn asks, where
/// its stack stands for what is left to do in it and there is room for a value of a key.
pub fn turns_find_what_they_ask()
    ensures { (s : Script) (n : ℕ) (x : Execution) → Formed s → History s n x → stop_at s x.state (length x.entries) ≡ None
        → (v : ServicesView) (remainders : Table Remainder) (shared : Table ℤ) → x.state ≡ state_with v remainders shared → 1 ≤ v.onces.room
        → (t : Tid) (k : StackView) → is_running (seat_of x.state.rows t) ≡ true → IsOwn s x.state t k → IsReady s v k t }
{
    parts_agree_on_who_waits();
    mutexes_of_waits_are_names();
    counts_rise_with_the_lines();
    arrivals_of_one_turn_are_few();
    lines_stay_below_the_limit();
    stacks_keep_their_size();
    what_begins_is_a_routine();
    once_blocks_that_wait_have_room();
    open_once_blocks_are_names();
    states_stay_canonical();
    threads_owe_the_same_in_the_state();
}

/// The same of moves of the clock.
pub fn clocks_find_what_they_ask()
    ensures { (s : Script) (n : ℕ) (x : Execution) → Formed s → History s n x → stop_at s x.state (length x.entries) ≡ None
        → (v : ServicesView) (remainders : Table Remainder) (shared : Table ℤ) → x.state ≡ state_with v remainders shared → CanMove v }
{
    parts_agree_on_who_waits();
    mutexes_of_waits_are_names();
    arrivals_of_one_turn_are_few();
    lines_stay_below_the_limit();
    threads_owe_the_same_in_the_state();
}

/// After each history a thread in which something is left to do has a seat, and its stack holds some frames. Stacks of threads of
/// which each has something left to do have room for the stack of one more of these.
pub fn threads_have_frames_and_places()
    ensures seats { (s : Script) (n : ℕ) (x : Execution) → History s n x → (t : ℕ) → has x.state.remainders t ≡ has x.state.rows.seats t }
    ensures some { (s : Script) (n : ℕ) (x : Execution) → History s n x → (t : ℕ) → has x.state.remainders t ≡ true → 2 ≤ (settings_in s x.state t).size }
    ensures few { (s : Script) (n : ℕ) (x : Execution) → History s n x → (t : ℕ) → has x.state.remainders t ≡ true → (settings_in s x.state t).size ≤ most_size }
    ensures below { (s : Script) (n : ℕ) (x : Execution) → History s n x → (t : ℕ) → has x.state.remainders t ≡ true → t < x.state.threads.next }
    ensures place { (s : Script) (n : ℕ) (x : Execution) → History s n x → (stacks : Table StackView) → StandsIn s x.state stacks
        → (t : ℕ) → has x.state.remainders t ≡ true → has_place stacks t most ≡ true }
{
    parts_agree_on_who_waits();
    stacks_keep_their_size();
    remainders_change_with_stacks();
}

/// Where an event is made, stacks of threads in which something was and is left to do go on standing on their lines.
pub fn stacks_stand_after_events()
    ensures { (s : Script) (n : ℕ) (x : Execution) → History s n x → (e : Event) (made : Made) → made_by s n x.state e ≡ Some made
        → (stacks : Table StackView) → ((t : ℕ) → has stacks t ≡ true → has x.state.remainders t ≡ true) → ((t : ℕ) → has stacks t ≡ true → has made.state.remainders t ≡ true)
        → StacksStand s stacks (settings_in s x.state) → StacksStand s stacks (settings_in s made.state) }
{
    parts_agree_on_who_waits();
    stacks_keep_their_size();
}
