//! Journals whose lines have their form.

ghost use Rattle.std.specs.Prelude.{◌≡◌, ◌∷◌, [], true, false};
ghost use Rattle.thr_values.specs.declared.event.Stop.TheVariants as stops;
ghost use Rattle.thr_text.specs.Reading.{Formed};
ghost use Rattle.thr_verdict.specs.FormedJournals.{FormedJournal, is_formed_stop};
ghost use Rattle.thr_verdict.specs.Samples.{cancelled_wait, cancelled_wait_lines, seven, seven_ends, seven_journal, seven_lines, tid};

/// A cancelled wait, on one processor and on sixteen.
#[tactic(auto, unfolding(crate::specs::Computing::verdict_words))]
pub fn cancelled_wait_has_its_form()
    ensures script { Formed cancelled_wait }
    ensures one { FormedJournal (record { workers = 1; script = cancelled_wait; entries = cancelled_wait_lines; stop = stops.Finished }) }
    ensures sixteen { FormedJournal (record { workers = 16; script = cancelled_wait; entries = cancelled_wait_lines; stop = stops.Finished }) }
{}

/// Journals that have their form, whatever their history says, and ones that don't.
#[tactic(auto, unfolding(crate::specs::Computing::verdict_words))]
pub fn journals_of_seven()
    ensures as_it_is { FormedJournal (seven_journal 1 seven_lines stops.Finished) }
    ensures no_line { FormedJournal (seven_journal 1 [] stops.Memory) }
    ensures not_legal { FormedJournal (seven_journal 1 (seven_ends ∷ []) (stops.Deadlock 0 (tid 0))) }
    ensures no_worker { FormedJournal (seven_journal 0 seven_lines stops.Finished) → ⊥ }
    ensures seventeen_workers { FormedJournal (seven_journal 17 seven_lines stops.Finished) → ⊥ }
    ensures of_another_script { FormedJournal (seven_journal 1 cancelled_wait_lines stops.Finished) → ⊥ }
    ensures wrong_stop { FormedJournal (seven_journal 1 seven_lines (stops.Deadlock 4294967296 (tid 1))) → ⊥ }
    ensures wrong_script { FormedJournal (record { workers = 1; script = record seven { names = [] }; entries = []; stop = stops.Finished }) → ⊥ }
{}

/// Stops and the ranges of their numbers.
#[tactic(auto, unfolding(crate::specs::Computing::verdict_words))]
pub fn stops_with_their_form()
    ensures finished { is_formed_stop stops.Finished ≡ true }
    ensures limit { is_formed_stop stops.Limit ≡ true }
    ensures memory { is_formed_stop stops.Memory ≡ true }
    ensures deadlock { is_formed_stop (stops.Deadlock 4294967295 (tid 4294967295)) ≡ true }
    ensures large_count { is_formed_stop (stops.Deadlock 4294967296 (tid 1)) ≡ false }
    ensures large_thread { is_formed_stop (stops.Deadlock 1 (tid 4294967296)) ≡ false }
{}
