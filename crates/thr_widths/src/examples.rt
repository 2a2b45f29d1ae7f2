//! The widest lines, computed from the definitions.

ghost use Rattle.std.specs.Prelude.{◌≡◌, length, true, false};
ghost use Rattle.thr_values.specs.declared.reply.Reply.TheVariants as reply;
ghost use Rattle.thr_text.specs.Journals.{numbered_line};
ghost use Rattle.thr_text.specs.Reading.{Formed};
ghost use Rattle.thr_verdict.specs.FormedJournals.{is_formed_line};
ghost use Rattle.thr_widths.specs.Replies.{has_its_reply};
ghost use Rattle.thr_widths.specs.Samples.{long_names, longest_number, widest_create, widest_wait};

/// Lines that have their form, of a script that keeps the rules, and how wide they are: no bound can be less.
#[tactic(auto, unfolding(thr_verdict::specs::Computing::verdict_words))]
pub fn widest_lines()
    ensures script { Formed long_names }
    ensures wait_form { is_formed_line long_names (widest_wait (reply.Value longest_number)) ≡ true }
    ensures wait_reply { has_its_reply (widest_wait (reply.Value longest_number)) ≡ false }
    ensures wait { length (numbered_line long_names.names 9999999 (widest_wait (reply.Value longest_number))) ≡ 137 }
    ensures create_form { is_formed_line long_names widest_create ≡ true }
    ensures create_reply { has_its_reply widest_create ≡ true }
    ensures create { length (numbered_line long_names.names 9999999 widest_create) ≡ 129 }
    ensures error { length (numbered_line long_names.names 9999999 (widest_wait reply.Edeadlk)) ≡ 124 }
{}
