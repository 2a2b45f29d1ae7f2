//! Resolved lines of each kind: how they are spelled, and that these are lines with a form.

ghost use Rattle.thr_examples.specs.Spelled.{AreSpelled, declarations, statements, attribute_calls, thread_calls, object_calls};

/// One line of each kind of declaration and of statement, as it is spelled.
#[tactic(auto, unfolding(crate::specs::Words::example_words))]
pub fn lines_are_spelled()
    ensures declarations { AreSpelled declarations }
    ensures statements { AreSpelled statements }
{}

/// One line of each call, as it is spelled.
#[tactic(auto, unfolding(crate::specs::Words::example_words))]
pub fn calls_are_spelled()
    ensures attributes { AreSpelled attribute_calls }
    ensures threads { AreSpelled thread_calls }
    ensures objects { AreSpelled object_calls }
{}
