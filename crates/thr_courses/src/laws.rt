//! Laws on the courses of threads.

ghost use Rattle.std.specs.Prelude.{ℕ, List, Option};
ghost use Rattle.thr_values.specs.declared.event.Stop.{Stop};
ghost use Rattle.thr_values.specs.declared.history.Entry.{Entry};
ghost use Rattle.thr_syntax.specs.declared.tree.Script.{Script};
ghost use Rattle.thr_text.specs.Reading.{Formed};
ghost use Rattle.thr_laws.specs.Lines.{lines_of_thread};
ghost use Rattle.thr_model.specs.Histories.{Legal};
ghost use Rattle.thr_routed.specs.Courses.{Outline, Course, HasClauses};

/// In each legal history of a script that keeps the rules the lines of each thread are a course, of which no scope is left by a
/// return. So what is said of whole courses holds of these lines.
pub fn lines_of_threads_are_courses()
    ensures { (s : Script) (n : ℕ) (entries : List Entry) (stop : Stop) → Formed s → Legal s n entries stop
        → (t : ℕ) → (o : Option Outline) × Course s (HasClauses s) ⊥ o (lines_of_thread t entries) }
{}
