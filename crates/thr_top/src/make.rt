//! The command that makes a script.

ghost use Rattle.std.specs.Prelude.{◌≡◌, ◌≢◌, ◌≤◌, ◌⊎◌};
ghost use Rattle.thr_wire.specs.Causes.{Rose};
ghost use Rattle.thr_endings.specs.Endings.{Gives};
ghost use Rattle.thr_top.specs.Answers.{MakeAnswers};

use std::alloc::Global;
use thr_endings::{Status, give};
use thr_grammar::print;
use thr_making::make_script;
use thr_wire::wire::Sink;

/// Writes the canonical text of the script that is made of a number for so many workers.
pub(crate) fn make<K: Sink>(alloc: Global, number: u32, workers: u32, sink: &mut K) -> Status
    requires { workers ≤ 64 }
    ensures ends { Gives (MakeAnswers number workers) (K.held sink.old) (K.held sink.new) result.0 }
    ensures status { (result.0 ≡ 0) ⊎ ((result.0 ≡ 5) ⊎ (result.0 ≡ 4)) }
    ensures write { result.0 ≡ 4 → Rose (K.faults sink.old) (K.faults sink.new) }
    ensures quiet { result.0 ≢ 4 → K.faults sink.new ≡ K.faults sink.old }
{
    let Ok(script) = make_script(alloc, number, workers) else {
        return Status(5);
    };
    match print(alloc, &script) {
        Ok(text) => give(sink, 0, text.as_slice()),
        Err(_) => Status(5),
    }
}
