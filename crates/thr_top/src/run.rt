//! Runs a script to its end.

ghost use Rattle.std.specs.Prelude.{◌≡◌, ◌≢◌, ◌≤◌, IfOk};
ghost use Rattle.thr_values.specs.declared.event.Stop.TheVariants as stops;
ghost use Rattle.thr_text.specs.Reading.{Formed};
ghost use Rattle.thr_model.specs.Histories.{Legal};
ghost use Rattle.thr_alone.specs.Only.{IsOnlyHistory};
ghost use Rattle.thr_lawful.specs.Laws.{MeetsLaws};

use std::alloc::Global;
use std::sync::Wait;
use std::thread::Threads;
use thr_alone::laws::one_processor_has_one_history;
use thr_lawful::laws::legal_histories_meet_the_laws;
use thr_syntax::journal::Journal;
use thr_syntax::tree::Script;
use thr_values::number::NoMemory;
use thr_workers::gate::Gate;
use thr_workers::worker::run_workers;

/// The journal of a legal history of a script, by so many workers: all threads have ended, nothing can go on, or the lines come
/// to the limit. One worker leaves no choice. It may never return, since workers wait for one another.
pub fn history_of<R: Threads + Wait + Sync, G: Gate + Sync>(
    rt: &R,
    alloc: Global,
    script: Script,
    workers: u32,
    gate: &G,
) -> Result<Journal, NoMemory>
    requires formed { Formed script }
    requires some { 1 ≤ workers }
    requires few { workers ≤ 16 }
    ensures legal { IfOk result (λ j. Legal script workers j.entries j.stop) }
    ensures laws { IfOk result (λ j. MeetsLaws script j.entries j.stop) }
    ensures only { IfOk result (λ j. workers ≡ 1 → IsOnlyHistory script j.entries j.stop) }
    ensures stop { IfOk result (λ j. j.stop ≢ stops.Memory) }
    ensures same { IfOk result (λ j. (j.script ≡ script) × (j.workers ≡ workers)) }
{
    legal_histories_meet_the_laws();
    one_processor_has_one_history();
    let run = run_workers(rt, alloc, script, workers, gate)?;
    let (book, _turns) = run;
    Ok(book.into_journal())
}
