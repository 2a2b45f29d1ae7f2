//! The command that tries a made script.

ghost use Rattle.std.specs.Prelude.{◌≡◌, ◌≢◌, ◌≤◌, ◌⊎◌, ◌∷◌, ◌++◌, ℕ, IfOk, OnOk, string_bytes};
ghost use Rattle.std.specs.Fmt.{signed_decimal};
ghost use Rattle.thr_wire.specs.Causes.{Rose};
ghost use Rattle.thr_model.specs.States.{shared_values};
ghost use Rattle.thr_verdict.specs.Made.{made};
ghost use Rattle.thr_endings.specs.Endings.{Gives, one_line};
ghost use Rattle.thr_top.specs.Answers.{IsRunStatus, TrialAnswers, shared_text, trial_workers};

use crate::answer::status_of;
use std::alloc::{AllocError, Global};
use std::sync::Wait;
use std::thread::Threads;
use thr_endings::{Status, give};
use thr_machine::book::Book;
use thr_made::laws::made_scripts_keep_the_rules;
use thr_making::make_script;
use thr_values::number::NameId;
use thr_wire::wire::Sink;
use thr_workers::gate::Gate;
use thr_workers::worker::run_workers;

/// For how many workers the script of a trial is made.
const TRIAL_WORKERS: u32 = 8;

/// The sum of a made script.
const TOTAL: NameId = NameId(12);

/// What a made script counts.
const CAUGHT: NameId = NameId(13);

/// The value of a shared variable, 0 where there is none of this name.
fn value_of(book: &Book, name: NameId) -> i64
    ensures { result ≡ shared_values book.now.state name }
{
    match book.shared_value(name) {
        Some(value) => value,
        None => 0,
    }
}

/// Adds the line of a variable.
fn add_variable(alloc: Global, text: &mut String, name: &str, value: i64) -> Result<(), AllocError>
    ensures { OnOk result (string_bytes text.new ≡ string_bytes text.old ++ one_line (name.now ++ 32 ∷ signed_decimal value)) }
{
    let line = format!(in alloc; "{name} {value}")?;
    text.push_str(line.as_str())?;
    text.push_str("\n")
}

/// The shared variables of a made script, a line each.
fn variables_of(alloc: Global, book: &Book) -> Result<String, AllocError>
    ensures { IfOk result (λ text. (number : ℕ) → book.now.script ≡ made number trial_workers → string_bytes text ≡ shared_text (made number trial_workers) book.now.state) }
{
    let mut text = String::new(alloc);
    add_variable(alloc, &mut text, "total", value_of(book, TOTAL))?;
    add_variable(alloc, &mut text, "caught", value_of(book, CAUGHT))?;
    Ok(text)
}

/// Runs the script that is made of a number, on so many workers, and writes the values that its shared variables have at the end.
pub(crate) fn trial<K: Sink, R: Threads + Wait + Sync, G: Gate + Sync>(
    rt: &R,
    alloc: Global,
    number: u32,
    workers: u32,
    sink: &mut K,
    gate: &G,
) -> Status
    requires some { 1 ≤ workers }
    requires few { workers ≤ 16 }
    ensures ends { Gives (TrialAnswers number workers) (K.held sink.old) (K.held sink.new) result.0 }
    ensures status { IsRunStatus result.0 ⊎ (result.0 ≡ 4) }
    ensures write { result.0 ≡ 4 → Rose (K.faults sink.old) (K.faults sink.new) }
    ensures quiet { result.0 ≢ 4 → K.faults sink.new ≡ K.faults sink.old }
{
    made_scripts_keep_the_rules();
    let Ok(script) = make_script(alloc, number, TRIAL_WORKERS) else {
        return Status(5);
    };
    let Ok(run) = run_workers(rt, alloc, script, workers, gate) else {
        return Status(5);
    };
    let (book, _turns) = run;
    let Ok(text) = variables_of(alloc, &book) else {
        return Status(5);
    };
    match book.stopped() {
        Some(stop) => give(sink, status_of(stop), text.as_bytes()),
        None => unreachable!(),
    }
}
