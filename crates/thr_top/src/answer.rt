//! Texts and statuses of answers.

ghost use Rattle.std.specs.Prelude.{◌≡◌, ◌++◌, IfOk, codes, string_bytes};
ghost use Rattle.std.specs.Fmt.{decimal};
ghost use Rattle.thr_top.specs.Answers.{IsRunStatus, refusal, status_of};

use std::alloc::{AllocError, Global};
use thr_text::fault::Place;
use thr_values::event::Stop;

/// What is written for a fault.
pub fn refusal(alloc: Global, place: Place) -> Result<String, AllocError>
    ensures { IfOk result (λ s. string_bytes s ≡ refusal place.number place.line) }
{
    let Place { number, line } = place;
    let mut text = format!(in alloc; "refused F{number} line {line}")?;
    text.push_str("\n")?;
    Ok(text)
}

/// The status that goes with a stop.
pub fn status_of(stop: Stop) -> u8
    ensures status { result ≡ status_of stop }
    ensures known { IsRunStatus result }
{
    match stop {
        Stop::Finished => 0,
        Stop::Deadlock(_, _) => 6,
        Stop::Limit => 7,
        Stop::Memory => 5,
    }
}
