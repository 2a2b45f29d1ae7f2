//! The stop that holds.

ghost use Rattle.std.specs.Prelude.{◌≡◌, nat_le, List};
ghost use Rattle.thr_values.specs.declared.number.Tid.{Tid};
ghost use Rattle.thr_threads.specs.Living.{count_and_first};
ghost use Rattle.thr_model.specs.Histories.{limit_stop, stop_with};

use thr_values::event::Stop;
use thr_values::number::Tid;

/// There are at least as many lines as the limit.
pub fn is_full(lines: usize, limit: u64) -> bool
    ensures { result ≡ nat_le limit lines }
{
    lines as u64 >= limit
}

/// The stop that holds where some thread is ready or runs.
pub fn stop_at_limit(full: bool) -> Option<Stop>
    ensures { result ≡ limit_stop full }
{
    if full { Some(Stop::Limit) } else { None }
}

/// The stop that holds where so many threads have not ended, of which this is the first, and they can go on or can't.
pub fn stop_among(count: u32, first: Option<Tid>, going: bool, full: bool) -> Option<Stop>
    ensures { (ts : List Tid) → count ≡ (count_and_first ts).0 → first ≡ (count_and_first ts).1 → result ≡ stop_with ts going full }
{
    match first {
        None => Some(Stop::Finished),
        Some(first) => {
            if !going {
                Some(Stop::Deadlock(count, first))
            } else if full {
                Some(Stop::Limit)
            } else {
                None
            }
        }
    }
}
