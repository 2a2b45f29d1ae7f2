//! One wait, and what the waits of all threads tell.
ghost use Rattle.std.specs.Prelude.{◌≡◌, ◌&&◌, not, if◌then◌else◌, ◌+ℤ◌};
ghost use Rattle.std.specs.List.{list_any};
ghost use Rattle.thr_parts.specs.Times.{is_no_interval};
ghost use Rattle.thr_parts.specs.Conditions.{is_on, is_with, mutex_of, time_of};
ghost use Rattle.thr_parts.specs.Expiry.{sooner, earliest_in, has_come};
ghost use Rattle.thr_conds.specs.Agreement.{waiting_row};

use thr_parts::row::RowId;
use thr_parts::wait::Wait;
use thr_values::number::NameId;

/// A thread's number and its wait.
pub type Entry = (u32, Wait);

// ---- one wait

/// The wait is on this condition.
fn is_on(c: NameId, wait: Wait) -> bool
    ensures { result ≡ is_on c wait }
{
    match wait {
        Wait::Cond(d, _, _) => c.0 == d.0,
        Wait::Delay(_) => false,
    }
}

/// The wait is on a condition with this mutex.
fn is_with(m: NameId, wait: Wait) -> bool
    ensures { result ≡ is_with m wait }
{
    match wait {
        Wait::Cond(_, n, _) => m.0 == n.0,
        Wait::Delay(_) => false,
    }
}

/// The mutex with which a wait is on a condition.
pub fn mutex_of(wait: Wait) -> Option<NameId>
    ensures { result ≡ mutex_of wait }
{
    match wait {
        Wait::Cond(_, m, _) => Some(m),
        Wait::Delay(_) => None,
    }
}

/// The time until which a wait is, where there is one.
fn time_of(wait: Wait) -> Option<i64>
    ensures { result ≡ time_of wait }
{
    match wait {
        Wait::Cond(_, _, until) => until,
        Wait::Delay(until) => Some(until),
    }
}

/// The row in which a thread stands that waits so.
pub fn waiting_row(wait: Wait) -> RowId
    ensures { result ≡ waiting_row wait }
{
    match wait {
        Wait::Cond(c, _, _) => RowId::Cond(c),
        Wait::Delay(_) => RowId::Time,
    }
}

/// The time that is so many ticks after now. None where it isn't one of 64 bits, or the ticks are below 0.
pub fn after(ticks: i64, now: i64) -> Option<i64>
    ensures { result ≡ (if is_no_interval ticks now then None else Some (now +ℤ ticks)) }
{
    if ticks < 0 {
        return None;
    }
    now.checked_add(ticks)
}

/// The time has come for which a wait is.
pub fn is_due(wait: Wait, now: i64) -> bool
    ensures { result ≡ has_come now (time_of wait) }
{
    match time_of(wait) {
        None => false,
        Some(time) => time <= now,
    }
}

// ---- the waits of all threads

/// A thread waits on this condition.
pub fn some_on(waits: &[Entry], c: NameId) -> bool
    ensures { result ≡ list_any (λ e. is_on c e.1) waits.now }
{
    waits.iter().any(|e| is_on(c, e.1))
}

/// A thread waits on a condition with this mutex.
pub fn some_with(waits: &[Entry], m: NameId) -> bool
    ensures { result ≡ list_any (λ e. is_with m e.1) waits.now }
{
    waits.iter().any(|e| is_with(m, e.1))
}

/// A thread waits on this condition with another mutex.
pub fn some_otherwise(waits: &[Entry], c: NameId, m: NameId) -> bool
    ensures { result ≡ list_any (λ e. is_on c e.1 && not (is_with m e.1)) waits.now }
{
    waits.iter().any(|e| is_on(c, e.1) && !is_with(m, e.1))
}

/// The sooner of two times that may be there.
fn sooner(a: Option<i64>, b: Option<i64>) -> Option<i64>
    ensures { result ≡ sooner a b }
{
    match (a, b) {
        (None, b) => b,
        (Some(a), None) => Some(a),
        (Some(a), Some(b)) => Some(if b < a { b } else { a }),
    }
}

/// The earliest time of these waits.
pub fn earliest(waits: &[Entry]) -> Option<i64>
    ensures { result ≡ earliest_in waits.now }
{
    let mut found: Option<i64> = None;
    let mut i = waits.len();
    while i > 0 {
        i -= 1;
        found = sooner(time_of(waits[i].1), found);
    }
    found
}
