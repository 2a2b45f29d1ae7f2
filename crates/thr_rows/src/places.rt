//! One place, in a row or on a processor.
ghost use Rattle.std.specs.Prelude.{◌≡◌, is_none};
ghost use Rattle.thr_parts.specs.Rows.{is_same_row, place_in, row_in, arrival_in};
ghost use Rattle.thr_parts.specs.Dispatch.{runs_on, can_run};
ghost use Rattle.thr_rows.specs.Waits.{is_ready};

use thr_parts::row::{Place, RowId};

/// Two rows are the same.
fn is_same_row(a: RowId, b: RowId) -> bool
    ensures { result ≡ is_same_row a b }
{
    match (a, b) {
        (RowId::Ready, RowId::Ready) => true,
        (RowId::Mutex(a), RowId::Mutex(b)) => a.0 == b.0,
        (RowId::Global, RowId::Global) => true,
        (RowId::Cond(a), RowId::Cond(b)) => a.0 == b.0,
        (RowId::Join(a), RowId::Join(b)) => a.0 == b.0,
        (RowId::Once(a), RowId::Once(b)) => a.0 == b.0,
        (RowId::Reader(a), RowId::Reader(b)) => a.0 == b.0,
        (RowId::Writer(a), RowId::Writer(b)) => a.0 == b.0,
        (RowId::Time, RowId::Time) => true,
        _ => false,
    }
}

/// The row is that of the ready threads.
pub fn is_ready(row: RowId) -> bool
    ensures { result ≡ is_ready row }
{
    matches!(row, RowId::Ready)
}

/// The place is in the row.
pub fn is_in(row: RowId, place: Place) -> bool
    ensures { result ≡ place_in row place }
{
    match place {
        Place::Runs(_, _) => false,
        Place::Stands(other, _) => is_same_row(row, other),
    }
}

/// The place is on the processor.
pub fn is_on(p: u32, place: Place) -> bool
    ensures { result ≡ runs_on p place }
{
    match place {
        Place::Runs(q, _) => p == q,
        Place::Stands(_, _) => false,
    }
}

/// The place is on a processor.
pub fn is_running(place: Place) -> bool
    ensures { result ≡ is_none (row_in place) }
{
    match place {
        Place::Runs(_, _) => true,
        Place::Stands(_, _) => false,
    }
}

/// The thread at this place is ready or runs.
pub fn can_run(place: Place) -> bool
    ensures { result ≡ can_run place }
{
    match place {
        Place::Runs(_, _) => true,
        Place::Stands(row, _) => matches!(row, RowId::Ready),
    }
}

/// The arrival of a thread that stands in a row.
pub fn arrival(place: Place) -> u64
    ensures { result ≡ arrival_in place }
{
    match place {
        Place::Runs(_, _) => 0,
        Place::Stands(_, arrival) => arrival,
    }
}
