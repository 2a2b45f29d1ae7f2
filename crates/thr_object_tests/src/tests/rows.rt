//! A course of two processors and a mutex's row, and that memory is found for the rows, which no clause says.

use std::test::Fail;
use thr_parts::row::RowId;
use thr_rows::Rows;
use thr_values::number::{NameId, Tid};

const MUTEX: RowId = RowId::Mutex(NameId(12));

/// The number of the thread, 0 for none.
fn number(t: Option<Tid>) -> u32 {
    match t {
        None => 0,
        Some(t) => t.0,
    }
}

#[test]
#[tactic(auto, unfolding(thr_parts::specs::Computing::parts_words))]
fn threads_run_wait_and_run_again(rt: HostRuntime) -> Result<(), Fail> {
    let mut rows = Rows::new(rt.alloc())?;
    rows.put(RowId::Ready, Tid(1), 116);
    rows.put(RowId::Ready, Tid(2), 120);
    assert_eq!(rt; number(rows.dispatch(0)), 2);
    assert_eq!(rt; number(rows.dispatch(1)), 1);
    rows.block(MUTEX, Tid(2), 120);
    rows.put(MUTEX, Tid(3), 120);
    assert!(rt; rows.before(Tid(2), Tid(3)));
    rows.set_rank(Tid(3), 121);
    assert_eq!(rt; number(rows.best(MUTEX)), 3);
    assert!(rt; rows.take_out(Tid(3)));
    assert!(rt; rows.row_of(Tid(2)) == Some(MUTEX));
    assert!(rt; rows.keeps(Tid(1), false));
    assert_eq!(rt; number(rows.running(0)), 0);
    assert_eq!(rt; number(rows.running(1)), 1);
    Ok(())
}
