//! A condition and a delay that are waited for, and that memory is found for the waits, which no clause says.

use std::test::Fail;
use thr_conds::Conds;
use thr_locks::Locks;
use thr_rows::Rows;
use thr_values::number::{NameId, Tid};
use thr_values::reply::Reply;

const COND: NameId = NameId(20);

const MUTEX: NameId = NameId(12);

#[test]
#[tactic(auto, unfolding(thr_parts::specs::Computing::parts_words))]
fn waits_end_by_times_and_signals(rt: HostRuntime) -> Result<(), Fail> {
    let mut rows = Rows::new(rt.alloc())?;
    let mut locks = Locks::new(rt.alloc())?;
    let mut conds = Conds::new(rt.alloc())?;
    assert!(rt; locks.init(MUTEX, None) == Reply::Done);
    assert!(rt; locks.trylock(MUTEX, Tid(1)) == Reply::Value(1));
    assert!(rt; conds.init(COND) == Reply::Done);
    let (reply, next) = conds.timedwait(COND, MUTEX, 9, 0, Tid(1), 116, &mut locks, &mut rows);
    assert!(rt; reply == Reply::Blocks);
    assert!(rt; next == None);
    assert!(rt; conds.waits_with(MUTEX));
    assert!(rt; conds.delay(5, 0, Tid(2), 120, &mut rows) == Reply::Blocks);
    assert!(rt; conds.earliest() == Some(5));
    assert!(rt; conds.expire(5, &mut rows) == Some((Tid(2), None)));
    assert!(rt; conds.destroy(COND) == Reply::Ebusy);
    let (reply, waiter) = conds.signal(COND, &mut rows);
    assert!(rt; reply == Reply::Done);
    assert!(rt; waiter == Some((Tid(1), MUTEX)));
    assert!(rt; conds.take_next(COND, &mut rows) == None);
    assert!(rt; conds.pull_out(Tid(1), &mut rows) == None);
    Ok(())
}
