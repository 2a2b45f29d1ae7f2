//! A recursive mutex that is locked, waited for and handed over, and that memory is found for the locks, which no clause says.

use std::test::Fail;
use thr_locks::Locks;
use thr_parts::row::RowId;
use thr_rows::Rows;
use thr_values::number::{NameId, Tid};
use thr_values::reply::{Kind, Reply};

const KIND: NameId = NameId(11);

const MUTEX: NameId = NameId(12);

#[test]
#[tactic(auto, unfolding(thr_parts::specs::Computing::parts_words))]
fn a_mutex_goes_to_the_best_waiter(rt: HostRuntime) -> Result<(), Fail> {
    let mut rows = Rows::new(rt.alloc())?;
    let mut locks = Locks::new(rt.alloc())?;
    assert!(rt; locks.attr_create(KIND) == Reply::Done);
    assert!(rt; locks.setkind(KIND, Kind::Recursive) == Reply::Done);
    assert!(rt; locks.init(MUTEX, Some(KIND)) == Reply::Done);
    assert!(rt; locks.attr_delete(KIND) == Reply::Done);
    assert!(rt; locks.trylock(MUTEX, Tid(1)) == Reply::Value(1));
    assert!(rt; locks.lock(Some(MUTEX), Tid(1), 116, &mut rows) == Reply::Done);
    assert!(rt; locks.owner(Some(MUTEX)).map_or(0, |held| held.depth) == 2);
    assert!(rt; locks.lock(Some(MUTEX), Tid(2), 116, &mut rows) == Reply::Blocks);
    assert!(rt; locks.lock(Some(MUTEX), Tid(3), 120, &mut rows) == Reply::Blocks);
    assert!(rt; locks.destroy(MUTEX, false, &rows) == Reply::Ebusy);
    assert!(rt; locks.unlock(Some(MUTEX), Tid(1), &mut rows) == (Reply::Done, None));
    assert!(rt; locks.unlock(Some(MUTEX), Tid(1), &mut rows) == (Reply::Done, Some(Tid(3))));
    assert!(rt; rows.best(RowId::Mutex(MUTEX)) == Some(Tid(2)));
    assert!(rt; locks.give_up(Some(MUTEX), &mut rows) == Some(Tid(2)));
    assert!(rt; !locks.regain(MUTEX, Tid(3), 120, &mut rows));
    Ok(())
}
