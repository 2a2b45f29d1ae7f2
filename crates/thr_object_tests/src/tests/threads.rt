//! The life of a thread from its creation until its record is reclaimed, and that memory is found for the records, which no
//! clause says.

use std::test::Fail;
use thr_threads::Threads;
use thr_values::number::{NameId, Tid};
use thr_values::reply::Reply;
use thr_values::scheduling::Policy;

const CELL: NameId = NameId(10);

#[test]
#[tactic(auto, unfolding(thr_parts::specs::Computing::parts_words))]
fn a_thread_is_made_ends_and_is_reclaimed(rt: HostRuntime) -> Result<(), Fail> {
    let mut threads = Threads::new(rt.alloc())?;
    assert!(rt; threads.create(Tid(1), None) == Reply::Value(2));
    threads.set_ended(Tid(2), -7);
    assert!(rt; threads.join(Tid(1), 2) == Reply::Value(-7));
    assert!(rt; threads.detach(2) == Reply::Done);
    assert!(rt; threads.attr_create(CELL) == Reply::Done);
    assert!(rt; threads.attr_setinherit(CELL, false) == Reply::Done);
    assert!(rt; threads.attr_setsched(CELL, Policy::Rr) == Reply::Done);
    assert!(rt; threads.create(Tid(1), Some(CELL)) == Reply::Value(3));
    assert!(rt; threads.get(2).is_none());
    assert_eq!(rt; threads.rank(Tid(3)), 216);
    assert!(rt; threads.live() == (2, Some(Tid(1))));
    Ok(())
}
