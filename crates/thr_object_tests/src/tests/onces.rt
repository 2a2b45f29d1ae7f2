//! A once block that is unwound and run again, and destructors in the order of their keys; and that memory is found for them,
//! which no clause says.

use std::process::Abort;
use std::test::Fail;
use thr_once::Onces;
use thr_rows::Rows;
use thr_values::number::{NameId, Tid};
use thr_values::reply::Reply;

const BLOCK: NameId = NameId(12);

const ROUTINE: NameId = NameId(13);

const EARLY: NameId = NameId(14);

const LATE: NameId = NameId(15);

/// The number of the thread, 0 for none.
fn number(t: Option<Tid>) -> u32 {
    match t {
        None => 0,
        Some(t) => t.0,
    }
}

/// The value with which the thread's next destructor is called, 0 for none.
fn taken(onces: &mut Onces, t: Tid) -> i64 {
    match onces.next_destructor(t) {
        None => 0,
        Some(call) => call.2,
    }
}

/// Two keys get values, and their destructors are called in the order of the keys.
fn destructors_follow_their_keys(rt: &impl Abort, onces: &mut Onces) -> Result<(), Fail> {
    assert_eq!(rt; onces.keycreate(LATE, Some(ROUTINE)), Reply::Done);
    assert_eq!(rt; onces.keycreate(EARLY, Some(ROUTINE)), Reply::Done);
    onces.make_room()?;
    assert_eq!(rt; onces.setspecific(LATE, Tid(1), 7), Reply::Done);
    onces.make_room()?;
    assert_eq!(rt; onces.setspecific(EARLY, Tid(1), -5), Reply::Done);
    assert_eq!(rt; onces.getspecific(LATE, Tid(1)), Reply::Value(7));
    assert_eq!(rt; taken(onces, Tid(2)), 0);
    assert_eq!(rt; taken(onces, Tid(1)), -5);
    assert_eq!(rt; taken(onces, Tid(1)), 7);
    assert_eq!(rt; taken(onces, Tid(1)), 0);
    assert_eq!(rt; onces.getspecific(LATE, Tid(1)), Reply::Value(0));
    Ok(())
}

#[test]
#[tactic(auto, unfolding(thr_parts::specs::Computing::parts_words))]
fn a_block_runs_again_and_keys_call_their_destructors(rt: HostRuntime) -> Result<(), Fail> {
    let mut rows = Rows::new(rt.alloc())?;
    let mut onces = Onces::new(rt.alloc())?;
    let (first, runs) = onces.enter(BLOCK, Tid(1), 116, &mut rows);
    assert_eq!(rt; first, Reply::Done);
    assert!(rt; runs);
    let (second, waits) = onces.enter(BLOCK, Tid(2), 116, &mut rows);
    assert_eq!(rt; second, Reply::Blocks);
    assert!(rt; !waits);
    assert_eq!(rt; number(onces.undone(BLOCK, &mut rows)), 2);
    onces.done(BLOCK);
    let (third, again) = onces.enter(BLOCK, Tid(1), 116, &mut rows);
    assert_eq!(rt; third, Reply::Done);
    assert!(rt; !again);
    destructors_follow_their_keys(&rt, &mut onces)
}
