//! Tests on `run_workers`.

use super::gates::Counting;
use super::scripts::BOUNDED_BUFFER;
use std::alloc::Global;
use std::sync::Wait;
use std::test::Fail;
use std::thread::Threads;
use thr_grammar::parse;
use thr_machine::book::Book;
use thr_workers::gate::Gate;
use thr_workers::worker::run_workers;

/// How long a script is at most.
const MOST: usize = 10_000;

/// Runs the script that this text is with 4 workers. None where the text is no script or too long, or no memory is found.
fn run_text<R: Threads + Wait + Sync, G: Gate + Sync>(
    rt: &R,
    alloc: Global,
    text: &[u8],
    gate: &G,
) -> Option<(Book, u64)> {
    if text.len() > MOST {
        return None;
    }
    let script = match parse(alloc, text) {
        Ok(script) => script,
        Err(_) => return None,
    };
    match run_workers(rt, alloc, script, 4, gate) {
        Ok(run) => Some(run),
        Err(_) => None,
    }
}

/// The caller passes no gate. So where a worker has passed for each turn, the caller has made none.
#[test]
fn workers_make_every_turn(rt: HostRuntime) {
    let gate = Counting::new();
    let (book, turns) = run_text(&rt, rt.alloc(), BOUNDED_BUFFER, &gate).expect(&rt, "a run");
    assert!(rt; turns > 100);
    assert_eq!(rt; book.turns(), turns);
    assert_eq!(rt; gate.committed(), turns);
    assert_eq!(rt; gate.prepared(), 0);
}
