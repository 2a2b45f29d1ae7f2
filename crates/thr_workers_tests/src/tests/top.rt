//! Tests on the top call.

use super::gates::{Counting, Holding};
use super::scripts::{BOUNDED_BUFFER, TWO_LOOPS};
use std::alloc::Global;
use std::sync::Wait;
use std::test::Fail;
use std::thread::Threads;
use thr_top::command::{Status, Word};
use thr_top::top::top;
use thr_wire::good::{GoodSink, GoodSource};
use thr_workers::gate::Gate;

/// The words of a command with a number of workers.
fn words_of(alloc: Global, command: &str, workers: u32) -> Result<Vec<Word>, Fail> {
    let line = format!(in alloc; "{command} {workers}")?;
    let mut words = Vec::new(alloc);
    for word in line.as_str().split_ascii_whitespace() {
        words.push(Word::new(String::from_str(alloc, word)?))?;
    }
    Ok(words)
}

/// The status that the words end with on this input, with this gate, and the text that they write.
fn answer_of<R: Threads + Wait + Sync, G: Gate + Sync>(
    rt: &R,
    alloc: Global,
    words: &[Word],
    input: &[u8],
    gate: &G,
) -> Result<(u8, GoodSink), Fail> {
    let mut source = GoodSource::new(Vec::from_slice(alloc, input)?);
    let mut sink = GoodSink::new(alloc);
    let Status(status) = top(rt, alloc, words, &mut source, &mut sink, gate);
    Ok((status, sink))
}

/// How often the part stands in the text.
fn count_of(text: &[u8], part: &[u8]) -> usize {
    let mut count = 0usize;
    for i in 0..text.len() {
        if text[i..].starts_with(part) {
            count = count.saturating_add(1);
        }
    }
    count
}

#[test]
fn what_is_put_is_taken_once(rt: HostRuntime) -> Result<(), Fail> {
    let gate = Counting::new();
    let words = words_of(rt.alloc(), "run", 4)?;
    let (status, sink) = answer_of(&rt, rt.alloc(), words.as_slice(), BOUNDED_BUFFER, &gate)?;
    assert_eq!(rt; status, 0);
    assert_eq!(rt; count_of(sink.as_slice(), b" say "), 1);
    assert_eq!(rt; count_of(sink.as_slice(), b" t1 say 30\n"), 1);
    assert!(rt; gate.committed() > 100);
    Ok(())
}

#[test]
fn two_workers_are_between_their_holds(rt: HostRuntime) -> Result<(), Fail> {
    let gate = Holding::new();
    let words = words_of(rt.alloc(), "run", 2)?;
    let (status, sink) = answer_of(&rt, rt.alloc(), words.as_slice(), TWO_LOOPS, &gate)?;
    assert_eq!(rt; status, 0);
    assert!(rt; gate.has_met());
    assert!(rt; count_of(sink.as_slice(), b" p1 run t") > 0);
    Ok(())
}

#[test]
fn each_trial_is_made_by_workers(rt: HostRuntime) -> Result<(), Fail> {
    for workers in 1..17u32 {
        let gate = Counting::new();
        let words = words_of(rt.alloc(), "trial 1", workers)?;
        let (status, sink) = answer_of(&rt, rt.alloc(), words.as_slice(), b"", &gate)?;
        assert_eq!(rt; status, 0, "{workers}");
        assert_eq!(rt;
            sink.as_slice(),
            b"total 87540\ncaught 242\n".as_slice(),
            "{workers}"
        );
        assert!(rt; gate.committed() > 5000, "{workers}");
    }
    Ok(())
}
