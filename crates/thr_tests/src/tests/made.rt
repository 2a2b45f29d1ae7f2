//! Tests of `make` and `trial`: the worked scripts and sums, and the bounds of their numbers.

use super::top::{USAGE, words_of};
use std::alloc::Global;
use std::sync::Wait;
use std::test::Fail;
use std::thread::Threads;
use thr_top::command::Status;
use thr_top::top::top;
use thr_wire::good::{GoodSink, GoodSource};
use thr_workers::gate::NoGate;

const ONE_BY_ONE: &[u8] =
    b"dcethr 1\nlimit 1000000\nmutex m\nexception odd\nshared total 0\nshared caught 0\nroutine w1 a\nlocal i\nset i 0\nwhile < i 90\ntry\npthread_mutex_lock m\nset total + total 14\npthread_mutex_unlock m\nif == % i 7 0\nraise odd\nend\ncatch odd\npthread_mutex_lock m\nset caught + caught 1\npthread_mutex_unlock m\nendtry\nset i + i 1\nend\nend\nroutine main a\nlocal i\nlocal v\npthread_mutex_init m default\npthread_create v default w1 0\nset i 2\nwhile <= i 2\npthread_join i v\npthread_detach i\nset i + i 1\nend\nend\n";

/// The words, and the status and the text that they give. No input is read.
const CASES: [(&str, u8, &[u8]); 13] = [
    ("make 1 1", 0, ONE_BY_ONE),
    ("make 1 0", 1, USAGE),
    ("make 1 65", 1, USAGE),
    ("make 01 1", 1, USAGE),
    ("make -1 1", 1, USAGE),
    ("make +1 1", 1, USAGE),
    ("make 4294967296 1", 1, USAGE),
    ("make 1", 1, USAGE),
    ("make 1 1 1", 1, USAGE),
    ("trial 1 0", 1, USAGE),
    ("trial 1 17", 1, USAGE),
    ("trial 1", 1, USAGE),
    ("trial x 1", 1, USAGE),
];

/// What the words give on an input that they leave alone.
fn answer_of<R: Threads + Wait + Sync>(
    rt: &R,
    alloc: Global,
    text: &str,
) -> Result<(u8, Vec<u8>), Fail> {
    let words = words_of(alloc, text)?;
    let mut source = GoodSource::new(Vec::from_slice(alloc, b"unread")?);
    let mut sink = GoodSink::new(alloc);
    let Status(status) = top(rt, alloc, words.as_slice(), &mut source, &mut sink, &NoGate);
    Ok((status, Vec::from_slice(alloc, sink.as_slice())?))
}

#[test]
fn made_scripts_and_their_bounds(rt: HostRuntime) -> Result<(), Fail> {
    for (words, status, text) in CASES {
        let (got, written) = answer_of(&rt, rt.alloc(), words)?;
        assert_eq!(rt; got, status, "{words}");
        assert_eq!(rt; written.as_slice(), text, "{words}");
    }
    Ok(())
}

/// The greatest numbers are taken: the made script has 64 workers.
#[test]
fn the_largest_script_is_made(rt: HostRuntime) -> Result<(), Fail> {
    let (status, written) = answer_of(&rt, rt.alloc(), "make 4294967295 64")?;
    assert_eq!(rt; status, 0);
    assert!(rt; written.as_slice().starts_with(b"dcethr 1\nlimit 1000000\n"));
    Ok(())
}

/// A trial has the same sums on one processor as on four, whatever order its workers come in.
#[test]
fn trials_have_their_sums(rt: HostRuntime) -> Result<(), Fail> {
    for words in ["trial 1 1", "trial 1 4"] {
        let (status, written) = answer_of(&rt, rt.alloc(), words)?;
        assert_eq!(rt; status, 0, "{words}");
        assert_eq!(rt;
            written.as_slice(),
            b"total 87540\ncaught 242\n".as_slice(),
            "{words}"
        );
    }
    Ok(())
}
