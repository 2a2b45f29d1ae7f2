//! Runs thread scripts: `dcethr run W` reads a script from standard input, runs it on W worker threads, and writes its journal to
//! standard output.
#![tactic(auto)]

use std::env;
use std::process::ExitCode;
use thr_top::command::{Status, Word};
use thr_top::top::top;
use thr_wire::standard::{StdSink, StdSource};
use thr_workers::gate::NoGate;

/// The words that the program is given, without its own name. Where the system gives none, that is want of memory.
fn words_of(rt: &HostRuntime) -> Option<Vec<Word>> {
    let args = env::args(rt).ok()?;
    let mut words = Vec::new(rt.alloc());
    for arg in args.skip(1) {
        words.push(Word::new(arg)).ok()?;
    }
    Some(words)
}

/// What standard error is told of a status that leaves standard output without an end.
fn complaint(status: Status) -> Option<&'static str> {
    match status {
        Status(3) => Some("reading failed"),
        Status(4) => Some("writing failed"),
        Status(5) => Some("out of memory"),
        Status(_) => None,
    }
}

fn main(rt: HostRuntime) -> ExitCode {
    let status = match words_of(&rt) {
        None => Status(5),
        Some(words) => {
            let mut source = StdSource::new(rt.stdin());
            let mut sink = StdSink::new(rt.stdout());
            top(
                &rt,
                rt.alloc(),
                words.as_slice(),
                &mut source,
                &mut sink,
                &NoGate,
            )
        }
    };
    if let Some(words) = complaint(status) {
        // Where this fails as well, the status alone tells.
        let _ = eprintln!(rt; "dcethr: {words}");
    }
    ExitCode::from(status.0)
}
