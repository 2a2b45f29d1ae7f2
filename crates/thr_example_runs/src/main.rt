//! Runs each script of the folder that it is run in on one processor, and compares what comes with the journal beside it. The folder is
//! `data`, the examples of the repository. It prints each script with its status, so a script that is added or goes shows too.
#![tactic(auto)]

use std::alloc::Global;
use std::{fs, io};
use thr_top::command::{Status, Word};
use thr_top::top::top;
use thr_wire::good::{GoodSink, GoodSource};
use thr_workers::gate::NoGate;

const SCRIPT: &str = ".thr";

const JOURNAL: &str = ".journal";

/// The names of the files here that end so, without that ending, in the order of their bytes.
fn names_of(rt: &HostRuntime, ending: &str) -> io::Result<Vec<String>> {
    let mut names = Vec::new(rt.alloc());
    for entry in fs::read_dir(rt, ".")? {
        let entry = entry?;
        if let Some(name) = entry.file_name().strip_suffix(ending) {
            names.push(String::from_str(rt.alloc(), name)?)?;
        }
    }
    names.sort()?;
    Ok(names)
}

/// The words `run 1`.
fn run_words(alloc: Global) -> io::Result<Vec<Word>> {
    let mut words = Vec::new(alloc);
    words.push(Word::new(String::from_str(alloc, "run")?))?;
    words.push(Word::new(String::from_str(alloc, "1")?))?;
    Ok(words)
}

/// A script and the journal beside it.
fn example_of(rt: &HostRuntime, name: &str) -> io::Result<(Vec<u8>, Vec<u8>)> {
    let script = fs::read(rt, format!(in rt.alloc(); "{name}{SCRIPT}")?)?;
    let journal = fs::read(rt, format!(in rt.alloc(); "{name}{JOURNAL}")?)?;
    Ok((script, journal))
}

/// Says with which status a script ended, and whether its journal came.
fn tell(rt: &HostRuntime, name: &str, status: u8, same: bool) -> io::Result<()> {
    if same {
        println!(rt; "{name} {status}")
    } else {
        println!(rt; "{name} {status}: its journal is another")
    }
}

fn main(rt: HostRuntime) -> io::Result<()> {
    let alloc = rt.alloc();
    let words = run_words(alloc)?;
    let scripts = names_of(&rt, SCRIPT)?;
    let journals = names_of(&rt, JOURNAL)?;
    for name in scripts.iter() {
        let (script, journal) = example_of(&rt, name.as_str())?;
        let mut source = GoodSource::new(script);
        let mut sink = GoodSink::new(alloc);
        let Status(status) = top(
            &rt,
            alloc,
            words.as_slice(),
            &mut source,
            &mut sink,
            &NoGate,
        );
        let same = sink.as_slice() == journal.as_slice();
        tell(&rt, name.as_str(), status, same)?;
    }
    println!(rt; "{} scripts, {} journals", scripts.len(), journals.len())
}
