//! Lines of the machine beside those of a journal.

ghost use Rattle.std.specs.Prelude.{◌≡◌, ◌≤◌, length, IfOk, OnOk};
ghost use Rattle.thr_text.specs.Journals.{numbered_line};
ghost use Rattle.thr_verdict.specs.FirstWrong.{is_same_line};
ghost use Rattle.thr_comparing.specs.Wrongs.{Compares};

use std::alloc::{AllocError, Global};
use thr_journal::add_entry;
use thr_values::history::Entry;
use thr_values::name::Name;
use thr_values::number::NoMemory;

/// Memory for the texts of two lines.
#[derive(Drop)]
pub struct Texts {
    first: Vec<u8>,
    second: Vec<u8>,
}

impl Texts {
    /// Memory for no text as yet.
    pub fn new(alloc: Global) -> Texts {
        Texts {
            first: Vec::new(alloc),
            second: Vec::new(alloc),
        }
    }
}

/// Writes a line in the place of what was there, with the number 0.
fn write_line(out: &mut Vec<u8>, names: &[Name], entry: &Entry) -> Result<(), AllocError>
    ensures { OnOk result (out.new.items ≡ numbered_line names.now 0 entry.now) }
{
    out.clear();
    add_entry(out, names, 0, entry)
}

/// Whether two lines are the same. Where they say the same their texts needn't be written; one line may be said in two ways.
fn is_same_line(texts: &mut Texts, names: &[Name], a: &Entry, b: &Entry) -> Result<bool, AllocError>
    ensures { IfOk result (λ same. same ≡ is_same_line names.now a.now b.now) }
{
    if *a == *b {
        return Ok(true);
    }
    write_line(&mut texts.first, names, a)?;
    write_line(&mut texts.second, names, b)?;
    Ok(texts.first.as_slice() == texts.second.as_slice())
}

/// The first of the machine's lines, from this place on, that doesn't stand in the journal at its place.
pub fn first_other(
    texts: &mut Texts,
    names: &[Name],
    made: &[Entry],
    entries: &[Entry],
    from: usize,
) -> Result<Option<usize>, NoMemory>
    requires made { from ≤ length made.now }
    requires there { from ≤ length entries.now }
    ensures { IfOk result (Compares names.now made.now entries.now from) }
{
    let mut i = from;
    while i < made.len() {
        if i >= entries.len() {
            return Ok(Some(i));
        }
        match is_same_line(texts, names, &made[i], &entries[i]) {
            Ok(true) => i += 1,
            Ok(false) => return Ok(Some(i)),
            Err(_) => return Err(NoMemory),
        }
    }
    Ok(None)
}
