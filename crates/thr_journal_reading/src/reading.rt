//! Journals from their texts (docs/journal.md, "Faults of a journal").

ghost use Rattle.std.specs.Prelude.{◌≡◌, ◌<◌, ◌-◌, ◌^◌, [], length, IfOk, IfErr};
ghost use Rattle.thr_syntax.specs.declared.journal.Journal.{Journal};
ghost use Rattle.thr_text.specs.Journals.{text};
ghost use Rattle.thr_verdict.specs.FormedJournals.{FormedJournal};
ghost use Rattle.thr_journals.specs.declared.fault.JournalFault.TheVariants as fault;
ghost use Rattle.thr_journals.specs.Faults.{faults};
ghost use Rattle.thr_journals.specs.Reading.{ReadsJournal};
ghost use Rattle.thr_journals.specs.Refusals.{IsFirst};

use crate::cut::refused;
use crate::history::read_history;
use crate::known::known_names;
use crate::script::{read_script, script_part};
use crate::title::read_title;
use std::alloc::Global;
use thr_journals::fault::JournalFault;
use thr_syntax::journal::Journal;

/// The journal that the bytes are read as, or the first of their faults.
fn read_bytes(alloc: Global, bytes: &[u8]) -> Result<Journal, JournalFault>
    requires { length bytes.now < 2 ^ 32 - 1 }
    ensures reads { IfOk result (λ j. ReadsJournal bytes.now j) }
    ensures fault { IfErr result (λ f. IsFirst f (faults bytes.now)) }
{
    let (workers, rest) = read_title(bytes)?;
    let Some(part) = script_part(rest) else {
        return Err(refused(3, 2));
    };
    let script = read_script(alloc, part.text)?;
    let known = known_names(alloc, &script)?;
    let (entries, stop) = read_history(alloc, known.as_slice(), part.size + 5, part.behind)?;
    Ok(Journal {
        workers,
        script,
        entries,
        stop,
    })
}

/// The formed journal that the bytes are the text of, or the first of their faults. The text is read once from the top, and no
/// line behind the first fault is looked at. Each name in a line is sought among the names of the script, of which there are at
/// most 1,010.
pub fn read(alloc: Global, bytes: &[u8]) -> Result<Journal, JournalFault>
    requires { length bytes.now < 2 ^ 32 - 1 }
    ensures formed { IfOk result (λ j. FormedJournal j) }
    ensures text { IfOk result (λ j. bytes.now ≡ text j.script j.workers j.entries j.stop) }
    ensures faultless { IfOk result (λ j. faults bytes.now ≡ []) }
    ensures only { (j : Journal) → FormedJournal j → bytes.now ≡ text j.script j.workers j.entries j.stop → IfOk result (λ r. r ≡ j) }
    ensures fault { IfErr result (λ f. IsFirst f (faults bytes.now)) }
    ensures refused { (j : Journal) → FormedJournal j → bytes.now ≡ text j.script j.workers j.entries j.stop → IfErr result (λ f. f ≡ fault.NoMemory) }
{
    read_bytes(alloc, bytes)
}
