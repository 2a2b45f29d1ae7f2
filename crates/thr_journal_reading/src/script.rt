//! The script in a journal.

ghost use Rattle.std.specs.Prelude.{◌≡◌, ◌∷◌, ◌++◌, ◌+◌, ◌-◌, ◌<◌, ◌≤◌, ◌^◌, [], length, drop, true, not, MatchOption, IfSome, IfOk, IfErr};
ghost use Rattle.std.specs.Str.{bytes_eq};
ghost use Rattle.thr_syntax.specs.Canon.{canon};
ghost use Rattle.thr_text.specs.Faults.{first_of};
ghost use Rattle.thr_text.specs.Reading.{Reads, faults};
ghost use Rattle.thr_journals.specs.Faults.{parts_of, canonical, fault_if, text_faults, script_faults};
ghost use Rattle.thr_journals.specs.Refusals.{IsFirst};
ghost use Rattle.thr_journal_reading.specs.Parts.{IsScriptPart};

use crate::cut::{next_line, refused, skip_lines};
use std::alloc::Global;
use thr_grammar::{parse, print};
use thr_journal_lines::script_count;
use thr_journals::fault::JournalFault;
use thr_syntax::tree::Script;
use thr_text::fault::ParseFault;

/// Where the script stands in a journal.
#[derive(Clone, Copy)]
pub(crate) struct ScriptPart<'a> {
    /// How many lines it has.
    pub size: u32,
    pub text: &'a [u8],
    /// What stands behind the line `history`.
    pub behind: &'a [u8],
}

/// The script that stands behind the first two lines, with the line before it and the line `history` behind it.
pub(crate) fn script_part(rest: &[u8]) -> Option<ScriptPart>
    requires { length rest.now < 2 ^ 32 }
    ensures part { MatchOption result (script_faults (parts_of rest.now) ≡ (3, 2) ∷ []) (λ p. IsScriptPart (parts_of rest.now) p.size p.text.now (parts_of p.behind.now)) }
    ensures room { IfSome result (λ p. p.size + 2 + length p.behind.now ≤ length rest.now) }
    ensures less { IfSome result (λ p. length p.text.now + 2 ≤ length rest.now) }
{
    let (line, lines) = next_line(rest)?;
    let size = script_count(line)?;
    let after = skip_lines(lines, size)?;
    let (history, behind) = next_line(after)?;
    if history != b"history".as_slice() {
        return None;
    }
    Some(ScriptPart {
        size: size as u32,
        text: &lines[..lines.len() - after.len()],
        behind,
    })
}

/// Whether the text of a script is this canonical text of it.
fn is_canonical(text: &[u8], written: &[u8], script: &Script) -> bool
    requires reads { Reads text.now script.now }
    requires written { written.now ≡ canon script.now }
    ensures { result ≡ bytes_eq text.now (canonical text.now) }
{
    text == written
}

/// The script with its text, where that is the canonical one.
fn if_canonical(alloc: Global, text: &[u8], script: Script) -> Result<Script, JournalFault>
    requires { Reads text.now script }
    ensures script { IfOk result (λ s. s ≡ script) }
    ensures canonical { IfOk result (λ s. bytes_eq text.now (canonical text.now) ≡ true) }
    ensures fault { IfErr result (λ f. IsFirst f (fault_if (not (bytes_eq text.now (canonical text.now))) 4 3)) }
{
    let Ok(written) = print(alloc, &script) else {
        return Err(JournalFault::NoMemory);
    };
    if is_canonical(text, written.as_slice(), &script) {
        Ok(script)
    } else {
        Err(refused(4, 3))
    }
}

/// The script in a journal from its text, which stands at line 4.
pub(crate) fn read_script(alloc: Global, text: &[u8]) -> Result<Script, JournalFault>
    requires { length text.now < 2 ^ 32 - 5 }
    ensures reads { IfOk result (λ s. Reads text.now s) }
    ensures faultless { IfOk result (λ s. text_faults text.now (first_of (faults text.now)) ≡ []) }
    ensures fault { IfErr result (λ f. IsFirst f (text_faults text.now (first_of (faults text.now)))) }
{
    match parse(alloc, text) {
        Ok(script) => if_canonical(alloc, text, script),
        Err(ParseFault::Refused(place)) => Err(refused(place.line.saturating_add(3), 3)),
        Err(ParseFault::NoMemory) => Err(JournalFault::NoMemory),
    }
}
