//! Lines cut from the front of a text.

ghost use Rattle.std.specs.Prelude.{◌≡◌, ◌∷◌, ◌++◌, ◌+◌, ◌<◌, ◌≤◌, [], length, drop, position, MatchOption, IfSome};
ghost use Rattle.thr_journals.specs.declared.fault.JournalFault.TheVariants as JournalFault;
ghost use Rattle.thr_journals.specs.Faults.{is_end, parts_of, script_text};

use thr_journals::fault::{JournalFault, JournalPlace};

/// The refusal of a text for a fault at a line.
pub(crate) fn refused(line: u32, number: u8) -> JournalFault
    ensures { result ≡ JournalFault.Refused record { number = number; line = line } }
{
    JournalFault::Refused(JournalPlace { number, line })
}

fn line_end(text: &[u8]) -> Option<usize>
    ensures { result ≡ position is_end text.now }
{
    text.iter().position(|b| *b == b'\n')
}

/// The first line without its LF, and what stands behind it, or nothing where no LF is left.
#[tactic(auto, using(crate::proofs::CutLaws::cut_first, crate::proofs::CutLaws::cut_whole, crate::proofs::CutLaws::uncut, crate::proofs::CutLaws::shorter))]
pub(crate) fn next_line(text: &[u8]) -> Option<(&[u8], &[u8])>
    ensures parts { MatchOption result (parts_of text.now ≡ text.now ∷ []) (λ x. parts_of text.now ≡ x.0.now ∷ parts_of x.1.now) }
    ensures whole { IfSome result (λ x. text.now ≡ x.0.now ++ 10 ∷ x.1.now) }
    ensures less { IfSome result (λ x. length x.1.now < length text.now) }
{
    match line_end(text) {
        Some(at) => Some((&text[..at], &text[at + 1..])),
        None => None,
    }
}

/// What stands behind so many lines, or nothing where there are fewer.
pub(crate) fn skip_lines(text: &[u8], count: u64) -> Option<&[u8]>
    ensures parts { MatchOption result (length (parts_of text.now) ≤ count) (λ rest. parts_of rest.now ≡ drop count (parts_of text.now)) }
    ensures whole { IfSome result (λ rest. text.now ≡ script_text count (parts_of text.now) ++ rest.now) }
    ensures room { IfSome result (λ rest. count + length rest.now ≤ length text.now) }
{
    let mut rest = text;
    let mut done: u64 = 0;
    'lines: while done < count {
        let (_, behind) = next_line(rest)?;
        rest = behind;
        done += 1;
    }
    Some(rest)
}
