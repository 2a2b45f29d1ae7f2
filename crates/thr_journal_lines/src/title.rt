//! The first lines of a journal.

ghost use Rattle.std.specs.Prelude.{◌≡◌};
ghost use Rattle.thr_journals.specs.Faults.{is_title, number_behind, workers_in, script_count};

use crate::number::number_in;
use crate::words::Words;

/// Whether the line is the first of a journal.
pub fn is_title(line: &[u8]) -> bool
    ensures { result ≡ is_title line.now }
{
    line == b"dcethr journal 1".as_slice()
}

/// The number behind a word that stands before it alone, from one number to another.
fn number_behind(before: &[u8], least: u64, most: u64, line: &[u8]) -> Option<u64>
    ensures { result ≡ number_behind before.now least most line.now }
{
    let mut words = Words::of(line);
    let word = words.next()?;
    if word != before {
        return None;
    }
    let text = words.next()?;
    let number = number_in(least, most, text)?;
    if words.is_empty() { Some(number) } else { None }
}

/// How many workers the second line of a journal names.
pub fn workers_in(line: &[u8]) -> Option<u32>
    ensures { result ≡ workers_in line.now }
{
    match number_behind(b"workers", 1, 16, line) {
        Some(workers) => u32::try_from(workers).ok(),
        None => None,
    }
}

/// How many lines of a script the third line of a journal says that there are.
pub fn script_count(line: &[u8]) -> Option<u64>
    ensures { result ≡ script_count line.now }
{
    number_behind(b"script", 1, 18_446_744_073_709_551_615, line)
}
