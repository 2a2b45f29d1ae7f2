//! The first two lines of a journal.

ghost use Rattle.std.specs.Prelude.{◌≡◌, ◌+◌, ◌≤◌, [], length, drop, Some, IfOk, IfErr};
ghost use Rattle.thr_journals.specs.Faults.{parts_of, workers_in, title_faults};
ghost use Rattle.thr_journals.specs.Reading.{line_at};
ghost use Rattle.thr_journals.specs.Refusals.{IsFirst};

use crate::cut::{next_line, refused};
use thr_journal_lines::{is_title, workers_in};
use thr_journals::fault::JournalFault;

/// How many workers the first two lines name, and what stands behind these lines.
pub(crate) fn read_title(bytes: &[u8]) -> Result<(u32, &[u8]), JournalFault>
    ensures faultless { IfOk result (λ t. title_faults (parts_of bytes.now) ≡ []) }
    ensures workers { IfOk result (λ t. workers_in (line_at (parts_of bytes.now) 1) ≡ Some t.0) }
    ensures parts { IfOk result (λ t. parts_of t.1.now ≡ drop 2 (parts_of bytes.now)) }
    ensures room { IfOk result (λ t. length t.1.now + 2 ≤ length bytes.now) }
    ensures fault { IfErr result (λ f. IsFirst f (title_faults (parts_of bytes.now))) }
{
    let Some((title, behind)) = next_line(bytes) else {
        return Err(refused(1, 1));
    };
    if !is_title(title) {
        return Err(refused(1, 1));
    }
    let Some((line, rest)) = next_line(behind) else {
        return Err(refused(2, 1));
    };
    match workers_in(line) {
        Some(workers) => Ok((workers, rest)),
        None => Err(refused(2, 1)),
    }
}
