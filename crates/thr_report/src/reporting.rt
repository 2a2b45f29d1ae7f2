//! What a report counts of a journal.

ghost use Rattle.std.specs.Prelude.{◌≡◌, IfOk};
ghost use Rattle.thr_verdict.specs.Report.{counts};
ghost use Rattle.thr_report.specs.Reports.{counts_in};

use crate::counting::{
    acquired, blocking_calls, calls, catches, deliveries, ends, raises, threads,
};
use crate::counts::Report;
use std::alloc::Global;
use thr_syntax::journal::Journal;
use thr_values::number::NoMemory;

/// What a report counts of a journal.
pub fn report(alloc: Global, j: &Journal) -> Result<Report, NoMemory>
    ensures counts { IfOk result (λ r. counts_in r ≡ counts j.now.script j.now.entries) }
    ensures stop { IfOk result (λ r. r.stop ≡ j.now.stop) }
{
    let entries = j.entries.as_slice();
    let acquired = acquired(alloc, j.script.items.as_slice(), entries)?;
    Ok(Report {
        lines: entries.len() as u64,
        threads: threads(entries),
        ended: ends(entries),
        calls: calls(entries),
        blocked: blocking_calls(entries),
        raised: raises(entries),
        delivered: deliveries(entries),
        caught: catches(entries),
        acquired,
        stop: j.stop,
    })
}
