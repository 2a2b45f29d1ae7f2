//! Verdicts on journals: a journal is replayed on the machine, event by event (docs/journal.md, "The verdict"). Reports on journals
//! are passed on.
#![tactic(auto)]

mod events;
mod replay;
mod verifying;

pub use thr_comparing::verdict::{Differs, Verdict};
pub use thr_comparing::verdict_text;
pub use thr_report::counts::Report;
pub use thr_report::{report, report_text};
pub use verifying::verify;
