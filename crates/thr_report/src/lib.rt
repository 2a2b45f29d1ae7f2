//! Reports on journals (docs/journal.md, "The report").
#![tactic(auto)]

mod counting;
pub mod counts;
mod kinds;
pub mod reporting;
mod text;

pub use reporting::report;
pub use text::report_text;
