//! Lines of the machine beside those of a journal: what is wrong first there, the line that differs as text, and the text of a
//! verdict (docs/journal.md, "The verdict").
#![tactic(auto)]

pub mod comparing;
pub mod stops;
pub mod telling;
mod text;
pub mod verdict;
pub mod wrong;

pub use text::verdict_text;
