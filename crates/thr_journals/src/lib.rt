//! Journals as texts: definitions of how their lines are read and what a text is refused for, and the words of lines.
//! Worked cases of the definitions are functions that do nothing and whose contracts are the cases.
#![tactic(auto)]

pub mod examples;
pub mod fault;
pub mod texts;
pub mod word;
