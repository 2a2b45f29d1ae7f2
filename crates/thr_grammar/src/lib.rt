//! Scripts and their texts.
#![tactic(auto)]

mod parsing;
mod printing;
#[cfg(test)]
mod tests;

pub use parsing::parse;
pub use printing::{print, print_with_room};
pub use thr_text::fault::{ParseFault, Place};
