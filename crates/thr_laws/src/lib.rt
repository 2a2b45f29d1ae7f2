//! Laws on histories, which read the lines of a history and its script, and nothing of the machine: open scopes, routes,
//! owners, cancels, and calls that are answered once.
#![tactic(auto)]

pub mod examples;
pub mod laws;
