//! The lines of a thread as a course: how its open scopes, its unwindings and its lines go together.
#![tactic(auto)]

pub mod laws;
