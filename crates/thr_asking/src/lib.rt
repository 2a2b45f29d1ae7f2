//! What threads ask of the thread service: the values of a call's expressions, or what is raised in their place, and the line of a
//! call with its reply.
#![tactic(auto)]

pub mod asking;
mod expressions;
mod places;
pub mod saying;
