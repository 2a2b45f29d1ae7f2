//! What a thread has still to do, as frames over the lines of its script, and the single steps of it.
#![tactic(auto)]

pub mod begin;
pub mod context;
pub mod forms;
pub mod frame;
pub mod frames;
pub mod leave;
pub mod locals;
pub mod next;
pub mod notes;
pub mod once;
pub mod outward;
pub mod place;
pub mod raise;
pub mod sight;
pub mod standing;
pub mod start;
pub mod statement;
pub mod step;
pub mod valued;
