//! What a worker does in one hold of the lock: the book, with the total of the turns that were counted.
#![tactic(auto)]

pub mod count;
pub mod locked;
