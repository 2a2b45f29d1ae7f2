//! The parts of the machine's state as definitions: threads in rows and on processors, thread records, mutexes,
//! conditions, once blocks, keys and pipes, and what each call does to them. The laws on them are functions that do nothing
//! and whose contracts are the laws.
#![tactic(auto)]

pub mod examples;
pub mod laws;
pub mod mutex;
pub mod once;
pub mod pipe;
pub mod row;
pub mod thread;
pub mod wait;
