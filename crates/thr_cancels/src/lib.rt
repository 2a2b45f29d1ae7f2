//! Parts of the law of cancels, that cancels are delivered when they must and may be, hold of every history of the machine. Each
//! is a function that does nothing and whose contract is that part.
#![tactic(auto)]

pub mod laws;
