//! What `run` writes is read again as the journal that it is the text of, and is called legal. The laws are functions that do nothing and
//! whose contracts are the laws.
#![tactic(auto)]

pub mod laws;
