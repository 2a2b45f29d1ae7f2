//! Who waits, who owes something and who has a record, in every history of the machine: the parts of its state agree. The laws are
//! functions that do nothing and whose contracts are the laws.
#![tactic(auto)]

pub mod laws;
