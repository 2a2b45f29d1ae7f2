//! Calls on small states, with their replies and what they change, computed from the definitions: each is a function that
//! does nothing and whose contract is the example.

pub mod cancels;
pub mod conditions;
pub mod mutexes;
pub mod onces;
pub mod pipes;
pub mod rows;
pub mod threads;
pub mod times;
