//! Worked scripts with their whole histories, computed from the definitions of the machine: each is a function that does nothing
//! and whose contract is the example. Script and history are written in one line, with ` ; ` for the end of a line.
#![tactic(auto)]

pub mod cancels;
pub mod exceptions;
pub mod mutexes;
pub mod onces;
pub mod pipes;
pub mod processors;
pub mod scheduling;
pub mod times;
