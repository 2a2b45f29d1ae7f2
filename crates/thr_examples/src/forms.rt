//! Lines and the faults of their forms: for each first word a right line, one with each of its places spoiled, and one
//! too short or too long; and the kinds of names at their places.

pub mod attributes;
pub mod declarations;
pub mod expressions;
pub mod kinds;
pub mod mutexes;
pub mod pipes;
pub mod spelled;
pub mod statements;
pub mod threads;
