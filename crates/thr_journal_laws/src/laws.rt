//! What is read is what is printed so.

pub mod lines;
pub mod numbers;
pub mod places;
