//! Worked cases.

pub mod lines;
pub mod numbers;
pub mod refusals;
