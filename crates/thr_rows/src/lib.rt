//! Rows and processors: where each thread stands, which is the best of a row, and who runs.
#![tactic(auto)]

pub mod laws;
mod places;
mod remembered;
mod rows;
mod seating;
mod seats;
mod slices;
mod stops;
mod waits;

pub use rows::Rows;
pub use seats::{Entry, better};
