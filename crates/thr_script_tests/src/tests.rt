//! By crate.

mod copies;
