//! By crate.

mod journals;
mod made;
mod top;
