//! Worked cases, computed from the definitions: each is a function that does nothing and whose contract is the case.

pub mod illegal;
pub mod journals;
pub mod kinds;
pub mod lines;
pub mod made;
pub mod places;
pub mod report;
pub mod verdicts;
