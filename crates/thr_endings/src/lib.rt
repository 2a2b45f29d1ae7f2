//! How a command ends: the status that the program ends with, and what is written.
#![tactic(auto)]

mod giving;
mod status;

pub use giving::give;
pub use status::Status;
