//! The lines of a journal, each read by itself.
#![tactic(auto)]

mod below;
mod calls;
mod fields;
mod names;
mod number;
mod replies;
mod said;
mod title;
mod words;

pub use below::{Below, read_below};
pub use names::Known;
pub use number::has_number;
pub use title::{is_title, script_count, workers_in};
