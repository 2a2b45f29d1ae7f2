//! Tables of what stands at names and at the numbers of threads. Their tables are taken whole by `new`: no later call takes
//! memory.
#![tactic(auto)]

mod numbered;
mod slots;

pub use numbered::Numbered;
pub use slots::Slots;
