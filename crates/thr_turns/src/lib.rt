//! A turn of one thread of the machine: what it owes or the quiet part and what ends it, and then whether it keeps its processor
//! (docs/machine.md, "Turns").
#![tactic(auto)]

mod calls;
mod debts;
mod ends;
mod interface;
mod moves;
mod quiet;
mod replies;
mod stores;
mod turns;
pub mod workings;
mod writing;

pub use interface::interface_of;
pub use turns::turn;
