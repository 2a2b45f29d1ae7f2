//! The thread service as a whole: threads, rows, locks, conditions, once blocks, keys and pipes, and what threads owe. Each
//! call of the service is answered here (docs/machine.md, "Calls").
#![tactic(auto)]

pub mod answer;
mod asking;
mod calls;
mod clock;
pub mod debt;
mod debts;
mod freeing;
mod gifts;
pub mod groups;
pub mod laws;
mod on_conds;
mod on_locks;
mod on_onces;
mod on_pipes;
mod on_threads;
mod ready;
mod replies;
mod services;
mod turns;
mod waits;
mod waking;

pub use debts::Debts;
pub use gifts::Gifts;
pub use services::Services;
