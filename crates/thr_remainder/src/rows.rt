//! Worked examples: threads by themselves with the lines that they write, and single steps. Each is a function that does
//! nothing and whose contract is the example.

pub mod calls;
pub mod cancels;
pub mod declarations;
pub mod expressions;
pub mod handlers;
pub mod places;
pub mod replies;
pub mod routines;
pub mod statements;
pub mod unwindings;
pub mod whole;
