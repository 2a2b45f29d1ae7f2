//! Short histories with the parts of the laws that refuse them, computed from the definitions: each is a function that does
//! nothing and whose contract is the example. A history that no part refuses meets all laws
//! (`histories_that_pass_meet_the_laws`).

pub mod calls;
pub mod cancels;
pub mod owners;
pub mod plain;
pub mod routes;
pub mod scopes;
pub mod whole;
