//! Tests of copies of scripts. They stand in a crate of their own, since a crate with tests is proved twice (docs/development.md,
//! "Tests").
#![tactic(auto)]

#[cfg(test)]
mod tests;
