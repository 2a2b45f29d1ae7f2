//! Tests of what no clause of the workers says: that the workers and not the caller make the turns, that the gate is passed, and that
//! two workers are between two holds of the lock at the same time. They stand in a crate of their own, since a crate with tests is
//! proved twice (docs/development.md, "Tests").
#![tactic(auto)]

#[cfg(test)]
mod tests;
