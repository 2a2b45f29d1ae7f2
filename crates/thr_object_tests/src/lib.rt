//! Tests of the objects of a run: tables, rows, locks, conditions, once blocks, pipes, threads and the lines of a script. They stand in
//! a crate of their own, since a crate with tests is proved twice (docs/development.md, "Tests").
#![tactic(auto)]

#[cfg(test)]
mod tests;
