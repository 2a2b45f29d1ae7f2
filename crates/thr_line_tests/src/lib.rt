//! Tests of the words and the forms of lines, and of the passes over the blocks and the names of a text. They stand in a crate of their
//! own, since a crate with tests is proved twice (docs/development.md, "Tests").
#![tactic(auto)]

#[cfg(test)]
mod tests;
