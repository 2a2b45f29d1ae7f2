//! That made scripts keep the rules of scripts (docs/script.md, "Made scripts").
#![tactic(auto)]

pub mod laws;
