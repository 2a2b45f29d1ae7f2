//! Texts of scripts and journals: definitions, the words of lines, the tables of reserved words and of first words, and laws
//! of line forms.
#![tactic(auto)]

pub mod block;
pub mod fault;
pub mod fixed;
pub mod head;
pub mod laws;
pub mod mark;
pub mod names;
pub mod object;
pub mod operands;
pub mod slots;
pub mod word;
