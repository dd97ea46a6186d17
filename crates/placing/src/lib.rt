// Words put into a table by length, and taken out of it.
#![tactic(auto)]

pub mod insert;
pub mod remove;
