// The line with its prefixes in every order, and what its last tab, axis and side prefix say. Demand 3 of document 01, tried by a program.
#![tactic(auto)]

pub mod compose;
pub mod order;
pub mod prefixes;
pub mod told;
