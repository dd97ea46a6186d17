// The run of a line over lent bytes: one reading after the other, and what is written of its end.
#![tactic(auto)]

pub mod reply;
pub mod run;
