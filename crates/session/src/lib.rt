// The calls on a session: its line and its added aliases, which rest in bytes (crate layout).
#![tactic(auto)]

pub mod lent;
pub mod value;
