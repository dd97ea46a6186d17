// A session in bytes: where its fields lie, which bytes are one, and what its words lead to. docs/SESSION-BYTES.md shows it.
#![tactic(auto)]

pub mod bytes;
pub mod lookup;
pub mod places;
