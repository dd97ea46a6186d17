// The tokens of a line through its prefixes, written to a lent store: each by the number of its kind and its place.
#![tactic(auto)]

pub mod call;
pub mod text;
