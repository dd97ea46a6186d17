// What the first line that differs means: the lines above it, which say whether a numbered line is the sheet's, and the sentence that the
// reports get.
#![tactic(auto)]

pub mod above;
pub mod verdict;
