// Two reports that are open, read side by side: the first line that differs, and the first that differs in more than the name of a file.
// What a line means is not decided here.
#![tactic(auto)]

pub mod compare;
pub mod differ;
