// The lines of a report: texts compared and cut into lines, what a line is by the bytes that it starts with, and lines that differ in the
// name of a file alone. Nothing is read or written here.
#![tactic(auto)]

pub mod kind;
pub mod names;
pub mod text;
