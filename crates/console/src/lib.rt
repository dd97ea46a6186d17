// What the console's programs share of the world outside: their names and version, files that are read twice, a report that is written out
// and summed, messages of what failed, and the verdict.
#![tactic(auto, using(texts::specs::WrittenLaws::adding))]

pub mod argument;
pub mod file;
pub mod program;
pub mod report;
pub mod told;
