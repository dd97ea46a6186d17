// A report's file: bytes of it from any place, whether it is a whole report, and messages of what is wrong with it or with the program's
// arguments.
#![tactic(auto)]

pub mod file;
pub mod tell;
pub mod whole;
