// What the programs for the people at the console share: a sheet cut into lines, its lines run on a session, and the report on them.
#![tactic(auto)]

pub mod alias;
pub mod sheet;
