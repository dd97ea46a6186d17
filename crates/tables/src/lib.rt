// Tables by length: words with their commands in lent bytes. docs/SESSION-BYTES.md shows the layout, specs/Table.antt defines it.
#![tactic(auto)]

mod bytes;
pub mod find;
pub mod frame;
pub mod good;
pub mod name;
mod number;
mod order;
pub mod table;
pub mod word;
