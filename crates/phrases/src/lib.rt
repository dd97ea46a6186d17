// Parts of a record in words: numbers, names, texts for numbers, a focus. Document 01, section Session, "The record".
#![tactic(auto, using(texts::specs::WrittenLaws::adding))]

pub mod focus;
pub mod parts;
pub mod reader;
