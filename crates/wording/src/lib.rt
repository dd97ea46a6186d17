// The words in which actions are told to the people at the console: those of bindings/rust/src/words.rs.
#![tactic(auto, using(texts::specs::WrittenLaws::adding))]

pub mod record;
