// Text written into a lent buffer.
#![tactic(auto, using(crate::specs::WrittenLaws::adding))]

pub mod page;
pub mod shown;
