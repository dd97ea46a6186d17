// The place in a line that its refusal is about, for a mark under the line. The places are those of the readings and of the scanner's tokens.
#![tactic(auto)]

pub mod alias;
pub mod bytes;
pub mod line;
pub mod places;
pub mod spot;
pub mod text;
