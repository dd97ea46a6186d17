// What document 01 fixes by number: how long and how many things may be, and why a call is turned down. Each limit has its name here, and
// in specs/Limits.antt the same for the definitions.
#![tactic(auto)]

pub mod refusal;

// A line is at most so many bytes long: refusal 1.
pub const LINE: usize = 1024;

// A store is longer by so many bytes than the line, or the list, that is written to it: refusal 12.
pub const SPARE: usize = 40;

// A store of this length is enough for every line.
pub const STORE: usize = LINE + SPARE;

// An alias has at most so many characters: refusal 8.
pub const WORD: usize = 24;

// The number of the last command: refusal 9.
pub const LAST_COMMAND: u8 = 27;

// So many aliases may be added: refusal 13.
pub const ALIASES: usize = 32;

// The greatest number: refusals 4 and 7.
pub const MOST: u64 = 18446744073709551615;
