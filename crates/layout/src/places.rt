// The places of a session's fields, which follow from the limits; specs/Layout.antt has the same names.
use limits::{ALIASES, LINE, WORD};

// The length of the remembered line, in two bytes.
pub const LINE_COUNT: usize = 0;

// The remembered line.
pub const LINE_PLACE: usize = 2;

// The aliases, a table by length.
pub const ADDED: usize = LINE_PLACE + LINE;

// A session's bytes.
pub const SESSION: usize = ADDED + (1 + WORD) + ALIASES + WORD * ALIASES;
