// The session's calls for the console's programs, which promise nothing of what a line answers: without the session's definitions their
// checks are short. What these calls answer is stated in `session`.
#![tactic(auto)]

use layout::places::SESSION;
use limits::refusal::Refusal;
use run::reply::LineReply;
use session::lent::{alias_in, line_in};

// A fresh session.
pub fn fresh() -> [u8; SESSION] {
    session::value::fresh().bytes
}

// Runs a line.
pub fn run_line(session: &mut [u8], line: &[u8], store: &mut [u8]) -> LineReply {
    line_in(session, line, store)
}

// Adds an alias, or replaces it.
pub fn add_alias(session: &mut [u8], word: &[u8], command: u64) -> Result<(), Refusal> {
    alias_in(session, word, command)
}
