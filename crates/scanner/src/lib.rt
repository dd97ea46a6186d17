// A scanner over the caller's line, for tools that highlight it: it hands out the line's tokens one after the other.
// Each function takes the scanner apart and leaves the work to `token`. A tool that finds a prefix word makes another scanner over the
// argument, which is the next reading's text.
#![tactic(auto)]

pub mod token;

ghost use Rattle.std.specs.Prelude.{◌≡◌};
ghost use Rattle.scanner.specs.Tokens.{step_at, covering};

use token::{Position, Token, covering_token, step};

// The line, and where the scanner stands.
#[derive(Clone, Copy)]
pub struct Scanner<'a> {
    pub line: &'a [u8],
    pub position: Position,
}

// A scanner at the line's start.
pub fn new<'a>(line: &'a [u8]) -> Scanner<'a>
    ensures { (result.line ≡ line.entry) × (result.position ≡ Position.Lead 0) }
{
    Scanner {
        line,
        position: Position::Lead(0),
    }
}

// The next token; the scanner moves past it. At the line's end it is `End`, and the scanner stays.
pub fn next<'s, 'a>(s: &'s mut Scanner<'a>) -> Token
    ensures { (result ≡ (step_at s.old.line.now s.old.position).token)
        × (s.new.line ≡ s.old.line)
        × (s.new.position ≡ (step_at s.old.line.now s.old.position).position) }
{
    let r = step(s.line, s.position);
    s.position = r.position;
    r.token
}

// The token that covers a place of the scanner's line, wherever the scanner stands.
pub fn look<'a>(s: Scanner<'a>, at: usize) -> Token
    ensures { result ≡ covering s.entry.line.now at }
{
    covering_token(s.line, at)
}

// The token that covers a place of a line, for callers that hold no scanner.
pub fn token_at(line: &[u8], at: usize) -> Token
    ensures { result ≡ covering line.now at }
{
    covering_token(line, at)
}
