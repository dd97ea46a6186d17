// Takes all of standard input as one line, and prints its tokens, one to a line: the kind, the place of the first byte, and the place
// past the last.
#![tactic(auto)]

use limits::LINE;
use scan::part::part;
use scanner::token::{Position, Token, TokenKind, step};
use std::io;
use std::io::Read;

fn name_of(k: TokenKind) -> &'static str {
    match k {
        TokenKind::Space => "space",
        TokenKind::Colon => "colon",
        TokenKind::Range => "range",
        TokenKind::Word => "word",
        TokenKind::Bang => "bang",
        TokenKind::Text => "text",
        TokenKind::Quoted => "quoted",
        TokenKind::Newline => "newline",
        TokenKind::Unlisted => "unlisted",
        TokenKind::Left => "left",
        TokenKind::End => "end",
    }
}

fn print_kind(rt: &impl Print, k: TokenKind) -> io::Result<()> {
    rt.print(name_of(k))
}

fn print_token(rt: &impl Print, t: Token) -> io::Result<()> {
    let kind = t.kind;
    print_kind(rt, kind)?;
    println!(rt; " {} {}", t.start, t.stop)
}

// Token by token. The step is a token, whose place the next one goes on from, so the loop is a `while`.
fn print_tokens(rt: &impl Print, line: &[u8]) -> io::Result<()> {
    let mut here = step(line, Position::Lead(0));
    while here.token.start < line.len() {
        let t = here.token;
        print_token(rt, t)?;
        let position = here.position;
        here = step(line, position);
    }
    Ok(())
}

// A line has at most 1,024 bytes: what comes behind them is not read.
fn main(rt: HostRuntime) -> io::Result<()> {
    let mut line = [0u8; LINE];
    let mut input = rt.reader().take(LINE as u64);
    let mut room = &mut line[..];
    let n = io::copy(&mut input, &mut room)? as usize;
    print_tokens(&rt, part(&line, 0, n))
}
