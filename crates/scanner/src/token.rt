// The token at a place of a line: what kind of text stands there, and where it ends.
// The lead of a line is read by the readers of a reading, the argument by those of a list.
ghost use Rattle.std.specs.Prelude.{◌≡◌, ◌<◌, length, None};
ghost use Rattle.lists.specs.Lists.{item_at};
ghost use Rattle.reading.specs.Line.{word_at};
ghost use Rattle.scanner.specs.Tokens.{lead_left, lead_word, lead_of, pieces, up_to, piece_at, parted as parted_at, newline_token, item_token, argument_token, end_token, token_in, position_at, step_at, covering};

use blocks::run::skip_spaces;
use lists::list::item_of;
use lists::text::text_end;
use ranges::range::parse_any_range;
use reading::line::{parse_cmd_name, skip_byte};
use scan::classes::{Class, Colon, Space, Text};
use scan::part::byte_at;
use scan::run::run_end;

// `Newline` is a 0x0A that a reading consumes, `Unlisted` the rest of an argument that is no list, `Left` what a failed reading leaves over,
// `End` that nothing is left. The numbers are those over C, where 10 is a word that names a prefix.
#[derive(Clone, Copy)]
pub enum TokenKind {
    Space = 0,
    Colon = 1,
    Range = 2,
    Word = 3,
    Bang = 4,
    Text = 5,
    Quoted = 6,
    Newline = 7,
    Unlisted = 8,
    Left = 9,
    End = 11,
}

// A token: its first byte, and the byte past its last.
#[derive(Clone, Copy)]
pub struct Token {
    pub kind: TokenKind,
    pub start: usize,
    pub stop: usize,
}

// Where a scanner stands: the place of its next token, in the lead of the line, or in the argument and behind it, where the lead is not
// read again.
#[derive(Clone, Copy)]
pub enum Position {
    Lead(usize),
    Argument(usize),
}

// What a scanner hands out, and where it then stands.
#[derive(Clone, Copy)]
pub struct Scanned {
    pub token: Token,
    pub position: Position,
}

// Where each piece of a line's lead ends: spaces, colons, spaces, range, word, the 0x0A that an empty word consumes, bang, spaces; and
// where the argument starts, which is the line's end where the reading fails before it.
#[derive(Clone, Copy)]
pub struct Lead {
    pub spaces: usize,
    pub colons: usize,
    pub start: usize,
    pub range: usize,
    pub word: usize,
    pub newline: usize,
    pub bang: usize,
    pub blank: usize,
    pub argument: usize,
}

// The lead of a line whose reading fails at `d`, past spaces up to `a`, colons up to `b` and spaces up to `c`.
fn lead_left(s: &[u8], a: usize, b: usize, c: usize, d: usize) -> Lead
    ensures { result ≡ lead_left s.now a b c d }
{
    Lead {
        spaces: a,
        colons: b,
        start: c,
        range: d,
        word: d,
        newline: d,
        bang: d,
        blank: d,
        argument: s.len(),
    }
}

// The lead of a line whose word stands at `d`, past the same.
fn lead_word(s: &[u8], a: usize, b: usize, c: usize, d: usize) -> Lead
    ensures { result ≡ lead_word s.now a b c d (word_at s.now d) }
{
    let Some((e, k)) = parse_cmd_name(s, d) else {
        return lead_left(s, a, b, c, d);
    };
    let f = skip_byte(s, k, 0x21);
    let g = skip_spaces(s, f);
    Lead {
        spaces: a,
        colons: b,
        start: c,
        range: d,
        word: e,
        newline: k,
        bang: f,
        blank: g,
        argument: g,
    }
}

// The lead of a line. Its range is read by `parse_any_range`: `parse_range` stands where a line is read, and there alone.
pub fn lead_of(s: &[u8]) -> Lead
    ensures { result ≡ lead_of s.now }
{
    let a = skip_spaces(s, 0);
    let b = run_end::<Colon>(s, a);
    let c = skip_spaces(s, b);
    match parse_any_range(s, c) {
        Ok(None) => lead_word(s, a, b, c, c),
        Ok(Some((_, d))) => lead_word(s, a, b, c, d),
        Err(_) => lead_left(s, a, b, c, c),
    }
}

// The piece from `at` up to `stop`, if `at` stands before it, or else what comes then.
fn up_to(kind: TokenKind, at: usize, stop: usize, then: Token) -> Token
    ensures { result ≡ up_to kind at stop then }
{
    if at < stop {
        return Token {
            kind: kind,
            start: at,
            stop: stop,
        };
    }
    then
}

// The piece of a lead that `at` stands in, from `at` on: each is put before those behind it.
fn piece_at(l: Lead, at: usize) -> Token
    ensures { result ≡ piece_at (pieces l) at }
{
    let end = Token {
        kind: TokenKind::End,
        start: at,
        stop: at,
    };
    let left = up_to(TokenKind::Left, at, l.argument, end);
    let blank = up_to(TokenKind::Space, at, l.blank, left);
    let bang = up_to(TokenKind::Bang, at, l.bang, blank);
    let newline = up_to(TokenKind::Newline, at, l.newline, bang);
    let word = up_to(TokenKind::Word, at, l.word, newline);
    let range = up_to(TokenKind::Range, at, l.range, word);
    let start = up_to(TokenKind::Space, at, l.start, range);
    let colons = up_to(TokenKind::Colon, at, l.colons, start);
    up_to(TokenKind::Space, at, l.spaces, colons)
}

// Whether an item may end at `j`.
fn parted(s: &[u8], j: usize) -> bool
    ensures { result ≡ parted_at s.now j }
{
    if s.len() <= j {
        return true;
    }
    let b = byte_at(s, j);
    if Space::has(b) {
        return true;
    }
    b == 0x0A
}

// The 0x0A at `at`.
fn newline_token(s: &[u8], at: usize) -> Token
    requires { at < length s.now }
    ensures { result ≡ newline_token s.now at }
{
    if at + 1 == s.len() {
        return Token {
            kind: TokenKind::Newline,
            start: at,
            stop: at + 1,
        };
    }
    Token {
        kind: TokenKind::Left,
        start: at,
        stop: s.len(),
    }
}

// What is left of an argument from `at` on, where it is no list.
fn unlisted_token(s: &[u8], at: usize) -> Token
    ensures { result ≡ item_token s.now at None }
{
    Token {
        kind: TokenKind::Unlisted,
        start: at,
        stop: run_end::<Text>(s, at),
    }
}

// The item at `at` that ends at `e`, if it ends.
fn item_token(s: &[u8], at: usize, e: Option<usize>) -> Token
    ensures { result ≡ item_token s.now at e }
{
    let Some(j) = e else {
        return unlisted_token(s, at);
    };
    if !parted(s, j) {
        return unlisted_token(s, at);
    }
    if byte_at(s, at) == 0x22 {
        return Token {
            kind: TokenKind::Quoted,
            start: at,
            stop: j,
        };
    }
    Token {
        kind: TokenKind::Text,
        start: at,
        stop: j,
    }
}

// Where the item at `at` ends, as `item_end` of the lists says it. That one stands where a list is read, and there alone: called from here
// too, it would no longer be put there.
fn item_stop(s: &[u8], at: usize) -> Option<usize>
    ensures { result ≡ item_at s.now at }
{
    if byte_at(s, at) == 0x22 {
        let q = at + 1;
        return item_of(q, 1, text_end(s, q, true));
    }
    item_of(at, 0, text_end(s, at, false))
}

// That nothing is left: it stands at the end of the line.
fn end_token(s: &[u8]) -> Token
    ensures { result ≡ end_token s.now }
{
    Token {
        kind: TokenKind::End,
        start: s.len(),
        stop: s.len(),
    }
}

// The token at `at` of an argument and of what stands behind it.
fn argument_token(s: &[u8], at: usize) -> Token
    ensures { result ≡ argument_token s.now at }
{
    if s.len() <= at {
        return end_token(s);
    }
    let b = byte_at(s, at);
    if Space::has(b) {
        return Token {
            kind: TokenKind::Space,
            start: at,
            stop: skip_spaces(s, at),
        };
    }
    if b == 0x0A {
        return newline_token(s, at);
    }
    item_token(s, at, item_stop(s, at))
}

// The token at `at` of a line with the lead `lead`.
pub fn line_token(s: &[u8], lead: Lead, at: usize) -> Token
    ensures { result ≡ token_in s.now lead at }
{
    if at < lead.argument {
        return piece_at(lead, at);
    }
    argument_token(s, at)
}

// Where a scanner stands that goes on at `at`, of a line whose argument starts at `argument`.
fn position_at(argument: usize, at: usize) -> Position
    ensures { result ≡ position_at argument at }
{
    if at < argument {
        return Position::Lead(at);
    }
    Position::Argument(at)
}

// One step from `at`, where the lead is to be read.
fn lead_step(s: &[u8], at: usize) -> Scanned
    ensures { result ≡ step_at s.now (Position.Lead at) }
{
    let lead = lead_of(s);
    let argument = lead.argument;
    let t = line_token(s, lead, at);
    let stop = t.stop;
    let p = position_at(argument, stop);
    Scanned {
        token: t,
        position: p,
    }
}

// One step from `at` of the argument.
fn argument_step(s: &[u8], at: usize) -> Scanned
    ensures { result ≡ step_at s.now (Position.Argument at) }
{
    let t = argument_token(s, at);
    let stop = t.stop;
    Scanned {
        token: t,
        position: Position::Argument(stop),
    }
}

fn step_with(s: &[u8], position: Position) -> Scanned
    ensures { result ≡ step_at s.now position }
{
    match position {
        Position::Lead(at) => lead_step(s, at),
        Position::Argument(at) => argument_step(s, at),
    }
}

// The token at a position of a line, and the position past it.
pub fn step(line: &[u8], position: Position) -> Scanned
    ensures { result ≡ step_at line.now position }
{
    step_with(line, position)
}

// The token that covers the place `at` of a line: its tokens are gone through from the first on.
pub fn covering_token(line: &[u8], at: usize) -> Token
    ensures { result ≡ covering line.now at }
{
    if line.len() <= at {
        return end_token(line);
    }
    let mut here = lead_step(line, 0);
    // Each token says where the next one starts, so there is no count that a `for` could go through.
    while here.token.stop <= at {
        let position = here.position;
        here = step_with(line, position);
    }
    let t = here.token;
    t
}
