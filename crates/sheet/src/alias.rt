// One line of an alias file: a word and a command, by its number or by one of its spellings, with spaces about them.
use blocks::run::skip_spaces;
use calls::add_alias;
use limits::refusal::Refusal;
use limits::{LINE, MOST};
use scan::decimal::digits;
use scan::part::part;
use spots::bytes::field_end;
use utf8::utf8::is_utf8;
use words::words::lookup;

// What a line has: nothing, or an alias that was added.
#[derive(Clone, Copy)]
pub enum Entry {
    Nothing,
    Alias,
}

// Why a line adds no alias: it is no word with a command, there is no such command, or the session refuses the alias.
#[derive(Clone, Copy)]
pub enum NoAlias<'a> {
    Line(Refusal),
    Unknown(&'a [u8]),
    Session(Refusal),
}

impl<'a> NoAlias<'a> {
    // The refusal's number.
    pub fn refusal(self) -> u64 {
        match self {
            NoAlias::Line(x) | NoAlias::Session(x) => u64::from(x),
            NoAlias::Unknown(_) => u64::from(Refusal::UnknownWord),
        }
    }

    // The word that no command has, or nothing.
    pub fn word(self) -> &'a [u8] {
        match self {
            NoAlias::Unknown(word) => word,
            _ => &[],
        }
    }
}

// The command that a text names: digits are its number, and anything else is one of its spellings. A number that is too large for 64
// bits is above the last command's like others.
fn command_of(s: &[u8]) -> Option<u64> {
    match digits(s, 0) {
        Ok(None) => lookup(s),
        Ok(Some((n, e))) => {
            if e == s.len() {
                return Some(n);
            }
            None
        }
        Err(_) => Some(MOST),
    }
}

// The line's word and command, as they stand.
fn add<'a>(session: &mut [u8], word: &[u8], command: &'a [u8]) -> Result<Entry, NoAlias<'a>> {
    let Some(n) = command_of(command) else {
        return Err(NoAlias::Unknown(command));
    };
    match add_alias(session, word, n) {
        Ok(()) => Ok(Entry::Alias),
        Err(x) => Err(NoAlias::Session(x)),
    }
}

// A line of UTF-8. One of spaces alone adds nothing.
fn read<'a>(session: &mut [u8], line: &'a [u8]) -> Result<Entry, NoAlias<'a>> {
    let n = line.len();
    let w = skip_spaces(line, 0);
    if n <= w {
        return Ok(Entry::Nothing);
    }
    let e = field_end(line, w);
    let c = skip_spaces(line, e);
    let f = field_end(line, c);
    if n <= c || skip_spaces(line, f) != n {
        return Err(NoAlias::Line(Refusal::ParseFailed));
    }
    add(session, part(line, w, e), part(line, c, f))
}

// Adds the alias of a line. Refused are, in this order: a line above 1,024 bytes or not UTF-8 (1, 2), one that is not two words (3), a
// command that there is not (10), and what the session refuses (8, 9, 13).
pub fn alias_line<'a>(session: &mut [u8], line: &'a [u8]) -> Result<Entry, NoAlias<'a>> {
    if LINE < line.len() {
        return Err(NoAlias::Line(Refusal::LineTooLong));
    }
    if !is_utf8(line) {
        return Err(NoAlias::Line(Refusal::NotUtf8));
    }
    read(session, line)
}
