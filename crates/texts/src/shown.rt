// A text shown without quotes, and the line under it that marks a part. What is shown is UTF-8, whatever the text is.
ghost use Rattle.std.specs.Prelude.{◌<◌, ◌≤◌, length, IfSome};
ghost use Rattle.texts.specs.Written.{Adds};

use super::page::{Page, is_control_end};
use scan::part::byte_at;
use utf8::utf8::is_utf8;

// How many bytes a character has that starts with this byte from 0x80 on, if one does.
fn size_by(first: u8) -> usize
    ensures { 0 < result }
{
    match first {
        0x00..0xE0 => 2,
        0xE0..0xF0 => 3,
        _ => 4,
    }
}

// Where the character of several bytes at a position ends, if one stands there.
fn character_end(s: &[u8], i: usize) -> Option<usize>
    requires { i < length s.now }
    ensures { IfSome result (λ e. (i < e) × (e ≤ length s.now)) }
{
    let n = size_by(s[i]);
    if s[i] < 0x80 || s.len() - i < n || !is_utf8(&s[i..i + n]) {
        return None;
    }
    Some(i + n)
}

// Whether each byte of a text is a character of one column, shown as it is.
fn is_plain(s: &[u8]) -> bool {
    s.iter().all(|b| (0x20..=0x7E).contains(b))
}

// A character, or a byte that is part of none: where the text goes on, and how many columns it takes as it is shown.
#[derive(Clone, Copy)]
struct Piece {
    next: usize,
    columns: usize,
}

// The columns of a shown text: one for each character, thus for each byte but those that go on with one.
fn columns_shown(s: &[u8]) -> usize {
    s.iter().filter(|b| !(0x80..0xC0).contains(*b)).count()
}

// How the character at a position would be shown.
fn piece_at(s: &[u8], i: usize) -> Piece
    requires { i < length s.now }
    ensures { (i < result.next) × (result.next ≤ length s.now) }
{
    let mut text = [0u8; 8];
    let mut page = Page::new(&mut text);
    let next = page.piece(s, i);
    Piece {
        next,
        columns: columns_shown(page.written()),
    }
}

// The columns before a part of a shown text, and those in it.
#[derive(Clone, Copy)]
struct Columns {
    before: usize,
    within: usize,
}

// With a character at a position: it is before the part, in it, or behind it.
fn with_piece(c: Columns, i: usize, one: Piece, start: usize, stop: usize) -> Columns {
    if one.next <= start {
        return Columns {
            before: c.before.saturating_add(one.columns),
            ..c
        };
    }
    if stop <= i {
        return c;
    }
    Columns {
        within: c.within.saturating_add(one.columns),
        ..c
    }
}

// The columns of the part from `start` up to `stop`. A character that an end of the part cuts is in it. The step is a character, so the
// loop is a `while`.
fn columns_of(s: &[u8], start: usize, stop: usize) -> Columns {
    let mut c = Columns {
        before: 0,
        within: 0,
    };
    let mut i: usize = 0;
    // Each piece says where the next one starts.
    while i < s.len() {
        let one = piece_at(s, i);
        c = with_piece(c, i, one, start, stop);
        i = one.next;
    }
    c
}

impl<'a> Page<'a> {
    // A byte that is a character, or part of none.
    fn alone(&mut self, b: u8)
        ensures { Adds self.old self.new }
    {
        if b < 0x80 {
            self.ascii(b);
        } else {
            self.escape(b"\\x{", b);
        }
    }

    // A character of several bytes. Control characters have two, the first 0xC2.
    fn character(&mut self, c: &[u8])
        ensures { Adds self.old self.new }
    {
        let second = byte_at(c, 1);
        if byte_at(c, 0) == 0xC2 && is_control_end(second) {
            self.control(second);
        } else {
            self.text(c);
        }
    }

    // The character at a position, or its byte if none stands there: answers where the text goes on.
    fn piece(&mut self, s: &[u8], i: usize) -> usize
        requires { i < length s.now }
        ensures adds { Adds self.old self.new }
        ensures next { (i < result) × (result ≤ length s.now) }
    {
        match character_end(s, i) {
            Some(end) => {
                self.character(&s[i..end]);
                end
            }
            None => {
                self.alone(s[i]);
                i + 1
            }
        }
    }

    // A text without quotes, character by character. The step is a character, so the loop is a `while`.
    fn pieces(&mut self, s: &[u8])
        ensures { Adds self.old self.new }
    {
        let mut i: usize = 0;
        // As above.
        while i < s.len() {
            i = self.piece(s, i);
        }
    }

    // A text without quotes. Control characters, and bytes that are part of no character, are escaped.
    pub fn shown(&mut self, s: &[u8])
        ensures { Adds self.old self.new }
    {
        if is_plain(s) {
            self.text(s);
        } else {
            self.pieces(s);
        }
    }

    // The line under a shown text that marks the part from `start` up to `stop`: a space for each column before it, a mark for each in it. A
    // part without columns has one mark.
    pub fn marked(&mut self, s: &[u8], start: usize, stop: usize)
        ensures { Adds self.old self.new }
    {
        if start < stop && stop <= s.len() && is_plain(s) {
            self.repeated(b' ', start);
            self.repeated(b'^', stop - start);
            return;
        }
        let c = columns_of(s, start, stop);
        self.repeated(b' ', c.before);
        self.repeated(b'^', c.within.max(1));
    }
}
