// The text of an item, quoted or plain.
// Beside parse_quote and parse_text of parse.rs: runs of bytes that stand for themselves, and escapes between them.
ghost use Rattle.std.specs.Prelude.{◌≡◌, cond, ◌+◌, ◌-◌, ◌≤◌, eqb, length};
ghost use Rattle.scan.specs.Scan.{byte_at, run_at};
ghost use Rattle.store.specs.Sevens.{named};
ghost use Rattle.store.specs.Splice.{Put, Room, Writing};
ghost use Rattle.lists.specs.Lists.{text_at};
ghost use Rattle.lists.specs.TextLaws.{Escaped, Stuck};
ghost use Rattle.lists.specs.Text.{quoted_escape, plain_escape, escape_of, own, stop_at as stop_of, text_end_at, bytes_at};

use blocks::run::short_run_end;
use scan::classes::{Plain, Quoted};
use scan::part::{byte_at, part};
use store::{put_bytes, put_number};

// Escapes that stand one after the other: the position past them, and how many; or, where they are written, the place after.
#[derive(Clone, Copy)]
pub struct Escapes {
    pub at: usize,
    pub n: usize,
}

// The text of an item without its quotes: whether it is quoted, and where its first byte or escape stands.
#[derive(Clone, Copy)]
pub struct ItemText {
    pub quoted: bool,
    pub from: usize,
}

pub fn item_text(s: &[u8], at: usize) -> ItemText
    ensures bytes { bytes_at result.quoted s.now result.from ≡ text_at s.now at }
    ensures place { (result.quoted ≡ eqb (byte_at s.now at) 0x22) × (result.from ≡ cond result.quoted (at + 1) at) }
{
    if byte_at(s, at) == 0x22 {
        return ItemText {
            quoted: true,
            from: at + 1,
        };
    }
    ItemText {
        quoted: false,
        from: at,
    }
}

// What a backslash and the byte after it stand for in a quoted text, if that byte may stand there.
#[tactic(auto, unfolding(crate::specs::Text::quoted_escape))]
fn quoted_escape(b: u8) -> Option<u8>
    ensures { result ≡ quoted_escape b }
{
    match b {
        0x74 => Some(0x09),
        0x72 => Some(0x0D),
        0x6E => Some(0x0A),
        0x5C => Some(0x5C),
        0x22 => Some(0x22),
        _ => None,
    }
}

// The same in a plain text.
#[tactic(auto, unfolding(crate::specs::Text::plain_escape))]
fn plain_escape(b: u8) -> Option<u8>
    ensures { result ≡ plain_escape b }
{
    match b {
        0x5C => Some(0x5C),
        0x20 => Some(0x20),
        0x23 => Some(0x23),
        0x25 => Some(0x25),
        0x7C => Some(0x7C),
        0x22 => Some(0x22),
        _ => None,
    }
}

// What a backslash and the byte after it stand for, if that byte may stand there.
pub fn escape_of(quoted: bool, b: u8) -> Option<u8>
    ensures { result ≡ escape_of quoted b }
{
    if quoted {
        quoted_escape(b)
    } else {
        plain_escape(b)
    }
}

// Past the bytes from `at` on that stand for themselves: none, or one, is told at once.
#[inline]
#[tactic(auto, unfolding(crate::specs::Text::own))]
fn own_end(s: &[u8], at: usize, quoted: bool) -> usize
    ensures { result ≡ run_at (own quoted) s.now at }
{
    if quoted {
        short_run_end::<Quoted>(s, at)
    } else {
        short_run_end::<Plain>(s, at)
    }
}

// The end of a text whose bytes and escapes end at `i`, where the byte `b` stands: a quoted one ends only before a quote.
fn stop_at(quoted: bool, i: usize, b: u8) -> Option<usize>
    ensures { result ≡ stop_of quoted i b }
{
    if quoted {
        if b == 0x22 {
            return Some(i);
        }
        return None;
    }
    Some(i)
}

// The position of the last byte, or 0 where there is none.
fn last_of(s: &[u8]) -> usize
    ensures { result ≡ length s.now - 1 }
{
    let n = s.len();
    if n == 0 { 0 } else { n - 1 }
}

// Past the escapes that stand at `at` one after the other, and how many.
fn past_escapes(s: &[u8], at: usize, quoted: bool) -> Escapes
    ensures passed { Escaped quoted s.now at result.at result.n }
    ensures stuck { Stuck quoted s.now result.at }
{
    let last = last_of(s);
    let mut i = at;
    let mut n: usize = 0;
    // By two bytes, left at the first that are no escape: a `for` would count the escapes beside the place.
    while i < last {
        if s[i] != 0x5C {
            return Escapes { at: i, n: n };
        }
        let Some(_) = escape_of(quoted, s[i + 1]) else {
            return Escapes { at: i, n: n };
        };
        i += 2;
        n += 1;
    }
    Escapes { at: i, n: n }
}

// Where the text at `at` ends, whose first byte is a backslash; none where it breaks off.
fn escaped_end(s: &[u8], at: usize, quoted: bool) -> Option<usize>
    requires { byte_at s.now at ≡ 0x5C }
    ensures { result ≡ text_end_at quoted s.now at }
{
    let mut i = at;
    // Escapes and runs of other bytes take turns, and each says where the next one starts.
    loop {
        escape_of(quoted, byte_at(s, i + 1))?;
        let e = past_escapes(s, i + 2, quoted);
        let j = own_end(s, e.at, quoted);
        let b = byte_at(s, j);
        if b != 0x5C {
            return stop_at(quoted, j, b);
        }
        i = j;
    }
}

// Where the text at `at` ends; none where it breaks off. Called at two places, `escaped_end` is compiled once, and this stays short wherever it is called.
pub fn text_end(s: &[u8], at: usize, quoted: bool) -> Option<usize>
    ensures { result ≡ text_end_at quoted s.now at }
{
    if quoted {
        let j = own_end(s, at, true);
        let b = byte_at(s, j);
        if b != 0x5C {
            return stop_at(true, j, b);
        }
        return escaped_end(s, j, true);
    }
    let j = own_end(s, at, false);
    let b = byte_at(s, j);
    if b != 0x5C {
        return stop_at(false, j, b);
    }
    escaped_end(s, j, false)
}

// How many bytes the text at `at` stands for.
pub fn text_size(s: &[u8], at: usize, quoted: bool) -> usize
    ensures { result ≡ length (bytes_at quoted s.now at) }
{
    let mut i = at;
    let mut n: usize = 0;
    // As above.
    loop {
        let e = past_escapes(s, i, quoted);
        let j = own_end(s, e.at, quoted);
        n += e.n + (j - e.at);
        if byte_at(s, j) != 0x5C {
            return n;
        }
        if j == e.at {
            return n;
        }
        i = j;
    }
}

// Writes what the escapes that stand at `at` one after the other stand for, from place `to` on.
fn put_escapes(s: &[u8], at: usize, quoted: bool, store: &mut [u8], to: usize) -> Escapes
    requires { Room store.old to (bytes_at quoted s.now at) }
    ensures writes { Writing store.old to (bytes_at quoted s.now at) store.new result.n (bytes_at quoted s.now result.at) }
    ensures later { at ≤ result.at }
    ensures stuck { Stuck quoted s.now result.at }
{
    let last = last_of(s);
    let mut i = at;
    let mut n = to;
    // As above.
    while i < last {
        if s[i] != 0x5C {
            return Escapes { at: i, n: n };
        }
        let Some(c) = escape_of(quoted, s[i + 1]) else {
            return Escapes { at: i, n: n };
        };
        store[n] = c;
        i += 2;
        n += 1;
    }
    Escapes { at: i, n: n }
}

// Writes the bytes that the text at `at` stands for from place `to` on, and answers the place after them.
pub fn copy_text(s: &[u8], at: usize, quoted: bool, store: &mut [u8], to: usize) -> usize
    requires { Room store.old to (bytes_at quoted s.now at) }
    ensures { Put store.old store.new to result (bytes_at quoted s.now at) }
{
    let mut i = at;
    let mut n = to;
    // As above.
    loop {
        let e = put_escapes(s, i, quoted, store, n);
        let j = own_end(s, e.at, quoted);
        let m = put_bytes(store, e.n, part(s, e.at, j));
        if byte_at(s, j) != 0x5C {
            return m;
        }
        if j == e.at {
            return m;
        }
        i = j;
        n = m;
    }
}

// Writes the text at `at` as a name: how many bytes it stands for, and these. One without an escape is copied as it stands.
pub fn put_text(s: &[u8], at: usize, quoted: bool, store: &mut [u8], to: usize) -> usize
    requires { Room store.old to (named (bytes_at quoted s.now at)) }
    ensures { Put store.old store.new to result (named (bytes_at quoted s.now at)) }
{
    let j = own_end(s, at, quoted);
    if byte_at(s, j) != 0x5C {
        let i = put_number(store, to, (j - at) as u64);
        return put_bytes(store, i, part(s, at, j));
    }
    let n = text_size(s, j, quoted);
    let i = put_number(store, to, (j - at + n) as u64);
    let k = put_bytes(store, i, part(s, at, j));
    copy_text(s, j, quoted, store, k)
}
