// Options: `++key=value`, by the text of an item, quotes and escapes taken away.
// Beside OptionType::from_str of parse.rs.
ghost use Rattle.std.specs.Prelude.{◌≡◌};
ghost use Rattle.std.proofs.lemmas.List.Edits.{sets};
ghost use Rattle.scan.specs.Scan.{byte_at};
ghost use Rattle.store.specs.Splice.{Put, Room};
ghost use Rattle.lists.specs.Text.{own, bytes_at};
ghost use Rattle.lists.specs.Lists.{text_at, key_of, after_key, is_empty, keyless, option_of};
ghost use Rattle.lists.specs.Listed.{Emits, Flags, OptionSeen, option_bytes};

use super::text::{copy_text, escape_of, item_text};
use scan::classes::{Class, Plain, Quoted};
use scan::part::byte_at;

// An option: its kind, and the byte counts of its text, or of its key and value.
#[derive(Clone, Copy)]
pub enum OptionType {
    Positional(usize),
    Flag(usize),
    FlagValue(usize, usize),
}

// How many bytes a key has, and where it ends.
#[derive(Clone, Copy)]
pub struct Key {
    pub count: usize,
    pub next: usize,
}

fn is_own(quoted: bool, b: u8) -> bool
    ensures { result ≡ own quoted b }
{
    if quoted {
        Quoted::has(b)
    } else {
        Plain::has(b)
    }
}

// What the backslash at `at` and the byte after it stand for, and where the next byte starts, if they are an escape.
fn emit_escape(s: &[u8], at: usize, quoted: bool) -> Option<(u8, usize)>
    requires { byte_at s.now at ≡ 0x5C }
    ensures { Emits quoted s.now at result }
{
    let c = escape_of(quoted, byte_at(s, at + 1))?;
    Some((c, at + 2))
}

// The first byte that the text at `at` stands for and where the next one starts, or none where the text ends.
fn emit_at(s: &[u8], at: usize, quoted: bool) -> Option<(u8, usize)>
    ensures { Emits quoted s.now at result }
{
    if s.len() <= at {
        return None;
    }
    let b = s[at];
    if is_own(quoted, b) {
        return Some((b, at + 1));
    }
    if b == 0x5C {
        return emit_escape(s, at, quoted);
    }
    None
}

// Where the key of a flag starts, past the `++` that the text at `at` starts with; none where it starts otherwise.
fn flag_start(s: &[u8], at: usize, quoted: bool) -> Option<usize>
    ensures { Flags quoted s.now at result }
{
    let (b, j) = emit_at(s, at, quoted)?;
    if b != 0x2B {
        return None;
    }
    let (d, k) = emit_at(s, j, quoted)?;
    if d != 0x2B {
        return None;
    }
    Some(k)
}

fn key_is_empty(s: &[u8], at: usize, quoted: bool) -> bool
    ensures { result ≡ is_empty (key_of (bytes_at quoted s.now at)) }
{
    match emit_at(s, at, quoted) {
        Some((b, _)) => b == 0x3D,
        None => true,
    }
}

// Whether the item at `at` is a flag with an empty key.
pub fn empty_key(s: &[u8], at: usize) -> bool
    ensures { result ≡ keyless (text_at s.now at) }
{
    let t = item_text(s, at);
    match flag_start(s, t.from, t.quoted) {
        Some(k) => key_is_empty(s, k, t.quoted),
        None => false,
    }
}

// Writes the key that starts at `at` to the front of the store.
fn copy_key(s: &[u8], at: usize, quoted: bool, store: &mut [u8]) -> Key
    requires { Room store.old 0 (key_of (bytes_at quoted s.now at)) }
    ensures put { Put store.old store.new 0 result.count (key_of (bytes_at quoted s.now at)) }
    ensures left { bytes_at quoted s.now result.next ≡ after_key (bytes_at quoted s.now at) }
{
    let mut i = at;
    let mut n: usize = 0;
    // Each byte of the key says where the next one starts: an escape is two bytes long.
    loop {
        let Some((b, j)) = emit_at(s, i, quoted) else {
            return Key { count: n, next: i };
        };
        if b == 0x3D {
            return Key { count: n, next: i };
        }
        store[n] = b;
        n += 1;
        i = j;
    }
}

// Writes the option that the item at `at` is to the front of the store: its text, or its key and then its value.
pub fn copy_option(s: &[u8], at: usize, store: &mut [u8]) -> OptionType
    requires { Room store.old 0 (text_at s.now at) }
    ensures kind { result ≡ OptionSeen (option_of (text_at s.now at)) }
    ensures written { store.new ≡ sets store.old 0 (option_bytes (option_of (text_at s.now at))) }
{
    let t = item_text(s, at);
    let Some(k) = flag_start(s, t.from, t.quoted) else {
        return OptionType::Positional(copy_text(s, t.from, t.quoted, store, 0));
    };
    let key = copy_key(s, k, t.quoted, store);
    let Some((_, j)) = emit_at(s, key.next, t.quoted) else {
        return OptionType::Flag(key.count);
    };
    let e = copy_text(s, j, t.quoted, store, key.count);
    OptionType::FlagValue(key.count, e - key.count)
}
