// Argument lists: the items of a text, split at spaces.
// Beside parse_string, parse_strings, parse_filenames and OptionType::from_str of parse.rs.
ghost use Rattle.std.specs.Prelude.{◌≡◌, false, ◌&&◌, ◌||◌, ◌+◌};
ghost use Rattle.store.specs.Sevens.{named};
ghost use Rattle.store.specs.Splice.{Put, Room};
ghost use Rattle.lists.specs.Lists.{item_of as item_from, item_at, text_at, items_at, lone as lone_of, keyless as keyless_text};
ghost use Rattle.lists.specs.Listed.{RoomFor, passing, found, list_from, list_of};

use super::option::empty_key;
use super::text::{copy_text, item_text, put_text, text_end};
use blocks::run::skip_spaces;
use scan::part::byte_at;

// An item: from its first byte up to the byte past its last, quotes and escapes included.
#[derive(Clone, Copy)]
pub struct Item {
    pub start: usize,
    pub end: usize,
}

// The item at a place: still so many items ahead, or found.
#[derive(Clone, Copy)]
pub enum Picked {
    Ahead(usize),
    Item(Item),
}

impl Picked {
    // The item, if it was reached.
    #[tactic(auto, unfolding(crate::specs::Listed::found))]
    pub fn found(self) -> Option<Item>
        ensures { result ≡ found self }
    {
        match self {
            Picked::Item(x) => Some(x),
            Picked::Ahead(_) => None,
        }
    }
}

// What was seen of a list: how many items, whether one is a flag with an empty key, and the item at the place asked for.
#[derive(Clone, Copy)]
pub struct Seen {
    pub count: usize,
    pub keyless: bool,
    pub picked: Picked,
}

// The end of an item whose text starts at `i` and ends at `e`, with `d` bytes behind it; an item has at least one byte or escape.
pub fn item_of(i: usize, d: usize, e: Option<usize>) -> Option<usize>
    requires { RoomFor d e }
    ensures { result ≡ item_from i d e }
{
    let j = e?;
    if j == i { None } else { Some(j + d) }
}

// Where the item at `at` ends, if it is one.
pub fn item_end(s: &[u8], at: usize) -> Option<usize>
    ensures { result ≡ item_at s.now at }
{
    if byte_at(s, at) == 0x22 {
        let q = at + 1;
        return item_of(q, 1, text_end(s, q, true));
    }
    item_of(at, 0, text_end(s, at, false))
}

// Whether an item is the byte `b` alone.
pub fn lone(s: &[u8], x: Item, b: u8) -> bool
    ensures { result ≡ lone_of s.now x b }
{
    if x.end == 0 {
        return false;
    }
    if x.end - 1 != x.start {
        return false;
    }
    byte_at(s, x.start) == b
}

// Writes the bytes that the item at `at` stands for from place `to` on, and answers the place after them.
pub fn copy_item(s: &[u8], at: usize, store: &mut [u8], to: usize) -> usize
    requires { Room store.old to (text_at s.now at) }
    ensures { Put store.old store.new to result (text_at s.now at) }
{
    let t = item_text(s, at);
    copy_text(s, t.from, t.quoted, store, to)
}

// Writes the item at `at` as a name: how many bytes it stands for, and these.
pub fn put_item(s: &[u8], at: usize, store: &mut [u8], to: usize) -> usize
    requires { Room store.old to (named (text_at s.now at)) }
    ensures { Put store.old store.new to result (named (text_at s.now at)) }
{
    let t = item_text(s, at);
    put_text(s, t.from, t.quoted, store, to)
}

// One more item is passed: it is the one asked for, or one of those before it, or one behind it.
fn passed(p: Picked, x: Item) -> Picked
    ensures { result ≡ passing p x }
{
    match p {
        Picked::Ahead(n) => {
            if n == 0 {
                Picked::Item(x)
            } else {
                Picked::Ahead(n - 1)
            }
        }
        Picked::Item(y) => Picked::Item(y),
    }
}

// Whether the item at `at` is a flag with an empty key, where flags are looked for, or one before it was.
fn keyless_by(s: &[u8], at: usize, flags: bool, before: bool) -> bool
    ensures { result ≡ (before || (flags && keyless_text (text_at s.now at))) }
{
    if before {
        return true;
    }
    if flags {
        return empty_key(s, at);
    }
    false
}

// The items from the first byte on, where one must stand; none where the list fails.
fn items_from(s: &[u8], place: usize, flags: bool) -> Option<Seen>
    ensures { result ≡ list_from s.now flags 0 false (Picked.Ahead place) (items_at s.now 0) }
{
    let mut i: usize = 0;
    let mut n: usize = 0;
    let mut keyless = false;
    let mut picked = Picked::Ahead(place);
    // Each item says where the next one starts.
    loop {
        let j = item_end(s, i)?;
        n += 1;
        keyless = keyless_by(s, i, flags, keyless);
        picked = passed(picked, Item { start: i, end: j });
        let k = skip_spaces(s, j);
        if k == s.len() {
            return Some(Seen {
                count: n,
                keyless: keyless,
                picked: picked,
            });
        }
        if k == j {
            return None;
        }
        i = k;
    }
}

// The list that a text is, if it is one: its count, the item at a place, and, where flags are looked for, whether one has an empty key.
pub fn parse_list(s: &[u8], place: usize, flags: bool) -> Option<Seen>
    ensures { result ≡ list_of s.now place flags }
{
    if skip_spaces(s, 0) == s.len() {
        return Some(Seen {
            count: 0,
            keyless: false,
            picked: Picked::Ahead(place),
        });
    }
    items_from(s, place, flags)
}
