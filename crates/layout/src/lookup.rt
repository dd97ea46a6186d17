// What the words of a session lead to: the added aliases come before the shipped words.
ghost use Rattle.std.specs.Prelude.{◌≡◌};
ghost use Rattle.words.specs.Words.{lookup_in};
ghost use Rattle.layout.specs.Layout.{session_of, table_of};

use super::places::ADDED;
use limits::ALIASES;
use scan::part::{byte_at, part, text_again};
use tables::find::find;
use words::words::lookup;

// The bytes in which words are looked up: none where a session has no aliases, so that this is told once for all words of a line.
pub fn words_of(b: &[u8]) -> &[u8]
    ensures { table_of (session_of result.now) ≡ table_of (session_of b.now) }
{
    if byte_at(b, ADDED) == 0 {
        return part(b, 0, 0);
    }
    text_again(b)
}

// What an added alias of a session leads to.
pub fn find_added(b: &[u8], w: &[u8]) -> Option<u64>
    ensures { result ≡ lookup_in (session_of b.now).rows w.now }
{
    if b.len() == 0 {
        return None;
    }
    find(b, ADDED, ALIASES, w)
}

// What a word of a session leads to.
pub fn find_word(b: &[u8], w: &[u8]) -> Option<u64>
    ensures { result ≡ lookup_in (table_of (session_of b.now)) w.now }
{
    match find_added(b, w) {
        Some(n) => Some(n),
        None => lookup(w),
    }
}
