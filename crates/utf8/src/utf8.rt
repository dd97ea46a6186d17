// UTF-8 by RFC 3629: ASCII first, then blocks of characters, both by vector instructions, and between them one sequence after the other.
ghost use Rattle.std.specs.Prelude.{◌≡◌, ◌<◌, ◌≤◌, true, length};
ghost use Rattle.scan.specs.Bytes.{within as within_of};
ghost use Rattle.scan.specs.Scan.{byte_at};
ghost use Rattle.utf8.specs.Utf8 as utf8s;
ghost use Rattle.utf8.specs.Utf8Laws.{Sequence};

use super::ascii::Ascii;
use super::block::characters_end;
use blocks::all::all_long;
use scan::block::BLOCK;
use scan::byte::within;
use scan::part::byte_at;

fn followers(b: u8) -> u8
    ensures { result ≡ utf8s.followers b }
{
    if within(0x00, 0x7F, b) {
        return 0;
    }
    if within(0xC2, 0xDF, b) {
        return 1;
    }
    if within(0xE0, 0xEF, b) {
        return 2;
    }
    if within(0xF0, 0xF4, b) {
        return 3;
    }
    4
}

// The least and the greatest second byte after a first byte.
#[tactic(auto, unfolding(crate::specs::Utf8::lowest, crate::specs::Utf8::highest))]
fn second(b: u8) -> (u8, u8)
    ensures { result ≡ (utf8s.lowest b, utf8s.highest b) }
{
    match b {
        0xE0 => (0xA0, 0xBF),
        0xED => (0x80, 0x9F),
        0xF0 => (0x90, 0xBF),
        0xF4 => (0x80, 0x8F),
        _ => (0x80, 0xBF),
    }
}

// The byte at `i` is one that may follow.
fn follows(s: &[u8], i: usize, low: u8, high: u8) -> bool
    ensures { result ≡ within_of low high (byte_at s.now i) }
{
    within(low, high, byte_at(s, i))
}

// The sequence of one character at `i`, by its first byte and those that must follow it: where the next one starts, if it is one.
fn any_sequence(s: &[u8], i: usize) -> Option<usize>
    requires { i < length s.now }
    ensures { Sequence s.now i result }
{
    let b = s[i];
    let n = followers(b);
    if n == 0 {
        return Some(i + 1);
    }
    if n == 4 {
        return None;
    }
    let (low, high) = second(b);
    if !follows(s, i + 1, low, high) {
        return None;
    }
    if n == 1 {
        return Some(i + 2);
    }
    if !follows(s, i + 2, 0x80, 0xBF) {
        return None;
    }
    if n == 2 {
        return Some(i + 3);
    }
    if !follows(s, i + 3, 0x80, 0xBF) {
        return None;
    }
    Some(i + 4)
}

// The same, with the commonest first: those of one byte and of two.
fn sequence(s: &[u8], i: usize) -> Option<usize>
    requires { i < length s.now }
    ensures { Sequence s.now i result }
{
    let b = s[i];
    if b < 0x80 {
        return Some(i + 1);
    }
    if within(0xC2, 0xDF, b) {
        if follows(s, i + 1, 0x80, 0xBF) {
            return Some(i + 2);
        }
        return None;
    }
    any_sequence(s, i)
}

// Sequences one after the other from `at` on, until one ends at `stop` or behind it.
fn sequences(s: &[u8], at: usize, stop: usize) -> Option<usize>
    requires at_lt_stop { at < stop }
    requires stop_in_bounds { stop ≤ length s.now }
    ensures { Sequence s.now at result }
{
    let mut i = at;
    // Each sequence says where the next one starts, so there is no count that a `for` could go through.
    while i < stop {
        i = sequence(s, i)?;
    }
    Some(i)
}

// Whether a text is UTF-8: `first` bytes by sequences, then by blocks, and behind a block that is not told as many bytes by sequences again.
fn by_blocks(s: &[u8], first: usize) -> bool
    requires { 0 < first }
    ensures { result ≡ utf8s.is_utf8 s.now }
{
    let mut i: usize = 0;
    let mut n = first;
    // The same of these pieces.
    while i < s.len() {
        let Some(j) = sequences(s, i, i + n.min(s.len() - i)) else {
            return false;
        };
        i = characters_end(s, j);
        n = BLOCK;
    }
    true
}

// The bytes are UTF-8 by RFC 3629. Two bytes must stand before a block, so a short text has none. What is not ASCII is read by a function of
// its own, called at two places and lent the text anew: put in here, or lent the text as it came, it made ASCII slower.
pub fn is_utf8(s: &[u8]) -> bool
    ensures { result ≡ utf8s.is_utf8 s.now }
{
    if all_long::<Ascii>(s) {
        return true;
    }
    if s.len() < BLOCK + 2 {
        return by_blocks(&s[0..], BLOCK + 2);
    }
    by_blocks(&s[0..], 2)
}
