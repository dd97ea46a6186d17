// Places that are told by their bytes alone.
ghost use Rattle.std.specs.Prelude.{length};
ghost use Rattle.spots.specs.Spot.{Placed};
ghost use Rattle.spots.specs.Utf8.{BadAt, Utf8UpTo};

use super::spot::{Spot, between, spot_in};
use scan::classes::{Class, Digit, Space};
use scan::decimal::digits;
use scan::part::{byte_at, part};
use scan::run::run_end;
use utf8::utf8::is_utf8;

// Where the bytes that are no spaces end.
pub fn field_end(s: &[u8], at: usize) -> usize {
    for i in at..s.len() {
        if Space::has(s[i]) {
            return i;
        }
    }
    at.max(s.len())
}

// The end of what stands from `a` up to `e`, without the spaces behind it.
pub fn trimmed(s: &[u8], a: usize, e: usize) -> usize {
    for i in (a..e).rev() {
        if !Space::has(byte_at(s, i)) {
            return i + 1;
        }
    }
    a.min(e)
}

// Whether the digits at `at` are a number that is too large.
fn too_large_at(s: &[u8], at: usize) -> bool {
    digits(s, at).is_err()
}

// The first digits that are a number that is too large.
pub fn digits_spot(s: &[u8]) -> Option<Spot> {
    for i in 0..s.len() {
        if too_large_at(s, i) {
            return Some(between(i, run_end::<Digit>(s, i)));
        }
    }
    None
}

// Where the longest part from the front on that is UTF-8 ends.
fn utf8_end(line: &[u8]) -> usize
    ensures { Utf8UpTo line.now result }
{
    for i in (0..line.len()).rev() {
        if is_utf8(part(line, 0, i + 1)) {
            return i + 1;
        }
    }
    0
}

// The first byte at which no character of UTF-8 stands.
pub fn byte_spot(line: &[u8]) -> Option<Spot>
    ensures placed { Placed (length line.now) result }
    ensures bad { BadAt line.now result }
{
    let n = utf8_end(line);
    if n < line.len() {
        return spot_in(line, n, n + 1);
    }
    None
}
