// The fields of a session in its bytes: read, told and written. Bytes that are not used are free.
ghost use Rattle.std.specs.Prelude.{◌≡◌, true, ◌+◌, ◌<◌, ◌≤◌, length};
ghost use Rattle.limits.specs.Limits.{line_limit};
ghost use Rattle.store.specs.Splice.{Put, Room};
ghost use Rattle.fields.specs.Field.{two, two_at};
ghost use Rattle.layout.specs.Layout.{session_size, fresh, session_of, sound as sound_of, remembering, written};

use super::places::{ADDED, LINE_COUNT, LINE_PLACE, SESSION};
use limits::{ALIASES, LINE};
use scan::part::{byte_at, part};
use store::put_bytes;
use tables::good::good;
use utf8::utf8::is_utf8;

// The number in two bytes, the low byte first.
fn two_at(b: &[u8], i: usize) -> usize
    requires { i < session_size }
    ensures value { result ≡ two_at b.now i }
    ensures bound { result < 65536 }
{
    byte_at(b, i) as usize + 256 * byte_at(b, i + 1) as usize
}

// The remembered line of a session.
pub fn remembered(b: &[u8]) -> &[u8]
    requires { sound_of b.now ≡ true }
    ensures { result.now ≡ (session_of b.now).line }
{
    part(b, LINE_PLACE, LINE_PLACE + two_at(b, LINE_COUNT))
}

// Whether some session is written as these bytes.
pub fn sound(b: &[u8]) -> bool
    ensures { result ≡ sound_of b.now }
{
    if b.len() != SESSION {
        return false;
    }
    let n = two_at(b, LINE_COUNT);
    if LINE < n {
        return false;
    }
    if !is_utf8(part(b, LINE_PLACE, LINE_PLACE + n)) {
        return false;
    }
    good(b, ADDED, ALIASES)
}

// Writes a number in two bytes, the low byte first.
pub fn put_two(b: &mut [u8], at: usize, n: usize) -> usize
    requires n_bound { n < 65536 }
    requires room { Room b.old at (two n) }
    ensures { Put b.old b.new at result (two n) }
{
    b[at] = (n % 256) as u8;
    b[at + 1] = (n / 256) as u8;
    at + 2
}

// Writes the line that is remembered.
pub fn remember(b: &mut [u8], line: &[u8])
    requires line_len_bound { length line.now ≤ line_limit }
    requires b_len { length b.old ≡ session_size }
    ensures { b.new ≡ remembering line.now b.old }
{
    put_two(b, LINE_COUNT, line.len());
    put_bytes(b, LINE_PLACE, line);
}

// Writes a fresh session: a line of no bytes, and no aliases.
pub fn clear(b: &mut [u8])
    requires { length b.old ≡ session_size }
    ensures { b.new ≡ written fresh b.old }
{
    put_two(b, LINE_COUNT, 0);
    b[ADDED] = 0;
}
