// Runs that may be long.
ghost use Rattle.std.specs.Prelude.{◌≡◌};
ghost use Rattle.scan.specs.Bytes.{is_space, is_word};
ghost use Rattle.scan.specs.Scan.{run_at};

use super::test::Long;
use scan::block::blocks_end;
use scan::classes::{Class, Space, Word};
use scan::part::byte_at;
use scan::run::run_end;

// How many bytes of a run are tested one by one before blocks are.
const FIRST: usize = 16;

// How long a text is where a word may be long.
const LONG: usize = 64;

// The same as `run_end` of scan, for a run that may be long: some bytes one by one, then by blocks. Long runs are rare, so it is a function of
// its own where it is called.
#[inline(never)]
pub fn long_run_end<C: Long>(s: &[u8], at: usize) -> usize
    ensures { result ≡ run_at C.Class.rule s.now at }
{
    for i in at..s.len() {
        if !C::has(s[i]) {
            return i;
        }
        if i - at == FIRST {
            return run_end::<C>(s, blocks_end::<C::Block>(s, i));
        }
    }
    at.max(s.len())
}

// The same, for a run that mostly is of one byte or none.
#[inline]
pub fn short_run_end<C: Long>(s: &[u8], at: usize) -> usize
    ensures { result ≡ run_at C.Class.rule s.now at }
{
    if at < s.len() {
        if !C::has(s[at]) {
            return at;
        }
        let i = at + 1;
        if i < s.len() && C::has(s[i]) {
            return long_run_end::<C>(s, i + 1);
        }
        return i;
    }
    at
}

// Past the spaces from `at` on: none, or one, is told at once.
pub fn skip_spaces(s: &[u8], at: usize) -> usize
    ensures { result ≡ run_at is_space s.now at }
{
    if !Space::has(byte_at(s, at)) {
        return at;
    }
    let i = at + 1;
    if !Space::has(byte_at(s, i)) {
        return i;
    }
    long_run_end::<Space>(s, i)
}

// Past the word at `at`: in a short text one by one.
pub fn word_end(s: &[u8], at: usize) -> usize
    ensures { result ≡ run_at is_word s.now at }
{
    if s.len() < LONG {
        return run_end::<Word>(s, at);
    }
    long_run_end::<Word>(s, at)
}
