// Blocks of UTF-8: characters of up to three bytes, many bytes tested at once.
//
// A byte and the two before it tell whether it stands well there, without a state. The test is put in numbers, by differences that stop at 0,
// the larger and the smaller of two: vector instructions have these for bytes, and comparisons would be more. A block with one of the first
// bytes 0xC0, 0xC1, 0xDF, 0xE0, 0xED, or 0xF0 and above, is not told, and is read one sequence after the other.
ghost use Rattle.std.specs.Prelude.{◌≡◌, ℕ, ◌+◌, ◌-◌, ◌≤◌, true, length, if◌then◌else◌};
ghost use Rattle.scan.specs.Bytes.{within as within_of};
ghost use Rattle.utf8.specs.Utf8Blocks.{Usual, Must, Joined, JoinedFrom, Judged, PlaceAt};

use scan::block::BLOCK;
use scan::byte::within;

// 3 for a byte that follows in a sequence, 0 for any other.
fn follower(a: u8) -> u8
    ensures { result ≡ (if within_of 0x80 0xBF a then 3 else 0) }
{
    if within(0x80, 0xBF, a) { 3 } else { 0 }
}

// 3 where a byte must follow `b`, behind `c`; 0 where none must; 1 or 2 where one of them is left out.
fn must(c: u8, b: u8) -> u8
    ensures { Must c b result }
{
    b.max(c.saturating_sub(0x1F)).saturating_sub(0xBF).min(3)
}

// 0 only for a byte below 0xF0 that is not 0xED: with the bit of weight 2 turned over, 0xED is 0xEF, the greatest of them.
fn unusual(a: u8) -> u8
    ensures { result ≡ 0 → Usual a }
{
    (a ^ 2).saturating_sub(0xEE)
}

// True only where `a` stands well behind `b`, which stands behind `c`.
fn joined(c: u8, b: u8, a: u8) -> bool
    ensures { result ≡ true → Joined c b a }
{
    must(c, b).wrapping_sub(follower(a)).max(unusual(a)) == 0
}

// True only where each byte of the block behind the two at `t` stands well.
fn all_joined(s: &[u8], t: usize) -> bool
    requires { t + 34 ≤ length s.now }
    ensures { result ≡ true → JoinedFrom s.now t 32 }
{
    let mut m = true;
    for i in 0..BLOCK {
        m = m & joined(s[t + i], s[t + i + 1], s[t + i + 2]);
    }
    m
}

// Where the last sequence before `t + 2` starts, by the two bytes at `t`.
fn last_start(s: &[u8], t: usize) -> usize
    requires { t + 2 ≤ length s.now }
    ensures { (i : ℕ) → PlaceAt s.now i t → Judged s.now i result }
{
    if 0xC0 <= s[t + 1] {
        return t + 1;
    }
    if 0xE0 <= s[t] {
        return t;
    }
    t + 2
}

// Past the blocks behind the two bytes at `at` in which each byte stands well, the last of which ends with the text: where the last sequence
// starts.
fn blocks_end(s: &[u8], at: usize) -> usize
    requires { at + 34 ≤ length s.now }
    ensures { (i : ℕ) → PlaceAt s.now i at → Judged s.now i result }
{
    let mut t = at;
    // Left where the rest is shorter than a block and the two bytes before it, which is told by the rest.
    while BLOCK + 2 <= s.len() - t {
        if !all_joined(s, t) {
            return last_start(s, t);
        }
        t += BLOCK;
    }
    if !all_joined(s, s.len() - BLOCK - 2) {
        return last_start(s, t);
    }
    last_start(s, s.len() - 2)
}

// Past what stands well from `i` on, by blocks, if there is one: the text is judged from there as from `i`.
pub fn characters_end(s: &[u8], i: usize) -> usize
    ensures { Judged s.now i result }
{
    if i < 2 {
        return i;
    }
    if s.len() < BLOCK {
        return i;
    }
    if s.len() - BLOCK < i {
        return i;
    }
    let t = i - 2;
    if 0xC0 <= s[t + 1] {
        return i;
    }
    if 0xE0 <= s[t] {
        return i;
    }
    blocks_end(s, t)
}
