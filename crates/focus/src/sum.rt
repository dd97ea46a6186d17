// The sum of offsets.
ghost use Rattle.std.specs.Prelude.{◌≡◌, Ok};
ghost use Rattle.focus.specs.Sum.{add_same, apart as apart_of, add_is, sum_at, sum_of, moved as moved_of};

use limits::MOST;
use limits::refusal::Refusal;
use ranges::range::{MoveDir1D, is_sign, offset_at};
use scan::decimal::is_digit;
use scan::part::byte_at;

// How long a text is where offsets may be many.
const MANY: usize = 64;

// A sum of offsets: its direction and size, or that it passed 2^64 - 1.
pub type Sum = Result<(MoveDir1D, u64), Refusal>;

fn add_same(d: MoveDir1D, n: u64, k: u64) -> Sum
    ensures { result ≡ add_same d n k }
{
    if k <= MOST - n {
        return Ok((d, n + k));
    }
    Err(Refusal::SumTooLarge)
}

fn apart(n: u64, k: u64) -> u64
    ensures { result ≡ apart_of n k }
{
    if k <= n {
        return n - k;
    }
    k - n
}

#[tactic(auto, unfolding(crate::specs::Sum::add_is))]
fn add_is(d: MoveDir1D, n: u64, plus: bool, k: u64) -> Sum
    ensures { result ≡ add_is d n plus k }
{
    match d {
        MoveDir1D::Next => {
            if plus {
                return add_same(MoveDir1D::Next, n, k);
            }
            Ok((MoveDir1D::Previous, apart(n, k)))
        }
        MoveDir1D::Previous => {
            if plus {
                return Ok((MoveDir1D::Next, apart(n, k)));
            }
            add_same(MoveDir1D::Previous, n, k)
        }
    }
}

// A sum of offsets up to a position: its direction and size.
#[derive(Clone, Copy)]
pub struct Begun {
    pub d: MoveDir1D,
    pub n: u64,
    pub at: usize,
}

// The sum of offsets of one digit, each with a sign behind it: in a long text, where there may be many.
fn sum_pairs(s: &[u8], at: usize) -> Begun
    ensures { sum_of s.now at ≡ sum_at (Ok (result.d, result.n)) s.now result.at }
{
    let mut i = at;
    let mut d = MoveDir1D::Next;
    let mut n: u64 = 0;
    let mut b = byte_at(s, at);
    if s.len() < MANY {
        return Begun { d: d, n: n, at: i };
    }
    if !is_sign(b) {
        return Begun { d: d, n: n, at: i };
    }
    let last = s.len() - 2;
    // By two bytes, left at the first that are no offset of one digit: a `for` would count the pairs beside the place.
    while i < last {
        let c = s[i + 1];
        if !is_digit(c) {
            return Begun { d: d, n: n, at: i };
        }
        let e = s[i + 2];
        if !is_sign(e) {
            return Begun { d: d, n: n, at: i };
        }
        let Ok((x, y)) = add_is(d, n, b == 0x2B, (c - 0x30) as u64) else {
            return Begun { d: d, n: n, at: i };
        };
        d = x;
        n = y;
        b = e;
        i += 2;
    }
    Begun { d: d, n: n, at: i }
}

// The sum of the offsets that start at `at`.
pub fn sum_mods(s: &[u8], at: usize) -> Sum
    ensures { result ≡ sum_of s.now at }
{
    let g = sum_pairs(s, at);
    let mut i = g.at;
    let mut d = g.d;
    let mut n = g.n;
    let mut b = byte_at(s, i);
    // Each offset says where the next one starts.
    loop {
        if !is_sign(b) {
            return Ok((d, n));
        }
        let Ok((k, j, c)) = offset_at(s, i + 1) else {
            return Err(Refusal::SumTooLarge);
        };
        let (e, m) = add_is(d, n, b == 0x2B, k)?;
        d = e;
        n = m;
        i = j;
        b = c;
    }
}

// A number moved by a sum, not below 0 and not above 2^64 - 1.
pub fn moved(n: u64, d: MoveDir1D, k: u64) -> u64
    ensures { result ≡ moved_of n d k }
{
    match d {
        MoveDir1D::Next => {
            if k <= MOST - n {
                return n + k;
            }
            MOST
        }
        MoveDir1D::Previous => {
            if k <= n {
                return n - k;
            }
            0
        }
    }
}
