// Decimal digits.
ghost use Rattle.std.specs.Prelude.{◌≡◌, true, false, cond, ◌+◌, ◌*◌, ◌^◌, ◌<◌, ◌≤◌, eqb, length, Ok, Some, None};
ghost use Rattle.scan.specs.Bytes.{is_digit, is_zero};
ghost use Rattle.scan.specs.Scan.{digits_at};
ghost use Rattle.scan.specs.DigitsLaws.{Zeros};

use super::block::blocks_end;
use super::byte::within;
use super::classes::Class;
use super::part::byte_at;
use limits::MOST;
use limits::refusal::Refusal;

// Decimal digits at a position: none, or their value and the position past them, or a value above 2^64 - 1.
pub type Decimal = Result<Option<(u64, usize)>, Refusal>;

// A number up to this stays below 2^64 with any digit behind it.
const SMALL: u64 = MOST / 10 - 1;

fn number(at: usize, i: usize, n: u64) -> Decimal
    ensures { result ≡ cond (eqb i at) (Ok None) (Ok (Some (n, i))) }
{
    if i == at { Ok(None) } else { Ok(Some((n, i))) }
}

pub fn is_digit(b: u8) -> bool
    ensures { result ≡ is_digit b }
{
    within(0x30, 0x39, b)
}

// Whether a digit more makes a number too large.
fn too_large(n: u64, d: u64) -> bool
    requires { d ≤ 9 }
    ensures { (result ≡ true → 2 ^ 64 ≤ n * 10 + d) × (result ≡ false → n * 10 + d < 2 ^ 64) }
{
    if n <= SMALL {
        return false;
    }
    (MOST - d) / 10 < n
}

// The digit 0 alone.
struct Zero;

impl Class for Zero {
    ghost rule = { is_zero };

    fn has(b: u8) -> bool {
        b == 0x30
    }
}

// Past the blocks of zeros from `at` on.
fn past_zeros(s: &[u8], at: usize) -> usize
    ensures { Zeros s.now at result }
{
    if byte_at(s, at) != 0x30 {
        return at;
    }
    blocks_end::<Zero>(s, at)
}

// The digits at `at`, however many: zeros in front of them by blocks.
pub fn many_digits(s: &[u8], at: usize) -> Decimal
    ensures { result ≡ digits_at s.now at }
{
    let mut n: u64 = 0;
    let mut i = past_zeros(s, at);
    // The place past the digits is answered: behind a `for` it would be the end, or `at` where that is past the end.
    while i < s.len() {
        let b = s[i];
        if !is_digit(b) {
            return number(at, i, n);
        }
        let d = (b - 0x30) as u64;
        if too_large(n, d) {
            return Err(Refusal::NumberTooLarge);
        }
        n = n * 10 + d;
        i += 1;
    }
    number(at, i, n)
}

// The digits at `at`: none, or one, is told at once.
pub fn digits(s: &[u8], at: usize) -> Decimal
    ensures { result ≡ digits_at s.now at }
{
    let b = byte_at(s, at);
    if !is_digit(b) {
        return Ok(None);
    }
    let i = at + 1;
    if !is_digit(byte_at(s, i)) {
        return Ok(Some(((b - 0x30) as u64, i)));
    }
    many_digits(s, at)
}
