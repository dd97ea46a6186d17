// Whether all bytes of a text are of a class: by blocks, the last of which may overlap the one before.
ghost use Rattle.std.specs.Prelude.{◌≡◌, ◌≤◌, ◌*◌, length};
ghost use Rattle.std.specs.List.{list_all};

use scan::classes::Class;

// By two blocks of `n` bytes.
fn all_of_two<C: Class>(s: &[u8], n: usize) -> bool
    requires { (n ≤ length s.now) × (length s.now ≤ 2 * n) }
    ensures { result ≡ list_all C.rule s.now }
{
    C::all(&s[..n]) & C::all(&s[s.len() - n..s.len()])
}

// By four of 16 bytes: one way for all lengths from 16 to 64, where each size by itself would be a branch.
fn all_of_four<C: Class>(s: &[u8]) -> bool
    requires { (16 ≤ length s.now) × (length s.now ≤ 64) }
    ensures { result ≡ list_all C.rule s.now }
{
    let last = s.len() - 16;
    let second = last.min(16);
    let third = last.min(32);
    C::all(&s[..16])
        & C::all(&s[second..second + 16])
        & C::all(&s[third..third + 16])
        & C::all(&s[last..s.len()])
}

// By blocks of 128 bytes, the last of which ends with the text.
fn all_of_many<C: Class>(s: &[u8]) -> bool
    requires { 128 ≤ length s.now }
    ensures { result ≡ list_all C.rule s.now }
{
    let mut m = C::all(&s[..128]);
    let mut i: usize = 128;
    // Left at the first block that fails, and the last block is a part of the text that no whole number of them reaches.
    while m && 128 <= s.len() - i {
        m = C::all(&s[i..i + 128]);
        i += 128;
    }
    m & C::all(&s[s.len() - 128..s.len()])
}

// The same as `Class::all`, for a text of any length.
pub fn all_long<C: Class>(s: &[u8]) -> bool
    ensures { result ≡ list_all C.rule s.now }
{
    match s.len() {
        0..4 => C::all(s),
        4..8 => all_of_two::<C>(s, 4),
        8..16 => all_of_two::<C>(s, 8),
        16..64 => all_of_four::<C>(s),
        64..128 => all_of_two::<C>(s, 64),
        _ => all_of_many::<C>(s),
    }
}
