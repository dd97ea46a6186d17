// One byte of a text, and a part of it, lent.
ghost use Rattle.std.specs.Prelude.{◌≡◌};
ghost use Rattle.scan.specs.Scan.{byte_at, part_of};

// The byte at a position, or 0 past the end.
pub fn byte_at(s: &[u8], i: usize) -> u8
    ensures { result ≡ byte_at s.now i }
{
    if i < s.len() { s[i] } else { 0 }
}

// The part of a text from `a` up to `e`: what lies past the end is left out.
pub fn part(s: &[u8], a: usize, e: usize) -> &[u8]
    ensures { result.now ≡ part_of s.now a e }
{
    let n = s.len();
    if e <= n {
        if a <= e {
            return &s[a..e];
        }
        return &s[e..e];
    }
    if a <= n {
        return &s[a..];
    }
    &s[n..]
}

// The same text, lent again: its place and its length are then read one by one, as they were written, and go on in registers.
pub fn text_again(s: &[u8]) -> &[u8]
    ensures { result.now ≡ s.now }
{
    &s[0..]
}
