// Eight bytes as one number, read at once: the first the highest, as in the order of words, or the first the lowest.
ghost use Rattle.std.specs.Prelude.{◌≡◌, ◌+◌, ◌≤◌, length};
ghost use Rattle.scan.specs.Number.{eight_at, number_at, number_of};
ghost use Rattle.scan.specs.Scan.{part_of};

// The eight bytes from `at` on.
fn bytes_at(s: &[u8], at: usize) -> [u8; 8]
    requires { at + 8 ≤ length s.now }
    ensures { result ≡ eight_at s.now at }
{
    [
        s[at],
        s[at + 1],
        s[at + 2],
        s[at + 3],
        s[at + 4],
        s[at + 5],
        s[at + 6],
        s[at + 7],
    ]
}

// The eight bytes from `at` on, the first the highest.
pub fn eight(s: &[u8], at: usize) -> u64
    requires { at + 8 ≤ length s.now }
    ensures { result ≡ number_at 0 s.now at 8 }
{
    u64::from_be_bytes(bytes_at(s, at))
}

// The same with the first the lowest.
pub fn low_eight(s: &[u8], at: usize) -> u64
    requires { at + 8 ≤ length s.now }
    ensures { result ≡ number_of (part_of s.now at (at + 8)) }
{
    u64::from_le_bytes(bytes_at(s, at))
}
