// Texts compared, and cut into lines.
ghost use Rattle.std.specs.Prelude.{◌≡◌, ◌≤◌, eqb, length};
ghost use Rattle.std.specs.List.{common_prefix_len, count_by};

use scan::classes::Text;
use scan::run::run_end;

// How many bytes two texts have in common at their start. A loop over both at once is no plainer with a closure, and its steps are those
// of the definition.
pub fn common(a: &[u8], b: &[u8]) -> usize
    ensures of_a { result ≤ length a.now }
    ensures of_b { result ≤ length b.now }
    ensures value { result ≡ common_prefix_len eqb a.now b.now }
{
    let n = a.len().min(b.len());
    for i in 0..n {
        if a[i] != b[i] {
            return i;
        }
    }
    n
}

// Where the line ends that starts at `at`: at the first 0x0A, or at the end of the bytes.
#[tactic(auto, using(scan::specs::RunLaws::run_at_le, scan::specs::RunLaws::run_at_within))]
pub fn line_end(s: &[u8], at: usize) -> usize
    requires { at ≤ length s.now }
    ensures from { at ≤ result }
    ensures within { result ≤ length s.now }
{
    run_end::<Text>(s, at)
}

// The line that a text starts with.
pub fn first_line(s: &[u8]) -> &[u8] {
    &s[..line_end(s, 0)]
}

// How many lines end in a text, and where the last of them does.
#[derive(Clone, Copy)]
pub struct Ends {
    pub lines: u64,
    pub behind: usize,
}

// Counts them, in one pass: std's count and rposition would be two.
pub fn count_ends(s: &[u8]) -> Ends
    ensures within { result.behind ≤ length s.now }
    ensures lines { result.lines ≡ count_by (eqb 0x0A) s.now }
{
    let mut lines: u64 = 0;
    let mut behind: usize = 0;
    for i in 0..s.len() {
        if s[i] == b'\n' {
            lines += 1;
            behind = i + 1;
        }
    }
    Ends { lines, behind }
}
