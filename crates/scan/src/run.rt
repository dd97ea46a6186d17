// Runs of bytes of one class.
ghost use Rattle.std.specs.Prelude.{◌≡◌};
ghost use Rattle.scan.specs.Scan.{run_at};

use super::classes::Class;

// The first position from `at` on whose byte is not of the class, or the end.
pub fn run_end<C: Class>(s: &[u8], at: usize) -> usize
    ensures { result ≡ run_at C.rule s.now at }
{
    for i in at..s.len() {
        if !C::has(s[i]) {
            return i;
        }
    }
    at.max(s.len())
}
