// Blocks of bytes that are of one class.
ghost use Rattle.std.specs.Prelude.{◌≡◌, ◌≤◌};
ghost use Rattle.scan.specs.Scan.{run_at};

use super::classes::Class;

// How many bytes a block has.
pub const BLOCK: usize = 32;

// Past the blocks from `at` on whose bytes are all of the class.
pub fn blocks_end<C: Class>(s: &[u8], at: usize) -> usize
    ensures later { at ≤ result }
    ensures run { run_at C.rule s.now at ≡ run_at C.rule s.now result }
{
    let mut i = at;
    // Left at the first block that is not all of the class, and its place answered: a `for` over blocks would count the places beside them.
    while i < s.len() && BLOCK <= s.len() - i {
        if !C::all(&s[i..i + BLOCK]) {
            return i;
        }
        i += BLOCK;
    }
    i
}
