// Where the text of a line stops: at the first 0x0A, or at the end.
ghost use Rattle.std.specs.Prelude.{◌≡◌};
ghost use Rattle.scan.specs.Bytes.{is_text};
ghost use Rattle.scan.specs.Scan.{run_at};

use super::all::all_long;
use super::test;
use scan::classes::Text;
use scan::run::run_end;

// The position of the first 0x0A, or the end. One at the very end is found as fast as none.
pub fn text_stop(s: &[u8]) -> usize
    ensures { result ≡ run_at is_text s.now 0 }
{
    if s.len() == 0 {
        return 0;
    }
    let last = s.len() - 1;
    if all_long::<test::Text>(&s[0..last]) {
        return run_end::<Text>(s, last);
    }
    run_end::<Text>(s, 0)
}
