// Which words a table may have.
ghost use Rattle.std.specs.Prelude.{◌≡◌};
ghost use Rattle.tables.specs.Table.{is_name};

use super::word::ShortWord;
use scan::classes::Word;
use scan::run::run_end;

// Whether a word is 1 to 24 word characters.
pub fn is_name(w: &[u8]) -> bool
    ensures { result ≡ is_name w.now }
{
    let Some(s) = ShortWord::new(w) else {
        return false;
    };
    run_end::<Word>(s.bytes, 0) == s.bytes.len()
}
