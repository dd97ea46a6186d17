// Which bytes are a table.
ghost use Rattle.std.specs.Prelude.{◌≡◌, ◌^◌, ◌<◌};
ghost use Rattle.tables.specs.Table.{table_end, table};

use super::bytes::{all_commands, all_words};
use super::table::Table;
use limits::WORD;

impl Table<'_> {
    // Whether it has as many words as the counts say, in order, of word characters, to commands.
    fn good(&self) -> bool
        ensures { result ≡ (table self.now.at self.now.most).test self.now.b.now }
    {
        if !self.framed() {
            return false;
        }
        let n = self.count();
        if n == 0 {
            return true;
        }
        let Some(end) = self.ordered() else {
            return false;
        };
        let commands = self.at + 1 + WORD;
        if !all_commands(&self.b[commands..commands + n]) {
            return false;
        }
        all_words(&self.b[commands + self.most..end])
    }
}

// Whether the bytes at `at` are a table with room for `most` words.
pub fn good(b: &[u8], at: usize, most: usize) -> bool
    requires { table_end at most < 2 ^ 64 }
    ensures { result ≡ (table at most).test b.now }
{
    let Some(t) = Table::new(b, at, most) else {
        return false;
    };
    t.good()
}
