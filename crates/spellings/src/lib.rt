// The shipped spellings and the names of the commands as rows of bytes: for each its word's length, its command and its word.
#![tactic(auto)]

ghost use Rattle.std.specs.Prelude.{◌≡◌, ◌∷◌, ◌<◌, length};
ghost use Rattle.scan.specs.Scan.{part_of};
ghost use Rattle.words.specs.Words.{shipped, names as names_of, same, lookup_in};
ghost use Rattle.spellings.specs.Rows.{row, rows_of, rows_at};
ghost use Rattle.spellings.specs.Spellings.{in_order, word_of};

use scan::part::{byte_at, part};

const SPELLINGS: [u8; 457] =
    *b"\x01\x00!\x01\x01&\x02\x01&&\x03\x1aabo\x09\x1aaboveleft\x03\x1bbel\x0a\x1bbelowright\x03\x05clo\x05\x05close\x03\x18hor\x0a\x18horizontal\x05\x1alefta\x09\x1aleftabove\x02\x06on\x04\x06only\x01\x03p\x05\x03print\x01\x07q\x02\x08qa\x04\x08qall\x04\x07quit\x05\x08quita\x07\x08quitall\x01\x02r\x04\x02read\x03\x09res\x06\x09resize\x06\x1brightb\x0a\x1brightbelow\x01\x04s\x02\x0asp\x05\x0asplit\x0a\x04substitute\x03\x0dtab\x04\x13tabN\x07\x13tabNext\x04\x0etabc\x08\x0etabclose\x04\x0ftabe\x07\x0ftabedit\x06\x14tabfir\x08\x14tabfirst\x04\x15tabl\x07\x15tablast\x04\x10tabm\x07\x10tabmove\x04\x11tabn\x06\x0ftabnew\x07\x11tabnext\x04\x12tabo\x07\x12tabonly\x04\x13tabp\x0b\x13tabprevious\x04\x14tabr\x09\x14tabrewind\x04\x19vert\x08\x19vertical\x03\x0cvie\x04\x0cview\x02\x0bvs\x03\x0bvsp\x06\x0bvsplit\x01\x16w\x02\x17wa\x04\x17wall\x05\x16write\x01\x01~\x02\x01~&";

const NAMES: [u8; 229] =
    *b"\x01\x00!\x01\x01&\x04\x02read\x05\x03print\x0a\x04substitute\x05\x05close\x04\x06only\x04\x07quit\x07\x08quitall\x06\x09resize\x05\x0asplit\x06\x0bvsplit\x04\x0cview\x03\x0dtab\x08\x0etabclose\x07\x0ftabedit\x07\x10tabmove\x07\x11tabnext\x07\x12tabonly\x0b\x13tabprevious\x08\x14tabfirst\x07\x15tablast\x05\x16write\x04\x17wall\x0a\x18horizontal\x08\x19vertical\x09\x1aaboveleft\x0a\x1bbelowright";

// A row: its command, and where its word starts and ends.
#[derive(Clone, Copy)]
pub struct RowRead {
    pub command: u64,
    pub start: usize,
    pub stop: usize,
}

// All spellings, each once, in byte order.
pub fn spellings() -> [u8; 457]
    ensures { rows_of result ≡ in_order shipped }
{
    SPELLINGS
}

// The names of the commands, by their numbers.
pub fn names() -> [u8; 229]
    ensures { rows_of result ≡ names_of }
{
    NAMES
}

// The row at a place; the next one starts where its word ends.
pub fn row_at(rows: &[u8], i: usize) -> RowRead
    requires { i < length rows.now }
    ensures row { rows_at rows.now i ≡ row (part_of rows.now result.start result.stop) result.command ∷ rows_at rows.now result.stop }
    ensures past { i < result.stop }
{
    RowRead {
        command: byte_at(rows, i + 1) as u64,
        start: i + 2,
        stop: i + 2 + byte_at(rows, i) as usize,
    }
}

// The word of the first row of a command.
pub fn word_of(rows: &[u8], n: u64) -> &[u8]
    ensures { result.now ≡ word_of (rows_of rows.now) n }
{
    let mut i: usize = 0;
    // Each row says where the next one starts, so there is no count that a `for` could go through.
    while i < rows.len() {
        let r = row_at(rows, i);
        if r.command == n {
            return part(rows, r.start, r.stop);
        }
        i = r.stop;
    }
    part(rows, 0, 0)
}

// Whether two words are the same.
pub fn is_same(v: &[u8], w: &[u8]) -> bool
    ensures { result ≡ same v.now w.now }
{
    if v.len() != w.len() {
        return false;
    }
    for i in 0..v.len() {
        if v[i] != w[i] {
            return false;
        }
    }
    true
}

// What a word leads to: the command of the first row that has it.
pub fn command_of(rows: &[u8], w: &[u8]) -> Option<u64>
    ensures { result ≡ lookup_in (rows_of rows.now) w.now }
{
    let mut i: usize = 0;
    // As above.
    while i < rows.len() {
        let r = row_at(rows, i);
        if is_same(w, part(rows, r.start, r.stop)) {
            return Some(r.command);
        }
        i = r.stop;
    }
    None
}
