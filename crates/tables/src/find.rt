// What a word leads to: only words that are as long are looked at.
ghost use Rattle.std.specs.Prelude.{◌≡◌, ◌+◌, ◌-◌, ◌*◌, ◌^◌, ◌<◌, ◌≤◌, length, drop};
ghost use Rattle.scan.specs.Number.{number_of};
ghost use Rattle.scan.specs.Scan.{part_of};
ghost use Rattle.words.specs.Words.{same as same_word, lookup_in};
ghost use Rattle.tables.specs.Seat.{Found};
ghost use Rattle.tables.specs.Table.{table_end, table};
ghost use Rattle.tables.specs.Tail.{hidden_of, key_of, tail_of};
ghost use Rattle.tables.specs.Walk.{seek as seek_of};

use super::number::{End, hidden};
use super::table::Table;
use super::word::ShortWord;
use limits::WORD;
use scan::number::low_eight;

// A word of fewer than eight bytes as a number, the first byte the lowest.
fn number(w: &[u8]) -> u64
    requires { length w.now ≤ 8 }
    ensures { result ≡ number_of w.now }
{
    let mut x: u64 = 0;
    for k in (0..w.len()).rev() {
        x = x * 256 + w[k] as u64;
    }
    x
}

// The last bytes of a word, as `tail` answers them of one that stands among others.
fn key(w: &ShortWord<'_>) -> u64
    ensures { result ≡ key_of w.now.bytes.now }
{
    let s = w.bytes;
    let m = s.len();
    if m < 8 {
        return number(s) << hidden(m);
    }
    low_eight(s, m - 8)
}

// Whether the word that ends there is w, where their last bytes are alike: the first eight, then those behind them.
fn rest_same(end: &End<'_>, w: &ShortWord<'_>) -> bool
    requires w_len_bound { length w.now.bytes.now ≤ end.now.e }
    requires w_value { tail_of end.now.b.now end.now.e (hidden_of (length w.now.bytes.now)) ≡ key_of w.now.bytes.now }
    ensures { result ≡ same_word w.now.bytes.now (part_of end.now.b.now (end.now.e - length w.now.bytes.now) end.now.e) }
{
    let End { b, e } = *end;
    let s = w.bytes;
    let m = s.len();
    if m <= 8 {
        return true;
    }
    if low_eight(b, e - m) != low_eight(s, 0) {
        return false;
    }
    if m <= 16 {
        return true;
    }
    low_eight(b, e - m + 8) == low_eight(s, 8)
}

// Whether the word that ends there is w, whose last bytes are x.
fn stands(end: &End<'_>, w: &ShortWord<'_>, h: u64, x: u64) -> bool
    requires w_len_bound { length w.now.bytes.now ≤ end.now.e }
    requires h_value { h ≡ hidden_of (length w.now.bytes.now) }
    requires x_value { x ≡ key_of w.now.bytes.now }
    ensures { result ≡ same_word w.now.bytes.now (part_of end.now.b.now (end.now.e - length w.now.bytes.now) end.now.e) }
{
    if end.tail(h) != x {
        return false;
    }
    rest_same(end, w)
}

// Which of c words from q on, all as long as w, is w: the first that is, or c.
pub fn seek(b: &[u8], q: usize, c: usize, w: &ShortWord<'_>) -> usize
    requires le_q { 8 ≤ q }
    requires w_in_bounds { q + c * length w.now.bytes.now ≤ length b.now }
    ensures { result ≡ seek_of c w.now.bytes.now (drop q b.now) }
{
    let m = w.bytes.len();
    let h = hidden(m);
    let x = key(w);
    let mut e = q + m;
    for j in 0..c {
        if stands(&End { b, e }, w, h, x) {
            return j;
        }
        e += m;
    }
    c
}

impl Table<'_> {
    // Where a word stands.
    fn seat_of(&self, w: &ShortWord<'_>) -> Option<(usize, usize)>
        ensures { Found self.now.at self.now.most self.now.b.now w.now.bytes.now result }
    {
        let m = w.bytes.len();
        if self.count() == 0 {
            return None;
        }
        let c = self.count_of(m);
        if c == 0 {
            return None;
        }
        if !self.framed() {
            return None;
        }
        let g = self.start_of(m);
        let j = seek(self.b, g.place, c, w);
        if j == c {
            return None;
        }
        Some((g.rows + j, g.place + j * m))
    }
}

// Where a word stands in the table at `at` with room for `most` words.
pub fn seat_of(b: &[u8], at: usize, most: usize, w: &[u8]) -> Option<(usize, usize)>
    requires { table_end at most < 2 ^ 64 }
    ensures { Found at most b.now w.now result }
{
    let w = ShortWord::new(w)?;
    Table::new(b, at, most)?.seat_of(&w)
}

// What a word leads to in the table at `at` with room for `most` words.
pub fn find(b: &[u8], at: usize, most: usize, w: &[u8]) -> Option<u64>
    requires { table_end at most < 2 ^ 64 }
    ensures { result ≡ lookup_in ((table at most).read b.now) w.now }
{
    let (n, _) = seat_of(b, at, most, w)?;
    Some(b[at + 1 + WORD + n] as u64)
}
