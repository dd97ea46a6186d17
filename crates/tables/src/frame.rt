// The frame of a table: how many words there are, and where those of one length begin.
ghost use Rattle.std.specs.Prelude.{◌≡◌, ◌+◌, ◌-◌, ◌*◌, ◌^◌, ◌<◌, ◌≤◌, true};
ghost use Rattle.limits.specs.Limits.{word_limit};
ghost use Rattle.scan.specs.Scan.{byte_at, part_of};
ghost use Rattle.tables.specs.Table.{commands_at, words_at, table_end, framed as framed_of, lengths_from, sum as sum_of};
ghost use Rattle.tables.specs.Walk.{lengths_at};
ghost use Rattle.tables.specs.declared.frame.Start.{Start};

use super::table::Table;
use limits::WORD;

// Where the words of one length begin: so many rows come before them, and the first stands at `place`.
#[derive(Clone, Copy)]
pub struct Start {
    pub rows: usize,
    pub place: usize,
}

impl Table<'_> {
    // How many words there are.
    pub fn count(&self) -> usize
        ensures value { result ≡ byte_at self.now.b.now self.now.at }
        ensures bound { result < 256 }
    {
        self.b[self.at] as usize
    }

    // How many words of m bytes there are.
    pub fn count_of(&self, m: usize) -> usize
        requires { m ≤ word_limit }
        ensures value { result ≡ byte_at self.now.b.now (self.now.at + m) }
        ensures bound { result < 256 }
    {
        self.b[self.at + m] as usize
    }

    // The sum of the counts by length.
    fn sum(&self) -> usize
        ensures value { result ≡ sum_of (part_of self.now.b.now (self.now.at + 1) (commands_at self.now.at)) }
    {
        let mut n: usize = 0;
        for m in 1..WORD + 1 {
            n += self.count_of(m);
        }
        n
    }

    // Whether there are as many words as the counts say.
    pub fn framed(&self) -> bool
        ensures { result ≡ framed_of self.now.at self.now.most self.now.b.now }
    {
        let n = self.count();
        if self.most < n {
            return false;
        }
        if n == 0 {
            return true;
        }
        self.sum() == n
    }

    // Where the words of m bytes begin.
    pub fn start_of(&self, m: usize) -> Start
        requires le_m { 1 ≤ m }
        requires m_le_word_limit { m ≤ word_limit }
        ensures rows { result.rows ≡ sum_of (part_of self.now.b.now (self.now.at + 1) (self.now.at + m)) }
        ensures place { result.place ≡ commands_at self.now.at + self.now.most + sum_of (lengths_from 1 (part_of self.now.b.now (self.now.at + 1) (self.now.at + m))) }
    {
        let mut n: usize = 0;
        let mut p = self.at + 1 + WORD + self.most;
        for k in 1..m {
            let c = self.count_of(k);
            n += c;
            p += c * k;
        }
        Start { rows: n, place: p }
    }

    // Where the words end.
    pub fn end(&self) -> usize
        requires b_value { framed_of self.now.at self.now.most self.now.b.now ≡ true }
        requires at_nonzero { 0 < byte_at self.now.b.now self.now.at }
        ensures { result ≡ words_at self.now.at self.now.most + sum_of (lengths_at self.now.b.now self.now.at 1) }
    {
        let s = self.start_of(WORD);
        s.place + self.count_of(WORD) * WORD
    }
}

// Whether the table at `at` with room for `most` words is all there, and has as many words as its counts say.
pub fn framed(b: &[u8], at: usize, most: usize) -> bool
    requires { table_end at most < 2 ^ 64 }
    ensures { result ≡ framed_of at most b.now }
{
    match Table::new(b, at, most) {
        Some(t) => t.framed(),
        None => false,
    }
}
