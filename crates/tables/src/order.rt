// Whether the words of a table ascend.
ghost use Rattle.std.specs.Prelude.{◌≡◌, ◌+◌, ◌-◌, ◌*◌, ◌<◌, ◌≤◌, true, [], length, drop, if◌then◌else◌, Some, None};
ghost use Rattle.fields.specs.Field.{Bytes};
ghost use Rattle.limits.specs.Limits.{word_limit};
ghost use Rattle.scan.specs.Scan.{byte_at, part_of};
ghost use Rattle.tables.specs.Table.{is_after, words_at, framed, repeated, sum};
ghost use Rattle.tables.specs.Tail.{hidden_of, tail_of};
ghost use Rattle.tables.specs.Walk.{lengths_at, in_order};

use super::number::{End, hidden};
use super::table::Table;
use limits::WORD;
use scan::number::low_eight;

// Two words of m bytes side by side: one ends at e, where the other begins.
#[derive(Clone, Copy)]
struct Pair<'a> {
    b: &'a [u8],
    e: usize,
    m: usize,
    ghost typed: { Bytes b.now },
    ghost some: { 1 ≤ m },
    ghost short: { m ≤ word_limit },
    ghost eight: { 8 ≤ e },
    ghost first: { m ≤ e },
    ghost second: { e + m ≤ length b.now },
}

impl Pair<'_> {
    // The same as `ascends` where the last eight bytes are alike: those before them tell, then the first eight.
    fn rest_ascends(&self) -> bool
        requires { tail_of self.now.b.now self.now.e (hidden_of self.now.m) ≡ tail_of self.now.b.now (self.now.e + self.now.m) (hidden_of self.now.m) }
        ensures { result ≡ is_after (part_of self.now.b.now (self.now.e - self.now.m) self.now.e) (part_of self.now.b.now self.now.e (self.now.e + self.now.m)) }
    {
        let Pair { b, e, m } = *self;
        if m <= 8 {
            return false;
        }
        if 16 < m {
            let x = low_eight(b, e - 16);
            let y = low_eight(b, e + m - 16);
            if x != y {
                return x < y;
            }
        }
        low_eight(b, e - m) < low_eight(b, e)
    }

    // Whether the second word comes after the first; x and y are their last bytes.
    fn ascends(&self, x: u64, y: u64) -> bool
        requires x_value { x ≡ tail_of self.now.b.now self.now.e (hidden_of self.now.m) }
        requires y_value { y ≡ tail_of self.now.b.now (self.now.e + self.now.m) (hidden_of self.now.m) }
        ensures { result ≡ is_after (part_of self.now.b.now (self.now.e - self.now.m) self.now.e) (part_of self.now.b.now self.now.e (self.now.e + self.now.m)) }
    {
        if x < y {
            return true;
        }
        if y < x {
            return false;
        }
        self.rest_ascends()
    }
}

// Whether c words of m bytes from q on ascend.
fn rises(b: &[u8], q: usize, m: usize, c: usize) -> bool
    requires le_q { 8 ≤ q }
    requires le_m { 1 ≤ m }
    requires m_le_word_limit { m ≤ word_limit }
    requires m_in_bounds { q + c * m ≤ length b.now }
    ensures { result ≡ in_order [] (repeated c m) (drop q b.now) }
{
    if c == 0 {
        return true;
    }
    let h = hidden(m);
    let end = q + c * m;
    let mut e = q + m;
    let mut x = End { b, e }.tail(h);
    // The words' ends are m bytes apart: a `for` would count the words beside them.
    while e < end {
        let y = End { b, e: e + m }.tail(h);
        if !(Pair { b, e, m }).ascends(x, y) {
            return false;
        }
        x = y;
        e += m;
    }
    true
}

impl Table<'_> {
    // Where the words of a table that is framed end, if they ascend.
    pub fn ordered(&self) -> Option<usize>
        requires b_value { framed self.now.at self.now.most self.now.b.now ≡ true }
        requires at_nonzero { 0 < byte_at self.now.b.now self.now.at }
        ensures { result ≡ (if in_order [] (lengths_at self.now.b.now self.now.at 1) (drop (words_at self.now.at self.now.most) self.now.b.now) then Some (words_at self.now.at self.now.most + sum (lengths_at self.now.b.now self.now.at 1)) else None) }
    {
        let mut q = self.at + 1 + WORD + self.most;
        let mut m: usize = 1;
        let mut left = self.count();
        // It ends with the last word, not with the last length, and goes over both: a `for` over the lengths would be left early.
        while 0 < left {
            let c = self.count_of(m);
            if !rises(self.b, q, m, c) {
                return None;
            }
            q += c * m;
            left -= c;
            m += 1;
        }
        Some(q)
    }
}
