// A word put into a table: in the place of the row that has it, or before the first that comes after it.
ghost use Rattle.std.specs.Prelude.{◌≡◌, true, cond, not, ◌&&◌, ◌∷◌, [], ◌++◌, ◌+◌, ◌*◌, ◌^◌, ◌<◌, ◌≤◌, ltb, length, drop};
ghost use Rattle.std.proofs.lemmas.List.Edits.{sets};
ghost use Rattle.limits.specs.Limits.{word_limit};
ghost use Rattle.scan.specs.Number.{number_of};
ghost use Rattle.scan.specs.Scan.{part_of};
ghost use Rattle.words.specs.Words.{same as same_word};
ghost use Rattle.tables.specs.Table.{count_of, counts_from, table_end, table};
ghost use Rattle.placing.specs.Change.{insert as insert_of, is_full, has_place, inserting};
ghost use Rattle.tables.specs.Walk.{rank as rank_of};
ghost use Rattle.placing.specs.Insert.{with_first, with_new, Among, Opening, Located};

use limits::WORD;
use store::put_bytes;
use tables::good::good;
use tables::table::Table;
use tables::word::ShortWord;

// Where a word goes among others: the number of its row, the place of its bytes, and whether it is there already.
#[derive(Clone, Copy)]
struct Spot {
    row: usize,
    place: usize,
    there: bool,
}

// Whether the word at q, as long as w, comes before w: the last byte that is not alike tells.
fn before(b: &[u8], q: usize, w: &[u8]) -> bool
    requires { q + length w.now ≤ length b.now }
    ensures { result ≡ ltb (number_of (part_of b.now q (q + length w.now))) (number_of w.now) }
{
    for k in (0..w.len()).rev() {
        let x = b[q + k];
        let y = w[k];
        if x != y {
            return x < y;
        }
    }
    false
}

// Whether the word at q is w.
fn stands_at(b: &[u8], q: usize, w: &[u8]) -> bool
    requires { q + length w.now ≤ length b.now }
    ensures { result ≡ same_word w.now (part_of b.now q (q + length w.now)) }
{
    for k in 0..w.len() {
        if b[q + k] != w[k] {
            return false;
        }
    }
    true
}

// How many of c words from q on, all as long as w, come before w without one between that does not.
fn rank(b: &[u8], q: usize, c: usize, w: &[u8]) -> usize
    requires { q + c * length w.now ≤ length b.now }
    ensures { result ≡ rank_of c w.now (drop q b.now) }
{
    let mut p = q;
    for j in 0..c {
        if !before(b, p, w) {
            return j;
        }
        p += w.len();
    }
    c
}

// Moves the bytes from `from` up to `to` by k places up.
fn move_up(b: &mut [u8], from: usize, to: usize, k: usize)
    requires from_le_to { from ≤ to }
    requires k_in_bounds { to + k ≤ length b.old }
    ensures { b.new ≡ sets b.old (from + k) (part_of b.old from to) }
{
    // Byte by byte: `copy_within` is a call of memmove, which callers in C would then have to have.
    for i in (from..to).rev() {
        b[i + k] = b[i];
    }
}

// Writes x at `from`, and behind it the bytes from there up to `to`.
fn put_one(b: &mut [u8], from: usize, to: usize, x: u8)
    requires from_le_to { from ≤ to }
    requires to_in_bounds { to + 1 ≤ length b.old }
    ensures { b.new ≡ sets b.old from (x ∷ part_of b.old from to) }
{
    move_up(b, from, to, 1);
    b[from] = x;
}

// Writes w at `from`, and behind it the bytes from there up to `to`.
fn put_in(b: &mut [u8], from: usize, to: usize, w: &[u8])
    requires from_le_to { from ≤ to }
    requires w_in_bounds { to + length w.now ≤ length b.old }
    ensures { b.new ≡ sets b.old from (w.now ++ part_of b.old from to) }
{
    move_up(b, from, to, w.len());
    put_bytes(b, from, w);
}

// The count of the words of k bytes where there is one, of m bytes.
fn count_of_one(k: usize, m: usize) -> u8
    ensures { result ≡ count_of k (m ∷ []) }
{
    if m == k { 1 } else { 0 }
}

// Writes all counts, for one word of m bytes.
fn put_counts(b: &mut [u8], at: usize, m: usize)
    requires { at + word_limit ≤ length b.old }
    ensures { b.new ≡ sets b.old at (counts_from word_limit 1 (m ∷ [])) }
{
    for k in 0..WORD {
        b[at + k] = count_of_one(k + 1, m);
    }
}

// Writes the first word.
fn put_first(b: &mut [u8], at: usize, most: usize, w: &ShortWord<'_>, command: u8)
    requires most_in_bounds { table_end at most ≤ length b.old }
    requires le_most { 1 ≤ most }
    ensures { b.new ≡ with_first at most w.now.bytes.now command b.old }
{
    b[at] = 1;
    put_counts(b, at + 1, w.bytes.len());
    b[at + 1 + WORD] = command;
    put_bytes(b, at + 1 + WORD + most, w.bytes);
}

// Writes one word more, at `place`, whose command is the row-th.
fn put_new(b: &mut [u8], at: usize, most: usize, row: usize, place: usize, w: &[u8], command: u8)
    requires { Opening at most b.old w.now row place }
    ensures { b.new ≡ with_new at most row place w.now command b.old }
{
    let m = w.len();
    let n = b[at];
    let x = b[at + m];
    let end = Table { b, at, most }.end();
    b[at] = n + 1;
    b[at + m] = x + 1;
    put_one(b, at + 1 + WORD + row, at + 1 + WORD + n as usize, command);
    put_in(b, place, end, w);
}

// Whether the j-th of c words, at q, is there and is w.
fn holds(b: &[u8], q: usize, w: &[u8], j: usize, c: usize) -> bool
    requires { j < c → q + length w.now ≤ length b.now }
    ensures { result ≡ (ltb j c && same_word w.now (part_of b.now q (q + length w.now))) }
{
    if c <= j {
        return false;
    }
    stands_at(b, q, w)
}

// Where a word goes among others.
fn spot_of(b: &[u8], at: usize, most: usize, w: &[u8]) -> Spot
    requires { Among at most b.now w.now }
    ensures { Located at most b.now w.now result.row result.place result.there }
{
    let m = w.len();
    let t = Table { b, at, most };
    let s = t.start_of(m);
    let c = t.count_of(m);
    let j = rank(b, s.place, c, w);
    let row = s.rows + j;
    let place = s.place + j * m;
    let there = holds(b, place, w, j, c);
    Spot { row, place, there }
}

// Puts a word among others.
fn insert_among(b: &mut [u8], at: usize, most: usize, w: &[u8], command: u8) -> bool
    requires { Among at most b.old w.now }
    ensures answer { result ≡ not (is_full most ((table at most).read b.old) w.now) }
    ensures bytes { b.new ≡ cond result ((table at most).write (insert_of w.now command ((table at most).read b.old)) b.old) b.old }
{
    let s = spot_of(b, at, most, w);
    let row = s.row;
    if s.there {
        b[at + 1 + WORD + row] = command;
        return true;
    }
    if most <= b[at] as usize {
        return false;
    }
    put_new(b, at, most, row, s.place, w, command);
    true
}

// Puts a word into the table at `at` with room for `most` words, if there is a place for it, and answers whether there was.
pub fn put(b: &mut [u8], at: usize, most: usize, w: &[u8], command: u8) -> bool
    requires most_bound { most ≤ 255 }
    requires b_value { (table at most).test b.old ≡ true }
    ensures answer { result ≡ has_place at most w.now b.old }
    ensures bytes { b.new ≡ inserting at most w.now command b.old }
{
    let Some(s) = ShortWord::new(w) else {
        return false;
    };
    if b[at] != 0 {
        return insert_among(b, at, most, w, command);
    }
    if most == 0 {
        return false;
    }
    put_first(b, at, most, &s, command);
    true
}

// The same on any bytes: those that are no table stay as they are.
pub fn insert(b: &mut [u8], at: usize, most: usize, w: &[u8], command: u8) -> bool
    requires most_bound { table_end at most < 2 ^ 64 }
    requires most_bound_2 { most ≤ 255 }
    ensures answer { result ≡ has_place at most w.now b.old }
    ensures bytes { b.new ≡ inserting at most w.now command b.old }
{
    if !good(b, at, most) {
        return false;
    }
    put(b, at, most, w, command)
}
