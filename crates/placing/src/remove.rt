// A word taken out of a table.
ghost use Rattle.std.specs.Prelude.{◌≡◌, true, ◌+◌, ◌-◌, ◌^◌, ◌<◌, ◌≤◌, length};
ghost use Rattle.std.proofs.lemmas.List.Edits.{sets};
ghost use Rattle.scan.specs.Scan.{byte_at, part_of};
ghost use Rattle.tables.specs.Seat.{Seated};
ghost use Rattle.tables.specs.Table.{table_end};
ghost use Rattle.placing.specs.Change.{has_word, removing};
ghost use Rattle.placing.specs.RemoveLaws.{taken_out};

use limits::WORD;
use tables::find::seat_of;
use tables::table::Table;

// Moves the bytes from `from` up to `to` by k places down.
fn move_down(b: &mut [u8], from: usize, to: usize, k: usize)
    requires k_le_from { k ≤ from }
    requires from_le_to { from ≤ to }
    requires to_in_bounds { to ≤ length b.old }
    ensures { b.new ≡ sets b.old (from - k) (part_of b.old from to) }
{
    // Byte by byte: `copy_within` is a call of memmove, which callers in C would then have to have.
    for i in from..to {
        b[i - k] = b[i];
    }
}

// Takes one of several rows out: its command stands at i, the last one's ends at `o`; its word of m bytes stands at p, the last one ends at e.
fn take_out(b: &mut [u8], at: usize, m: usize, i: usize, o: usize, p: usize, e: usize)
    requires m_bound { at + m < i }
    requires i_lt_o { i < o }
    requires o_le_p { o ≤ p }
    requires m_bound_2 { p + m ≤ e }
    requires e_in_bounds { e ≤ length b.old }
    requires at_nonzero { 0 < byte_at b.old at }
    requires nonzero { 0 < byte_at b.old (at + m) }
    ensures { b.new ≡ taken_out b.old at m i o p e }
{
    let x = b[at];
    let y = b[at + m];
    b[at] = x - 1;
    b[at + m] = y - 1;
    move_down(b, i + 1, o, 1);
    move_down(b, p + m, e, m);
}

// Takes the word out that stands in this row, its bytes from `place` on.
fn take_word(b: &mut [u8], at: usize, most: usize, w: &[u8], row: usize, place: usize)
    requires { Seated at most b.old w.now row place }
    ensures { b.new ≡ removing at most w.now b.old }
{
    let n = b[at] as usize;
    if n == 1 {
        b[at] = 0;
        return;
    }
    let o = at + 1 + WORD;
    let e = Table { b, at, most }.end();
    take_out(b, at, w.len(), o + row, o + n, place, e);
}

// Takes a word out of the table at `at` with room for `most` words, if it is there, and answers whether it was.
pub fn remove(b: &mut [u8], at: usize, most: usize, w: &[u8]) -> bool
    requires { table_end at most < 2 ^ 64 }
    ensures answer { result ≡ has_word at most w.now b.old }
    ensures bytes { b.new ≡ removing at most w.now b.old }
{
    let Some((row, place)) = seat_of(b, at, most, w) else {
        return false;
    };
    take_word(b, at, most, w, row, place);
    true
}
