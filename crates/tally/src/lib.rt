// How many lines there were, and what they came to: a count for each outcome of a line, lent and added to.
#![tactic(auto, using(texts::specs::WrittenLaws::adding))]

ghost use Rattle.std.specs.Prelude.{◌≡◌, ◌+◌, ◌<◌, length};
ghost use Rattle.limits.specs.Refusals.{refusals};
ghost use Rattle.texts.specs.Written.{Adds};
ghost use Rattle.tally.specs.Tally.{counts, added_to, entry_of, outcome_of, with_line, sum_up_to};

use limits::refusal::{LAST_REFUSAL, REFUSALS, Refusal};
use run::reply::LineReply;
use scan::part::byte_at;
use texts::page::Page;

// How many counts there are: one for each refusal, in the order of their numbers, one for numbers that no refusal has, one for lines with an
// action, and one for lines that give nothing.
pub const COUNTS: usize = REFUSALS + 3;

// Where lines are counted that are refused by a number that no refusal has.
const OTHERS: usize = REFUSALS;

// Where lines with an action are counted.
pub const ACTIONS: usize = REFUSALS + 1;

// Where lines that give nothing are counted.
const NOTHING: usize = REFUSALS + 2;

fn added(n: u64, m: u64) -> u64
    ensures { result ≡ added_to n m }
{
    std::num::wrapping_add_u64(n, m)
}

// Where lines refused by a number are counted.
fn entry(n: u64) -> usize
    ensures value { result ≡ entry_of n }
    ensures bound { result < length refusals + 1 }
{
    match Refusal::try_from(n) {
        Ok(x) => x.place(),
        Err(_) => OTHERS,
    }
}

// Where a line is counted: the kind of an accepted line's record is 0 for nothing.
fn outcome(r: LineReply, written: &[u8]) -> usize
    ensures value { result ≡ outcome_of r written.now }
    ensures bound { result < counts }
{
    if r.refusal > 0 {
        return entry(r.refusal);
    }
    if byte_at(written, 0) == 0 {
        return NOTHING;
    }
    ACTIONS
}

// One line more.
pub fn tallied(t: &mut [u64; COUNTS], r: LineReply, written: &[u8])
    ensures { t.new ≡ with_line t.old r written.now }
{
    let i = outcome(r, written);
    t[i] = added(t[i], 1);
}

// How many lines were refused.
pub fn refused(t: &[u64; COUNTS]) -> u64
    ensures { result ≡ sum_up_to t.now (length refusals + 1) }
{
    let mut n: u64 = 0;
    for i in 0..OTHERS + 1 {
        n = added(n, t[i]);
    }
    n
}

// A count and what is counted.
fn put_count(page: &mut Page<'_>, n: u64, what: &[u8])
    ensures { Adds page.old page.new }
{
    page.decimal(n);
    page.text(what);
}

// The same, with one of them told by another text.
fn put_counted(page: &mut Page<'_>, n: u64, one: &[u8], many: &[u8])
    ensures { Adds page.old page.new }
{
    if n == 1 {
        put_count(page, n, one);
    } else {
        put_count(page, n, many);
    }
}

// How many lines were refused by a number, if any.
fn put_by(page: &mut Page<'_>, n: u64, count: u64)
    ensures { Adds page.old page.new }
{
    if count > 0 {
        page.text(b", ");
        put_count(page, count, b" by ");
        page.decimal(n);
    }
}

// The same for a number that a refusal may have.
fn put_by_number(page: &mut Page<'_>, n: u64, t: &[u64; COUNTS])
    ensures { Adds page.old page.new }
{
    if let Ok(x) = Refusal::try_from(n) {
        put_by(page, n, t[x.place()]);
    }
}

// How many lines were refused by numbers that no refusal has, if any.
fn put_others(page: &mut Page<'_>, count: u64)
    ensures { Adds page.old page.new }
{
    if count > 0 {
        page.text(b", ");
        put_count(page, count, b" by a number that no refusal has");
    }
}

// The refused lines by number.
fn put_all_by(page: &mut Page<'_>, t: &[u64; COUNTS])
    ensures { Adds page.old page.new }
{
    for n in 0..LAST_REFUSAL + 1 {
        put_by_number(page, n, t);
    }
    put_others(page, t[OTHERS]);
}

// Lines, actions and those that give nothing.
fn put_lines(page: &mut Page<'_>, actions: u64, nothing: u64, refused: u64)
    ensures { Adds page.old page.new }
{
    let lines = added(added(actions, nothing), refused);
    put_counted(page, lines, b" line: ", b" lines: ");
    put_counted(page, actions, b" action, ", b" actions, ");
    put_count(page, nothing, b" nothing, ");
}

// The line that sums up.
pub fn put_tally(page: &mut Page<'_>, t: &[u64; COUNTS])
    ensures { Adds page.old page.new }
{
    let bad = refused(t);
    put_lines(page, t[ACTIONS], t[NOTHING], bad);
    put_count(page, bad, b" refused");
    put_all_by(page, t);
    page.byte(b'\n');
}
