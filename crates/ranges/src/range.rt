// Ranges: an end is an optional atom and then offsets; a range is an end, or two ends parted by `,` or `;`.
// Beside parse_range_modifier, parse_range_number, parse_range_mark, parse_range_atom, parse_range_sep and parse_range of parse.rs.
ghost use Rattle.std.specs.Prelude.{◌≡◌, cond, ◌||◌, eqb, ◌+◌, ◌^◌, ◌<◌};
ghost use Rattle.ranges.specs.Offset.{offset_at};
ghost use Rattle.ranges.specs.Range.{escaped_atom, mark_atom, sign_atom, atom_at, is_sign, offsets_at, with_offsets, ending_at, double as double_of, range_at, whole_of, whole_range};

use super::again::ending_again;
use limits::refusal::Refusal;
use scan::classes::{Class, Mark, Word};
use scan::decimal::{digits, is_digit, many_digits};
use scan::part::{byte_at, text_again};

// How long a text is where offsets may be many.
const MANY: usize = 64;

#[derive(Clone, Copy)]
pub enum MoveDir1D {
    Next,
    Previous,
}

// An atom. `\&` always searches forward, and a mark is the byte that names it.
#[derive(Clone, Copy)]
pub enum RangeEndingType {
    Unspecified,
    Absolute(u64),
    Current,
    All,
    Last,
    Search(MoveDir1D),
    SubPatSearch,
    Mark(u8),
}

// An atom and the position past it, if there is one; or what its number is refused for.
pub type AtomRead = Result<Option<(RangeEndingType, usize)>, Refusal>;

// An offset behind its sign: its size, the position past it, and the byte there; or what its number is refused for.
pub type Offset = Result<(u64, usize, u8), Refusal>;

// An end: its offsets stand from `from` up to `to`.
#[derive(Clone, Copy)]
pub struct RangeEnding {
    pub atom: RangeEndingType,
    pub from: usize,
    pub to: usize,
}

// The separator: `,` is Cursor, `;` is Start.
#[derive(Clone, Copy)]
pub enum RangeSearchInit {
    Cursor,
    Start,
}

#[derive(Clone, Copy)]
pub enum RangeSpec {
    Single(RangeEnding),
    Double(RangeEnding, RangeEnding, RangeSearchInit),
}

// A range and the position past it, if there is one; or what a number of it is refused for.
pub type RangeRead = Result<Option<(RangeSpec, usize)>, Refusal>;

// The range that a whole text is, if it is one; or what a number of it is refused for.
pub type WholeRead = Result<Option<RangeSpec>, Refusal>;

pub fn is_sign(b: u8) -> bool
    ensures { result ≡ is_sign b }
{
    b == 0x2B || b == 0x2D
}

// The offset at `at`, behind its sign: no digit, or one, is told at once.
pub fn offset_at(s: &[u8], at: usize) -> Offset
    ensures { result ≡ offset_at s.now at }
{
    let b = byte_at(s, at);
    if !is_digit(b) {
        return Ok((1, at, b));
    }
    let i = at + 1;
    let c = byte_at(s, i);
    if !is_digit(c) {
        return Ok(((b - 0x30) as u64, i, c));
    }
    match many_digits(s, at)? {
        Some((n, j)) => Ok((n, j, byte_at(s, j))),
        None => Ok((1, at, b)),
    }
}

// Past offsets of one digit, each with a sign behind it: in a long text, where there may be many.
fn past_pairs(s: &[u8], at: usize) -> usize
    ensures { offsets_at s.now at ≡ offsets_at s.now result }
{
    if s.len() < MANY {
        return at;
    }
    if !is_sign(byte_at(s, at)) {
        return at;
    }
    let last = s.len() - 2;
    let mut i = at;
    // By two bytes, left at the first that are no offset of one digit: a `for` would count the pairs beside the place.
    while i < last {
        if !is_digit(s[i + 1]) {
            return i;
        }
        if !is_sign(s[i + 2]) {
            return i;
        }
        i += 2;
    }
    i
}

// The position past the offsets that start at `at`, or what a number of them is refused for.
fn parse_range_modifiers(s: &[u8], at: usize) -> Result<usize, Refusal>
    ensures { result ≡ offsets_at s.now at }
{
    let mut i = past_pairs(s, at);
    let mut b = byte_at(s, i);
    // Each offset says where the next one starts.
    loop {
        if !is_sign(b) {
            return Ok(i);
        }
        let (_, j, c) = offset_at(s, i + 1)?;
        i = j;
        b = c;
    }
}

// `\/`, `\?` and `\&`, by the byte after the backslash at `i`.
fn parse_range_search(i: usize, b: u8) -> AtomRead
    requires { i + 2 < 2 ^ 64 }
    ensures { result ≡ escaped_atom i b }
{
    match b {
        0x2F => Ok(Some((RangeEndingType::Search(MoveDir1D::Next), i + 2))),
        0x3F => Ok(Some((RangeEndingType::Search(MoveDir1D::Previous), i + 2))),
        0x26 => Ok(Some((RangeEndingType::SubPatSearch, i + 2))),
        _ => Ok(None),
    }
}

// A mark, by the byte after the `'` at `i`.
fn parse_range_mark(i: usize, b: u8) -> AtomRead
    requires { i + 2 < 2 ^ 64 }
    ensures { result ≡ mark_atom i b }
{
    if Mark::has(b) {
        Ok(Some((RangeEndingType::Mark(b), i + 2)))
    } else {
        Ok(None)
    }
}

// An atom that is no number, by its first byte, at `i`, and the next.
fn parse_range_sign(i: usize, b: u8, d: u8) -> AtomRead
    requires { i + 2 < 2 ^ 64 }
    ensures { result ≡ sign_atom i b d }
{
    match b {
        0x2E => Ok(Some((RangeEndingType::Current, i + 1))),
        0x25 => Ok(Some((RangeEndingType::All, i + 1))),
        0x24 => Ok(Some((RangeEndingType::Last, i + 1))),
        0x5C => parse_range_search(i, d),
        0x27 => parse_range_mark(i, d),
        _ => Ok(None),
    }
}

// The atom at `at`, if there is one.
#[tactic(auto, unfolding(crate::specs::Range::atom_at, crate::specs::Range::number_or))]
fn parse_range_atom(s: &[u8], at: usize) -> AtomRead
    ensures { result ≡ atom_at s.now at }
{
    match digits(text_again(s), at)? {
        Some((n, next)) => Ok(Some((RangeEndingType::Absolute(n), next))),
        None => {
            if at < s.len() {
                parse_range_sign(at, s[at], byte_at(s, at + 1))
            } else {
                Ok(None)
            }
        }
    }
}

#[tactic(auto, unfolding(crate::specs::Range::with_offsets))]
fn with_offsets(
    a: RangeEndingType,
    i: usize,
    o: Result<usize, Refusal>,
) -> Result<RangeEnding, Refusal>
    ensures { result ≡ with_offsets a i o }
{
    Ok(RangeEnding {
        atom: a,
        from: i,
        to: o?,
    })
}

// The end of a range at `at`: nothing of the text where there is no atom and no offset.
#[tactic(auto, unfolding(crate::specs::Range::ending_at, crate::specs::Range::after_atom))]
fn parse_range_ending(s: &[u8], at: usize) -> Result<RangeEnding, Refusal>
    ensures { result ≡ ending_at s.now at }
{
    match parse_range_atom(s, at)? {
        None => with_offsets(
            RangeEndingType::Unspecified,
            at,
            parse_range_modifiers(text_again(s), at),
        ),
        Some((a, j)) => with_offsets(a, j, parse_range_modifiers(text_again(s), j)),
    }
}

#[tactic(auto, unfolding(crate::specs::Range::double))]
fn double(l: RangeEnding, p: RangeSearchInit, r: Result<RangeEnding, Refusal>) -> RangeRead
    ensures { result ≡ double_of l p r }
{
    let e = r?;
    let to = e.to;
    Ok(Some((RangeSpec::Double(l, e, p), to)))
}

// Whether a byte parts two ends.
fn parts(b: u8) -> bool
    ensures { result ≡ (eqb b 0x2C || eqb b 0x3B) }
{
    b == 0x2C || b == 0x3B
}

// The separator that a byte is which parts two ends.
fn parse_range_sep(b: u8) -> RangeSearchInit
    ensures { result ≡ cond (eqb b 0x2C) RangeSearchInit.Cursor RangeSearchInit.Start }
{
    if b == 0x2C {
        return RangeSearchInit::Cursor;
    }
    RangeSearchInit::Start
}

// The range at `at`, if there is one. The right end is read in one place, whatever the separator.
pub fn parse_any_range(s: &[u8], at: usize) -> RangeRead
    ensures { result ≡ range_at s.now at }
{
    let l = parse_range_ending(s, at)?;
    let to = l.to;
    let b = byte_at(s, to);
    if parts(b) {
        return double(l, parse_range_sep(b), parse_range_ending(s, to + 1));
    }
    if to == at {
        Ok(None)
    } else {
        Ok(Some((RangeSpec::Single(ending_again(l)), to)))
    }
}

// The range at `at`. Where a word starts there is none, which is told by its first byte.
pub fn parse_range(s: &[u8], at: usize) -> RangeRead
    ensures { result ≡ range_at s.now at }
{
    if Word::has(byte_at(s, at)) {
        return Ok(None);
    }
    parse_any_range(s, at)
}

#[tactic(auto, unfolding(crate::specs::Range::whole_of))]
fn whole(n: usize, g: RangeRead) -> WholeRead
    ensures { result ≡ whole_of n g }
{
    match g? {
        Some((x, j)) => { if j == n { Ok(Some(x)) } else { Ok(None) } }
        None => Ok(None),
    }
}

// The range that the whole text is.
pub fn parse_whole_range(s: &[u8]) -> WholeRead
    ensures { result ≡ whole_range s.now }
{
    whole(s.len(), parse_any_range(s, 0))
}
