// What `reading` answers to a text that is a range (op 3), as the oracle writes it: a refusal, or the range with its ends, their atoms and
// offsets. A reading that has a range writes it in the same way.
#![tactic(auto)]

mod offset;

use offset::put_offsets;
use ranges::range::{MoveDir1D, RangeEnding, RangeEndingType, RangeSearchInit, RangeSpec};
use scan::part::part;
use vectors::answer::Answer;

fn search(d: MoveDir1D) -> u64 {
    match d {
        MoveDir1D::Next => 5,
        MoveDir1D::Previous => 6,
    }
}

// The oracle has one mark for `'` and the backquote.
fn mark(b: u8) -> u64 {
    if b == 0x60 { 0x27 } else { b as u64 }
}

fn put_atom(out: &mut Answer, a: RangeEndingType) {
    match a {
        RangeEndingType::Unspecified => out.put_number(0),
        RangeEndingType::Absolute(x) => out.put_two(1, x),
        RangeEndingType::Current => out.put_number(2),
        RangeEndingType::All => out.put_number(3),
        RangeEndingType::Last => out.put_number(4),
        RangeEndingType::Search(d) => out.put_number(search(d)),
        RangeEndingType::SubPatSearch => out.put_number(7),
        RangeEndingType::Mark(b) => out.put_two(8, mark(b)),
    }
}

fn put_end(out: &mut Answer, text: &[u8], e: RangeEnding) {
    put_atom(out, e.atom);
    put_offsets(out, part(text, e.from, e.to));
}

fn separator(p: RangeSearchInit) -> u64 {
    match p {
        RangeSearchInit::Cursor => 0,
        RangeSearchInit::Start => 1,
    }
}

pub fn put_range(out: &mut Answer, text: &[u8], g: RangeSpec) {
    match g {
        RangeSpec::Single(e) => {
            out.put_number(0);
            put_end(out, text, e);
        }
        RangeSpec::Double(l, r, p) => {
            out.put_number(1);
            put_end(out, text, l);
            put_end(out, text, r);
            out.put_number(separator(p));
        }
    }
}

pub fn answer_range(text: &[u8], out: &mut Answer) {
    match reading::alone::range(text) {
        Ok(g) => {
            out.put_number(0);
            put_range(out, text, g);
        }
        Err(why) => out.refuse(why),
    }
}
