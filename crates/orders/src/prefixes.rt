// The prefixes of a line, as the readings find them on a fresh session.
use commands::next::{Change, Next, by_name};
use reading::line::{CommandDescription, parse};
use scan::part::part;
use words::words::lookup;

// How many prefixes are kept.
pub const MOST: usize = 5;

// What a prefix sets.
#[derive(Clone, Copy, PartialEq, Eq)]
pub enum Kind {
    Tab,
    Axis,
    Side,
}

// Where a prefix starts and stops as typed, with its range and bang.
#[derive(Clone, Copy)]
pub struct Prefix {
    pub kind: Kind,
    pub start: usize,
    pub stop: usize,
}

// How many prefixes there are, the first of them, and where the last text starts and stops.
#[derive(Clone, Copy)]
pub struct Prefixes {
    pub count: usize,
    first: [Prefix; MOST],
    pub text: usize,
    pub stop: usize,
}

// A prefix that a text starts with: its kind, where it stops, and where its argument starts and stops.
#[derive(Clone, Copy)]
struct Found {
    kind: Kind,
    stop: usize,
    argument: usize,
    end: usize,
}

// What stands in a place that has no prefix.
const NO_PREFIX: Prefix = Prefix {
    kind: Kind::Tab,
    start: 0,
    stop: 0,
};

fn plus(a: usize, b: usize) -> usize {
    a.wrapping_add(b)
}

fn kind_of(c: Change) -> Kind {
    match c {
        Change::Tab(_) => Kind::Tab,
        Change::Axis(_) => Kind::Axis,
        Change::Side(_) => Kind::Side,
    }
}

// Behind the word and its bang.
fn typed_end(d: CommandDescription) -> usize {
    if d.bang {
        return plus(d.end, 1);
    }
    d.end
}

// The prefix that what a reading leads to is, if it is one.
fn by_next(d: CommandDescription, x: Next) -> Option<Found> {
    match x {
        Next::Empty => None,
        Next::Refused(_) => None,
        Next::Unknown(_, _) => None,
        Next::Runs(_, _) => None,
        Next::Again(c, a, e) => Some(Found {
            kind: kind_of(c),
            stop: typed_end(d),
            argument: a,
            end: e,
        }),
    }
}

// The prefix that a text starts with, if one does.
fn prefix_at(text: &[u8]) -> Option<Found> {
    match parse(text) {
        Ok(d) => {
            let m = lookup(part(text, d.word, d.end));
            by_next(d, by_name(text, d, m))
        }
        Err(_) => None,
    }
}

impl Prefixes {
    // A line of which no prefix is found yet.
    fn none(line: &[u8]) -> Prefixes {
        Prefixes {
            count: 0,
            first: [NO_PREFIX; MOST],
            text: 0,
            stop: line.len(),
        }
    }

    // The prefix at a place.
    pub fn at(&self, k: u8) -> Prefix {
        *self.first.get(usize::from(k)).unwrap_or(&NO_PREFIX)
    }

    // One prefix more.
    fn add(&mut self, f: Found) {
        if self.count < MOST {
            self.first[self.count] = Prefix {
                kind: f.kind,
                start: self.text,
                stop: plus(self.text, f.stop),
            };
        }
        self.count = plus(self.count, 1);
        self.stop = plus(self.text, f.end);
        self.text = plus(self.text, f.argument);
    }
}

// The prefixes of a line; six stand for more than five.
pub fn prefixes_of(line: &[u8]) -> Prefixes {
    let mut p = Prefixes::none(line);
    for _ in 0..MOST + 1 {
        match prefix_at(part(line, p.text, p.stop)) {
            Some(f) => p.add(f),
            None => break,
        }
    }
    p
}
