// Where two reports differ: the first line that is not the same in both, before their last lines.
ghost use Rattle.std.specs.Prelude.{◌≡◌, ◌+◌, ◌%◌, ◌^◌, ◌<◌, ◌≤◌, IfOk, length};

use console::told::Errors;
use files::file::{Unread, window};
use reports::text::{common, count_ends};
use std::fs::File;

// A report that is open: what to call it, and where its last line starts.
#[derive(Clone, Copy)]
pub struct Report<'a> {
    pub name: &'a [u8],
    pub file: &'a File,
    pub last: u64,
}

impl Report<'_> {
    // Its bytes from a place on, before its last line, as many as one read puts at the start of a buffer.
    pub fn bytes<'b>(
        &self,
        rt: &impl Errors,
        at: u64,
        into: &'b mut [u8],
    ) -> Result<&'b [u8], Unread>
        ensures { IfOk result (λ b. (0 < length b.now) × (at + length b.now ≤ self.now.last)) }
    {
        window(rt, self.name, self.file, at, self.last, into)
    }
}

// The two reports that are compared.
#[derive(Clone, Copy)]
pub struct Pair<'a> {
    pub a: Report<'a>,
    pub b: Report<'a>,
}

// A line: its number, and where it starts in each report.
#[derive(Clone, Copy)]
pub struct Place {
    pub line: u64,
    pub a: u64,
    pub b: u64,
}

impl Place {
    // So many lines on, and so many bytes in each report.
    pub fn further(self, lines: u64, a: u64, b: u64) -> Place
        ensures { result ≡ record { line = (self.line + lines) % 2 ^ 64; a = (self.a + a) % 2 ^ 64; b = (self.b + b) % 2 ^ 64 } }
    {
        Place {
            line: self.line.wrapping_add(lines),
            a: self.a.wrapping_add(a),
            b: self.b.wrapping_add(b),
        }
    }
}

// How far two reports were compared: the line that was reached, and how many of its bytes are the same.
#[derive(Clone, Copy)]
struct Walk {
    line: Place,
    same: u64,
}

// With more bytes that are the same.
fn walked(w: Walk, bytes: &[u8]) -> Walk {
    let e = count_ends(bytes);
    if e.lines == 0 {
        return Walk {
            line: w.line,
            same: w.same.wrapping_add(bytes.len() as u64),
        };
    }
    let on = w.same.wrapping_add(e.behind as u64);
    Walk {
        line: w.line.further(e.lines, on, on),
        same: (bytes.len() - e.behind) as u64,
    }
}

// Compares what one read of each report brings: how far they are the same, or none if they are no further.
fn turn(rt: &impl Errors, r: Pair<'_>, w: Walk) -> Result<Option<Walk>, Unread> {
    let i = w.line.a.wrapping_add(w.same);
    let j = w.line.b.wrapping_add(w.same);
    if r.a.last <= i || r.b.last <= j {
        return Ok(None);
    }
    let mut x = [0u8; 65536];
    let of_a = r.a.bytes(rt, i, &mut x);
    let mut y = [0u8; 65536];
    let of_b = r.b.bytes(rt, j, &mut y);
    let text = of_a?;
    let k = common(text, of_b?);
    if k == 0 {
        return Ok(None);
    }
    Ok(Some(walked(w, &text[..k])))
}

// Compares two reports as far as they are the same. A proved loop has to end, so it counts its turns up to a number that no run
// reaches.
fn walk_on(rt: &impl Errors, r: Pair<'_>, from: Place) -> Result<Walk, Unread> {
    let mut w = Walk {
        line: from,
        same: 0,
    };
    for _ in 0..u64::MAX {
        match turn(rt, r, w)? {
            Some(further) => w = further,
            None => break,
        }
    }
    Ok(w)
}

// The first line from a place on that is not the same in both; none if all are.
pub fn difference(rt: &impl Errors, r: Pair<'_>, from: Place) -> Result<Option<Place>, Unread> {
    let p = walk_on(rt, r, from)?.line;
    if p.a == r.a.last && p.b == r.b.last {
        Ok(None)
    } else {
        Ok(Some(p))
    }
}
