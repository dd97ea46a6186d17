// The line that differs as it stands in each of two reports: its number, and for each report what to call it and the line, or as much of it
// as is shown.
#![tactic(auto)]

use console::told::Errors;
use differences::differ::{Pair, Place, Report};
use files::file::Unread;
use reports::kind::{Kind, kind_of};
use reports::text::first_line;
use texts::page::Page;

// How many bytes of a line are shown.
const SHOWN: usize = 4096;

// The kind of the line in each report.
#[derive(Clone, Copy)]
pub struct Both {
    pub a: Kind,
    pub b: Kind,
}

// The line that starts at a place of a report, as far as one read brings it. None where the report ends: its last line, the number, is no
// line to compare.
fn line_at<'b>(
    rt: &impl Errors,
    r: Report<'_>,
    start: u64,
    into: &'b mut [u8],
) -> Result<Option<&'b [u8]>, Unread> {
    if r.last <= start {
        return Ok(None);
    }
    Ok(Some(first_line(r.bytes(rt, start, into)?)))
}

// The kind of a line that there may be.
fn kind_at(line: Option<&[u8]>) -> Kind {
    match line {
        Some(text) => kind_of(text),
        None => Kind::Other,
    }
}

// A line of a report as it stands, or as much of it as is shown.
fn put_line(page: &mut Page<'_>, line: &[u8]) {
    page.text(&line[..line.len().min(SHOWN)]);
    if line.len() > SHOWN {
        page.text(b"...");
    }
    page.text(b"\n");
}

// A report's name, and a line of it.
fn put_side(page: &mut Page<'_>, name: &[u8], line: Option<&[u8]>) {
    page.text(name);
    page.text(b": ");
    match line {
        Some(text) => put_line(page, text),
        None => page.text(b"(the report ends here)\n"),
    }
}

// The number of a line that differs.
fn put_place(page: &mut Page<'_>, line: u64) {
    page.text(b"first difference: line ");
    page.decimal(line);
    page.text(b" of the reports\n");
}

// The line at a place, as it stands in each report.
pub fn put_both(
    rt: &impl Errors,
    page: &mut Page<'_>,
    r: Pair<'_>,
    p: Place,
) -> Result<Both, Unread> {
    let mut x = [0u8; 65536];
    let of_a = line_at(rt, r.a, p.a, &mut x);
    let mut y = [0u8; 65536];
    let of_b = line_at(rt, r.b, p.b, &mut y);
    let a = of_a?;
    let b = of_b?;
    put_place(page, p.line);
    put_side(page, r.a.name, a);
    put_side(page, r.b.name, b);
    Ok(Both {
        a: kind_at(a),
        b: kind_at(b),
    })
}
