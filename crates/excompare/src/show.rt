// What is shown of two reports, by what they come to: the first line that differs, and the verdict. The program's verdict is a number, since
// that is what the script which waits for it is handed: done for reports that tell the same, and refused for reports that differ.
use console::told::{DONE, Errors, REFUSED};
use differences::compare::{Outcome, compare};
use differences::differ::{Pair, Place};
use files::file::Unread;
use reports::names::Names;
use sides::put_both;
use texts::page::Page;
use verdicts::above::read_above;
use verdicts::verdict::{Verdict, put_verdict, verdict_on};

// The reports are the same.
fn show_equal(page: &mut Page<'_>) -> u64 {
    page.text(b"equal: every line of the two reports is the same\n");
    DONE
}

// The reports differ at a place.
fn show_differ(
    rt: &impl Errors,
    page: &mut Page<'_>,
    r: Pair<'_>,
    p: Place,
) -> Result<u64, Unread> {
    let both = put_both(rt, page, r, p);
    let above = read_above(rt, r.a.name, r.a.file, p.a);
    let x = both?;
    put_verdict(page, verdict_on(p.line, x.a, x.b, above?));
    Ok(REFUSED)
}

// The reports differ in names alone, first at a place: what they tell is the same.
fn show_names(
    rt: &impl Errors,
    page: &mut Page<'_>,
    r: Pair<'_>,
    p: Place,
    names: Names,
) -> Result<u64, Unread> {
    put_both(rt, page, r, p)?;
    put_verdict(page, Verdict::Names(names));
    Ok(DONE)
}

// Compares two reports, writes what is to be shown of them, and answers the verdict.
pub fn show(rt: &impl Errors, page: &mut Page<'_>, r: Pair<'_>) -> Result<u64, Unread> {
    match compare(rt, r)? {
        Outcome::Equal => Ok(show_equal(page)),
        Outcome::Names(p, names) => show_names(rt, page, r, p, names),
        Outcome::Differ(p) => show_differ(rt, page, r, p),
    }
}
