// Which sentence two reports get, by the first line that differs.
use super::above::{Above, Numbered};
use reports::kind::Kind;
use reports::names::Names;
use std::cmp::min_by_key;
use texts::page::Page;

// The sentences.
#[derive(Clone, Copy)]
pub enum Verdict {
    Programs,
    Versions,
    Sheets,
    Aliases,
    References,
    Line(u64),
    AliasLine(u64),
    Answers,
    Names(Names),
}

// The kinds as they decide: the first before all others.
#[derive(Clone, Copy, PartialEq, Eq, PartialOrd, Ord)]
enum Rank {
    File,
    Text,
    Alias,
    Numbered,
    Other,
}

// How a kind decides.
fn rank_of(k: Kind) -> Rank {
    match k {
        Kind::Sheet | Kind::Aliases | Kind::Reference => Rank::File,
        Kind::Text => Rank::Text,
        Kind::Alias(_) => Rank::Alias,
        Kind::Numbered(_) => Rank::Numbered,
        _ => Rank::Other,
    }
}

// The kind that decides, the first report's where they are alike.
fn deciding(a: Kind, b: Kind) -> Kind {
    min_by_key(a, b, |k| rank_of(*k))
}

// The kind of a line, or of the line that it is a text under.
fn over(k: Kind, x: Above) -> Kind {
    match k {
        Kind::Text => x.kind,
        _ => k,
    }
}

// The verdict on a line with a number.
fn on_numbered(n: u64, numbered: Numbered) -> Verdict {
    match numbered {
        Numbered::Sheet => Verdict::Line(n),
        Numbered::Other => Verdict::Answers,
    }
}

// The verdict on a kind of line, with what numbered lines are there.
fn on_kind(k: Kind, numbered: Numbered) -> Verdict {
    match k {
        Kind::Sheet => Verdict::Sheets,
        Kind::Aliases => Verdict::Aliases,
        Kind::Reference => Verdict::References,
        Kind::Alias(n) => Verdict::AliasLine(n),
        Kind::Numbered(n) => on_numbered(n, numbered),
        _ => Verdict::Answers,
    }
}

// The verdict on first lines: the program and its version.
fn on_first(a: Kind, b: Kind) -> Verdict {
    if (a == Kind::Exsheet) == (b == Kind::Exsheet) {
        Verdict::Versions
    } else {
        Verdict::Programs
    }
}

// The verdict on two lines of a number, with what stands above them.
pub fn verdict_on(line: u64, a: Kind, b: Kind, x: Above) -> Verdict {
    if line == 1 {
        return on_first(a, b);
    }
    on_kind(over(deciding(a, b), x), x.numbered)
}

// A sentence about a line of a file.
fn put_from(page: &mut Page<'_>, before: &[u8], n: u64, behind: &[u8]) {
    page.text(before);
    page.decimal(n);
    page.text(behind);
}

// The sentence of a verdict.
fn put_sentence(page: &mut Page<'_>, v: Verdict) {
    match v {
        Verdict::Programs => page.text(b"the reports are of different programs"),
        Verdict::Versions => page.text(
            b"the reports are by different versions of the program: make both with the same version",
        ),
        Verdict::Sheets => page.text(b"the reports are of different sheets"),
        Verdict::Aliases => page.text(b"the reports are with different aliases"),
        Verdict::References => page.text(b"the reports are of different reference sheets"),
        Verdict::Line(n) => put_from(
            page,
            b"the same sheet is read differently, from line ",
            n,
            b" of the sheet on",
        ),
        Verdict::AliasLine(n) => put_from(
            page,
            b"the same alias file is read differently, from line ",
            n,
            b" of it on",
        ),
        Verdict::Answers => page.text(b"the two installations answer differently"),
        Verdict::Names(Names::Sheet) => page.text(
            b"the reports differ only in the name of the sheet",
        ),
        Verdict::Names(Names::Aliases) => page.text(
            b"the reports differ only in the name of the alias file",
        ),
        Verdict::Names(Names::Both) => page.text(
            b"the reports differ only in the names of the sheet and the alias file",
        ),
    }
}

// The line with the verdict.
pub fn put_verdict(page: &mut Page<'_>, v: Verdict) {
    page.text(b"verdict: ");
    put_sentence(page, v);
    page.text(b"\n");
}
