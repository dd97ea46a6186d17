// Prints the report on an installation: who made it, the spellings and their commands, the orders of a line's prefixes, the reference
// sheet, and a number that stands for all of it. The first argument is the file of the reference sheet, the second, if there is one, the
// line.
#![tactic(auto)]

mod orders_part;
mod spellings_part;

use calls::fresh;
use console::argument::{argument, is_given};
use console::file::{File, Sum, open_file, put_sum};
use console::program::{Program, put_maker};
use console::report::Printer;
use console::told::{DONE, Errors, FAILED, Failure, REFUSED, hand_over, say};
use orders_part::{Odd, put_orders};
use sheet::sheet::{Kind, run};
use spellings_part::put_spellings;
use std::fs;
use std::rt::{Env, Files};
use tally::{COUNTS, put_tally};
use texts::page::Page;

// The CRC-32 of the reference sheet that this version is for.
const REFERENCE: u64 = 3271276870;

// One line for tab prefixes, which win, and one for axes and sides.
fn own_orders(rt: &(impl Print + Errors), report: &mut Printer<'_>) -> Result<(), Odd> {
    let tabs = put_orders(rt, report, b"3tab tab vert abo sp a\\ b");
    let others = put_orders(rt, report, b"vert hor abo bel hor sp a\\ b");
    tabs.and(others)
}

// The orders of the prefixes of the line that is given, or of two where none is.
fn orders(rt: &(impl Print + Errors + Env), report: &mut Printer<'_>) -> Result<(), Odd> {
    if !is_given(rt, 2) {
        return own_orders(rt, report);
    }
    let mut line = [0u8; 4096];
    put_orders(rt, report, argument(rt, 2, &mut line))
}

// Whether a sum is that of the reference sheet that this version is for. If it is not, that is told.
fn check(rt: &impl Errors, s: Sum, path: &[u8]) -> Result<(), Failure> {
    if s.crc() == REFERENCE {
        return Ok(());
    }
    say(
        rt,
        Program::Checklist,
        path,
        b" is not the reference sheet of this version",
    );
    Err(Failure)
}

// The reference sheet's lines, summed up.
fn put_reference(
    rt: &(impl Print + Errors),
    f: &mut File,
    path: &[u8],
    report: &mut Printer<'_>,
) -> Result<(), Failure> {
    let mut session = fresh();
    let mut counts = [0u64; COUNTS];
    report.page.text(b"reference sheet\n");
    let done = run(
        rt,
        &mut f.handle,
        path,
        Kind::Lines,
        &mut session,
        &mut counts,
        report,
    )?;
    check(rt, done.sum, path)?;
    put_tally(&mut report.page, &counts);
    Ok(())
}

// Who made the report, and of which reference sheet.
fn put_head(page: &mut Page<'_>, sum: Sum) {
    put_maker(page, Program::Checklist);
    page.text(b"reference sheet");
    put_sum(page, sum);
}

// Ends a report. One that is broken off has no number.
fn ended(
    rt: &(impl Print + Errors + Files),
    report: &mut Printer<'_>,
    told: Result<(), Failure>,
) -> Result<(), Failure> {
    match told {
        Ok(()) => report.end(rt),
        Err(Failure) => {
            report.flush(rt);
            Err(Failure)
        }
    }
}

// All parts.
fn report(
    rt: &(impl Print + Errors + Env + Files),
    f: &mut File,
    path: &[u8],
    out: &mut [u8],
) -> Result<u64, Failure> {
    let mut report = Printer::new(Program::Checklist, out);
    put_head(&mut report.page, f.sum);
    put_spellings(rt, &mut report);
    let ordered = orders(rt, &mut report);
    let told = put_reference(rt, f, path, &mut report);
    ended(rt, &mut report, told)?;
    match ordered {
        Ok(()) => Ok(DONE),
        Err(Odd) => Ok(REFUSED),
    }
}

// The report, where the sheet is the right one.
fn verdict_of<R: Print + Errors + Env + Files<File = fs::File>>(
    rt: &R,
    path: &[u8],
) -> Result<u64, Failure> {
    let mut f = open_file(rt, Program::Checklist, path, path)?;
    check(rt, f.sum, path)?;
    let mut out = [0u8; 65536];
    report(rt, &mut f, path, &mut out)
}

fn main(rt: HostRuntime) {
    let mut path = [0u8; 4096];
    let verdict = verdict_of(&rt, argument(&rt, 1, &mut path)).unwrap_or(FAILED);
    hand_over(&rt, verdict);
}
