// Runs a sheet, a line each, on one session, with aliases from a file, and prints the report: who made it and of which files, a line for
// each bad alias, a line for each line of the sheet, a line that sums up, and the number of the report.
// Arguments: the sheet's path and its name, those of the alias file, empty if there is none, and whether the program may have been called
// as it was before, with the alias file as its argument. Standard input has the empty name.
#![tactic(auto)]

use calls::fresh;
use console::argument::argument;
use console::file::{File, Sum, open_file, put_file, rewind, say_of};
use console::program::{Program, put_maker};
use console::report::{Printer, REPORT};
use console::told::{DONE, Errors, FAILED, Failure, REFUSED, hand_over, say};
use sheet::sheet::{Done, Kind, run};
use std::fs;
use std::rt::{Env, Files};
use tally::{ACTIONS, COUNTS, put_tally, refused};
use texts::page::Page;

// A file that is open, and what to call it.
#[derive(Drop)]
struct Named<'a> {
    file: File,
    name: &'a [u8],
}

// Opens the file at a path.
fn open_named<'a, R: Errors + Files<File = fs::File>>(
    rt: &R,
    path: &[u8],
    name: &'a [u8],
) -> Result<Named<'a>, Failure> {
    let file = open_file(rt, Program::Exsheet, path, name)?;
    Ok(Named { file, name })
}

// The alias file, if one is named.
fn alias_file<'a, R: Errors + Files<File = fs::File>>(
    rt: &R,
    path: &[u8],
    name: &'a [u8],
) -> Result<Option<Named<'a>>, Failure> {
    if path.is_empty() {
        return Ok(None);
    }
    Ok(Some(open_named(rt, path, name)?))
}

// Whether a file is one of aliases: it has one, and no line that is anything else.
fn is_alias_file(rt: &(impl Print + Errors), f: &mut Named<'_>, out: &mut [u8]) -> bool {
    let mut session = fresh();
    let mut counts = [0u64; COUNTS];
    let mut report = Printer::new(Program::Exsheet, out);
    let looked = run(
        rt,
        &mut f.file.handle,
        f.name,
        Kind::Looked,
        &mut session,
        &mut counts,
        &mut report,
    );
    looked.is_ok() && (counts[ACTIONS] > 0 || refused(&counts) > 0)
}

// The sheet at its start again, unless it is a file of aliases that was given as it was before.
fn not_as_before(
    rt: &(impl Print + Errors + Env),
    f: &mut Named<'_>,
    out: &mut [u8],
) -> Result<(), Failure> {
    let mut before = [0u8; 8];
    if argument(rt, 5, &mut before).is_empty() {
        return Ok(());
    }
    if is_alias_file(rt, f, out) {
        say(
            rt,
            Program::Exsheet,
            f.name,
            b" has aliases, which are given with -a: exsheet -a ALIASES [SHEET]",
        );
        return Err(Failure);
    }
    rewind(rt, Program::Exsheet, &mut f.file.handle, f.name)
}

// The line about the aliases.
fn put_aliases(page: &mut Page<'_>, aliases: &Option<Named<'_>>) {
    match aliases {
        None => page.text(b"aliases none\n"),
        Some(f) => put_file(page, b"aliases ", f.name, f.file.sum),
    }
}

// The head of the report: who made it, and of which files.
fn put_head(page: &mut Page<'_>, sheet: &Named<'_>, aliases: &Option<Named<'_>>) {
    put_maker(page, Program::Exsheet);
    put_file(page, b"sheet ", sheet.name, sheet.file.sum);
    put_aliases(page, aliases);
}

// Runs a file's lines. A file that was not the same both times is told.
fn run_whole(
    rt: &(impl Print + Errors),
    f: &mut Named<'_>,
    kind: Kind,
    session: &mut [u8],
    counts: &mut [u64; COUNTS],
    report: &mut Printer<'_>,
) -> Result<Done, Failure> {
    let done = run(
        rt,
        &mut f.file.handle,
        f.name,
        kind,
        session,
        counts,
        report,
    )?;
    if done.sum != f.file.sum {
        say_of(rt, Program::Exsheet, f.name, b" changed while it was read");
        return Err(Failure);
    }
    Ok(done)
}

// A sheet from another system reads otherwise than it looks.
fn say_returns(rt: &impl Errors, done: Done, name: &[u8]) {
    if done.returns {
        say_of(
            rt,
            Program::Exsheet,
            name,
            b" has lines that end in a carriage return, which is part of the line",
        );
    }
}

// Adds the aliases, if a file of them is named, and answers how many were refused.
fn add_aliases(
    rt: &(impl Print + Errors),
    aliases: &mut Option<Named<'_>>,
    session: &mut [u8],
    report: &mut Printer<'_>,
) -> Result<u64, Failure> {
    let mut counts = [0u64; COUNTS];
    if let Some(f) = aliases {
        run_whole(rt, f, Kind::Aliases, session, &mut counts, report)?;
    }
    Ok(refused(&counts))
}

// Runs the sheet's lines, sums them up, and answers how many were refused.
fn run_lines(
    rt: &(impl Print + Errors),
    sheet: &mut Named<'_>,
    session: &mut [u8],
    report: &mut Printer<'_>,
) -> Result<u64, Failure> {
    let mut counts = [0u64; COUNTS];
    let done = run_whole(rt, sheet, Kind::Lines, session, &mut counts, report)?;
    say_returns(rt, done, sheet.name);
    put_tally(&mut report.page, &counts);
    Ok(refused(&counts))
}

// The aliases and the lines, and the verdict on them.
fn told(
    rt: &(impl Print + Errors),
    sheet: &mut Named<'_>,
    aliases: &mut Option<Named<'_>>,
    report: &mut Printer<'_>,
) -> Result<u64, Failure> {
    let mut session = fresh();
    let bad = add_aliases(rt, aliases, &mut session, report)?;
    let worse = run_lines(rt, sheet, &mut session, report)?;
    if bad > 0 || worse > 0 {
        return Ok(REFUSED);
    }
    Ok(DONE)
}

// The report. One that is broken off has no number.
fn report(
    rt: &(impl Print + Errors + Files),
    sheet: &mut Named<'_>,
    aliases: &mut Option<Named<'_>>,
    out: &mut [u8],
) -> Result<u64, Failure> {
    let mut report = Printer::new(Program::Exsheet, out);
    put_head(&mut report.page, sheet, aliases);
    match told(rt, sheet, aliases, &mut report) {
        Ok(verdict) => {
            report.end(rt)?;
            Ok(verdict)
        }
        Err(Failure) => {
            report.flush(rt);
            Err(Failure)
        }
    }
}

// Both files, each by its path and name.
fn with_files<R: Print + Errors + Env + Files<File = fs::File>>(
    rt: &R,
    path: &[u8],
    name: &[u8],
    aliases: &[u8],
    called: &[u8],
) -> Result<u64, Failure> {
    let first = alias_file(rt, aliases, called);
    let second = open_named(rt, path, name);
    let mut aliases = first?;
    let mut sheet = second?;
    let mut out = [0u8; REPORT];
    not_as_before(rt, &mut sheet, &mut out)?;
    report(rt, &mut sheet, &mut aliases, &mut out)
}

fn verdict(rt: &HostRuntime) -> Result<u64, Failure> {
    let mut path = [0u8; 4096];
    let mut name = [0u8; 4096];
    let mut aliases = [0u8; 4096];
    let mut called = [0u8; 4096];
    with_files(
        rt,
        argument(rt, 1, &mut path),
        argument(rt, 2, &mut name),
        argument(rt, 3, &mut aliases),
        argument(rt, 4, &mut called),
    )
}

fn main(rt: HostRuntime) {
    let v = verdict(&rt).unwrap_or(FAILED);
    hand_over(&rt, v);
}
