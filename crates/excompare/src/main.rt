// Compares two reports of the console's programs: shows the first line that differs, and says in one sentence what that means. The
// arguments are the file of a report and what to call it, twice. The verdict is also a digit in the file that the script which
// starts the program names: 0 if the reports are the same, 1 if they differ, 2 if they could not be compared or the answer not be written.
#![tactic(auto)]

mod show;

use console::file::open_read;
use console::report::settled;
use console::told::{Errors, FAILED, hand_over};
use differences::differ::{Pair, Report};
use files::file::Unread;
use files::tell::{tell_argument, tell_failed};
use files::whole::look;
use scan::part::part;
use show::show;
use std::fs::File;
use std::io;
use std::rt::{Env, Files};
use texts::page::Page;

// A report that is open, and where its last line starts.
#[derive(Drop)]
struct OpenReport {
    file: File,
    last: u64,
}

impl OpenReport {
    // The report as it is compared.
    fn lent<'a>(&'a self, name: &'a [u8]) -> Report<'a> {
        Report {
            name,
            file: &self.file,
            last: self.last,
        }
    }
}

// An argument, put at the start of a buffer, if it fits: else what is wrong is told.
fn given<'b>(rt: &(impl Env + Errors), i: usize, into: &'b mut [u8]) -> Option<&'b [u8]> {
    match rt.arg(i, into) {
        Ok(n) => Some(part(into, 0, n)),
        Err(e) => {
            tell_argument(rt, i, e);
            None
        }
    }
}

// Opens the report that an argument names: none if it cannot be opened, which is told.
fn open<R: Env + Errors + Files<File = File>>(rt: &R, i: usize, name: &[u8]) -> Option<File> {
    let mut path = [0u8; 4096];
    match open_read(rt, given(rt, i, &mut path)?) {
        Ok(file) => Some(file),
        Err(e) => {
            tell_failed(rt, name, e);
            None
        }
    }
}

// Opens a report and looks at it: none if it is not whole, which is told.
fn opened<R: Env + Errors + Files<File = File>>(
    rt: &R,
    i: usize,
    name: &[u8],
) -> Option<OpenReport> {
    let file = open(rt, i, name)?;
    match look(rt, name, &file) {
        Ok(last) if last > 0 => Some(OpenReport { file, last }),
        _ => None,
    }
}

// Writes a text to standard output, and all that the system keeps back of it.
fn written_out(rt: &(impl Print + Files), text: &[u8]) -> io::Result<()> {
    rt.write_all(text)?;
    settled(rt)
}

// Writes the answer. The verdict is then another if that fails, which is told.
fn written(rt: &(impl Errors + Files + Print), text: &[u8], verdict: u64) -> u64 {
    match written_out(rt, text) {
        Ok(()) => verdict,
        Err(e) => {
            tell_failed(rt, b"standard output", e);
            FAILED
        }
    }
}

// Looks at both reports, compares them if both are whole, and writes the answer.
fn compared<R: Env + Errors + Files<File = File> + Print>(
    rt: &R,
    a_name: &[u8],
    b_name: &[u8],
) -> u64 {
    let a = opened(rt, 1, a_name);
    let b = opened(rt, 3, b_name);
    let mut out = [0u8; 65536];
    let mut page = Page::new(&mut out);
    let shown = match (&a, &b) {
        (Some(x), Some(y)) => {
            let r = Pair {
                a: x.lent(a_name),
                b: y.lent(b_name),
            };
            show(rt, &mut page, r)
        }
        _ => Err(Unread),
    };
    match shown {
        Ok(verdict) => written(rt, page.written(), verdict),
        Err(Unread) => written(rt, b"", FAILED),
    }
}

// The verdict.
fn verdict<R: Env + Errors + Files<File = File> + Print>(rt: &R) -> u64 {
    let mut a_name = [0u8; 4096];
    let a = given(rt, 2, &mut a_name);
    let mut b_name = [0u8; 4096];
    let b = given(rt, 4, &mut b_name);
    match (a, b) {
        (Some(x), Some(y)) => compared(rt, x, y),
        _ => FAILED,
    }
}

fn main(rt: HostRuntime) {
    let v = verdict(&rt);
    hand_over(&rt, v);
}
