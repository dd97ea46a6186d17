// A report: text that gathers on a page, is written to standard output and summed.
use super::program::Program;
use super::told::{Errors, Failure, tell};
use std::fs::{OpenFile, OpenOptions};
use std::io::ErrorKind;
use std::rt::Files;
use std::{fs, io};
use texts::page::Page;

// How many bytes of a long report gather before they are written out.
pub const REPORT: usize = 262144;

// How many bytes a line of a sheet may take: at most two for each byte of its record, six for each byte in its words, as many where it is
// refused and shown, as many for the mark under it, and some numbers.
const TOLD: usize = 24576;

// Standard output, as a file.
const OUTPUT: &str = "/dev/fd/1";

// How far a report is: whose it is, the sum of what was written out, and whether all of that could be written.
#[derive(Clone, Copy)]
pub struct Report {
    pub program: Program,
    pub crc: u64,
    pub written: Result<(), Failure>,
}

// A report that is printed: what of it is not written out yet, and how far it is.
#[derive(Drop)]
pub struct Printer<'a> {
    pub page: Page<'a>,
    report: Report,
}

// Has the system keep nothing of standard output back, where that is a file: what fails late then fails here. A file system that writes at
// once may refuse this.
pub fn settled<R: Files>(rt: &R) -> io::Result<()> {
    match fs::metadata(rt, OUTPUT) {
        Ok(m) if m.is_file() => {}
        _ => return Ok(()),
    }
    let Ok(file) = OpenOptions::new().write(true).open(rt, OUTPUT) else {
        return Ok(());
    };
    match file.sync_all() {
        Err(e) if e.kind() == ErrorKind::InvalidInput || e.kind() == ErrorKind::Unsupported => {
            Ok(())
        }
        r => r,
    }
}

// Tells what failed at standard output, if anything did.
pub fn told_output(rt: &impl Errors, p: Program, r: io::Result<()>) -> Result<(), Failure> {
    match r {
        Ok(()) => Ok(()),
        Err(e) => {
            tell(rt, p, b"standard output", e);
            Err(Failure)
        }
    }
}

impl Report {
    // One of which nothing is written.
    pub fn new(program: Program) -> Report {
        Report {
            program,
            crc: crc::start(),
            written: Ok(()),
        }
    }
}

impl<'a> Printer<'a> {
    // A report of which nothing is written.
    pub fn new(program: Program, out: &'a mut [u8]) -> Printer<'a> {
        Printer {
            page: Page::new(out),
            report: Report::new(program),
        }
    }

    // Whose it is.
    pub fn program(&self) -> Program {
        self.report.program
    }

    // Whether all of it could be written so far. What could not was told.
    pub fn written(&self) -> Result<(), Failure> {
        self.report.written
    }

    // Writes the report so far out, and adds it to the sum. The first text that could not be written is told, and none is tried after it.
    pub fn flush(&mut self, rt: &(impl Print + Errors)) {
        let text = self.page.written();
        if self.report.written.is_ok() {
            self.report.written = told_output(rt, self.report.program, rt.write_all(text));
        }
        self.report.crc = crc::more(self.report.crc, text);
        self.page.cut(0);
    }

    // Writes the report out where less room is left than a line of a sheet may take.
    pub fn flush_full(&mut self, rt: &(impl Print + Errors)) {
        if self.page.room() <= TOLD {
            self.flush(rt);
        }
    }

    // Ends the report with its last line, which has the number of all before it.
    pub fn end(&mut self, rt: &(impl Print + Errors + Files)) -> Result<(), Failure> {
        self.flush(rt);
        self.page.text(b"number of this report: ");
        self.page.decimal(crc::end(self.report.crc));
        self.page.text(b"\n");
        self.flush(rt);
        self.written()?;
        told_output(rt, self.report.program, settled(rt))
    }
}
