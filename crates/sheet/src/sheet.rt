// A sheet: bytes cut into lines, and each line run or added as an alias and told, in fixed memory. 0x0A ends a line and is no part of it; a
// last line may go without.
use super::alias::{Entry, NoAlias, alias_line};
use calls::run_line;
use console::file::{Sum, read_part};
use console::report::Printer;
use console::told::{Errors, Failure};
use limits::{LINE, STORE};
use replies::{put_alias_told, put_line_told};
use run::reply::LineReply;
use scan::part::part;
use std::io::Read;
use tally::{COUNTS, tallied};
use texts::page::Page;

// What the lines of a sheet are: lines to run; aliases; or what is only looked at, whether it is aliases. Of the last nothing is told, and
// it is read no further where a line is no word with a command.
#[derive(Clone, Copy, PartialEq, Eq)]
pub enum Kind {
    Lines,
    Aliases,
    Looked,
}

// A sheet that was read: the sum of its bytes, and whether one of its lines ends in a carriage return, as lines of other systems' files do.
#[derive(Clone, Copy)]
pub struct Done {
    pub sum: Sum,
    pub returns: bool,
}

// A sheet that is run: what its lines are, the session, where a line's record is stored, the counts, the report, how many lines were told,
// and whether one of them ends in a carriage return.
#[derive(Drop)]
struct Sheet<'a, 'r> {
    kind: Kind,
    session: &'a mut [u8],
    store: &'a mut [u8],
    counts: &'a mut [u64; COUNTS],
    report: &'a mut Printer<'r>,
    number: u64,
    returns: bool,
}

// What is counted of a line of an alias file: what it answers, and the kind of what it gives.
fn counted(added: Result<Entry, NoAlias<'_>>) -> (LineReply, u8) {
    let (refusal, kind) = match added {
        Ok(Entry::Nothing) => (0, 0),
        Ok(Entry::Alias) => (0, 1),
        Err(why) => (why.refusal(), 0),
    };
    let reply = LineReply {
        refusal,
        readings: 0,
        count: 0,
    };
    (reply, kind)
}

// Runs a line, counts it, and tells what it came to; a refused one is shown.
fn line_told(
    session: &mut [u8],
    line: &[u8],
    store: &mut [u8],
    counts: &mut [u64; COUNTS],
    page: &mut Page<'_>,
    number: u64,
) {
    let reply = run_line(session, line, store);
    let written = part(store, 0, reply.count as usize);
    tallied(counts, reply, written);
    put_line_told(page, number, reply, written, session, line);
}

impl<'a, 'r> Sheet<'a, 'r> {
    // One line more, which is run.
    fn line(&mut self, rt: &(impl Print + Errors), line: &[u8]) {
        self.number = self.number.wrapping_add(1);
        self.returns = self.returns || line.ends_with(b"\r");
        line_told(
            self.session,
            line,
            self.store,
            self.counts,
            &mut self.report.page,
            self.number,
        );
        self.report.flush_full(rt);
    }

    // A line that adds no alias is told. A sheet that is only looked at ends there, unless the session refused the alias.
    fn no_alias(
        &mut self,
        rt: &(impl Print + Errors),
        line: &[u8],
        why: NoAlias<'_>,
    ) -> Result<(), Failure> {
        if self.kind == Kind::Looked {
            return match why {
                NoAlias::Session(_) => Ok(()),
                _ => Err(Failure),
            };
        }
        put_alias_told(
            &mut self.report.page,
            self.number,
            why.refusal(),
            why.word(),
            line,
        );
        self.report.flush_full(rt);
        Ok(())
    }

    // Adds the alias of a line, counts it, and tells it if it was refused.
    fn alias(&mut self, rt: &(impl Print + Errors), line: &[u8]) -> Result<(), Failure> {
        let added = alias_line(self.session, line);
        let (reply, kind) = counted(added);
        tallied(self.counts, reply, &[kind]);
        self.number = self.number.wrapping_add(1);
        match added {
            Ok(_) => Ok(()),
            Err(why) => self.no_alias(rt, line, why),
        }
    }

    // The line that is held ends.
    fn held(&mut self, rt: &(impl Print + Errors), held: &mut Page<'_>) -> Result<(), Failure> {
        let r = match self.kind {
            Kind::Lines => {
                self.line(rt, held.written());
                Ok(())
            }
            _ => self.alias(rt, held.written()),
        };
        held.cut(0);
        r
    }

    // Goes through bytes that were read. A line of a sheet that stands whole in them is run where it lies; the bytes of others are held. A
    // line that is too long keeps as many as show it.
    fn through(
        &mut self,
        rt: &(impl Print + Errors),
        held: &mut Page<'_>,
        bytes: &[u8],
    ) -> Result<(), Failure> {
        for line in bytes.split_inclusive(|b| *b == b'\n') {
            match line.strip_suffix(b"\n") {
                Some(text) if self.kind == Kind::Lines && held.len() == 0 => self.line(rt, text),
                Some(text) => {
                    held.text(text);
                    self.held(rt, held)?;
                }
                None => held.text(line),
            }
        }
        Ok(())
    }

    // Reads the sheet to its end, but only while the report can be written. A proved loop has to end, so it counts its turns up to a number
    // that no run reaches.
    fn read<F: Read>(
        &mut self,
        rt: &(impl Print + Errors),
        file: &mut F,
        name: &[u8],
        held: &mut Page<'_>,
    ) -> Result<Sum, Failure> {
        let mut bytes = [0u8; 65536];
        let mut sum = Sum::new();
        for _ in 0..u64::MAX {
            let text = read_part(rt, self.report.program(), file, name, &mut bytes)?;
            if text.is_empty() {
                break;
            }
            sum.add(text);
            self.through(rt, held, text)?;
            self.report.written()?;
        }
        Ok(sum)
    }
}

// Runs a whole sheet, whose name is for messages, and counts its lines. What fails is told. The store is long enough for any line that is not
// too long. A last line without an end is no reason to give the sheet up.
pub fn run<F: Read>(
    rt: &(impl Print + Errors),
    file: &mut F,
    name: &[u8],
    kind: Kind,
    session: &mut [u8],
    counts: &mut [u64; COUNTS],
    report: &mut Printer<'_>,
) -> Result<Done, Failure> {
    let mut line = [0u8; LINE + 1];
    let mut store = [0u8; STORE + 1];
    let mut held = Page::new(&mut line);
    let mut sheet = Sheet {
        kind,
        session,
        store: &mut store,
        counts,
        report,
        number: 0,
        returns: false,
    };
    let sum = sheet.read(rt, file, name, &mut held)?;
    if held.len() > 0 {
        let _ = sheet.held(rt, &mut held);
    }
    Ok(Done {
        sum,
        returns: sheet.returns,
    })
}
