// Runs one line on a fresh session: its argument, or all of standard input. Prints refusal, readings and, in hex, what was written; a
// refusal is told in words on standard error too, with the line and a mark under the place that it is about.
#![tactic(auto)]

use calls::{fresh, run_line};
use console::argument::{argument, is_given};
use console::file::read_part;
use console::program::{Program, put_program};
use console::report::{settled, told_output};
use console::told::{DONE, Errors, FAILED, Failure, REFUSED, hand_over};
use limits::{LINE, STORE};
use reasons::put_refused;
use replies::{put_refused_text, put_reply};
use run::reply::LineReply;
use scan::part::part;
use std::io;
use std::rt::{Env, Files};
use texts::page::Page;

// All of standard input, as far as it shows that the line is too long. A proved loop has to end, so it counts its turns up to a number that
// no run reaches.
fn read_line(rt: &(impl Errors + Input), line: &mut Page<'_>) -> Result<(), Failure> {
    let mut input = rt.reader();
    let mut bytes = [0u8; 4096];
    for _ in 0..u64::MAX {
        let text = read_part(rt, Program::Exline, &mut input, b"", &mut bytes)?;
        line.text(text);
        if text.is_empty() || line.room() == 0 {
            break;
        }
    }
    Ok(())
}

// The line: the argument, if there is one.
fn line_of<'b>(rt: &(impl Env + Errors + Input), into: &'b mut [u8]) -> Result<&'b [u8], Failure> {
    if is_given(rt, 1) {
        return Ok(argument(rt, 1, into));
    }
    let mut line = Page::new(into);
    read_line(rt, &mut line)?;
    let n = line.len();
    Ok(part(into, 0, n))
}

// The refusal in words, and the line with a mark.
fn tell_refused(rt: &impl Errors, session: &[u8], line: &[u8], r: LineReply, written: &[u8]) {
    let mut out = [0u8; 65536];
    let mut page = Page::new(&mut out);
    put_program(&mut page, Program::Exline);
    page.text(b": ");
    put_refused(&mut page, r.refusal, r.readings, written);
    page.byte(b'\n');
    put_refused_text(&mut page, session, line, r);
    let _ = rt.write_error(page.written());
}

// Writes a text to standard output, and all that the system keeps back of it.
fn written_out(rt: &(impl Print + Files), text: &[u8]) -> io::Result<()> {
    rt.write_all(text)?;
    settled(rt)
}

// Refusal, readings and what was written.
fn print_reply(
    rt: &(impl Errors + Files + Print),
    r: LineReply,
    written: &[u8],
) -> Result<(), Failure> {
    let mut out = [0u8; 4096];
    let mut page = Page::new(&mut out);
    put_reply(&mut page, r, written);
    page.byte(b'\n');
    told_output(rt, Program::Exline, written_out(rt, page.written()))
}

// Runs the line on a fresh session.
fn verdict_of(rt: &(impl Errors + Files + Print), line: &[u8]) -> Result<u64, Failure> {
    let mut session = fresh();
    let mut store = [0u8; STORE + 1];
    let reply = run_line(&mut session, line, &mut store);
    let written = part(&store, 0, reply.count as usize);
    print_reply(rt, reply, written)?;
    if reply.refusal == 0 {
        return Ok(DONE);
    }
    tell_refused(rt, &session, line, reply, written);
    Ok(REFUSED)
}

// One byte more than a line may have shows that it is longer.
fn verdict(rt: &HostRuntime) -> Result<u64, Failure> {
    let mut line = [0u8; LINE + 1];
    verdict_of(rt, line_of(rt, &mut line)?)
}

fn main(rt: HostRuntime) {
    let v = verdict(&rt).unwrap_or(FAILED);
    hand_over(&rt, v);
}
