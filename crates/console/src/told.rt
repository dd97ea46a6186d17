// What failed, told on standard error, and the verdict.
ghost use Rattle.texts.specs.Written.{Adds};

use super::program::{Program, put_program};
use scan::part::part;
use std::fs::OpenOptions;
use std::io;
use std::io::{Cursor, Write};
use std::rt::{Env, Files};
use std::str::from_utf8;
use texts::page::Page;

// All was done, and nothing was refused.
pub const DONE: u64 = 0;

// Something was refused.
pub const REFUSED: u64 = 1;

// The program could not do its work.
pub const FAILED: u64 = 2;

// The environment variable that names the file where the script that starts the program waits for its verdict.
const VERDICT: &str = "PAGYOLINT_VERDICT";

// Something could not be done, which was told.
#[derive(Clone, Copy, PartialEq, Eq)]
pub struct Failure;

// Where messages go: bytes, which need not be text.
pub trait Errors {
    fn write_error(&self, bytes: &[u8]) -> io::Result<()>;
}

// Standard error.
impl Errors for HostRuntime {
    fn write_error(&self, bytes: &[u8]) -> io::Result<()> {
        Print::write_all(&self.stderr(), bytes)
    }
}

// Where the words of an error end: before the number that std puts behind those of the system.
fn words_end(text: &[u8], e: io::Error) -> usize {
    if e.raw_os_error().is_none() {
        return text.len();
    }
    match text.iter().rposition(|b| *b == b'(') {
        Some(i) => i.saturating_sub(1),
        None => text.len(),
    }
}

// Why a call failed.
pub fn put_reason(page: &mut Page<'_>, e: io::Error)
    ensures { Adds page.old page.new }
{
    let mut text = Cursor::new([0u8; 256]);
    let _ = write!(text, "{e}");
    let all = part(text.get_ref(), 0, text.position() as usize);
    page.text(part(all, 0, words_end(all, e)));
}

// The program, and what the message is about.
fn put_about(page: &mut Page<'_>, p: Program, what: &[u8])
    ensures { Adds page.old page.new }
{
    put_program(page, p);
    page.text(b": ");
    page.shown(what);
}

// That a call failed, and why.
pub fn tell(rt: &impl Errors, p: Program, what: &[u8], e: io::Error) {
    let mut out = [0u8; 65536];
    let mut page = Page::new(&mut out);
    put_about(&mut page, p, what);
    page.text(b": ");
    put_reason(&mut page, e);
    page.byte(b'\n');
    let _ = rt.write_error(page.written());
}

// What is wrong, where no call failed.
pub fn say(rt: &impl Errors, p: Program, what: &[u8], wrong: &[u8]) {
    let mut out = [0u8; 65536];
    let mut page = Page::new(&mut out);
    put_about(&mut page, p, what);
    page.text(wrong);
    page.byte(b'\n');
    let _ = rt.write_error(page.written());
}

// Hands the verdict over. Where nobody waits for it there is nobody to tell.
pub fn hand_over<R: Env + Files>(rt: &R, verdict: u64) {
    let mut buffer = [0u8; 4096];
    let Ok(n) = rt.var(VERDICT, &mut buffer) else {
        return;
    };
    let Ok(path) = from_utf8(part(&buffer, 0, n)) else {
        return;
    };
    if let Ok(mut file) = OpenOptions::new().write(true).open(rt, path) {
        let _ = write!(file, "{verdict}");
    }
}
