// Messages of failures, on standard error. What a report is called need not be text, so they are put together as bytes.
use console::told::{Errors, put_reason};
use std::env::FillError;
use std::io;
use texts::page::Page;

// What the system answers where an argument is missing, and where it is too long.
const MISSING: i32 = 22;

const TOO_LONG: i32 = 36;

// The program's name, and a text behind it.
fn put_named(page: &mut Page<'_>, what: &[u8]) {
    page.text(b"excompare: ");
    page.text(what);
}

// Tells what failed, and why.
pub fn tell_failed(rt: &impl Errors, what: &[u8], e: io::Error) {
    let mut out = [0u8; 65536];
    let mut page = Page::new(&mut out);
    put_named(&mut page, what);
    page.text(b": ");
    put_reason(&mut page, e);
    page.text(b"\n");
    let _ = rt.write_error(page.written());
}

// Tells what is wrong with a report.
pub fn tell(rt: &impl Errors, name: &[u8], wrong: &[u8]) {
    let mut out = [0u8; 65536];
    let mut page = Page::new(&mut out);
    put_named(&mut page, name);
    page.text(wrong);
    page.text(b"\n");
    let _ = rt.write_error(page.written());
}

// Tells that a report has another number than its bytes.
pub fn tell_changed(rt: &impl Errors, name: &[u8], number: u64, sum: u64) {
    let mut out = [0u8; 65536];
    let mut page = Page::new(&mut out);
    put_named(&mut page, name);
    page.text(b" was changed after it was made: its number is ");
    page.decimal(number);
    page.text(b" and its bytes have ");
    page.decimal(sum);
    page.text(b"\n");
    let _ = rt.write_error(page.written());
}

// Tells that an argument is missing or too long.
pub fn tell_argument(rt: &impl Errors, i: usize, e: FillError) {
    let mut what = [0u8; 32];
    let mut page = Page::new(&mut what);
    page.text(b"argument ");
    page.decimal(i as u64);
    let code = match e {
        FillError::NotPresent => MISSING,
        FillError::TooLong => TOO_LONG,
    };
    tell_failed(rt, page.written(), io::Error::from_raw_os_error(code));
}
