// Each spelling, in byte order, with the command that it leads to: the command's number and its name.
use console::report::Printer;
use console::told::Errors;
use replies::put_number;
use scan::part::part;
use spellings::{names, row_at, spellings, word_of};
use texts::page::Page;
use words::words::lookup;

// The command that a word leads to.
fn put_command(page: &mut Page<'_>, n: u64) {
    let rows = names();
    put_number(page, n);
    page.text(word_of(&rows, n));
}

fn put_named(page: &mut Page<'_>, m: Option<u64>) {
    match m {
        Some(n) => put_command(page, n),
        None => page.text(b"no command"),
    }
}

fn put_spelling(page: &mut Page<'_>, word: &[u8]) {
    page.text(word);
    page.byte(b' ');
    put_named(page, lookup(word));
    page.byte(b'\n');
}

// How many there are.
fn put_total(page: &mut Page<'_>, count: u64) {
    page.decimal(count);
    page.text(b" spellings\n");
}

// All spellings, and how many there are. The step is a row of the table, so the loop is a `while`.
pub fn put_spellings(rt: &(impl Print + Errors), report: &mut Printer<'_>) {
    let rows = spellings();
    report.page.text(b"spellings and their commands\n");
    let mut count: u64 = 0;
    let mut i: usize = 0;
    // Each row says where the next one starts, so there is no count that a `for` could go through.
    while i < rows.len() {
        let row = row_at(&rows, i);
        put_spelling(&mut report.page, part(&rows, row.start, row.stop));
        count = count.wrapping_add(1);
        i = row.stop;
    }
    put_total(&mut report.page, count);
    report.flush_full(rt);
}
