// The line with its prefixes in every order, and how many orders agree with what the last prefixes say.
use console::report::Printer;
use console::told::Errors;
use limits::LINE;
use orders::order::orders_of;
use orders::prefixes::{MOST, Prefixes, prefixes_of};
use orders::told::{Agreement, Told, put_told};
use texts::page::Page;
use utf8::utf8::is_utf8;

// A line with five prefixes may gain five spaces.
const LONGEST: usize = LINE - MOST;

// That not all orders of a line agree and are accepted, or that they are not told.
#[derive(Clone, Copy, PartialEq, Eq)]
pub struct Odd;

// How many orders agree, and how many of those are accepted.
#[derive(Clone, Copy)]
struct Orders {
    agree: u64,
    accepted: u64,
}

impl Orders {
    // With one order more.
    fn add(&mut self, told: Told) {
        if told.agreement == Agreement::Agrees {
            self.agree = self.agree.wrapping_add(1);
            if told.reply.refusal == 0 {
                self.accepted = self.accepted.wrapping_add(1);
            }
        }
    }
}

// The word behind the number of orders.
fn put_orders_word(page: &mut Page<'_>, orders: u64) {
    if orders == 1 {
        page.text(b" order, ");
    } else {
        page.text(b" orders, ");
    }
}

// How many orders there are, and how many agree.
fn put_total(page: &mut Page<'_>, orders: u64, agree: u64) {
    page.decimal(orders);
    put_orders_word(page, orders);
    page.decimal(agree);
    page.text(b" agree\n");
}

// All orders of the prefixes.
fn put_all(
    rt: &(impl Print + Errors),
    report: &mut Printer<'_>,
    line: &[u8],
    p: &Prefixes,
) -> Result<(), Odd> {
    let n = orders_of(p.count);
    let mut orders = Orders {
        agree: 0,
        accepted: 0,
    };
    for i in 0..n {
        orders.add(put_told(&mut report.page, line, p, i));
        report.flush_full(rt);
    }
    put_total(&mut report.page, n, orders.agree);
    if orders.accepted == n {
        Ok(())
    } else {
        Err(Odd)
    }
}

// The orders of a line whose prefixes are found. With none there is one order, and more than five are not put in order.
fn put_found(
    rt: &(impl Print + Errors),
    report: &mut Printer<'_>,
    line: &[u8],
    p: &Prefixes,
) -> Result<(), Odd> {
    if p.count == 0 {
        report.page.text(b"the line has no prefix\n");
    }
    if p.count > MOST {
        report.page.text(b"the line has more than five prefixes\n");
        return Err(Odd);
    }
    put_all(rt, report, line, p)
}

// That a line is too long.
fn put_too_long(page: &mut Page<'_>) {
    page.text(b"the line is longer than ");
    page.decimal(LONGEST as u64);
    page.text(b" bytes: no orders\n");
}

// The heading over the orders of a line.
fn put_heading(page: &mut Page<'_>, line: &[u8]) {
    page.text(b"orders of the prefixes of ");
    page.quoted(line);
    page.byte(b'\n');
}

// The orders of a line.
pub fn put_orders(
    rt: &(impl Print + Errors),
    report: &mut Printer<'_>,
    line: &[u8],
) -> Result<(), Odd> {
    if LONGEST < line.len() {
        put_too_long(&mut report.page);
        return Err(Odd);
    }
    if !is_utf8(line) {
        report.page.text(b"the line is not UTF-8: no orders\n");
        return Err(Odd);
    }
    put_heading(&mut report.page, line);
    put_found(rt, report, line, &prefixes_of(line))
}
