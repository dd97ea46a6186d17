// The orders of a line's prefixes, run and told.
use super::compose::{Keep, put_composed};
use super::order::order_of;
use super::prefixes::{MOST, Prefixes};
use calls::{fresh, run_line};
use limits::STORE;
use replies::{put_number, put_reply};
use run::reply::LineReply;
use scan::part::part;
use texts::page::Page;

// How many bytes a composed line may have.
const COMPOSED: usize = 1088;

// Whether an order says what its last tab, axis and side prefix say.
#[derive(Clone, Copy, PartialEq, Eq)]
pub enum Agreement {
    Agrees,
    Differs,
}

// What the line in an order answers, and whether it agrees.
#[derive(Clone, Copy)]
pub struct Told {
    pub reply: LineReply,
    pub agreement: Agreement,
}

// Runs a line on a fresh session.
fn answer(line: &[u8], store: &mut [u8]) -> LineReply {
    let mut session = fresh();
    run_line(&mut session, line, store)
}

// Whether a line says what another did: the same refusal, and the same record or word.
fn compared(line: &[u8], reply: LineReply, written: &[u8]) -> Agreement {
    let mut store = [0u8; STORE + 1];
    let other = answer(line, &mut store);
    if other.refusal == reply.refusal && part(&store, 0, other.count as usize) == written {
        Agreement::Agrees
    } else {
        Agreement::Differs
    }
}

fn put_agreement(page: &mut Page<'_>, a: Agreement) {
    match a {
        Agreement::Agrees => page.text(b" agrees "),
        Agreement::Differs => page.text(b" differs "),
    }
}

// The number of an order, what its line answers, whether it agrees, and the line.
fn put_order(page: &mut Page<'_>, number: u64, told: Told, written: &[u8], line: &[u8]) {
    put_number(page, number);
    put_reply(page, told.reply, written);
    put_agreement(page, told.agreement);
    page.quoted(line);
    page.byte(b'\n');
}

// The line that keeps only the last tab, axis and side prefix of an order.
fn compared_with_last(
    line: &[u8],
    p: &Prefixes,
    order: &[u8; MOST],
    reply: LineReply,
    written: &[u8],
) -> Agreement {
    let mut text = [0u8; COMPOSED];
    let mut composed = Page::new(&mut text);
    put_composed(&mut composed, line, p, order, Keep::LastOfKind);
    compared(composed.written(), reply, written)
}

// The order that has a number, counted from 0.
pub fn put_told(page: &mut Page<'_>, line: &[u8], p: &Prefixes, number: u64) -> Told {
    let order = order_of(p.count, number);
    let mut text = [0u8; COMPOSED];
    let mut typed = Page::new(&mut text);
    put_composed(&mut typed, line, p, &order, Keep::All);
    let mut store = [0u8; STORE + 1];
    let reply = answer(typed.written(), &mut store);
    let written = part(&store, 0, reply.count as usize);
    let told = Told {
        reply,
        agreement: compared_with_last(line, p, &order, reply, written),
    };
    put_order(page, number.wrapping_add(1), told, written, typed.written());
    told
}
