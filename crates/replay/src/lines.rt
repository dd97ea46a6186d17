// What the exported entries answer to aliases and lines (ops 0 to 2, 8 and 9), as the oracle writes it.
use entries::{pagyolint_alias, pagyolint_fresh, pagyolint_line, pagyolint_remembered};
use layout::places::SESSION;
use limits::{LINE, STORE};
use run::reply::LineReply;
use scan::part::{byte_at, part};
use vectors::answer::Answer;

// A fresh session's bytes.
pub fn fresh() -> [u8; SESSION] {
    let mut session = [0u8; SESSION];
    pagyolint_fresh(&mut session);
    session
}

// The command's number in one byte, and the word.
pub fn answer_alias(session: &mut [u8], text: &[u8], out: &mut Answer) {
    let word = part(text, 1, text.len());
    out.put_number(pagyolint_alias(session, word, byte_at(text, 0) as u64));
}

// The line that is remembered, as a name.
fn put_remembered(session: &[u8], out: &mut Answer) {
    let mut store = [0u8; LINE];
    let reply = pagyolint_remembered(session, &mut store);
    out.put_name(part(&store, 0, reply.count as usize));
}

// Refusal, readings and what was written to the store.
fn put_line(out: &mut Answer, reply: LineReply, store: &[u8]) {
    out.put_number(reply.refusal);
    out.put_number(reply.readings);
    out.put_bytes(part(store, 0, reply.count as usize));
}

// What the line says, and the line that is then remembered.
pub fn answer_line(session: &mut [u8], text: &[u8], out: &mut Answer) {
    let mut store = [0u8; STORE];
    let reply = pagyolint_line(session, text, &mut store);
    put_line(out, reply, &store);
    put_remembered(session, out);
}

// How many bytes are what a store was filled with.
fn untouched(store: &[u8]) -> usize {
    store.iter().filter(|&&b| b == 0xAA).count()
}

// The number in two bytes, the low byte first.
fn pair(text: &[u8]) -> usize {
    vectors::pair(byte_at(text, 0), byte_at(text, 1))
}

// The store's size in two bytes and the line: what the line says, how many bytes of the store were not touched, and the line that is then
// remembered.
pub fn answer_sized(session: &mut [u8], text: &[u8], out: &mut Answer) {
    let mut store = [0xAAu8; 2048];
    let size = pair(text).min(store.len());
    let reply = pagyolint_line(session, part(text, 2, text.len()), &mut store[..size]);
    put_line(out, reply, &store);
    out.put_number(untouched(&store) as u64);
    put_remembered(session, out);
}

// A place in the session's bytes and another byte for it: refused, or the line that this session remembers.
pub fn answer_damaged(session: &[u8; SESSION], text: &[u8], out: &mut Answer) {
    let mut damaged = *session;
    let place = pair(text);
    if place < SESSION {
        damaged[place] = byte_at(text, 2);
    }
    let mut store = [0u8; LINE];
    let reply = pagyolint_remembered(&damaged, &mut store);
    out.put_number(reply.refusal);
    if reply.refusal == 0 {
        out.put_name(part(&store, 0, reply.count as usize));
    }
}
