// The place in a text that the refusal of its reading is about.

use super::bytes::{digits_spot, trimmed};
use super::spot::{Spot, between};
use layout::lookup::words_of;
use limits::refusal::Refusal;
use limits::{LINE, STORE};
use run::run::run;
use scan::part::{byte_at, part};
use scanner::token::{Lead, TokenKind, covering_token, lead_of};

// Where the argument at `a` ends: a last 0x0A is no part of it.
fn argument_stop(s: &[u8], a: usize) -> usize {
    let n = s.len();
    if a < n && byte_at(s, n - 1) == 0x0A {
        return n - 1;
    }
    n
}

// The word.
fn word_spot(l: Lead) -> Spot {
    between(l.range, l.word)
}

// The argument, without the spaces behind it; for none the word.
fn argument_spot(s: &[u8], l: Lead) -> Spot {
    let a = l.argument;
    let e = argument_stop(s, a);
    if a == e {
        return word_spot(l);
    }
    between(a, trimmed(s, a, e))
}

// What a reading leaves over that fails, or the rest of an argument that is no list; where it is one, it is the range that does not parse,
// and the place is all of it.
fn unread_spot(s: &[u8], l: Lead) -> Spot {
    let e = argument_stop(s, l.argument);
    let t = covering_token(s, std::num::wrapping_sub_usize(e, 1));
    let kind = t.kind;
    match kind {
        TokenKind::Left => between(t.start, t.stop),
        TokenKind::Unlisted => between(t.start, t.stop),
        _ => argument_spot(s, l),
    }
}

// Whether a text is refused so in its first reading.
fn is_refused(session: &[u8], s: &[u8], refusal: u64) -> bool {
    if LINE < s.len() {
        return false;
    }
    let mut store = [0u8; STORE];
    let reply = run(s, words_of(session), &mut store);
    reply.readings == 1 && reply.refusal == refusal
}

// The range or the argument that is one. Where both are there, it is the argument if it is refused so without the range too.
fn ends_spot(session: &[u8], s: &[u8], l: Lead, refusal: u64) -> Spot {
    let a = l.argument;
    if argument_stop(s, a) == a {
        return between(l.start, l.range);
    }
    if l.start == l.range || is_refused(session, part(s, l.range, s.len()), refusal) {
        return argument_spot(s, l);
    }
    between(l.start, l.range)
}

// The place in a text.
pub fn text_spot(session: &[u8], s: &[u8], x: Refusal) -> Option<Spot> {
    let l = lead_of(s);
    match x {
        Refusal::ParseFailed => Some(unread_spot(s, l)),
        Refusal::NumberTooLarge => digits_spot(s),
        Refusal::InvalidArgument => Some(argument_spot(s, l)),
        Refusal::InvalidRange => Some(ends_spot(session, s, l, u64::from(x))),
        Refusal::SumTooLarge => Some(ends_spot(session, s, l, u64::from(x))),
        Refusal::Unimplemented => Some(word_spot(l)),
        _ => None,
    }
}
