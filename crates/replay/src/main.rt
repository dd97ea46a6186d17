// Replays the oracle's vectors and prints how many agree. An answer is built as the oracle writes it, byte for byte.
#![tactic(auto)]

mod lines;

use answers::answer_reading;
use layout::places::SESSION;
use lines::{answer_alias, answer_damaged, answer_line, answer_sized, fresh};
use list_answers::answer_list;
use range_answers::answer_range;
use std::io;
use vectors::answer::{ANSWER, Answer};
use vectors::op::Op;
use vectors::{Tally, Unread, next_vector};

// How long a vector's text can be.
const TEXT: usize = 1028;

// What is answered to a vector's text, by the session that goes on from vector to vector or by a reading of the text alone.
fn answer(session: &mut [u8; SESSION], op: Op, text: &[u8], out: &mut Answer) {
    match op {
        Op::Fresh => *session = fresh(),
        Op::Alias => answer_alias(session, text, out),
        Op::Line => answer_line(session, text, out),
        Op::Range => answer_range(text, out),
        Op::Items(list) => answer_list(list, text, out),
        Op::Reading => answer_reading(text, out),
        Op::Sized => answer_sized(session, text, out),
        Op::Damaged => answer_damaged(session, text, out),
    }
}

// A proved loop has to end, so it counts its turns up to a number that no run reaches.
fn main(rt: HostRuntime) -> io::Result<()> {
    let mut input = rt.reader();
    let mut tally = Tally::default();
    let mut session = fresh();
    for _ in 0..u64::MAX {
        let mut text = [0u8; TEXT];
        let mut want = [0u8; ANSWER];
        match next_vector(&mut input, &mut text, &mut want) {
            Ok(Some(v)) => {
                let mut out = Answer::new();
                answer(&mut session, v.op, v.text, &mut out);
                tally.count(&rt, out.written() == v.answer)?;
            }
            Ok(None) => return tally.finished(&rt),
            Err(Unread::Broken) => return tally.broken(&rt),
            Err(Unread::System(e)) => return Err(e),
        }
    }
    Ok(())
}
