// Takes all of standard input as one line and runs it twice: on a session that is lent, and on one by value. Prints refusal, readings and
// byte count that the first answered, and whether both wrote the same.
#![tactic(auto)]

use limits::{LINE, STORE};
use routine::once;
use scan::part::part;
use session::value::{fresh, input_cmd};
use std::io;
use std::io::Read;

// A line has at most 1,024 bytes: one byte more shows that it is longer.
fn main(rt: HostRuntime) -> io::Result<()> {
    let mut line = [0u8; LINE + 1];
    let mut input = rt.reader().take(LINE as u64 + 1);
    let mut room = &mut line[..];
    let n = io::copy(&mut input, &mut room)? as usize;
    let mut store = [0u8; STORE + 1];
    let reply = once(part(&line, 0, n), &mut store);
    let mut other = [0u8; STORE + 1];
    input_cmd(fresh(), part(&line, 0, n), &mut other);
    let refusal = reply.refusal;
    let readings = reply.readings;
    let count = reply.count;
    let same = if store == other { "same" } else { "other" };
    println!(rt; "{refusal} {readings} {count} {same}")
}
