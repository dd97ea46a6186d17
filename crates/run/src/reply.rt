// What a line answers in numbers, and what it writes at the front of the store: a function for each way in which a line ends.
ghost use Rattle.std.specs.Prelude.{◌≡◌, ◌+◌, ◌≤◌, length};
ghost use Rattle.limits.specs.Limits.{spare};
ghost use Rattle.limits.specs.Refusals.{refusal_no, number_of, count_of};
ghost use Rattle.scan.specs.Scan.{part_of};
ghost use Rattle.commands.specs.Run.{Out};
ghost use Rattle.commands.specs.Line.{store_after};
ghost use Rattle.run.specs.Reply.{reply, after, done_at};

use actions::record::{put_action, put_nothing};
use handlers::done::Done;
use limits::refusal::Refusal;
use scan::part::part;
use store::put_name;

// The replies over C are structs of numbers, as C wants them.

// What a line answers: the refusal's number or 0, the readings, and how many bytes it wrote at the front of the store.
#[repr(C)]
#[derive(Clone, Copy)]
pub struct LineReply {
    pub refusal: u64,
    pub readings: u64,
    pub count: u64,
}

// What a call over C answers that counts what it wrote: the refusal's number or 0, and the count, or 0.
#[repr(C)]
#[derive(Clone, Copy)]
pub struct CountReply {
    pub refusal: u64,
    pub count: u64,
}

impl From<Result<usize, Refusal>> for CountReply {
    ghost from_gives = { λ r c. (c.refusal ≡ number_of r) × (c.count ≡ count_of r) };

    fn from(r: Result<usize, Refusal>) -> CountReply {
        let (refusal, count) = match r {
            Ok(n) => (0, n as u64),
            Err(x) => (u64::from(x), 0),
        };
        CountReply { refusal, count }
    }
}

// The line gives nothing.
pub fn end_nothing(readings: u64, store: &mut [u8]) -> LineReply
    requires { 1 ≤ length store.old }
    ensures answer { result ≡ reply (after readings Out.nothing) }
    ensures store { store.new ≡ store_after Out.nothing store.old }
    ensures size { length store.new ≡ length store.old }
{
    let count = put_nothing(store, 0);
    LineReply {
        refusal: 0,
        readings: readings,
        count: count as u64,
    }
}

// The line is refused; nothing is written.
pub fn end_refused(e: Refusal, readings: u64) -> LineReply
    ensures { result ≡ reply (after readings (Out.refused (refusal_no e))) }
{
    LineReply {
        refusal: u64::from(e),
        readings: readings,
        count: 0,
    }
}

// The word from `a` up to `e` is not in the table: it is written as a name.
pub fn end_unknown(line: &[u8], a: usize, e: usize, readings: u64, store: &mut [u8]) -> LineReply
    requires { length line.now + spare ≤ length store.old }
    ensures answer { result ≡ reply (after readings (Out.unknown (part_of line.now a e))) }
    ensures store { store.new ≡ store_after (Out.unknown (part_of line.now a e)) store.old }
    ensures size { length store.new ≡ length store.old }
{
    let count = put_name(store, 0, part(line, a, e));
    LineReply {
        refusal: u64::from(Refusal::UnknownWord),
        readings: readings,
        count: count as u64,
    }
}

// A handler answered `x`, its argument from `a` up to `e`.
pub fn end_done(
    line: &[u8],
    x: Done,
    a: usize,
    e: usize,
    readings: u64,
    store: &mut [u8],
) -> LineReply
    requires { length line.now + spare ≤ length store.old }
    ensures answer { result ≡ reply (after readings (done_at line.now x a e)) }
    ensures store { store.new ≡ store_after (done_at line.now x a e) store.old }
    ensures size { length store.new ≡ length store.old }
{
    match x {
        Ok(y) => {
            let count = put_action(store, 0, part(line, a, e), y);
            LineReply {
                refusal: 0,
                readings: readings,
                count: count as u64,
            }
        }
        Err(y) => end_refused(y, readings),
    }
}
