// The run of a line: input_cmd of commands.rs without what it remembers.
ghost use Rattle.std.specs.Prelude.{◌≡◌, ◌+◌, ◌≤◌, length};
ghost use Rattle.limits.specs.Limits.{spare};
ghost use Rattle.scan.specs.Bytes.{is_text};
ghost use Rattle.scan.specs.Scan.{run_at};
ghost use Rattle.context.specs.Context.{fresh as fresh_one};
ghost use Rattle.layout.specs.Layout.{session_of, table_of};
ghost use Rattle.commands.specs.Run.{decide as decide_of, line_from};
ghost use Rattle.commands.specs.Line.{store_after};
ghost use Rattle.run.specs.Reply.{reply};

use super::reply::{LineReply, end_done, end_nothing, end_refused, end_unknown};
use blocks::run::skip_spaces;
use blocks::text::text_stop;
use commands::handle::handle;
use commands::next::{Next, by_name, changed};
use context::context::CommandContext;
use layout::lookup::find_word;
use reading::line::{description_again, parse_cmd_descr};
use scan::part::part;

// What one reading of a text leads to, where the first 0x0A of the text, or its end, is at `stop`.
fn decide(s: &[u8], stop: usize, session: &[u8]) -> Next
    requires { stop ≡ run_at is_text s.now 0 }
    ensures { result ≡ decide_of (table_of (session_of session.now)) s.now }
{
    match parse_cmd_descr(s, stop) {
        Ok(d) => {
            let a = d.word;
            let e = d.end;
            if a == e {
                return Next::Empty;
            }
            by_name(s, d, find_word(session, part(s, a, e)))
        }
        Err(why) => Next::Refused(why),
    }
}

// The run of a line on a session that is lent to read. What it ends with is written at the front of the store.
pub fn run(line: &[u8], session: &[u8], store: &mut [u8]) -> LineReply
    requires { length line.now + spare ≤ length store.old }
    ensures answer { result ≡ reply (line_from (table_of (session_of session.now)) fresh_one line.now) }
    ensures store { store.new ≡ store_after (line_from (table_of (session_of session.now)) fresh_one line.now).out store.old }
    ensures size { length store.new ≡ length store.old }
{
    let mut x = CommandContext::fresh();
    let mut n: usize = 0;
    let mut from = skip_spaces(line, 0);
    let mut to = line.len();
    let mut stop = text_stop(part(line, from, to));
    // Each reading says where the next one starts, and whether there is one.
    loop {
        let m = n + 1;
        let s = part(line, from, to);
        match decide(s, stop, session) {
            Next::Empty => {
                return end_nothing(m as u64, store);
            }
            Next::Refused(e) => {
                return end_refused(e, m as u64);
            }
            Next::Unknown(a, e) => {
                return end_unknown(line, from + a, from + e, m as u64, store);
            }
            Next::Runs(k, d) => {
                let a = from + d.argument;
                let e = from + d.stop;
                let y = handle(k, s, description_again(d), x);
                return end_done(line, y, a, e, m as u64, store);
            }
            Next::Again(ch, a, e) => {
                x = changed(ch, x);
                to = from + e;
                from = from + a;
                stop = e - a;
                n = m;
            }
        }
    }
}
