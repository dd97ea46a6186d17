// A session by value. It holds the bytes in which it rests over C, and lends them.
ghost use Rattle.std.specs.Prelude.{◌≡◌, length, replicate};
ghost use Rattle.limits.specs.Refusals.{number_of, count_of};
ghost use Rattle.commands.specs.Line.{store_after};
ghost use Rattle.run.specs.Reply.{reply};
ghost use Rattle.layout.specs.Layout.{session_size, fresh as fresh_one, written};
ghost use Rattle.session.specs.Lent.{line_answer, line_bytes, alias_no, alias_bytes, read_back_no, read_back_count, read_back_store};

use super::lent::{alias_in, line_in, remembered_in};
use layout::bytes::clear;
use layout::places::SESSION;
use limits::refusal::Refusal;
use run::reply::LineReply;

#[derive(Clone, Copy)]
pub struct Session {
    pub bytes: [u8; SESSION],
}

// What a line answers, and the session afterwards.
#[derive(Clone, Copy)]
pub struct Lined {
    pub reply: LineReply,
    pub session: Session,
}

// What adding an alias answers, and the session afterwards.
#[derive(Clone, Copy)]
pub struct Added {
    pub answer: Result<(), Refusal>,
    pub session: Session,
}

// A fresh session.
pub fn fresh() -> Session
    ensures { result.bytes ≡ written fresh_one (replicate session_size 0) }
{
    let mut bytes = [0u8; SESSION];
    clear(&mut bytes);
    Session { bytes }
}

// Runs a line: input_cmd of commands.rs.
pub fn input_cmd(s: Session, line: &[u8], store: &mut [u8]) -> Lined
    ensures answer { result.reply ≡ reply (line_answer s.bytes line.now (length store.old)) }
    ensures store { store.new ≡ store_after (line_answer s.bytes line.now (length store.old)).out store.old }
    ensures session { result.session.bytes ≡ line_bytes s.bytes line.now (length store.old) }
{
    let mut bytes = s.bytes;
    let reply = line_in(&mut bytes, line, store);
    Lined {
        reply,
        session: Session { bytes },
    }
}

// Adds an alias, or replaces it.
pub fn add_alias(s: Session, w: &[u8], command: u64) -> Added
    ensures answer { number_of result.answer ≡ alias_no s.bytes w.now command }
    ensures session { result.session.bytes ≡ alias_bytes s.bytes w.now command }
{
    let mut bytes = s.bytes;
    let answer = alias_in(&mut bytes, w, command);
    Added {
        answer,
        session: Session { bytes },
    }
}

// Copies the remembered line to the front of the store, and answers its byte count.
pub fn get_last_command(s: Session, store: &mut [u8]) -> Result<usize, Refusal>
    ensures refusal { number_of result ≡ read_back_no s.bytes (length store.old) }
    ensures count { count_of result ≡ read_back_count s.bytes (length store.old) }
    ensures store { store.new ≡ read_back_store s.bytes store.old }
{
    let bytes = s.bytes;
    remembered_in(&bytes, store)
}
