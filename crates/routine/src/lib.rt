// A session lent to the caller's routine and updated there. Each call hands the session by value to the core and writes it back.
#![tactic(auto)]

ghost use Rattle.std.specs.Prelude.{◌≡◌, length, replicate};
ghost use Rattle.limits.specs.Refusals.{number_of};
ghost use Rattle.commands.specs.Line.{store_after};
ghost use Rattle.layout.specs.Layout.{session_size, fresh as fresh_one, written};
ghost use Rattle.run.specs.Reply.{reply};
ghost use Rattle.session.specs.Lent.{line_answer, line_bytes, alias_no, alias_bytes};

use limits::refusal::Refusal;
use run::reply::LineReply;
use session::value::Session;

// Runs a line: input_cmd of commands.rs.
pub fn input_cmd(session: &mut Session, line: &[u8], store: &mut [u8]) -> LineReply
    ensures answer { result ≡ reply (line_answer session.old.bytes line.now (length store.old)) }
    ensures store { store.new ≡ store_after (line_answer session.old.bytes line.now (length store.old)).out store.old }
    ensures session { session.new.bytes ≡ line_bytes session.old.bytes line.now (length store.old) }
{
    let ran = session::value::input_cmd(*session, line, store);
    *session = ran.session;
    ran.reply
}

// Adds an alias, or replaces it.
pub fn add_alias(session: &mut Session, word: &[u8], command: u64) -> Result<(), Refusal>
    ensures answer { number_of result ≡ alias_no session.old.bytes word.now command }
    ensures session { session.new.bytes ≡ alias_bytes session.old.bytes word.now command }
{
    let added = session::value::add_alias(*session, word, command);
    *session = added.session;
    added.answer
}

// A line of a fresh session, which is made here and lent.
pub fn once(line: &[u8], store: &mut [u8]) -> LineReply
    ensures answer { result ≡ reply (line_answer (written fresh_one (replicate session_size 0)) line.now (length store.old)) }
    ensures store { store.new ≡ store_after (line_answer (written fresh_one (replicate session_size 0)) line.now (length store.old)).out store.old }
{
    let mut session = session::value::fresh();
    input_cmd(&mut session, line, store)
}
