// The session over C: include/pagyolint.h declares these functions, with each argument's rule, and `pagyolint` exports them.
#![tactic(auto)]

ghost use Rattle.std.specs.Prelude.{◌≡◌, length};
ghost use Rattle.commands.specs.Line.{store_after};
ghost use Rattle.run.specs.Reply.{reply};
ghost use Rattle.session.specs.Lent.{fresh_no, fresh_bytes, line_answer, line_bytes, alias_no, alias_bytes, read_back_no, read_back_count, read_back_store};

use limits::refusal::number_of;
use run::reply::{CountReply, LineReply};
use session::lent::{alias_in, fresh_in, line_in, remembered_in};

pub fn pagyolint_fresh(session: &mut [u8]) -> u64
    ensures answer { result ≡ fresh_no session.old }
    ensures session { session.new ≡ fresh_bytes session.old }
{
    number_of(fresh_in(session))
}

pub fn pagyolint_line(session: &mut [u8], line: &[u8], store: &mut [u8]) -> LineReply
    ensures answer { result ≡ reply (line_answer session.old line.now (length store.old)) }
    ensures store { store.new ≡ store_after (line_answer session.old line.now (length store.old)).out store.old }
    ensures session { session.new ≡ line_bytes session.old line.now (length store.old) }
{
    line_in(session, line, store)
}

pub fn pagyolint_alias(session: &mut [u8], word: &[u8], command: u64) -> u64
    ensures answer { result ≡ alias_no session.old word.now command }
    ensures session { session.new ≡ alias_bytes session.old word.now command }
{
    number_of(alias_in(session, word, command))
}

pub fn pagyolint_remembered(session: &[u8], store: &mut [u8]) -> CountReply
    ensures refusal { result.refusal ≡ read_back_no session.now (length store.old) }
    ensures count { result.count ≡ read_back_count session.now (length store.old) }
    ensures store { store.new ≡ read_back_store session.now store.old }
{
    CountReply::from(remembered_in(session, store))
}
