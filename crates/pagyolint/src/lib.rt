// The library over C: include/pagyolint.h declares these functions, with each argument's rule.
#![tactic(auto)]

pub mod text;

ghost use Rattle.std.specs.Prelude.{◌≡◌, length};
ghost use Rattle.commands.specs.Line.{store_after};
ghost use Rattle.run.specs.Reply.{reply};
ghost use Rattle.session.specs.Lent.{fresh_no, fresh_bytes, line_answer, line_bytes, alias_no, alias_bytes, read_back_no, read_back_count, read_back_store};
ghost use Rattle.sentences.specs.Sentences.{sentence};
ghost use Rattle.tokens.specs.Through.{tokens_no, tokens_count, tokens_store};
ghost use Rattle.pagyolint.specs.Texts.{copy_no, copy_count, copy_store, name_no, name_count, name_store, version_number};

use run::reply::{CountReply, LineReply};
use text::{command_name, refusal_text};
use tokens::call::tokens_in;

// The version: that of the file VERSION and of the header.
const VERSION: u64 = 1000000;

#[unsafe(no_mangle)]
pub extern "C" fn pagyolint_fresh(session: &mut [u8]) -> u64
    ensures answer { result ≡ fresh_no session.old }
    ensures session { session.new ≡ fresh_bytes session.old }
{
    entries::pagyolint_fresh(session)
}

#[unsafe(no_mangle)]
pub extern "C" fn pagyolint_line(session: &mut [u8], line: &[u8], store: &mut [u8]) -> LineReply
    ensures answer { result ≡ reply (line_answer session.old line.now (length store.old)) }
    ensures store { store.new ≡ store_after (line_answer session.old line.now (length store.old)).out store.old }
    ensures session { session.new ≡ line_bytes session.old line.now (length store.old) }
{
    entries::pagyolint_line(session, line, store)
}

#[unsafe(no_mangle)]
pub extern "C" fn pagyolint_alias(session: &mut [u8], word: &[u8], command: u64) -> u64
    ensures answer { result ≡ alias_no session.old word.now command }
    ensures session { session.new ≡ alias_bytes session.old word.now command }
{
    entries::pagyolint_alias(session, word, command)
}

#[unsafe(no_mangle)]
pub extern "C" fn pagyolint_remembered(session: &[u8], store: &mut [u8]) -> CountReply
    ensures refusal { result.refusal ≡ read_back_no session.now (length store.old) }
    ensures count { result.count ≡ read_back_count session.now (length store.old) }
    ensures store { store.new ≡ read_back_store session.now store.old }
{
    entries::pagyolint_remembered(session, store)
}

#[unsafe(no_mangle)]
pub extern "C" fn pagyolint_tokens(session: &[u8], line: &[u8], store: &mut [u8]) -> CountReply
    ensures refusal { result.refusal ≡ tokens_no session.now line.now (length store.old) }
    ensures count { result.count ≡ tokens_count session.now line.now (length store.old) }
    ensures store { store.new ≡ tokens_store session.now line.now store.old }
{
    CountReply::from(tokens_in(session, line, store))
}

#[unsafe(no_mangle)]
pub extern "C" fn pagyolint_refusal_text(refusal: u64, store: &mut [u8]) -> CountReply
    ensures refusal { result.refusal ≡ copy_no (sentence refusal) (length store.old) }
    ensures count { result.count ≡ copy_count (sentence refusal) (length store.old) }
    ensures store { store.new ≡ copy_store (sentence refusal) store.old }
{
    CountReply::from(refusal_text(refusal, store))
}

#[unsafe(no_mangle)]
pub extern "C" fn pagyolint_command_name(command: u64, store: &mut [u8]) -> CountReply
    ensures refusal { result.refusal ≡ name_no command (length store.old) }
    ensures count { result.count ≡ name_count command (length store.old) }
    ensures store { store.new ≡ name_store command store.old }
{
    CountReply::from(command_name(command, store))
}

#[unsafe(no_mangle)]
pub extern "C" fn pagyolint_version() -> u64
    ensures { result ≡ version_number }
{
    VERSION
}
