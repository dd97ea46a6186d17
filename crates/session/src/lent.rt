// The calls on a session that rests in lent bytes. Each looks first at whether some session is written as these bytes: refusal 99.
ghost use Rattle.std.specs.Prelude.{◌≡◌, true, ◌≤◌, length};
ghost use Rattle.limits.specs.Limits.{line_limit, alias_limit};
ghost use Rattle.limits.specs.Refusals.{refusal_no, number_of, count_of};
ghost use Rattle.reading.specs.Alone.{line_room};
ghost use Rattle.context.specs.Context.{fresh as fresh_context};
ghost use Rattle.placing.specs.Change.{is_full};
ghost use Rattle.commands.specs.Run.{line_from};
ghost use Rattle.commands.specs.Line.{turned as turned_of, store_after};
ghost use Rattle.run.specs.Reply.{reply};
ghost use Rattle.layout.specs.Layout.{session_size, session_of, table_of, remembering, sound as sound_of};
ghost use Rattle.session.specs.Lent.{fresh_no, fresh_bytes, line_on, bytes_on, line_answer, line_bytes, alias_no, alias_bytes, read_back_no, read_back_count, read_back_store};

use layout::bytes::{clear, remember, remembered, sound};
use layout::lookup::words_of;
use layout::places::{ADDED, SESSION};
use limits::refusal::Refusal;
use limits::{ALIASES, LAST_COMMAND};
use placing::insert::put;
use reading::alone::check_line;
pub use run::reply::CountReply;
use run::reply::LineReply;
use run::run::run;
use scan::part::byte_at;
use store::put_bytes;
use tables::find::find;
use tables::name::is_name;

// Writes a fresh session; only the length of the bytes is checked.
pub fn fresh_in(b: &mut [u8]) -> Result<(), Refusal>
    ensures answer { number_of result ≡ fresh_no b.old }
    ensures written { b.new ≡ fresh_bytes b.old }
{
    if b.len() != SESSION {
        return Err(Refusal::NotASession);
    }
    clear(b);
    Ok(())
}

// Runs a line that passed the checks, and remembers it.
fn run_in(b: &mut [u8], line: &[u8], store: &mut [u8]) -> LineReply
    requires b_len { length b.old ≡ session_size }
    requires line_len_bound { length line.now ≤ line_limit }
    requires line_in_bounds { line_room line.now ≤ length store.old }
    ensures answer { result ≡ reply (line_from (table_of (session_of b.old)) fresh_context line.now) }
    ensures store { store.new ≡ store_after (line_from (table_of (session_of b.old)) fresh_context line.now).out store.old }
    ensures session { b.new ≡ remembering line.now b.old }
{
    let reply = run(line, words_of(b), store);
    remember(b, line);
    reply
}

// What a line answers that is refused before any reading.
fn turned(x: Refusal) -> LineReply
    ensures { result ≡ reply (turned_of (refusal_no x)) }
{
    LineReply {
        refusal: u64::from(x),
        readings: 0,
        count: 0,
    }
}

// Runs a line on bytes that are a session: the checks 1, 12 and 2, and then its run.
pub fn line_on(b: &mut [u8], line: &[u8], store: &mut [u8]) -> LineReply
    requires { sound_of b.old ≡ true }
    ensures answer { result ≡ reply (line_on b.old line.now (length store.old)) }
    ensures store { store.new ≡ store_after (line_on b.old line.now (length store.old)).out store.old }
    ensures session { b.new ≡ bytes_on b.old line.now (length store.old) }
{
    match check_line(line, store.len()) {
        Ok(()) => run_in(b, line, store),
        Err(x) => turned(x),
    }
}

// Runs a line: input_cmd of commands.rs.
pub fn line_in(b: &mut [u8], line: &[u8], store: &mut [u8]) -> LineReply
    ensures answer { result ≡ reply (line_answer b.old line.now (length store.old)) }
    ensures store { store.new ≡ store_after (line_answer b.old line.now (length store.old)).out store.old }
    ensures session { b.new ≡ line_bytes b.old line.now (length store.old) }
{
    if !sound(b) {
        return turned(Refusal::NotASession);
    }
    line_on(b, line, store)
}

// Whether a session has no place for a word: it is a new one, and 32 are there.
fn full(b: &[u8], w: &[u8]) -> bool
    requires { sound_of b.now ≡ true }
    ensures { result ≡ is_full alias_limit (session_of b.now).rows w.now }
{
    match find(b, ADDED, ALIASES, w) {
        Some(_) => false,
        None => ALIASES <= byte_at(b, ADDED) as usize,
    }
}

// Adds an alias, or replaces it.
pub fn alias_in(b: &mut [u8], w: &[u8], command: u64) -> Result<(), Refusal>
    ensures answer { number_of result ≡ alias_no b.old w.now command }
    ensures session { b.new ≡ alias_bytes b.old w.now command }
{
    if !sound(b) {
        return Err(Refusal::NotASession);
    }
    if !is_name(w) {
        return Err(Refusal::BadAlias);
    }
    if (LAST_COMMAND as u64) < command {
        return Err(Refusal::BadCommand);
    }
    if full(b, w) {
        return Err(Refusal::AliasesFull);
    }
    put(b, ADDED, ALIASES, w, command as u8);
    Ok(())
}

// Copies the remembered line to the front of the store, and answers its byte count.
pub fn remembered_in(b: &[u8], store: &mut [u8]) -> Result<usize, Refusal>
    ensures refusal { number_of result ≡ read_back_no b.now (length store.old) }
    ensures count { count_of result ≡ read_back_count b.now (length store.old) }
    ensures store { store.new ≡ read_back_store b.now store.old }
{
    if !sound(b) {
        return Err(Refusal::NotASession);
    }
    let line = remembered(b);
    if store.len() < line.len() {
        return Err(Refusal::StoreTooShort);
    }
    Ok(put_bytes(store, 0, line))
}
