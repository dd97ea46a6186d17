// The tokens of a text, and those of the texts of a line, written to a lent store that has room for them.
ghost use Rattle.std.specs.Prelude.{◌≡◌, ◌+◌, ◌≤◌, suc, length};
ghost use Rattle.limits.specs.Limits.{line_limit};
ghost use Rattle.store.specs.Splice.{Put, Room};
ghost use Rattle.scanner.specs.Tokens.{lead_of, tokens_at};
ghost use Rattle.words.specs.Words.{lookup_in};
ghost use Rattle.commands.specs.Run.{role_named};
ghost use Rattle.layout.specs.Layout.{session_of, table_of};
ghost use Rattle.tokens.specs.Through.{is_prefix, is_prefixed, kind_number, told, told_all, token_bytes, told_bytes, before, through, texts_end, line_tokens};

use commands::next::Role;
use layout::bytes::put_two;
use layout::lookup::find_added;
use scan::classes::Text;
use scan::part::part;
use scan::run::run_end;
use scanner::token::{Lead, Token, TokenKind, lead_of, line_token};
use spellings::{command_of, spellings};

// The number of a word that names no prefix, and of one that does.
pub const WORD: u8 = 3;

pub const PREFIX: u8 = 10;

// The number of a kind, where that of a word is `w`.
fn kind_number(w: u8, kind: TokenKind) -> u8
    ensures { result ≡ kind_number w kind }
{
    match kind {
        TokenKind::Word => w,
        _ => kind as u8,
    }
}

// A token of a text that stands at `o` in its line.
fn put_token(store: &mut [u8], at: usize, t: Token, o: usize, w: u8) -> usize
    requires o_bound { t.start + o ≤ line_limit }
    requires o_bound_2 { t.stop + o ≤ line_limit }
    requires room { Room store.old at (token_bytes (told w o t)) }
    ensures { Put store.old store.new at result (token_bytes (told w o t)) }
{
    let kind = t.kind;
    let start = o + t.start;
    let stop = o + t.stop;
    store[at] = kind_number(w, kind);
    let i = put_two(store, at + 1, start);
    put_two(store, i, stop)
}

// The tokens of a text with the lead `lead`, from `from` on, that start before `to`; the text stands at `o` in its line.
fn put_tokens(
    store: &mut [u8],
    at: usize,
    s: &[u8],
    lead: Lead,
    from: usize,
    to: usize,
    o: usize,
    w: u8,
) -> usize
    requires lead_value { lead ≡ lead_of s.now }
    requires to_in_bounds { to ≤ length s.now }
    requires o_len_bound { length s.now + o ≤ line_limit }
    requires room { Room store.old at (told_bytes (told_all w o (before to (tokens_at s.now from)))) }
    ensures { Put store.old store.new at result (told_bytes (told_all w o (before to (tokens_at s.now from)))) }
{
    let mut i = from;
    let mut j = at;
    // Each token says where the next one starts, so there is no count that a `for` could go through.
    while i < to {
        let t = line_token(s, lead, i);
        j = put_token(store, j, t, o, w);
        i = t.stop;
    }
    j
}

fn is_prefix(r: Role) -> bool
    ensures { result ≡ is_prefix r }
{
    !matches!(r, Role::Action)
}

// What a word leads to, as `find_word` of a session says it. That one stands where a line is run, and there alone: called from here too,
// it would no longer be put there. So a shipped word is looked for among the spellings, one after the other.
fn command_of_word(words: &[u8], w: &[u8]) -> Option<u64>
    ensures { result ≡ lookup_in (table_of (session_of words.now)) w.now }
{
    match find_added(words, w) {
        Some(n) => Some(n),
        None => {
            let rows = spellings();
            command_of(&rows, w)
        }
    }
}

// Whether a word names a prefix; `words` is what words are looked up in.
fn names_prefix(words: &[u8], w: &[u8]) -> bool
    ensures { result ≡ is_prefix (role_named (table_of (session_of words.now)) w.now) }
{
    if w.len() == 0 {
        return false;
    }
    match command_of_word(words, w) {
        Some(n) => is_prefix(Role::from(n)),
        None => false,
    }
}

// Whether the word of a text with the lead `lead` names a prefix.
fn is_prefixed(words: &[u8], s: &[u8], lead: Lead) -> bool
    requires { lead ≡ lead_of s.now }
    ensures { result ≡ is_prefixed (table_of (session_of words.now)) s.now }
{
    let a = lead.range;
    let e = lead.word;
    names_prefix(words, part(s, a, e))
}

// The tokens of the texts of a line, which end at `e`.
fn put_texts(store: &mut [u8], line: &[u8], e: usize, words: &[u8]) -> usize
    requires line_len_bound { length line.now ≤ line_limit }
    requires e_in_bounds { e ≤ length line.now }
    requires room { Room store.old 0 (told_bytes (through (table_of (session_of words.now)) line.now e (suc (length line.now)) 0)) }
    ensures { Put store.old store.new 0 result (told_bytes (through (table_of (session_of words.now)) line.now e (suc (length line.now)) 0)) }
{
    let mut from: usize = 0;
    let mut at: usize = 0;
    let mut lead = lead_of(part(line, from, e));
    let mut again = is_prefixed(words, part(line, from, e), lead);
    // Each text says whether another one follows.
    while again {
        let a = lead.argument;
        at = put_tokens(store, at, part(line, from, e), lead, 0, a, from, PREFIX);
        from = from + a;
        lead = lead_of(part(line, from, e));
        again = is_prefixed(words, part(line, from, e), lead);
    }
    put_tokens(
        store,
        at,
        part(line, from, e),
        lead,
        0,
        e - from,
        from,
        WORD,
    )
}

// Where the texts of a line with the lead `lead` end.
fn texts_end(words: &[u8], line: &[u8], lead: Lead) -> usize
    requires { lead ≡ lead_of line.now }
    ensures { result ≡ texts_end (table_of (session_of words.now)) line.now }
{
    if is_prefixed(words, line, lead) {
        let a = lead.argument;
        return run_end::<Text>(line, a);
    }
    line.len()
}

// The tokens of a line.
pub fn put_line(store: &mut [u8], line: &[u8], words: &[u8]) -> usize
    requires line_len_bound { length line.now ≤ line_limit }
    requires room { Room store.old 0 (told_bytes (line_tokens (table_of (session_of words.now)) line.now)) }
    ensures { Put store.old store.new 0 result (told_bytes (line_tokens (table_of (session_of words.now)) line.now)) }
{
    let lead = lead_of(line);
    let e = texts_end(words, line, lead);
    let at = put_texts(store, line, e, words);
    put_tokens(store, at, line, lead, e, line.len(), 0, WORD)
}
