// A text copied to the front of a store.
ghost use Rattle.std.specs.Prelude.{◌≡◌, length};
ghost use Rattle.limits.specs.Refusals.{number_of, count_of};
ghost use Rattle.sentences.specs.Sentences.{sentence};
ghost use Rattle.pagyolint.specs.Texts.{copy_no, copy_count, copy_store, name_no, name_count, name_store};

use limits::LAST_COMMAND;
use limits::refusal::Refusal;
use sentences::sentences;
use spellings::{names, word_of};
use store::put_bytes;

// A text, and how many bytes it has.
pub fn copy(text: &[u8], store: &mut [u8]) -> Result<usize, Refusal>
    ensures refusal { number_of result ≡ copy_no text.now (length store.old) }
    ensures count { count_of result ≡ copy_count text.now (length store.old) }
    ensures store { store.new ≡ copy_store text.now store.old }
{
    if store.len() < text.len() {
        return Err(Refusal::StoreTooShort);
    }
    Ok(put_bytes(store, 0, text))
}

// The sentence of a refusal.
pub fn refusal_text(n: u64, store: &mut [u8]) -> Result<usize, Refusal>
    ensures refusal { number_of result ≡ copy_no (sentence n) (length store.old) }
    ensures count { count_of result ≡ copy_count (sentence n) (length store.old) }
    ensures store { store.new ≡ copy_store (sentence n) store.old }
{
    let rows = sentences();
    copy(word_of(&rows, n), store)
}

// The name of a command.
pub fn command_name(c: u64, store: &mut [u8]) -> Result<usize, Refusal>
    ensures refusal { number_of result ≡ name_no c (length store.old) }
    ensures count { count_of result ≡ name_count c (length store.old) }
    ensures store { store.new ≡ name_store c store.old }
{
    if (LAST_COMMAND as u64) < c {
        return Err(Refusal::BadCommand);
    }
    let rows = names();
    copy(word_of(&rows, c), store)
}
